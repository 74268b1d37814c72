//! An index that is made late: of a chain that has items already, and goes on changing meanwhile.
//!
//! A walk hands the items over, from the first one on, four before each update. Until all are handed over the index doesn't answer; it tells
//! how many items wait, w. With n items in the chain and D' for the dead weight of the stack (its inserts less its live items), between any two
//! calls
//!
//! ```text
//! 3D' + w <= n
//! ```
//!
//! (`IsLateOf` of `specs/Late.antt`.) What becomes of w, and of how far the two sides lie apart, in an update that was prepared:
//!
//! | | w | `n - 3D' - w` |
//! |---|---|---|
//! | before each update | - 4, or 0 where it is less | + 4 |
//! | an item is added | + 1 | 0 |
//! | one that was handed over is dropped | 0 | - 4 |
//! | another one is dropped | - 1 | 0 |
//! | one that was handed over is moved | + 1 | - 4 |
//! | another one is moved | 0 | 0 |
//!
//! So u updates leave `n - 3u` items waiting at most, n being those at the start, and the stack weighs at most `4n / 3`. Where an update is refused
//! w stays, though the walk may have gone on: the next preparation hands over what is left of the four. Where w is 0 before an update, all are
//! handed over: the stack goes on as an index of its own, with `3D' <= n`.
#![tactic(auto)]

mod late;

pub use late::Late;
