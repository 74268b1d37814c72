//! A list that is linked by places in a slab.
//!
//! [`Chain`] keeps items in order of append. Any of them is unlinked in the same short time, and its place is used again: a handle
//! that was unlinked may be given out again, and `has` can't tell the two apart. Whoever walks along it keeps a cursor, a handle or
//! `None` past the last entry, and moves it as the clauses of `next`, `append` and `unlink` say: it has no type of its own. Where stamps
//! rise along the chain, an entry is before another exactly where its stamp is smaller (lemma `is_before-by_stamp`).
#![tactic(auto)]

mod chain;
mod handle;
mod node;

pub use chain::Chain;
pub use handle::Handle;
