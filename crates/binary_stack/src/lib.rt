//! The logarithmic method in its amortised form: a binary counter of parts.
//!
//! Bentley and Saxe (1980) keep static parts whose sizes are powers of two, one for each 1 of the number of inserts in binary: that of level i has
//! `2^i` items, less those that had died when it was made. An insert adds one to that number: a part of the new item is carried up from the lowest
//! level, joined with the part of each level that has one, and stays at the first that has none. A question is put to all parts. A deleted item
//! stays, dead, until the part that has it is joined.
//!
//! ```text
//! level     3    2    1    0
//!           8    .    2    1    after 11 inserts, 1011 in binary
//!           8    4    .    .    after the twelfth: 1 and 1 are joined to 2, 2 and 2 to 4
//! ```
//!
//! [`BinaryStack::prepare`] takes the memory of an insert, which can't fail then; a delete takes none. For each g with u inserts below
//! `2^(g+1)`, S and A being the slope and the base of the structure:
//!
//! | | at most |
//! |---|---|
//! | turns of all u inserts together, of sixteen touches each | `u * (g + 1) * (S * g + 2 * (A + 4)) / 4` |
//! | marks of a delete, one for each part that is asked for the item, of `mark_touches g` touches each | `g + 1` |
//! | parts, of at most `2^g` items each | `g + 1` |
//!
//! The first is a closed form. Exactly, u inserts build `u / 2^i` parts at level i, and half of `2^i * (S * i + A + 4)` turns at most are for each
//! (`charge`). [`BinaryStack::spent`] tells how many there were.
//!
//! A delete takes no turn, an insert no mark. One insert may take as long as all parts together: `log_method` spreads the same work over the
//! updates, and has up to three parts a level for that.
//!
//! A room is for two parts, and is made by their sizes: dead items have shrunk them, so that it may be far below its level. That a part is
//! carried only while all its items live makes the sizes known beforehand, since a delete in between only lowers them.
//!
//! Memory comes from the allocator and goes back to it, and not to a store (`part_store`), which is for updates that may take and free none: an
//! insert that may build all anew gains nothing by that. Each block that it frees is too small for what it still builds. And a store would keep as
//! much again as the parts have, and after deletes builders that are too large, which somebody would have to give up.
#![tactic(auto)]

mod asking;
mod carrying;
mod marking;
mod preparing;
mod room;
mod stack;

pub use stack::BinaryStack;
