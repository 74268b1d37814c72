//! A stack of parts with four slots a level: the logarithmic method in its worst-case form.
//!
//! Bentley and Saxe (1980) keep static parts whose sizes are powers of two, and join two of a size to one of the next. Overmars and
//! van Leeuwen (1981) spread each join over the updates that come meanwhile: a level has up to three complete parts, and the part
//! under construction is made of the two oldest of the level below. A question is put to the complete parts alone.
//!
//! An insert and a delete borrow from a store (`part_store`) and can't fail; [`Stack::prepare`] has it keep what the next two may take,
//! refused or not without a change of the items. For each g with the weight after it below `2^(g+1)`, q(i) being the quota of level i:
//!
//! | | at most |
//! |---|---|
//! | turns of an insert | `q(0) + .. + q(g)` |
//! | marks of an insert, of items that waited | `2 * g` |
//! | turns of a delete | `q(1) + .. + q(g)` |
//! | marks of a delete, with one for each part that is asked for the item | `2 * g + 3 * (g + 1)` |
//! | complete parts, of at most `2^g` items each, together of no more than the weight | `3 * (g + 1)` |
//!
//! No clause tells in which order the parts are asked.
//!
//! Bounds name any g with the weight below `2^(g+1)`: a caller passes its own, and needs neither the least nor that bounds rise. That
//! an item is live is said by the list of live items, and not by a flag.
//!
//! What two ticks may take is forecast: a builder for each item, and above level 0 builder and tables where a part may arrive below
//! (`wanted_at`). A preparation takes no more of a level than is wanted there beyond what is kept (`HasTaken`): so none is taken that can't
//! be wanted soon, and where a store lends to one stack alone, of no level more than five parts are in memory, in whatever use, and the
//! tables of two constructions (`HoldsFew`). A tick takes no more than was forecast for it, and leaves what the next may want (`Ticks`). Who
//! has two stacks on one store stocks it with what both want, by [`Stack::add_levels`] and [`Stack::wanted`].
//!
//! A stack out of use gives back one part at a time, since to give back all takes as long as it has parts.
#![tactic(auto)]

mod preparing;
mod retired;
mod stack;

pub use retired::Retired;
pub use stack::Stack;
