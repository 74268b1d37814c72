//! Two parts merged into a builder, an item a turn.
//!
//! A new part is made of two older ones while these are still in use (Overmars and van Leeuwen 1981), so items of theirs may
//! die in between. Each part keeps its items in two orders. The first order decides which of them are taken, and the second order takes the
//! same. One statement says what the builder holds meanwhile (`Merges` of `specs/Merging.antt`), and speaks of no flag: so it stays where
//! items die (proofs `MergingLemmas`).
//!
//! A place in the tables has four bytes, of which the greatest number means none.
#![tactic(auto)]

mod merge;
mod new_place;
mod steps;

pub use merge::Merge;
