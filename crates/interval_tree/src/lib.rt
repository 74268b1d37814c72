//! Segments over a place: a tournament of their upper ends, and live counts in both orders.
//!
//! The segments that begin at x or before it are the first of the order by lower ends. Of these, the segments over x are the live
//! ones that end at x or behind it: a tournament over the upper ends finds the next of them from any place on. That is the question
//! for a quadrant that a priority search tree answers (McCreight 1985), in an array. How many there are is told by two counts: those
//! that have begun, less those that ended before x, which are the first of the order by upper ends. Tournament and counts forget
//! segments without changing their shape (weak deletion, Overmars 1983).
//!
//! A part keeps its segments by the flat structure, and these three trees, its own rows, beside them.
#![tactic(auto)]

mod answers;
mod growing;
mod questions;
mod rows;
mod search;
mod trees;

pub use rows::{StabBuilder, StabPart, StabRows};
