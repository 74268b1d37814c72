//! Points over a strip, from the highest down: a priority search tree (McCreight 1985).
//!
//! A heap by height and a search tree by x in one shape. The lowest blocks are leaves of sixteen neighbouring places of the
//! first order, and above them stands a balanced tree: the place of each of its blocks holds one live point of the block, the highest that
//! no place above holds, of several as high the one with the least identifier. So each live point stands once on the path
//! from its leaf to the root: in a place, or in its leaf. A point that dies leaves a hole, which is filled by the better point of the two halves
//! below it, and so on down.
//!
//! A part keeps its points by the flat structure, and this tree, its own rows, beside them.
//!
//! The place of a block stands at the leaf in its middle, so a block's subtree is an interval of both rows. A turn and a mark share one
//! pull.
#![tactic(auto)]

mod answers;
mod entry;
mod growing;
mod heap;
mod leaf;
mod listing;
mod offering;
mod pulling;
mod questions;
mod rows;
mod strip;

pub use rows::{TopBuilder, TopPart, TopRows};
