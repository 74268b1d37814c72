//! Points in a rectangle: a range tree (Bentley 1979) whose rows are bits with ranks, a wavelet tree (Chazelle 1988; Grossi, Gupta
//! and Vitter 2003).
//!
//! Over the points in the first order, by x, stands a balanced binary tree. A level of it cuts the points into blocks of `2^h`
//! places, h being its height, and is one row: block after block, and within a block the points by y. A row keeps one bit a point, which half
//! of its block the point goes into, and their ranks; so what is found in the first row by two binary searches is followed down to the blocks
//! that a rectangle takes whole, two of each row at most. Places at both ends that no block of `2^9` places has are scanned, by
//! y that stand apart from the points, sixteen an entry, with a mask of the live ones.
//!
//! A part keeps its points by the flat structure, and these rows beside them, in a box.
//!
//! A row keeps one bit a place and no entries, so nothing is searched below the first row. What died is counted, and not what lives:
//! the trees over a block's words are zero when a part is built, so no turn builds them. The rows lie in a box, since parts and
//! builders are moved often; the box has a struct of its own, so that no proof about the tree speaks of it.
//!
//! A rectangle over at most 1,024 places of the first order is scanned for a count, 2,048 for a sum, 8,192 for a list: a leaf costs
//! less than one way down the rows. Tried and slower: searches with conditional moves, 1.6 to 2 times as long as with a branch.
#![tactic(auto)]

mod answers;
mod boxed;
mod descending;
mod entry;
mod growing;
mod leaves;
mod listing;
mod marking;
mod measure;
mod questions;
mod rows;
mod scanning;
mod search;

pub use boxed::{RangeBuilder, RangePart, RangeRows};
