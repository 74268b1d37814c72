//! The points nearest to a place: a k-d tree (Bentley 1975).
//!
//! The places of a part's points stand in a row, in an order of their own, each once: blocks of that row, cut at a coordinate and then
//! at the other in turn, hold points that lie near one another. Eight of them are a leaf. Above the leaves stand nodes, each with the
//! boxes of its four blocks: each is the least one of its block's live points, so none of these is nearer to a place than the box. A question
//! walks the nearest block first, and leaves a block out whose box is farther than the worst of the points that it keeps.
//!
//! Squares of distances have up to 65 bits where coordinates have 32. A walk compares them in 64: up to 2^63 as they are, and by fourths of what
//! is above that, so a box may be read in vain that is less than four farther than the worst. With 128 bits a walk would take a sixth more
//! instructions, and one that chose its width by the boxes of the root would stand here twice.
//!
//! A part keeps its points by the flat structure, and these rows beside them. That the blocks are split well isn't proved: it
//! shows in touches alone.
//!
//! A pass exchanges places: each step is one exchange in an order and its inverse, so each place stands once, which is all that answers
//! rest on. A node has the boxes of four blocks, so one touch reads four. A mark that finds a box as it was leaves those above it: they had the
//! point in that box already.
#![tactic(auto)]

mod area;
mod block;
mod clearing;
mod distance;
mod growing;
mod height;
mod kept;
mod leaves;
mod node;
mod placing;
mod questions;
mod rows;
mod sorting;
mod spot;
mod walk;

pub use rows::{KdBuilder, KdPart, KdRows};
