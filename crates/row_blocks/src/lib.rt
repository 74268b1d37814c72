//! Rows in blocks, as range trees, k-d trees and interval trees keep them.
//!
//! A row is cut into blocks of `2^h` places, h being their height, from the leaves up; the two halves of a block are blocks of
//! the next lower height. Here is the arithmetic of blocks by shifts; `specs/` and `proofs/` have what a row in blocks is, and how
//! its blocks are parted stably into their halves. Rows that are moved often lie in a box ([`Boxed`]).
#![tactic(auto)]

mod boxed;
mod height;

pub use boxed::Boxed;
pub use height::{block_len, block_start, height_above, height_at, height_of};
