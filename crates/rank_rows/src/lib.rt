//! Rows of bits with ranks: what a wavelet tree keeps of its levels (Chazelle 1988; Grossi, Gupta and Vitter 2003).
//!
//! A row is cut into blocks of `2^h` places. Each place goes into one half of its block, and the next row is this one with each block
//! parted stably into its halves. So one bit a place, and how many bits are set before it in its block, say where it stands in the next
//! row. Places may die (weak deletion, Overmars 1983): a tree over each block counts and weighs what died there (Fenwick 1994).
//!
//! For a row whose blocks have the height h:
//!
//! | call | touches at most |
//! |---|---|
//! | `push`, which gives where the place stands in the next row | 3 |
//! | `rank`, `halves`, `is_live` | 1 |
//! | `next`, which follows a place into the next row | 2 |
//! | `live_before`, `nth_live` | h |
//! | `weight_before` | `h + 64` |
//! | `mark` | `2 * h` |
//!
//! None of these counts a turn or a mark, and `room` alone takes memory. A row has whole words of 64 places, and no block is shorter
//! than a word. No clause says how many bytes this takes.
#![tactic(auto)]

mod cursor;
mod dead;
mod ranks;
mod store;
mod word;

pub use ranks::{Halves, RankRows};
