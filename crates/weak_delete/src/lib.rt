//! What a static structure needs to forget items without changing its shape (weak deletion, Overmars 1983): how many of
//! its places are still live, what they weigh, and where the next live one with a large value stands.
//!
//! [`LiveCounts`] and [`LiveMax`] have places with an amount each, which are put, sealed, built by turns, and then only cleared. For
//! every h with at most `2^h` places:
//!
//! | call | touches at most |
//! |---|---|
//! | a put, a turn | 4, 8 |
//! | `prefix`, `kth_live` | `h + 1` |
//! | `sum_prefix` | `h + 2` |
//! | `next_at_least` | `6 * (h + 2)` |
//! | `clear` | `4 * (h + 2)` |
//!
//! Only puts and turns count a turn, and none counts a mark. No clause says how many bytes this takes.
//!
//! Sixteen places are an entry: their weights are a cache line, and a mask of those that are live counts them by one instruction.
#![tactic(auto)]

mod live_counts;
mod live_max;
mod packed;
mod place;

pub use live_counts::LiveCounts;
pub use live_max::LiveMax;
pub use place::Place;
