//! The replies to a script's lines, and the bytes that say them.
//!
//! [`write_reply`] writes a line to a sink in pieces of at most 64 bytes, so that a short line is one write. Of n bytes at most
//! n / 64, rounded up, are calls that took all that they were handed, and where the sink failed at most n / 64, rounded down. No
//! clause says that no piece is longer.
#![tactic(auto)]

mod appending;
mod piece;
mod refusal;
mod reply;
mod texts;
mod writing;

pub use appending::append;
pub use refusal::Refusal;
pub use reply::Reply;
pub use writing::write_reply;
