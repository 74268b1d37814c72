//! A walk along a chain, by which a stack gets its items: an index that is made while items come and go.
//!
//! ```text
//! chain      a   b   c   d   e   f   g   h
//!            '-----------'   ^
//!            in the stack    cursor            four are still to come
//! ```
//!
//! The stack has the items before the cursor (`IsWalkOf`). Each that is handed over is an insert, so one tick; an item of the stack that leaves
//! the chain is deleted from it, and where the item at the cursor leaves, the cursor goes on to the next one. How far the walk is ahead of
//! those updates is up to the caller, as is whose memory it lends.
#![tactic(auto)]

mod walk;

pub use walk::{Walk, next_renewed};
