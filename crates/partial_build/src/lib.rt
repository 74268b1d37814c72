//! One construction, spread over many updates: two parts become one while both are still in use.
//!
//! A part of `2^i` items can't be made in one update. So its construction is spread over `2^i` ticks (Overmars and van Leeuwen
//! 1981): in the first half of them the two sources are read and the part is built, a quota of turns a tick. An item of a source
//! that dies after it was read is noted; once the part is built, each tick marks two of those that wait in the new part, so that
//! none is left at the end.
//!
//! `Builds` says how a construction and its sources, as they are now, belong together: [`Room::begin`] gives it, and `tick` and `note`
//! keep it. `IsOnTime` holds after each tick, and lets one item be noted before the next. So after the last tick no turn is left and
//! nothing waits, and the new part has the live items of both sources. A [`Room`] is all memory of a construction, taken beforehand.
//!
//! The memory is a type of its own, so no call has 'begun' as its condition. `note` isn't handed the sources, so its clauses speak of
//! all that the construction may have: the caller has just changed one of them.
#![tactic(auto)]

mod build;
mod new_part;
mod room;

pub use build::Build;
pub use room::{Room, Tables};
