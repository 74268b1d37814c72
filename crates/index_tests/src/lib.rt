//! Tests of what an index is made of: live places, parts, merges, constructions, stacks, chains and directories.
//!
//! They call these crates as any user would, all over one kind of part. A crate with tests of its own is proved twice, so they stand here together.
#![tactic(auto)]

#[cfg(test)]
mod chains;
#[cfg(test)]
mod constructions;
#[cfg(test)]
mod counters;
#[cfg(test)]
mod directories;
#[cfg(test)]
mod item;
#[cfg(test)]
mod live_places;
#[cfg(test)]
mod merges;
#[cfg(test)]
mod pairs;
#[cfg(test)]
mod rows;
#[cfg(test)]
mod stacks;
#[cfg(test)]
mod sums;
