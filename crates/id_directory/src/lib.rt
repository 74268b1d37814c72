//! Items by identifier, and in order of append.
//!
//! [`Directory`] is a chain of items with a map from identifier to handle beside it. The first add takes the chain's memory at
//! once: a list that doubles copies half of a layer in one add. That an add searches the map once, and that no later one copies the
//! chain, is said by no clause; nor is the work of std's map counted.
#![tactic(auto)]

mod directory;
mod slots;

pub use directory::Directory;
