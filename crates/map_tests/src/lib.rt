//! A test of the memory of a layer.
#![tactic(auto)]

#[cfg(test)]
mod memory;
