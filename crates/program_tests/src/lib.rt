//! Tests of the program over memory, against answers that were written by hand.
//!
//! A crate with tests of its own is proved twice, so they stand beside the program.
#![tactic(auto)]

#[cfg(test)]
mod costs;
#[cfg(test)]
mod faults;
#[cfg(test)]
mod late;
#[cfg(test)]
mod limits;
#[cfg(test)]
mod made;
#[cfg(test)]
mod over_memory;
#[cfg(test)]
mod patterns;
#[cfg(test)]
mod scripts;
#[cfg(test)]
mod town;
#[cfg(test)]
mod words;
