//! What the indexes of the map stand on: the ledger of steps, items in two orders, and questions whose answers over parts
//! are joined.
//!
//! A searching problem is decomposable when its answer over two sets together is made from its answers over each (Bentley
//! and Saxe 1980). `Question` is such a problem with the laws that this takes, and `step_ledger` counts the work.
//!
//! What follows from the laws stands once, for every question, in the proofs `Values` (values of several lists, in any
//! order, with one item taken out), `Permutations` (lists with the same items) and `Counting` (steps added up). Proofs of
//! other crates import them by name, or call [`derived_laws`].
#![tactic(auto)]

mod item;
mod question;
pub mod step_ledger;
mod total;

pub use item::{Item, Named, Order};
pub use question::{Question, Tally, derived_laws};
pub use step_ledger::NoMemory;
pub use total::Total;
