//! Seeded items, questions and scripts, what plain lists answer, and what is told of it: what all trials share.
#![tactic(auto)]

mod costs;
mod failure;
mod plain_map;
mod questions;
mod seeded;
mod spread;

pub use costs::Costs;
pub use failure::{Failure, Outcome};
pub use plain_map::{Exchange, PlainMap};
pub use questions::{drawn_question, numbers};
pub use seeded::Seeded;
pub use spread::Spread;
pub use workload_gen::Generator;
