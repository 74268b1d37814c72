//! The lines of a script: what a line says, or the first thing that is wrong with it.
//!
//! [`parse`] reads a line of a version in one walk over its words, along a row of the table of forms. A command that asks holds a
//! question of `map_questions`, so one whose numbers are in order. `livemap` alone has no name of a layer: a name that says nothing
//! stands in its place while it is read.
//!
//! A number is read by a loop of its own, since std's `parse` wants a `str` and takes a plus; past 64 bits a number is past every
//! limit. The first fault of the numbers is kept while the walk goes on, since a later word without digits comes before an earlier
//! number past its limits. Bytes that aren't printable are looked for only where words say a fault: a line that says a command has
//! none.
//!
//! Of a line 258 bytes say what it says ([`fronts_are_enough`]): 256, a carriage return that may end it, and one more. With 257 a
//! longer line could be read as one that ends at a carriage return there.
#![tactic(auto)]

ghost use Rattle.std.specs.Prelude.{◌≡◌, ℕ, List, take};
ghost use Rattle.map_model.specs.Grammar as grammar;
ghost use Rattle.map_model.specs.Version.{Version};
ghost use Rattle.script_lang.specs.Front.{longest_front};

mod command;
mod coordinates;
mod form;
mod indexes;
mod line;
mod line_fault;
mod making;
mod numbers;
mod parsing;
mod reading;
mod words;

pub use command::Command;
pub use line_fault::LineFault;
pub use numbers::{Limits, parse_number};
pub use parsing::{LONGEST_FRONT, parse};
pub use words::split_word;

/// A line says what its first 258 bytes say: so many tell whether it is too long, with or without a carriage return at its end.
pub fn fronts_are_enough()
    ensures { (version : Version) (line : List ℕ) → grammar.parse version (take longest_front line) ≡ grammar.parse version line }
{}
