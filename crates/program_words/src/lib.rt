//! The words after the program's name: which job they ask for.
//!
//! Which words are accepted, and what stands in them, is clap's own function of this command line, and that a size stands beside a
//! seed alone. [`read_words`] is exact but for memory: the same words may always be answered `NoMemory`, since clap's contract says
//! nowhere that memory is found.
//!
//! The words are read by a crate of its own, without the program's name before them: a function that carries clap's clauses is slow to
//! prove. 1,000 rounds are this program's default and not clap's, which would stand beside a missing seed.
#![tactic(auto)]

ghost use Rattle.std.specs.Prelude.{◌≡◌, true, false, [], ◌∷◌, codes};
ghost use Rattle.program_words.specs.Words.{accepts, AsksFor};

mod command;
mod job;
mod reading;

pub use job::{Job, WordsFault};
pub use reading::read_words;

/// No words ask for the script of standard input, without the ledger.
pub fn no_words_ask_for_a_script()
    ensures { AsksFor [] (Job.Script false) }
{}

/// What some words ask for, and some that are refused: computed, as clap reads them.
pub fn worked_words()
    ensures ledger { AsksFor (codes "--ledger" ∷ []) (Job.Script true) }
    ensures seed { AsksFor (codes "--ledger" ∷ codes "--make" ∷ codes "7" ∷ []) (Job.Made 7 1000) }
    ensures size { AsksFor (codes "--size=65536" ∷ codes "--make" ∷ codes "18446744073709551615" ∷ []) (Job.Made 18446744073709551615 65536) }
    ensures size_alone { accepts (codes "--size" ∷ codes "5" ∷ []) ≡ false }
    ensures no_size { accepts (codes "--make" ∷ codes "7" ∷ codes "--size" ∷ codes "0" ∷ []) ≡ false }
    ensures no_seed { accepts (codes "--make" ∷ codes "18446744073709551616" ∷ []) ≡ false }
    ensures twice { accepts (codes "--ledger" ∷ codes "--ledger" ∷ []) ≡ false }
    ensures stray { accepts (codes "x" ∷ []) ≡ false }
{}
