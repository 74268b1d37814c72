//! What the words ask for, and why they may be refused.
use clap::Error;
use clap::error::ErrorKind;
use std::alloc::AllocError;

/// What the words ask for.
#[derive(Clone, Copy, Debug, PartialEq, Eq)]
pub enum Job {
    /// Answer the script of standard input, with or without the ledger.
    Script { ledger: bool },
    /// Answer the script that is made from a seed, with so many rounds: 1 to 65,536.
    Made { seed: u64, size: u32 },
}

/// Why no job is known.
#[derive(Clone, Copy, Debug, PartialEq, Eq)]
pub enum WordsFault {
    /// The words aren't among those that the program takes.
    Usage,
    /// Memory wasn't given.
    NoMemory,
}

impl From<AllocError> for WordsFault {
    ghost use Rattle.std.specs.Prelude.{◌≡◌};
    ghost use Rattle.program_words.specs.declared.job.WordsFault.TheVariants as faults;

    ghost from_gives = { λ _ fault. fault ≡ faults.NoMemory };

    fn from(_refused: AllocError) -> WordsFault {
        WordsFault::NoMemory
    }
}

impl From<Error> for WordsFault {
    ghost use Rattle.std.specs.Prelude.{◌≡◌};
    ghost use Rattle.clap.specs.Values.{kind_of};
    ghost use Rattle.program_words.specs.Reading.{fault_by};

    ghost from_gives = { λ error fault. fault ≡ fault_by (kind_of error) };

    fn from(error: Error) -> WordsFault {
        match error.kind() {
            ErrorKind::OutOfMemory => WordsFault::NoMemory,
            _ => WordsFault::Usage,
        }
    }
}
