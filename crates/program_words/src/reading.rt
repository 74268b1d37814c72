//! Which job the words ask for.
ghost use Rattle.std.specs.Prelude.{◌≡◌, map, codes};
ghost use Rattle.std.specs.String.{string_bytes};
ghost use Rattle.program_words.specs.Words.{Reads};
ghost use Rattle.program_words.specs.Reading.{HasValues, number_in, flag_in, job_or_usage};

use crate::command::command;
use crate::job::{Job, WordsFault};
use clap::ArgMatches;
use std::alloc::Global;

/// How many rounds a made script has where no size is given.
const USUAL_ROUNDS: u32 = 1_000;

/// Reads the words after the program's name: `[--ledger] [--make SEED] [--size N]`, as clap reads them, in any order.
///
/// A size without a seed is refused; with a seed the ledger changes nothing. `NoMemory` is told where clap finds no memory, whatever the words say.
pub fn read_words(alloc: Global, words: &[String]) -> Result<Job, WordsFault>
    ensures { Reads (map string_bytes words.now) result }
{
    let matches = command(alloc)?.try_get_matches_from(words)?;
    job_of(&matches)
}

/// The job of the arguments that were met.
fn job_of(matches: &ArgMatches) -> Result<Job, WordsFault>
    requires { HasValues matches.now }
    ensures { result ≡ job_or_usage (number_in matches.now (codes "make")) (number_in matches.now (codes "size"))
        (flag_in matches.now (codes "ledger")) }
{
    let ledger = has_ledger(matches);
    match (seed(matches), size(matches)) {
        (None, None) => Ok(Job::Script { ledger }),
        (None, Some(_)) => Err(WordsFault::Usage),
        (Some(seed), size) => Ok(Job::Made {
            seed,
            size: size.unwrap_or(USUAL_ROUNDS),
        }),
    }
}

fn has_ledger(matches: &ArgMatches) -> bool
    requires { HasValues matches.now }
    ensures { result ≡ flag_in matches.now (codes "ledger") }
{
    matches.get_flag("ledger")
}

fn seed(matches: &ArgMatches) -> Option<u64>
    requires { HasValues matches.now }
    ensures { result ≡ number_in matches.now (codes "make") }
{
    matches.get_one("make")
}

fn size(matches: &ArgMatches) -> Option<u32>
    requires { HasValues matches.now }
    ensures { result ≡ number_in matches.now (codes "size") }
{
    matches.get_one("size")
}
