//! The command line.
ghost use Rattle.std.specs.Prelude.{◌≡◌, IfOk};
ghost use Rattle.clap.specs.Simple.{app_of};
ghost use Rattle.program_words.specs.Words.{livemap_app};

use clap::{Arg, ArgAction, Command, value_parser};
use std::alloc::{AllocError, Global};

/// The most rounds of a made script.
const MOST_ROUNDS: i64 = 65_536;

/// The command line: `livemap [--ledger] [--make SEED] [--size N]`, of which the words begin after the name.
pub(crate) fn command<'a>(alloc: Global) -> Result<Command<'a>, AllocError>
    ensures { IfOk result (λ command. app_of command ≡ livemap_app) }
{
    let ledger = Arg::new(alloc, "ledger")
        .long("ledger")
        .action(ArgAction::SetTrue)
        .value_parser(value_parser!(bool));
    let make = Arg::new(alloc, "make")
        .long("make")
        .value_parser(value_parser!(u64));
    let size = Arg::new(alloc, "size")
        .long("size")
        .value_parser(value_parser!(u32).range(1..=MOST_ROUNDS));
    Command::new(alloc, "livemap")
        .no_binary_name(true)
        .arg(ledger)?
        .arg(make)?
        .arg(size)
}
