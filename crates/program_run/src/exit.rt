// What the program ends with.
ghost use Rattle.std.specs.Prelude.{◌≡◌, ◌≢◌, IfOk, IfErr, OnErr, drop, map};
ghost use Rattle.std.specs.String.{string_bytes};
ghost use Rattle.std.specs.Process.{exit_status};
ghost use Rattle.std.specs.IoError.{error_kind};
ghost use Rattle.query_laws.specs.StepLedger.{Counts, nothing_counted};
ghost use Rattle.map_session.specs.Session.{SessionState};
ghost use Rattle.map_session.specs.Answering.{moment};
ghost use Rattle.program_run.specs.Run.{code_of, HasEnded};

use crate::{Ended, Status, run};
use map_io::{Sink, Source};
use query_laws::step_ledger::{SHARES, Steps};
use std::alloc::Global;
use std::io::ErrorKind;
use std::process::ExitCode;
use std::rt::Env;
use std::sync::ledger::{Blank, Ledger};
use std::{env, io};

/// The exit status where no memory is found for the arguments.
const NO_MEMORY: u8 = 6;

/// The exit status where the arguments are refused for another cause, as one that isn't UTF-8.
const NO_ARGUMENTS: u8 = 7;

/// What the program ends with: a run by the words after its name, or a cause why the arguments can't be had, where nothing is read or
/// written.
pub fn end<S: Source, K: Sink, L: Ledger>(
    alloc: Global,
    arguments: io::Result<Vec<String>>,
    source: &mut S,
    sink: &mut K,
    blank: Blank,
) -> ExitCode
    requires name { blank.name ≡ L.name }
    requires parts { blank.parts ≡ L.parts }
    requires shares { blank.parts ≡ SHARES }
    ensures run { IfOk arguments (λ all. (status : Status) × (session : SessionState) × (counts : Counts) × (exit_status result ≡ code_of status)
        × HasEnded (map string_bytes (drop 1 all.items)) (S.rest source.old) (S.rest source.new) (S.faults source.old) (S.faults source.new)
        (S.filled source.old) (S.filled source.new) (K.told sink.old) nothing_counted status (moment session (K.told sink.new) counts)) }
    ensures no_memory { IfErr arguments (λ error. error_kind error ≡ ErrorKind.OutOfMemory → exit_status result ≡ 6) }
    ensures no_text { IfErr arguments (λ error. error_kind error ≢ ErrorKind.OutOfMemory → exit_status result ≡ 7) }
    ensures nothing { OnErr arguments ((S.rest source.new ≡ S.rest source.old) × (S.faults source.new ≡ S.faults source.old) × (K.told sink.new ≡ K.told sink.old)) }
{
    match arguments {
        Ok(arguments) => {
            let words = words_of(&arguments);
            let ended = run_once::<S, K, L>(alloc, words, source, sink, blank);
            exit_code(ended.status)
        }
        Err(error) => exit_code_without_arguments(&error),
    }
}

/// A run whose steps are counted from nothing.
fn run_once<S: Source, K: Sink, L: Ledger>(
    alloc: Global,
    words: &[String],
    source: &mut S,
    sink: &mut K,
    blank: Blank,
) -> Ended
    requires name { blank.name ≡ L.name }
    requires parts { blank.parts ≡ L.parts }
    requires shares { blank.parts ≡ SHARES }
    ensures { (counts : Counts) × HasEnded (map string_bytes words.now) (S.rest source.old) (S.rest source.new) (S.faults source.old) (S.faults source.new)
        (S.filled source.old) (S.filled source.new) (K.told sink.old) nothing_counted result.status (moment result.session (K.told sink.new) counts) }
{
    let mut steps = Steps::<L>::new(blank);
    run(alloc, words, source, sink, &mut steps)
}

/// The list of arguments, of which the first is the program's name. It has no clause, since none can say what the system gives.
pub fn arguments<R: Env + AllocGlobal>(rt: &R) -> io::Result<Vec<String>> {
    let arguments = env::args(rt)?.collect(rt.alloc())?;
    Ok(arguments)
}

/// The words after the program's name.
fn words_of(arguments: &[String]) -> &[String]
    ensures { result.now ≡ drop 1 arguments.now }
{
    match arguments {
        [] => arguments,
        [_, words @ ..] => words,
    }
}

/// What the program ends with.
fn exit_code(status: Status) -> ExitCode
    ensures { exit_status result ≡ code_of status }
{
    ExitCode::from(status.code())
}

/// What the program ends with where the arguments can't be had.
fn exit_code_without_arguments(error: &io::Error) -> ExitCode
    ensures no_memory { error_kind error.now ≡ ErrorKind.OutOfMemory → exit_status result ≡ 6 }
    ensures refused { error_kind error.now ≢ ErrorKind.OutOfMemory → exit_status result ≡ 7 }
{
    match error.kind() {
        ErrorKind::OutOfMemory => ExitCode::from(NO_MEMORY),
        _ => ExitCode::from(NO_ARGUMENTS),
    }
}
