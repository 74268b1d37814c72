// The program, over any source and sink.
ghost use Rattle.std.specs.Prelude.{◌≡◌, ◌≢◌, map};
ghost use Rattle.std.specs.String.{string_bytes};
ghost use Rattle.map_io.specs.Calls.{counted};
ghost use Rattle.map_session.specs.Answering.{moment};
ghost use Rattle.program_run.specs.Run.{code_of, HasEnded, ReadsPieces, RunsBy, WritesUsage};

use crate::making::answer_made;
use crate::reading::answer_script;
use crate::{MOST_ITEMS, MapSession};
use map_io::{Sink, Source, WriteFault, write_all};
use program_words::{Job, WordsFault, read_words};
use query_laws::step_ledger::Steps;
use std::alloc::Global;
use std::sync::ledger::Ledger;

const USAGE: &[u8] = b"usage: livemap [--ledger] [--make SEED] [--size N]\n";

/// How a run ended.
#[derive(Clone, Copy, Debug, PartialEq, Eq)]
pub enum Status {
    /// The input was read to its end, all was written and no line was refused.
    Clean,
    /// The same, but a line was refused.
    Refusals,
    /// The words after the program's name aren't accepted.
    Usage,
    /// The source failed.
    ReadFault,
    /// The sink failed.
    WriteFault,
    /// The script is longer than 67,108,864 bytes.
    TooLong,
    /// No memory was found.
    NoMemory,
}

impl Status {
    /// The exit status of the program.
    pub fn code(&self) -> u8
        ensures { result ≡ code_of self.now }
    {
        match self {
            Status::Clean => 0,
            Status::Refusals => 1,
            Status::Usage => 2,
            Status::ReadFault => 3,
            Status::WriteFault => 4,
            Status::TooLong => 5,
            Status::NoMemory => 6,
        }
    }
}

/// How a run ended, and the session that executed its lines.
#[derive(Drop)]
pub struct Ended {
    pub status: Status,
    pub session: MapSession,
}

/// Does what the words after the program's name ask for: `[--ledger] [--make SEED] [--size N]`.
///
/// Without a seed it answers a script: the lines that end in what a read gave are answered before the next read. With the ledger an
/// accepted update and an answered question tell what they cost. A script is taken up to its end, to the first fault of the source, or to
/// 67,108,864 bytes and one more. After a fault and after too long a script the lines that a line feed ended are answered. It keeps one
/// piece of 4,096 bytes and the front of one line, and takes no memory for the text.
///
/// With a seed it executes the script that is made of it, of N rounds or else 1,000, and writes the summary of its answers. Nothing is read,
/// and the ledger changes nothing.
///
/// Other words are answered by the usage line. `NoMemory` comes only while the words are read. It stops at the first fault of the sink.
///
/// Each line or command takes at most what it may, on the map before it: an update the bounds of its layer, a question the touches of one.
pub fn run<S: Source, K: Sink, L: Ledger>(
    alloc: Global,
    words: &[String],
    source: &mut S,
    sink: &mut K,
    steps: &mut Steps<L>,
) -> Ended
    ensures { HasEnded (map string_bytes words.now) (S.rest source.old) (S.rest source.new) (S.faults source.old) (S.faults source.new)
        (S.filled source.old) (S.filled source.new) (K.told sink.old) steps.old result.status (moment result.session (K.told sink.new) steps.new) }
{
    let job = read_words(alloc, words);
    run_job(alloc, job, source, sink, steps)
}

/// Does what the words ask for, or says why it can't be done.
fn run_job<S: Source, K: Sink, L: Ledger>(
    alloc: Global,
    job: Result<Job, WordsFault>,
    source: &mut S,
    sink: &mut K,
    steps: &mut Steps<L>,
) -> Ended
    ensures ended { RunsBy job (S.rest source.old) (S.rest source.new) (K.told sink.old) steps.old
        result.status (moment result.session (K.told sink.new) steps.new) }
    ensures read_fault { result.status ≡ Status.ReadFault → S.faults source.new ≡ counted (S.faults source.old) }
    ensures write_fault { result.status ≡ Status.WriteFault → (K.told sink.new).faults ≡ counted (K.told sink.old).faults }
    ensures no_read_fault { result.status ≢ Status.ReadFault → S.faults source.new ≡ S.faults source.old }
    ensures no_write_fault { result.status ≢ Status.WriteFault → (K.told sink.new).faults ≡ (K.told sink.old).faults }
    ensures pieces { ReadsPieces (S.rest source.old) (S.rest source.new) (S.filled source.old) (S.filled source.new) }
{
    match job {
        Ok(Job::Script { ledger }) => {
            let mut session = MapSession::new(alloc, ledger, MOST_ITEMS);
            let status = answer_script(&mut session, source, sink, steps);
            Ended { status, session }
        }
        Ok(Job::Made { seed, size }) => {
            let mut session = MapSession::new(alloc, false, MOST_ITEMS);
            let status = answer_made(&mut session, seed, size, sink, steps);
            Ended { status, session }
        }
        Err(WordsFault::Usage) => {
            let session = MapSession::new(alloc, false, MOST_ITEMS);
            let status = refuse_words(sink);
            Ended { status, session }
        }
        Err(WordsFault::NoMemory) => {
            let session = MapSession::new(alloc, false, MOST_ITEMS);
            let status = Status::NoMemory;
            Ended { status, session }
        }
    }
}

/// Writes the usage line.
fn refuse_words<K: Sink>(sink: &mut K) -> Status
    ensures written { WritesUsage (K.told sink.old) (K.told sink.new) result }
    ensures failed { result ≡ Status.WriteFault → (K.told sink.new).faults ≡ counted (K.told sink.old).faults }
    ensures succeeded { result ≢ Status.WriteFault → (K.told sink.new).faults ≡ (K.told sink.old).faults }
{
    match write_all(sink, USAGE) {
        Ok(()) => Status::Usage,
        Err(WriteFault) => Status::WriteFault,
    }
}
