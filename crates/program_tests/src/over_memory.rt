//! Runs of the program over memory, of which a call may fail.
ghost use Rattle.std.specs.Prelude.{◌≡◌, ◌<◌, ◌≤◌, All, IfOk};
ghost use Rattle.std.specs.List.Sorted.{IsStrictlyIncreasing};

use map_io::{MemSink, MemSource};
use program_run::{Ended, Status, end, run};
use query_laws::step_ledger::{SHARES, Steps, blank};
use std::alloc::{AllocError, Global};
use std::marker::Brand;
use std::process::ExitCode;
use std::sync::ledger::{Blank, Ledger};
use std::test::Fail;

/// A source's or a sink's piece, and the number of its call that fails: 0 for none.
#[derive(Clone, Copy)]
pub struct Plan {
    pub piece: usize,
    pub failing: u64,
}

pub const WHOLE: Plan = Plan {
    piece: 4096,
    failing: 0,
};

/// The number of the call that fails, if there is one.
pub fn failing_calls(alloc: Global, call: u64) -> Result<Vec<u64>, AllocError>
    ensures rising { IfOk result (λ calls. IsStrictlyIncreasing calls.items) }
    ensures numbered { IfOk result (λ calls. All (λ n. 0 < n) calls.items) }
{
    let mut calls = Vec::new(alloc);
    if call > 0 {
        calls.push(call)?;
    }
    Ok(calls)
}

/// How a run ended, the updates of its layers, what was written, and how many bytes weren't read.
#[derive(Drop)]
pub struct Ran {
    pub status: Status,
    pub updates: u64,
    pub written: Vec<u8>,
    pub left: usize,
}

/// A run whose steps are counted from nothing.
fn run_once<L: Ledger>(
    alloc: Global,
    words: &[String],
    source: &mut MemSource,
    sink: &mut MemSink,
    blank: Blank,
) -> Ended
    requires name { blank.name ≡ L.name }
    requires parts { blank.parts ≡ L.parts }
    requires shares { blank.parts ≡ SHARES }
{
    let mut steps = Steps::<L>::new(blank);
    run(alloc, words, source, sink, &mut steps)
}

/// Words on the heap.
pub fn owned_words(alloc: Global, words: &[&str]) -> Result<Vec<String>, AllocError> {
    let mut owned = Vec::new(alloc);
    for word in words {
        owned.push(String::from_str(alloc, word)?)?;
    }
    Ok(owned)
}

/// What the program ends with, by its name and words, over a script.
pub fn exit_of<L: Ledger>(
    alloc: Global,
    arguments: &[&str],
    script: &[u8],
    blank: Blank,
) -> Result<ExitCode, Fail>
    requires name { blank.name ≡ L.name }
    requires parts { blank.parts ≡ L.parts }
    requires shares { blank.parts ≡ SHARES }
{
    let owned = owned_words(alloc, arguments)?;
    let bytes = Vec::from_slice(alloc, script)?;
    let mut source = MemSource::new(bytes, 4096, failing_calls(alloc, 0)?);
    let space = vec![in alloc; 0u8; 64]?;
    let mut sink = MemSink::new(space, 4096, failing_calls(alloc, 0)?);
    Ok(end::<MemSource, MemSink, L>(alloc, Ok(owned), &mut source, &mut sink, blank))
}

/// A run by words after the program's name, over a script and a sink with so much room.
pub fn run_words(
    alloc: Global,
    words: &[&str],
    script: &[u8],
    reads: Plan,
    writes: Plan,
    room: usize,
) -> Result<Ran, Fail>
    requires reads { 1 ≤ reads.piece }
    requires writes { 1 ≤ writes.piece }
{
    let owned = owned_words(alloc, words)?;
    let bytes = Vec::from_slice(alloc, script)?;
    let mut source = MemSource::new(bytes, reads.piece, failing_calls(alloc, reads.failing)?);
    let space = vec![in alloc; 0u8; room]?;
    let mut sink = MemSink::new(space, writes.piece, failing_calls(alloc, writes.failing)?);
    let ended = run_once::<Brand>(alloc, &owned, &mut source, &mut sink, blank());
    Ok(Ran {
        status: ended.status,
        updates: ended.session.layers().updates(),
        written: Vec::from_slice(alloc, sink.written())?,
        left: source.left(),
    })
}
