//! Sessions beside plain lists, and beside the answers that are expected of examples, at once and in pieces.
ghost use Rattle.std.specs.Prelude.{◌<◌};

use crate::bench::Bench;
use crate::trial::is_difference;
use crate::{MOST_ITEMS, MapSession};
use map_io::{MemSink, Sink};
use map_session::{LineStart, OverPoints, OverSegments, Session, answer_begun, answer_piece};
use query_laws::NoMemory;
use query_laws::step_ledger::Steps;
use samples::{Exchange, Failure, Generator, Outcome, PlainMap};
use std::fs;
use std::sync::ledger::Ledger;

/// A session has had fewer lines, and a piece fewer bytes.
const MOST: u64 = 1 << 39;

/// The length of pieces that are whole texts.
const WHOLE: usize = usize::MAX;

/// The greatest length of pieces that aren't.
const LONGEST: usize = 64;

/// Gives a new session the lines that make the layers of a plain map, and so many seeded ones, and compares its answers with those of the
/// map.
///
/// Tells of the lines. `Differs` where answers differ.
pub fn check_made_script<L: Ledger>(
    bench: &mut Bench<L>,
    map: &mut PlainMap,
    seed: u64,
    lines: u32,
) -> Outcome {
    let mut session = MapSession::new(bench.alloc, false, MOST_ITEMS);
    let mut generator = Generator::new(seed);
    let made = PlainMap::made(bench.alloc)?;
    check_answers(&mut session, &made, WHOLE, bench)?;
    for _ in 0..lines {
        let said = map.draw(&mut generator)?;
        match check_answers(&mut session, &said, WHOLE, bench) {
            Err(Failure::NoMemory(_)) => check_answers(&mut session, &said, WHOLE, bench)?,
            done => done?,
        }
    }
    Ok(writeln!(bench.report, "script lines {lines}")?)
}

/// Tells whether a difference is seen in the answers to a seeded script, where the plain map has items that the session never had.
pub fn tell_script_difference<L: Ledger>(bench: &mut Bench<L>, map: &mut PlainMap) -> Outcome {
    let seen = is_difference(&check_made_script(bench, map, 0, 500));
    Ok(writeln!(bench.report, "lost items seen {seen} in a script")?)
}

/// Runs each script `NAME.livemap` of a folder by sessions of its own, at once and in pieces, and compares the answers with the file `NAME.out`.
///
/// Tells how many there are. `Differs` where the answers aren't those of the file.
pub fn check_examples<L: Ledger>(bench: &mut Bench<L>, folder: &str) -> Outcome {
    let mut count = 0u64;
    for entry in fs::read_dir(bench.rt, folder)? {
        let entry = entry?;
        if let Some(name) = entry.file_name().strip_suffix(".livemap") {
            let script = format!(in bench.alloc; "{folder}/{name}.livemap")?;
            let wanted = format!(in bench.alloc; "{folder}/{name}.out")?;
            let said = Exchange {
                text: fs::read_to_string(bench.rt, script.as_str())?,
                answers: fs::read_to_string(bench.rt, wanted.as_str())?,
            };
            check_pieces(&said, bench)?;
            count = count.wrapping_add(1);
        }
    }
    Ok(writeln!(bench.report, "examples count {count}")?)
}

/// Compares the answers of new sessions to a text, in pieces of each length up to more than a line's and at once, with those that are said with
/// it.
fn check_pieces<L: Ledger>(said: &Exchange, bench: &mut Bench<L>) -> Outcome {
    for length in 1..=LONGEST {
        let mut session = MapSession::new(bench.alloc, false, MOST_ITEMS);
        check_answers(&mut session, said, length, bench)?;
    }
    let mut session = MapSession::new(bench.alloc, false, MOST_ITEMS);
    check_answers(&mut session, said, WHOLE, bench)
}

/// Compares the answers of a session to a text in pieces of so many bytes with those that are said with it.
///
/// `NoMemory` where they differ and a line was refused memory.
fn check_answers<P: OverPoints, S: OverSegments, L: Ledger>(
    session: &mut Session<P, S>,
    said: &Exchange,
    length: usize,
    bench: &mut Bench<L>,
) -> Outcome
    requires { 0 < length }
{
    let (alloc, wanted) = (bench.alloc, said.answers.as_bytes());
    let space = vec![in alloc; 0u8; wanted.len().saturating_add(64)]?;
    let mut sink = MemSink::new(space, usize::MAX, Vec::new(alloc));
    let text = said.text.as_bytes();
    match give_text(session, text, length, &mut sink, &mut bench.steps) {
        Ok(()) if sink.written() == wanted => return Ok(()),
        Ok(()) | Err(Failure::NoAnswers(_)) => (),
        failed => return failed,
    }
    let mut lines = sink.written().split(|byte| *byte == b'\n');
    if lines.any(|line| line == b"no memory".as_slice()) {
        return Err(Failure::NoMemory(NoMemory));
    }
    let found = String::from_utf8_lossy(alloc, sink.written())?;
    let (text, wanted) = (&said.text, &said.answers);
    Err(Failure::Differs(format!(in alloc; "{text}is answered\n{found}and not\n{wanted}")?))
}

/// Gives a text to a session, in pieces of so many bytes. `Unfit` where the session is too long.
fn give_text<P: OverPoints, S: OverSegments, K: Sink, L: Ledger>(
    session: &mut Session<P, S>,
    text: &[u8],
    length: usize,
    sink: &mut K,
    steps: &mut Steps<L>,
) -> Outcome
    requires { 0 < length }
{
    let mut begun = LineStart::new();
    for piece in text.chunks(length) {
        if session.lines() >= MOST || piece.len() as u64 >= MOST {
            return Err(Failure::Unfit);
        }
        answer_piece(session, &mut begun, piece, sink, steps)?;
    }
    if session.lines() >= MOST {
        return Err(Failure::Unfit);
    }
    Ok(answer_begun(session, &begun, sink, steps)?)
}
