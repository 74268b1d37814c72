//! Sources and sinks that fail, and what was read, written and executed then.
ghost use Rattle.std.specs.Prelude.{◌≡◌, ◌+◌, ◌≤◌};

use crate::over_memory::{Plan, WHOLE, failing_calls, run_words};
use crate::town::{town, town_answered};
use map_io::MemSink;
use map_session::{OverPoints, OverSegments, Session};
use program_run::{MOST_ITEMS, MapSession, Status};
use query_laws::step_ledger::{SHARES, Steps, blank};
use std::alloc::{AllocError, Global};
use std::marker::Brand;
use std::sync::ledger::{Blank, Ledger};
use std::test::Fail;

/// How many lines a line feed ends.
fn whole_lines(text: &[u8]) -> usize {
    text.iter().filter(|byte| **byte == b'\n').count()
}

/// Whether these are the answers to the whole lines of a front of the town.
fn are_whole_answers(written: &[u8], taken: &[u8]) -> bool {
    town_answered().starts_with(written)
        && whole_lines(written) == whole_lines(taken)
        && (written.is_empty() || written.ends_with(b"\n"))
}

/// In pieces of seven bytes the town takes so many reads, the last of which gives nothing.
const READS: u16 = 244;

/// Whether the lines that ended in so many reads are answered, where the next one fails.
fn is_answered_after(alloc: Global, reads: u16) -> Result<bool, Fail> {
    let plan = Plan {
        piece: 7,
        failing: u64::from(reads) + 1,
    };
    let ran = run_words(alloc, &[], town(), plan, WHOLE, 512)?;
    let taken = town().get(..7 * usize::from(reads)).unwrap_or(town());
    let status = if reads < READS { 3 } else { 0 };
    Ok(ran.status.code() == status && are_whole_answers(&ran.written, taken))
}

#[test]
fn each_read_fails(rt: HostRuntime) -> Result<(), Fail> {
    for reads in 0..=READS {
        assert!(rt; is_answered_after(rt.alloc(), reads)?, "after {reads}");
    }
    Ok(())
}

/// In pieces of five bytes the answers take so many writes.
const WRITES: u16 = 105;

/// Whether a front of the answers is written, where the write after so many fails: a byte at least for each, and five at most.
fn is_cut_off_after(alloc: Global, writes: u16) -> Result<bool, Fail> {
    let plan = Plan {
        piece: 5,
        failing: u64::from(writes) + 1,
    };
    let ran = run_words(alloc, &[], town(), WHOLE, plan, 512)?;
    let status = if writes < WRITES { 4 } else { 0 };
    let len = ran.written.len();
    Ok(
        ran.status.code() == status
            && town_answered().starts_with(&ran.written)
            && usize::from(writes) <= len
            && len <= 5 * usize::from(writes),
    )
}

#[test]
fn each_write_fails(rt: HostRuntime) -> Result<(), Fail> {
    for writes in 0..=WRITES {
        assert!(rt; is_cut_off_after(rt.alloc(), writes)?, "after {writes}");
    }
    Ok(())
}

/// What a session writes for a line into a sink whose call of a number fails, 0 for none; `None` for a `WriteFault`.
fn answer_of<P: OverPoints, S: OverSegments, L: Ledger>(
    alloc: Global,
    session: &mut Session<P, S>,
    line: &[u8],
    failing: u64,
    steps: &mut Steps<L>,
) -> Result<Option<Vec<u8>>, Fail>
    requires few { session.old.lines ≤ 1 }
    ensures counted { session.new.lines ≤ session.old.lines + 1 }
{
    let space = vec![in alloc; 0u8; 16]?;
    let mut sink = MemSink::new(space, 16, failing_calls(alloc, failing)?);
    if session.line(line, &mut sink, steps).is_err() {
        return Ok(None);
    }
    Ok(Some(Vec::from_slice(alloc, sink.written())?))
}

/// What is written for a layer into a sink that fails, and for the layer's size into one that doesn't.
fn answers_around_a_fault<L: Ledger>(
    alloc: Global,
    blank: Blank,
) -> Result<(Option<Vec<u8>>, Option<Vec<u8>>), Fail>
    requires name { blank.name ≡ L.name }
    requires parts { blank.parts ≡ L.parts }
    requires shares { blank.parts ≡ SHARES }
{
    let mut session = MapSession::new(alloc, false, MOST_ITEMS);
    let mut steps = Steps::<L>::new(blank);
    let made = answer_of(alloc, &mut session, b"layer a points range", 1, &mut steps)?;
    let size = answer_of(alloc, &mut session, b"size a", 0, &mut steps)?;
    Ok((made, size))
}

/// The command is executed whose answer can't be written, and the session goes on.
#[test]
fn a_lost_answer_was_executed(rt: HostRuntime) -> Result<(), Fail> {
    let (made, size) = answers_around_a_fault::<Brand>(rt.alloc(), blank())?;
    assert!(rt; made.is_none());
    assert_eq!(rt; size.as_deref(), Some(b"size 0\n".as_slice()));
    Ok(())
}

/// A layer and 1,000 lines: 7,021 bytes.
fn thousand_sizes(alloc: Global) -> Result<Vec<u8>, AllocError> {
    let mut script = Vec::from_slice(alloc, b"layer a points range\n")?;
    for _ in 0..1000u32 {
        script.extend_from_slice(b"size a\n")?;
    }
    Ok(script)
}

/// Pieces of a source, calls of a sink that fail, and the bytes that are left then. The layer's answer and 582 sizes are of the first piece of
/// 4,096 bytes; in pieces of seven each size is one read.
const LEFT: [(usize, u64, usize); 8] = [
    (4096, 1, 2925),
    (4096, 583, 2925),
    (4096, 584, 0),
    (7, 1, 7000),
    (7, 2, 6993),
    (7, 500, 3507),
    (7, 1000, 7),
    (7, 1001, 0),
];

/// What is read is answered before the next read.
#[test]
fn a_line_is_answered_before_the_next_read(rt: HostRuntime) -> Result<(), Fail> {
    let script = thousand_sizes(rt.alloc())?;
    for (piece, failing, left) in LEFT {
        let reads = Plan { piece, failing: 0 };
        let writes = Plan {
            piece: 4096,
            failing,
        };
        let ran = run_words(rt.alloc(), &[], &script, reads, writes, 16_384)?;
        assert_eq!(rt;
            (ran.status, ran.left),
            (Status::WriteFault, left),
            "call {failing} in {piece}"
        );
    }
    Ok(())
}
