// Answering a text, line by line.
ghost use Rattle.std.specs.Prelude.{◌≡◌, ℕ, ◌+◌, ◌<◌, ◌≤◌, ◌^◌, ◌++◌, ◌∷◌, [], List, true, length, take, MatchOption, OnOk, OnErr};
ghost use Rattle.map_model.specs.Text.{lines, whole_lines, one_line};
ghost use Rattle.script_lang.specs.Front.{longest_front};
ghost use Rattle.map_session.specs.Answering.{Moment, moment, AnswersLine, StopsInLine, Runs, IsStoppedBehind, IsUnderway};

use crate::{LineStart, Session};
use map_io::{Sink, WriteFault};
use map_layers::{OverPoints, OverSegments};
use memchr::memchr;
use query_laws::step_ledger::Steps;
use std::sync::ledger::Ledger;

/// Answers the lines that end in the next piece of a text, the one that is begun first. What comes after the last of them is begun
/// then.
pub fn answer_piece<P: OverPoints, S: OverSegments, K: Sink, L: Ledger>(
    session: &mut Session<P, S>,
    begun: &mut LineStart,
    piece: &[u8],
    sink: &mut K,
    steps: &mut Steps<L>,
) -> Result<(), WriteFault>
    requires { session.old.lines + length piece.now < 2 ^ 40 }
    ensures answered { OnOk result ((start : Moment) (text : List ℕ) → IsUnderway start text begun.old (moment session.old (K.told sink.old) steps.old)
        → IsUnderway start (text ++ piece.now) begun.new (moment session.new (K.told sink.new) steps.new)) }
    ensures stopped { OnErr result ((start : Moment) (text : List ℕ) → IsUnderway start text begun.old (moment session.old (K.told sink.old) steps.old)
        → IsStoppedBehind (length (whole_lines text)) start (whole_lines (text ++ piece.now)) (moment session.new (K.told sink.new) steps.new)) }

    // A line has a byte at least, its line feed.
    ensures few { OnOk result (session.new.lines ≤ session.old.lines + length piece.now) }
{
    let mut rest = piece;
    while let Some((line, after)) = split_line(rest) {
        end_line(session, begun, line, sink, steps)?;
        rest = after;
    }
    begun.push(rest);
    Ok(())
}

/// Answers the line that is begun as the last one of its text: where it is empty there is none.
pub fn answer_begun<P: OverPoints, S: OverSegments, K: Sink, L: Ledger>(
    session: &mut Session<P, S>,
    begun: &LineStart,
    sink: &mut K,
    steps: &mut Steps<L>,
) -> Result<(), WriteFault>
    requires { session.old.lines < 2 ^ 40 }
    ensures answered { OnOk result ((start : Moment) (text : List ℕ) → IsUnderway start text begun.now (moment session.old (K.told sink.old) steps.old)
        → Runs start (lines text) (moment session.new (K.told sink.new) steps.new)) }
    ensures stopped { OnErr result ((start : Moment) (text : List ℕ) → IsUnderway start text begun.now (moment session.old (K.told sink.old) steps.old)
        → IsStoppedBehind (length (whole_lines text)) start (lines text) (moment session.new (K.told sink.new) steps.new)) }
{
    if !begun.is_empty() {
        session.line(begun.as_slice(), sink, steps)?;
    }
    Ok(())
}

/// Answers the line that is begun and ends in these bytes. No line is begun then.
fn end_line<P: OverPoints, S: OverSegments, K: Sink, L: Ledger>(
    session: &mut Session<P, S>,
    begun: &mut LineStart,
    end: &[u8],
    sink: &mut K,
    steps: &mut Steps<L>,
) -> Result<(), WriteFault>
    requires { session.old.lines < 2 ^ 40 }
    ensures answered { OnOk result ((line : List ℕ) → begun.old ≡ take longest_front line
        → AnswersLine (moment session.old (K.told sink.old) steps.old) (line ++ end.now) (moment session.new (K.told sink.new) steps.new)) }
    ensures stopped { OnErr result ((line : List ℕ) → begun.old ≡ take longest_front line
        → StopsInLine (moment session.old (K.told sink.old) steps.old) (line ++ end.now) (moment session.new (K.told sink.new) steps.new)) }
    ensures cleared { OnOk result (begun.new ≡ []) }
    ensures counted { session.new.lines ≡ session.old.lines + 1 }
{
    if begun.is_empty() {
        session.line(end, sink, steps)?;
        return Ok(());
    }
    begun.push(end);
    session.line(begun.as_slice(), sink, steps)?;
    begun.clear();
    Ok(())
}

/// The first line of a text that a line feed ends, and what comes after the line feed: `None` where there is no line feed.
pub fn split_line(text: &[u8]) -> Option<(&[u8], &[u8])>
    ensures { MatchOption result (one_line text.now ≡ true)
        (λ found. (text.now ≡ found.0.now ++ 10 ∷ found.1.now) × (one_line found.0.now ≡ true)) }
{
    let end = memchr(b'\n', text)?;
    Some((&text[..end], &text[end + 1..]))
}
