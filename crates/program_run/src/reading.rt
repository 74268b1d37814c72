// Reading a script and answering its lines.
ghost use Rattle.std.specs.Prelude.{◌≡◌, ◌≢◌, ◌+◌, ◌-◌, ◌<◌, ◌≤◌, ℕ, List, Option, Err, IfOk, IfErr, min, max};
ghost use Rattle.map_io.specs.Calls.{counted};
ghost use Rattle.std.specs.Io.KnownBytes.{IsAtEnd};
ghost use Rattle.map_session.specs.Answering.{Moment, moment};
ghost use Rattle.program_run.specs.Run.{script_limit, AnswersScript, FillsPieces, IsReading, ReadsPieces};

use crate::{MapSession, Status};
use map_io::{Sink, Source, WriteFault};
use map_session::{LineStart, answer_begun, answer_piece};
use query_laws::step_ledger::Steps;
use std::sync::ledger::Ledger;

/// The longest script, in bytes: 64 MiB.
const SCRIPT_LIMIT: usize = 67_108_864;

/// The most bytes that a source is asked for at once.
const PIECE: usize = 4_096;

/// Answers the lines of a script, each before the read after that which gave its end.
pub fn answer_script<S: Source, K: Sink, L: Ledger>(
    session: &mut MapSession,
    source: &mut S,
    sink: &mut K,
    steps: &mut Steps<L>,
) -> Status
    requires { session.old.lines ≡ 0 }
    ensures ended { AnswersScript (S.rest source.old) (S.rest source.new) (moment session.old (K.told sink.old) steps.old) result
        (moment session.new (K.told sink.new) steps.new) }
    ensures failed { result ≡ Status.ReadFault → S.faults source.new ≡ counted (S.faults source.old) }
    ensures succeeded { result ≢ Status.ReadFault → S.faults source.new ≡ S.faults source.old }
    ensures pieces { ReadsPieces (S.rest source.old) (S.rest source.new) (S.filled source.old) (S.filled source.new) }
    ensures no_memory { result ≢ Status.NoMemory }
{
    let mut begun = LineStart::new();
    let mut taken = 0;
    loop {
        match answer_read(session, &mut begun, taken, source, sink, steps) {
            Ok(given) => taken += given,
            Err(status) => return status,
        }
    }
}

/// Reads once and answers the lines that end in what the read gave: how many bytes, or how the run ends. At the end of the source the
/// line that is begun ends too.
fn answer_read<S: Source, K: Sink, L: Ledger>(
    session: &mut MapSession,
    begun: &mut LineStart,
    taken: usize,
    source: &mut S,
    sink: &mut K,
    steps: &mut Steps<L>,
) -> Result<usize, Status>
    requires within { taken ≤ script_limit }
    requires lines { session.old.lines ≤ taken }
    ensures went_on { IfOk result (λ given. (rest : Option (List ℕ)) (start : Moment)
        → IsReading rest start taken (S.rest source.old) begun.old (moment session.old (K.told sink.old) steps.old)
        → IsReading rest start (taken + given) (S.rest source.new) begun.new (moment session.new (K.told sink.new) steps.new)) }
    ensures ended { IfErr result (λ status. (rest : Option (List ℕ)) (start : Moment)
        → IsReading rest start taken (S.rest source.old) begun.old (moment session.old (K.told sink.old) steps.old)
        → AnswersScript rest (S.rest source.new) start status (moment session.new (K.told sink.new) steps.new)) }
    ensures pieces { IfOk result (λ given. (first : Option ℕ) → FillsPieces first (S.filled source.old) taken → FillsPieces first (S.filled source.new) (taken + given)) }
    ensures last_piece { IfErr result (λ status. (rest : Option (List ℕ)) (start : Moment) (first : Option ℕ)
        → IsReading rest start taken (S.rest source.old) begun.old (moment session.old (K.told sink.old) steps.old)
        → FillsPieces first (S.filled source.old) taken → ReadsPieces rest (S.rest source.new) first (S.filled source.new)) }
    ensures some { IfOk result (λ given. (1 ≤ given) × (taken + given ≤ script_limit)) }
    ensures lines { IfOk result (λ given. session.new.lines ≤ taken + given) }
    ensures failed { result ≡ Err Status.ReadFault → S.faults source.new ≡ counted (S.faults source.old) }
    ensures succeeded { result ≢ Err Status.ReadFault → S.faults source.new ≡ S.faults source.old }
    ensures no_memory { result ≢ Err Status.NoMemory }
{
    let mut room = [0u8; PIECE];
    let piece = &mut room[..piece_len(taken)];
    let Ok(given) = source.read(piece) else {
        return Err(Status::ReadFault);
    };
    if given == 0 {
        return Err(answer_last(session, begun, sink, steps));
    }
    if taken == SCRIPT_LIMIT {
        return Err(Status::TooLong);
    }
    match answer_piece(session, begun, &piece[..given], sink, steps) {
        Ok(()) => Ok(given),
        Err(WriteFault) => Err(Status::WriteFault),
    }
}

/// Answers the line that is begun, if there is one, as the last of the script.
fn answer_last<K: Sink, L: Ledger>(
    session: &mut MapSession,
    begun: &LineStart,
    sink: &mut K,
    steps: &mut Steps<L>,
) -> Status
    requires { session.old.lines ≤ script_limit }
    ensures ended { (rest : Option (List ℕ)) (start : Moment) (taken : ℕ) (rest' : Option (List ℕ))
        → IsReading rest start taken rest' begun.now (moment session.old (K.told sink.old) steps.old) → IsAtEnd rest'
        → AnswersScript rest rest' start result (moment session.new (K.told sink.new) steps.new) }
    ensures no_read_fault { result ≢ Status.ReadFault }
    ensures no_memory { result ≢ Status.NoMemory }
{
    match answer_begun(session, begun, sink, steps) {
        Ok(()) if session.refused() == 0 => Status::Clean,
        Ok(()) => Status::Refusals,
        Err(WriteFault) => Status::WriteFault,
    }
}

/// How many bytes a read asks for: what fits a piece and the script, and one more after the longest script.
fn piece_len(taken: usize) -> usize
    requires { taken ≤ script_limit }
    ensures { result ≡ max 1 (min 4096 (script_limit - taken)) }
{
    let left = SCRIPT_LIMIT - taken;
    left.clamp(1, PIECE)
}
