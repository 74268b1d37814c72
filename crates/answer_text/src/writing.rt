// A reply's line, to a sink.
ghost use Rattle.std.specs.Prelude.{◌≡◌, ◌<◌, ◌≤◌, ◌++◌, length, decimal, flat_map, OnOk, OnErr};
ghost use Rattle.map_model.specs.Reply.{reply_line};
ghost use Rattle.map_model.specs.Cost as costs;
ghost use Rattle.map_shapes.specs.Cost.{spent_of, spent_at_once_of, update_cost_of, asked_of};
ghost use Rattle.map_shapes.specs.Version.{version_of};
ghost use Rattle.answer_text.specs.Reply.{reply_of, cost_of};
ghost use Rattle.answer_text.specs.Pieces.{DeliversLines, CutOffInPieces, Gathers};
ghost use Rattle.answer_text.specs.Texts.{answer_numbers, reply_numbers, refusal_numbers, spaced_all, spaced_number, found_text, turns_text, tail_text};

use crate::piece::{Piece, finish, put};
use crate::texts::{
    Number, labelled, listed_ids, none_text, out_of, place, reply_word, shape_numbers, spaced,
};
use crate::{Refusal, Reply};
use map_io::{Sink, WriteFault};
use map_questions::AnyAnswer;
use map_shapes::{Found, FoundList, QuestionCost, Spent, SpentAtOnce, UpdateCost, Version};

/// Writes a reply's line of a version with its line feed; with the ledger, what it cost stands at its end.
///
/// The sink is handed pieces of 64 bytes, and at last what is left; where it takes fewer bytes of one, the rest of that. It
/// takes no memory.
pub fn write_reply<K: Sink>(
    reply: &Reply,
    ledger: bool,
    version: Version,
    sink: &mut K,
) -> Result<(), WriteFault>
    ensures delivered { OnOk result (DeliversLines (K.told sink.old) (K.told sink.new) (reply_line (version_of version) ledger (reply_of reply.now) (cost_of reply.now)) 1) }
    ensures cut_off { OnErr result (CutOffInPieces (K.told sink.old) (K.told sink.new) (reply_line (version_of version) ledger (reply_of reply.now) (cost_of reply.now))) }
{
    let mut piece = Piece::new();
    put(&mut piece, reply_word(reply), sink)?;
    put_reply_numbers(&mut piece, reply, version, sink)?;
    put_ids(&mut piece, listed_ids(reply), sink)?;
    put(&mut piece, none_text(reply), sink)?;
    put_tail(&mut piece, reply, ledger, sink)?;
    put(&mut piece, b"\n", sink)?;
    finish(&piece, sink)
}

/// The numbers of a reply but the identifiers that it lists.
#[tactic(auto, using(crate::proofs::Pieces::gathers_none))]
fn put_reply_numbers<K: Sink>(
    piece: &mut Piece,
    reply: &Reply,
    version: Version,
    sink: &mut K,
) -> Result<(), WriteFault>
    requires { length piece.old.items < 64 }
    ensures gathered { OnOk result (Gathers (K.told sink.old) (K.told sink.new) piece.old.items piece.new.items (reply_numbers (version_of version) reply.now)) }
    ensures cut_off { OnErr result (CutOffInPieces (K.told sink.old) (K.told sink.new) (piece.old.items ++ reply_numbers (version_of version) reply.now)) }
{
    match reply {
        Reply::Answered { answer, .. } => put_answer_numbers(piece, answer, version, sink),
        Reply::Size { n } => put_ids(piece, &[*n], sink),
        Reply::Got { shape } => put_numbers(piece, &shape_numbers(version, *shape), sink),
        Reply::Refused { cause } => put_refusal_numbers(piece, *cause, sink),
        Reply::Made | Reply::Updated { .. } | Reply::Recent { .. } => Ok(()),
    }
}

/// The numbers of an answer but the identifiers that it lists.
#[tactic(auto, using(crate::proofs::Pieces::gathers_none))]
fn put_answer_numbers<K: Sink>(
    piece: &mut Piece,
    answer: &AnyAnswer,
    version: Version,
    sink: &mut K,
) -> Result<(), WriteFault>
    requires { length piece.old.items < 64 }
    ensures gathered { OnOk result (Gathers (K.told sink.old) (K.told sink.new) piece.old.items piece.new.items (answer_numbers (version_of version) answer.now)) }
    ensures cut_off { OnErr result (CutOffInPieces (K.told sink.old) (K.told sink.new) (piece.old.items ++ answer_numbers (version_of version) answer.now)) }
{
    match answer {
        AnyAnswer::Counted(n)
        | AnyAnswer::Summed(n)
        | AnyAnswer::StabCounted(n)
        | AnyAnswer::CrossCounted(n) => put_ids(piece, &[*n], sink),
        AnyAnswer::NearestOne(Some(found)) => put_found(piece, found, sink),
        AnyAnswer::NearestOnes(found) => put_pairs(piece, found, sink),
        AnyAnswer::Highest(Some(peak)) => {
            let height = place(version, peak.y);
            put_numbers(piece, &[Number::Plain(peak.id), height], sink)
        }
        AnyAnswer::NearestOne(None)
        | AnyAnswer::Highest(None)
        | AnyAnswer::Listed(_)
        | AnyAnswer::ListedAbove(_)
        | AnyAnswer::Stabbed(_)
        | AnyAnswer::Crossed(_) => Ok(()),
    }
}

#[tactic(auto, using(crate::proofs::Pieces::gathers_none))]
fn put_refusal_numbers<K: Sink>(
    piece: &mut Piece,
    cause: Refusal,
    sink: &mut K,
) -> Result<(), WriteFault>
    requires { length piece.old.items < 64 }
    ensures gathered { OnOk result (Gathers (K.told sink.old) (K.told sink.new) piece.old.items piece.new.items (refusal_numbers cause)) }
    ensures cut_off { OnErr result (CutOffInPieces (K.told sink.old) (K.told sink.new) (piece.old.items ++ refusal_numbers cause)) }
{
    match cause {
        Refusal::Building { items: n }
        | Refusal::Duplicate { id: n }
        | Refusal::Unknown { id: n } => { put_ids(piece, &[n], sink) }
        _ => Ok(()),
    }
}

/// Identifiers, or other numbers without a sign, each behind a space.
fn put_ids<K: Sink>(piece: &mut Piece, ids: &[u64], sink: &mut K) -> Result<(), WriteFault>
    requires { length piece.old.items < 64 }
    ensures gathered { OnOk result (Gathers (K.told sink.old) (K.told sink.new) piece.old.items piece.new.items (spaced_all ids.now)) }
    ensures cut_off { OnErr result (CutOffInPieces (K.told sink.old) (K.told sink.new) (piece.old.items ++ spaced_all ids.now)) }
{
    for id in ids {
        put_number(piece, Number::Plain(*id), sink)?;
    }
    Ok(())
}

/// Numbers, each behind a space.
fn put_numbers<K: Sink>(
    piece: &mut Piece,
    numbers: &[Number],
    sink: &mut K,
) -> Result<(), WriteFault>
    requires { length piece.old.items < 64 }
    ensures gathered { OnOk result (Gathers (K.told sink.old) (K.told sink.new) piece.old.items piece.new.items (flat_map spaced_number numbers.now)) }
    ensures cut_off { OnErr result (CutOffInPieces (K.told sink.old) (K.told sink.new) (piece.old.items ++ flat_map spaced_number numbers.now)) }
{
    for number in numbers {
        put_number(piece, *number, sink)?;
    }
    Ok(())
}

/// An identifier with its distance.
fn put_found<K: Sink>(piece: &mut Piece, found: &Found, sink: &mut K) -> Result<(), WriteFault>
    requires { length piece.old.items < 64 }
    ensures gathered { OnOk result (Gathers (K.told sink.old) (K.told sink.new) piece.old.items piece.new.items (found_text found.now)) }
    ensures cut_off { OnErr result (CutOffInPieces (K.told sink.old) (K.told sink.new) (piece.old.items ++ found_text found.now)) }
{
    let numbers = [Number::Plain(found.id()), Number::Wide(found.dist())];
    put_numbers(piece, &numbers, sink)
}

/// Identifiers with their distances.
fn put_pairs<K: Sink>(piece: &mut Piece, found: &FoundList, sink: &mut K) -> Result<(), WriteFault>
    requires { length piece.old.items < 64 }
    ensures gathered { OnOk result (Gathers (K.told sink.old) (K.told sink.new) piece.old.items piece.new.items (flat_map found_text found.now)) }
    ensures cut_off { OnErr result (CutOffInPieces (K.told sink.old) (K.told sink.new) (piece.old.items ++ flat_map found_text found.now)) }
{
    for k in 0..found.len() {
        put_found(piece, &found.get(k), sink)?;
    }
    Ok(())
}

/// With the ledger, what the reply cost.
#[tactic(auto, using(crate::proofs::Pieces::gathers_none))]
fn put_tail<K: Sink>(
    piece: &mut Piece,
    reply: &Reply,
    ledger: bool,
    sink: &mut K,
) -> Result<(), WriteFault>
    requires { length piece.old.items < 64 }
    ensures gathered { OnOk result (Gathers (K.told sink.old) (K.told sink.new) piece.old.items piece.new.items (tail_text ledger reply.now)) }
    ensures cut_off { OnErr result (CutOffInPieces (K.told sink.old) (K.told sink.new) (piece.old.items ++ tail_text ledger reply.now)) }
{
    if !ledger {
        return Ok(());
    }
    match reply {
        Reply::Updated { spent } => put_update(piece, *spent, sink),
        Reply::Answered { asked, .. } => put_asked(piece, *asked, sink),
        Reply::Made
        | Reply::Got { .. }
        | Reply::Size { .. }
        | Reply::Recent { .. }
        | Reply::Refused { .. } => Ok(()),
    }
}

fn put_update<K: Sink>(piece: &mut Piece, cost: UpdateCost, sink: &mut K) -> Result<(), WriteFault>
    requires { length piece.old.items < 64 }
    ensures gathered { OnOk result (Gathers (K.told sink.old) (K.told sink.new) piece.old.items piece.new.items (costs.cost_text (update_cost_of cost))) }
    ensures cut_off { OnErr result (CutOffInPieces (K.told sink.old) (K.told sink.new) (piece.old.items ++ costs.cost_text (update_cost_of cost))) }
{
    match cost {
        UpdateCost::Spread(spent) => put_spent(piece, spent, sink),
        UpdateCost::AtOnce(spent) => put_at_once(piece, spent, sink),
    }
}

fn put_spent<K: Sink>(piece: &mut Piece, spent: Spent, sink: &mut K) -> Result<(), WriteFault>
    requires { length piece.old.items < 64 }
    ensures gathered { OnOk result (Gathers (K.told sink.old) (K.told sink.new) piece.old.items piece.new.items (costs.cost_text (costs.Updating (spent_of spent)))) }
    ensures cut_off { OnErr result (CutOffInPieces (K.told sink.old) (K.told sink.new) (piece.old.items ++ costs.cost_text (costs.Updating (spent_of spent)))) }
{
    put_out_of(piece, b" turns", spent.turns, spent.turn_bound, sink)?;
    put_out_of(piece, b" marks", spent.marks, spent.mark_bound, sink)
}

fn put_at_once<K: Sink>(
    piece: &mut Piece,
    spent: SpentAtOnce,
    sink: &mut K,
) -> Result<(), WriteFault>
    requires { length piece.old.items < 64 }
    ensures gathered { OnOk result (Gathers (K.told sink.old) (K.told sink.new) piece.old.items piece.new.items (costs.cost_text (costs.Joining (spent_at_once_of spent)))) }
    ensures cut_off { OnErr result (CutOffInPieces (K.told sink.old) (K.told sink.new) (piece.old.items ++ costs.cost_text (costs.Joining (spent_at_once_of spent)))) }
{
    put_turns(piece, spent, sink)?;
    put_out_of(piece, b" marks", spent.marks, spent.mark_bound, sink)
}

/// The turns, with the sum of them and its bound.
fn put_turns<K: Sink>(piece: &mut Piece, spent: SpentAtOnce, sink: &mut K) -> Result<(), WriteFault>
    requires { length piece.old.items < 64 }
    ensures gathered { OnOk result (Gathers (K.told sink.old) (K.told sink.new) piece.old.items piece.new.items (turns_text spent)) }
    ensures cut_off { OnErr result (CutOffInPieces (K.told sink.old) (K.told sink.new) (piece.old.items ++ turns_text spent)) }
{
    put_labelled(piece, b" turns ", spent.turns, sink)?;
    put_out_of(piece, b" total", spent.total, spent.turn_bound, sink)
}

fn put_asked<K: Sink>(
    piece: &mut Piece,
    asked: QuestionCost,
    sink: &mut K,
) -> Result<(), WriteFault>
    requires { length piece.old.items < 64 }
    ensures gathered { OnOk result (Gathers (K.told sink.old) (K.told sink.new) piece.old.items piece.new.items (costs.cost_text (costs.Asking (asked_of asked)))) }
    ensures cut_off { OnErr result (CutOffInPieces (K.told sink.old) (K.told sink.new) (piece.old.items ++ costs.cost_text (costs.Asking (asked_of asked)))) }
{
    put_out_of(
        piece,
        b" parts",
        u64::from(asked.parts),
        u64::from(asked.part_bound),
        sink,
    )?;
    put_labelled(piece, b" touches ", asked.touches, sink)
}

/// A space and a number.
fn put_number<K: Sink>(piece: &mut Piece, n: Number, sink: &mut K) -> Result<(), WriteFault>
    requires some_room { length piece.old.items < 64 }
    ensures gathered { OnOk result (Gathers (K.told sink.old) (K.told sink.new) piece.old.items piece.new.items (spaced_number n)) }
    ensures cut_off { OnErr result (CutOffInPieces (K.told sink.old) (K.told sink.new) (piece.old.items ++ spaced_number n)) }
{
    put(piece, spaced(n).as_slice(), sink)
}

/// A label of at most 8 bytes, and ` A/B`.
fn put_out_of<K: Sink>(
    piece: &mut Piece,
    label: &[u8],
    a: u64,
    b: u64,
    sink: &mut K,
) -> Result<(), WriteFault>
    requires some_room { length piece.old.items < 64 }
    requires short { length label.now ≤ 8 }
    ensures gathered { OnOk result (Gathers (K.told sink.old) (K.told sink.new) piece.old.items piece.new.items (label.now ++ costs.out_of a b)) }
    ensures cut_off { OnErr result (CutOffInPieces (K.told sink.old) (K.told sink.new) (piece.old.items ++ (label.now ++ costs.out_of a b))) }
{
    put(piece, out_of(label, a, b).as_slice(), sink)
}

/// A label of at most 16 bytes, and a number.
fn put_labelled<K: Sink>(
    piece: &mut Piece,
    label: &[u8],
    n: u64,
    sink: &mut K,
) -> Result<(), WriteFault>
    requires some_room { length piece.old.items < 64 }
    requires short { length label.now ≤ 16 }
    ensures gathered { OnOk result (Gathers (K.told sink.old) (K.told sink.new) piece.old.items piece.new.items (label.now ++ decimal n)) }
    ensures cut_off { OnErr result (CutOffInPieces (K.told sink.old) (K.told sink.new) (piece.old.items ++ (label.now ++ decimal n))) }
{
    put(piece, labelled(label, n).as_slice(), sink)
}
