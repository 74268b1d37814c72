// A piece of a line, which is filled before a sink is given it.
ghost use Rattle.std.specs.Prelude.{◌≡◌, ◌+◌, ◌<◌, ◌≤◌, ◌++◌, length, min, OnOk, OnErr};
ghost use Rattle.map_io.specs.SinkTold.{Delivers, CutOff};
ghost use Rattle.answer_text.specs.Pieces.{CutOffInPieces, Gathers};

use crate::append;
use arrayvec::ArrayVec;
use map_io::{Sink, WriteFault, write_all};

/// The most bytes that a sink is handed at once.
pub const LONGEST_PIECE: usize = 64;

/// Bytes of a line that a sink wasn't given yet.
pub type Piece = ArrayVec<u8, LONGEST_PIECE>;

/// Puts at most 64 bytes behind those of the piece, which is written as soon as it is full.
pub fn put<K: Sink>(piece: &mut Piece, bytes: &[u8], sink: &mut K) -> Result<(), WriteFault>
    requires some_room { length piece.old.items < 64 }
    requires small { length bytes.now ≤ 64 }
    ensures gathered { OnOk result (Gathers (K.told sink.old) (K.told sink.new) piece.old.items piece.new.items bytes.now) }
    ensures cut_off { OnErr result (CutOffInPieces (K.told sink.old) (K.told sink.new) (piece.old.items ++ bytes.now)) }
{
    let room = LONGEST_PIECE - piece.len();
    if bytes.len() < room {
        append(piece, bytes);
        return Ok(());
    }
    let (front, back) = bytes.split_at(room);
    append(piece, front);
    finish(piece, sink)?;
    piece.clear();
    append(piece, back);
    Ok(())
}

/// Writes what the piece holds.
pub fn finish<K: Sink>(piece: &Piece, sink: &mut K) -> Result<(), WriteFault>
    ensures delivered { OnOk result (Delivers (K.told sink.old) (K.told sink.new) piece.now.items (min 1 (length piece.now.items))) }
    ensures cut_off { OnErr result (CutOff (K.told sink.old) (K.told sink.new) piece.now.items 0) }
{
    write_all(sink, piece.as_slice())
}
