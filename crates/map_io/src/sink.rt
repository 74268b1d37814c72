// What takes bytes.
ghost use Rattle.std.specs.Prelude.{◌≡◌, ◌-◌, ◌^◌, ◌<◌, ◌≤◌, length, min, IfOk, OnOk, OnErr};
ghost use Rattle.map_io.specs.SinkTold.{SinkTold, TakesFront, TakesNone, Delivers, CutOff};

use super::source::Failed;
use thiserror::Error;

/// Bytes that could not be written whole.
#[derive(Clone, Copy, Debug, Error, PartialEq, Eq)]
#[error("the bytes could not be written whole")]
pub struct WriteFault;

/// A writer that counts how often the outside failed.
pub trait Sink {
    /// The bytes taken so far and how many calls took all that they were handed, where the sink tells these, and how often
    /// the outside has failed. The last never falls, and stays at 2^64 - 1 once it is there.
    ghost told: { Self → SinkTold };

    /// Takes bytes from the front of `piece`, at least one, and says how many.
    ///
    /// After `Failed`, which took nothing, the same bytes can be handed in again.
    fn write(&mut self, piece: &[u8]) -> Result<usize, Failed>
        requires { 0 < length piece.now }
        ensures bound { IfOk result (λ n. (1 ≤ n) × (n ≤ length piece.now)) }
        ensures taken { IfOk result (TakesFront (told self.old) (told self.new) piece.now) }
        ensures failed { OnErr result (TakesNone (told self.old) (told self.new)) }
        ensures bounded { (told self.new).faults ≤ 2 ^ 64 - 1 };
}

/// Hands all bytes to the sink, in as many calls as it asks for: each is handed all that is left.
///
/// It stops at the first call that fails, and no call is tried again. No bytes take no call. After `WriteFault` a sink that
/// tells its bytes has a proper prefix of them; one that doesn't may have taken them all.
pub fn write_all<K: Sink>(sink: &mut K, bytes: &[u8]) -> Result<(), WriteFault>
    // At most one call takes all that it was handed, and none does of no bytes.
    ensures delivered { OnOk result (Delivers (K.told sink.old) (K.told sink.new) bytes.now (min 1 (length bytes.now))) }
    ensures cut_off { OnErr result (CutOff (K.told sink.old) (K.told sink.new) bytes.now 0) }
{
    let mut done = 0;
    while done < bytes.len() {
        match sink.write(&bytes[done..]) {
            Ok(taken) => done += taken,
            Err(Failed) => return Err(WriteFault),
        }
    }
    Ok(())
}
