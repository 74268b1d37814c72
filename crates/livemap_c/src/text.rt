//! A text that grows.
ghost use Rattle.std.specs.Prelude.{◌-◌, ◌^◌, ◌<◌, ◌≤◌, length, IfOk, OnErr};
ghost use Rattle.map_io.specs.SinkTold.{TakesFront, TakesNone};
ghost use Rattle.livemap_c.specs.Told.{told_of};

use map_io::{Failed, Sink};

/// A text that grows, and how often memory was lacking for it.
#[derive(Drop)]
pub struct Text {
    pub bytes: Vec<u8>,
    pub faults: u64,
}

impl Sink for Text {
    ghost told = { told_of };

    /// Takes all bytes, or fails where there is no memory for them.
    fn write(&mut self, piece: &[u8]) -> Result<usize, Failed>
        requires { 0 < length piece.now }
        ensures bound { IfOk result (λ n. (1 ≤ n) × (n ≤ length piece.now)) }
        ensures taken { IfOk result (TakesFront (told_of self.old) (told_of self.new) piece.now) }
        ensures failed { OnErr result (TakesNone (told_of self.old) (told_of self.new)) }
        ensures bounded { self.new.faults ≤ 2 ^ 64 - 1 }
    {
        // Read first, so that its bound is known.
        let faults = self.faults;
        match self.bytes.extend_from_slice(piece) {
            Ok(()) => Ok(piece.len()),
            Err(_) => {
                self.faults = faults.saturating_add(1);
                Err(Failed)
            }
        }
    }
}
