// What gives bytes.
ghost use Rattle.std.specs.Prelude.{◌≡◌, ℕ, Option, ◌==◌, ◌-◌, ◌^◌, ◌<◌, ◌≤◌, List, length, IfOk, OnOk, OnErr, if◌then◌else◌};
ghost use Rattle.std.specs.Io.KnownBytes.{ReadConsumes};
ghost use Rattle.map_io.specs.Calls.{counted};
ghost use Rattle.map_io.specs.SinkTold.{CountsMore};

use thiserror::Error;

/// A read or a write that the outside refused.
///
/// It carries no cause: what a caller can know of it is that the count of faults of the source or
/// the sink rose.
#[derive(Clone, Copy, Debug, Error, PartialEq, Eq)]
#[error("the read or the write failed")]
pub struct Failed;

// Counts a fault, up to the last value of the count.
pub(crate) fn count_fault(faults: &mut u64) -> Failed
    ensures { faults.new ≡ counted faults.old }
{
    *faults = faults.saturating_add(1);
    Failed
}

/// A reader that counts how often the outside failed.
pub trait Source {
    /// The bytes not yet taken, where the source tells them.
    ghost rest: { Self → Option (List ℕ) };

    /// How often the outside has failed; it never falls, and stays at 2^64 - 1 once it is there.
    ghost faults: { Self → ℕ };

    /// How many calls filled what they were handed, where the source tells it.
    ghost filled: { Self → Option ℕ };

    /// Takes the next bytes and puts them at the front of `into`.
    ///
    /// `Ok(0)` means the end. A call may take fewer bytes than are left and fit. After `Failed`,
    /// which took nothing, the same bytes can be asked for again; what `into` holds then is
    /// not said.
    fn read(&mut self, into: &mut [u8]) -> Result<usize, Failed>
        requires { 0 < length into.old }
        ensures bound { IfOk result (λ n. n ≤ length into.old) }
        ensures taken { ReadConsumes (rest self.old) (rest self.new) result into.new }

        ensures bounded { faults self.new ≤ 2 ^ 64 - 1 }
        ensures failed { OnErr result (faults self.new ≡ counted (faults self.old)) }
        ensures succeeded { OnOk result (faults self.new ≡ faults self.old) }
        ensures filled { IfOk result (λ n. CountsMore (filled self.old) (filled self.new) (if n == length into.old then 1 else 0)) }
        ensures unfilled { OnErr result (CountsMore (filled self.old) (filled self.new) 0) };
}
