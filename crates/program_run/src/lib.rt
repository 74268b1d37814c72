//! The program but for where it reads and writes: what the words after its name ask for, over any source and sink, and the status
//! that it ends with.
//!
//! The theorem about the program is the contract of [`run`]. Of a source or a sink that tells no bytes it says none of them. All
//! answers, of n bytes to k lines, are at most (n + 63 * k) / 64 calls of the sink that took all that they were handed. Where writing
//! stopped, every line that ended before the last 4,096 bytes that were taken is answered in full.
//!
//! [`run`] and [`end`] promise one relation, `HasEnded`. The first call that fails is the only one, so no line is held back while a run
//! reads on: where a read fails, each line that ended before it is answered, and no write failed.
#![tactic(auto)]

ghost use Rattle.std.specs.Prelude.{◌≡◌, ◌≢◌, ◌≤◌, ℕ, false, All, List};
ghost use Rattle.query_laws.specs.StepLedger.{Counts};
ghost use Rattle.map_model.specs.Output.{Told};
ghost use Rattle.map_model.specs.Refusal.{NoMemory};
ghost use Rattle.map_model.specs.Reply.{Refused, is_refusal};
ghost use Rattle.map_session.specs.Session.{SessionState, new_session, Obeys};
ghost use Rattle.workload_gen.specs.Made.{made_script};

mod ended;
mod exit;
mod making;
mod reading;

pub use ended::{Ended, Status, run};
pub use exit::{arguments, end};
use map_indexes::{PointIndexes, SegmentIndexes};
use map_session::Session;

/// A session of the program, over all structures.
pub type MapSession = Session<PointIndexes, SegmentIndexes>;

/// As many items as a layer of the program may have.
pub const MOST_ITEMS: usize = 65_536;

/// Where no command of a made script is refused memory, none is refused, a layer having room for its rounds.
pub fn made_scripts_are_refused_memory_alone()
    ensures { (most seed size : ℕ) (before : Counts) (told : List Told) (new : SessionState) (after : Counts) → size ≤ most
        → Obeys (new_session false most) before (made_script seed size) told new after → All (λ (one : Told). one.reply ≢ Refused NoMemory) told
        → All (λ (one : Told). is_refusal one.reply ≡ false) told }
{}
