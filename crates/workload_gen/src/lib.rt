//! Made scripts, by a seed and a size, and the summary of what they are answered.
//!
//! A script is of version 1. It makes one layer of points with every index, and then adds, drops and asks. What comes is drawn from seeded
//! numbers, and doesn't look at replies: where memory is refused, what comes after may be refused too.
//!
//! A made script goes to the session as commands, and its summary to the sink at once: no line is written that could be cut.
#![tactic(auto)]

ghost use Rattle.std.specs.Prelude.{◌≡◌, ◌+◌, ◌≤◌, ℕ, [], ◌∷◌, length};
ghost use Rattle.map_model.specs.Answer.{Top};
ghost use Rattle.map_model.specs.Command.{Add, Ask, Drop};
ghost use Rattle.map_model.specs.Shape.{Point};
ghost use Rattle.map_model.specs.State.{empty_map_of};
ghost use Rattle.workload_gen.specs.Accepted.{AreAccepted};
ghost use Rattle.workload_gen.specs.Made.{layer, made, made_script, stepped, upper_half};

mod generator;
mod maker;
mod summary;
mod workload;

pub use generator::Generator;
pub use maker::layer_name;
pub use summary::Summary;
pub use workload::Workload;

/// A made script has a command more than rounds.
pub fn scripts_have_a_command_more()
    ensures { (seed size : ℕ) → length (made_script seed size) ≡ size + 1 }
{}

/// However many items a layer may have, the machine refuses no command of a made script of at most so many rounds.
pub fn made_scripts_are_accepted()
    ensures { (most seed size : ℕ) → size ≤ most → AreAccepted (empty_map_of most) (made_script seed size) }
{}

/// The first draw of seed 0, and the commands of its first four rounds: computed.
pub fn worked_script()
    ensures draw { upper_half (stepped 0) ≡ 335903614 }
    ensures script { made_script 0 4
        ≡ layer
        ∷ Add made 0 (Point 106638 634727 410)
        ∷ Add made 1 (Point 588103 82953 364)
        ∷ Ask made (Top 468270 533805)
        ∷ Drop made 1
        ∷ [] }
{}
