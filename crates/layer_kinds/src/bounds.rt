//! What an update and a question of a layer may cost.
ghost use Rattle.std.specs.Prelude.{◌≡◌, ◌+◌, ◌*◌, ◌^◌, ◌<◌, ◌≤◌, length};
ghost use Rattle.query_laws.specs.StepLedger.{lap_of};
ghost use Rattle.map_model.specs.Cost.{Adds, Moves, greatest_level, parts_up_to, turns_up_to};
ghost use Rattle.layer_kinds.specs.Costs.{turns_of, marks_of};

use crate::Indexes;
use map_shapes::Spent;
use query_laws::step_ledger::Steps;
use std::sync::ledger::Ledger;

/// The most that one update of a layer may cost, a move more than the others, and the most parts that a question may be put to.
#[derive(Clone, Copy, Debug, PartialEq, Eq)]
pub struct Bounds {
    pub turns: u64,
    pub marks: u64,
    pub move_turns: u64,
    pub move_marks: u64,
    pub parts: u32,
}

impl Bounds {
    /// Those of a layer of so many live items, over four indexes at most.
    #[tactic(auto, using(crate::proofs::WithinBounds::share_same, crate::proofs::WithinBounds::count_few))]
    pub fn new<X: Indexes>(live: usize, indexes: &X) -> Bounds
        requires few { live ≤ 2 ^ 24 }
        requires few_indexes { length (X.rates indexes.now) ≤ 4 }
        ensures turns { result.turns ≡ turns_of Adds (X.rates indexes.now) live }
        ensures marks { result.marks ≡ marks_of Adds (X.rates indexes.now) live }
        ensures move_turns { result.move_turns ≡ turns_of Moves (X.rates indexes.now) live }
        ensures move_marks { result.move_marks ≡ marks_of Moves (X.rates indexes.now) live }
        ensures parts { result.parts ≡ parts_up_to (greatest_level live) }
        ensures few_turns { result.turns < 2 ^ 32 }
        ensures few_marks { result.marks < 2 ^ 32 }
        ensures few_move_turns { result.move_turns < 2 ^ 32 }
        ensures few_move_marks { result.move_marks < 2 ^ 32 }
    {
        let level = greatest_level(live as u64);
        let height = u64::from(level);
        let count = indexes.count();
        Bounds {
            turns: indexes.turns_up_to(6, level),
            marks: count * (18 * height + 6),
            move_turns: indexes.turns_up_to(7, level),
            move_marks: count * (20 * height + 6),
            parts: 3 * (level + 1),
        }
    }
}

/// The most turns of so many ticks in an index of this slope and base, at all levels up to one.
#[tactic(auto, using(crate::proofs::Turns::few_turns, crate::proofs::Turns::low_turns))]
pub(crate) fn turns_up_to(ticks: u64, slope: u64, base: u64, level: u32) -> u64
    requires few_ticks { ticks ≤ 7 }
    requires low_slope { slope ≤ 20 }
    requires low_base { base ≤ 60 }
    requires few_levels { level ≤ 25 }
    ensures value { result ≡ turns_up_to ticks (record { slope = slope; base = base }) level }
    ensures low { result ≤ 2 ^ 16 }
{
    let height = u64::from(level);
    ticks * (slope * (height * height) + (slope + 2 * base + 8) * height + base + 4) / 2
}

/// The greatest h such that `2^h` is at most twice the live count and ten: no part is of a higher level.
fn greatest_level(live: u64) -> u32
    requires few { live ≤ 2 ^ 24 }
    ensures level { result ≡ greatest_level live }
    ensures low { result < 26 }
{
    (2 * live + 10).ilog2()
}

/// What an update cost: the lap, beside the most turns and marks.
pub fn spent<L: Ledger>(turn_bound: u64, mark_bound: u64, steps: &Steps<L>) -> Spent
    ensures { result ≡ record {
      turns = lap_of steps.now.lap_start.turns steps.now.turns;
      turn_bound = turn_bound;
      marks = lap_of steps.now.lap_start.marks steps.now.marks;
      mark_bound = mark_bound;
    } }
{
    Spent {
        turns: steps.lap_turns(),
        turn_bound,
        marks: steps.lap_marks(),
        mark_bound,
    }
}
