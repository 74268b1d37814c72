//! A part that is carried up through levels.
ghost use Rattle.std.specs.Prelude.{◌≡◌, ℕ, ◌+◌, ◌-◌, ◌*◌, ◌<◌, ◌≤◌, ◌^◌, ◌++◌, length, vec_capacity};
ghost use Rattle.query_laws.specs.Orders.{AllStampsDiffer};
ghost use Rattle.query_laws.specs.StepLedger.{Spends};
ghost use Rattle.builder_trait.specs.Parts.{live_of};
ghost use Rattle.binary_stack.specs.Charge.{charge_at, charge_of};
ghost use Rattle.binary_stack.specs.Levels.{weight_of, live_items, all_items, AreLevels, IsTakenIn, IsCarried, raised};
ghost use Rattle.binary_stack.specs.Rooms.{AreWithin, HaveRooms};

use crate::room::{Room, join_in};
use builder_trait::{Builder, Part};
use query_laws::Item;
use query_laws::step_ledger::Steps;
use std::collections::VecDeque;
use std::sync::ledger::Ledger;

/// Takes in a part of level 0, all of whose items live. The turns of the parts that are built are added to those that were spent.
pub(crate) fn take_in<B: Builder, L: Ledger>(
    levels: &mut Vec<Option<B::Part>>,
    rooms: &mut VecDeque<Room<B>>,
    part: B::Part,
    spent: &mut u64,
    steps: &mut Steps<L>,
)
    requires place { length levels.old.items < vec_capacity levels.old }
    requires fresh { live_of (B.Part.Part.contents part) ≡ (B.Part.Part.contents part).items }
    requires apart { AllStampsDiffer B.Item.stamp ((B.Part.Part.contents part).items ++ all_items B.Part.Part.contents levels.old.items) }
    requires few { length (B.Part.Part.contents part).items + length (live_items B.Part.Part.contents levels.old.items) ≤ 2 ^ 30 }
    requires rooms { HaveRooms B.Part.Part.contents (length (B.Part.Part.contents part).items) levels.old.items rooms.old.items }
    requires small { spent.old + 2 ^ 50 * length levels.old.items < 2 ^ 64 }
    ensures taken_in { IsTakenIn B.Part.Part.contents (B.Part.Part.contents part).items levels.old.items levels.new.items }
    ensures one_more { length levels.new.items ≤ length levels.old.items + 1 }
    ensures higher { length levels.old.items < length levels.new.items → weight_of levels.new.items ≡ 2 ^ length levels.old.items }
    ensures charged { (i : ℕ) → AreLevels B.Part.Part.contents i levels.old.items → length (B.Part.Part.contents part).items ≤ 2 ^ i
        → AreWithin i rooms.old.items → 2 * spent.new + charge_at B.SLOPE B.BASE i + charge_of B.SLOPE B.BASE i levels.old.items
        ≤ 2 * spent.old + charge_of B.SLOPE B.BASE i levels.new.items }
    ensures risen { spent.old ≤ spent.new }
    ensures cost { let turns = spent.new - spent.old in Spends steps.old steps.new turns 0 (16 * turns) }
{
    let top = carry(levels, rooms, part, spent, steps);
    put_on_top(levels, top);
}

/// Puts a part on top of levels, if there is one.
fn put_on_top<P: Drop>(levels: &mut Vec<Option<P>>, top: Option<P>)
    requires { length levels.old.items < vec_capacity levels.old }
    ensures { levels.new.items ≡ raised top levels.old.items }
{
    match top {
        Some(part) => levels.push_reserved(Some(part)),
        None => {}
    }
}

/// Carries a part up from the lowest of some levels: it is joined with the part of each that has one, and stays at the first that has none. What
/// is carried past the highest is given back.
fn carry<B: Builder, L: Ledger>(
    levels: &mut [Option<B::Part>],
    rooms: &mut VecDeque<Room<B>>,
    part: B::Part,
    spent: &mut u64,
    steps: &mut Steps<L>,
) -> Option<B::Part>
    requires fresh { live_of (B.Part.Part.contents part) ≡ (B.Part.Part.contents part).items }
    requires apart { AllStampsDiffer B.Item.stamp ((B.Part.Part.contents part).items ++ all_items B.Part.Part.contents levels.old) }
    requires few { length (B.Part.Part.contents part).items + length (live_items B.Part.Part.contents levels.old) ≤ 2 ^ 30 }
    requires rooms { HaveRooms B.Part.Part.contents (length (B.Part.Part.contents part).items) levels.old rooms.old.items }
    requires small { spent.old + 2 ^ 50 * length levels.old < 2 ^ 64 }
    ensures carried { IsCarried B.Part.Part.contents (B.Part.Part.contents part).items levels.old result levels.new }
    ensures charged { (i : ℕ) → AreLevels B.Part.Part.contents i levels.old → length (B.Part.Part.contents part).items ≤ 2 ^ i
        → AreWithin i rooms.old.items → 2 * spent.new + charge_at B.SLOPE B.BASE i + charge_of B.SLOPE B.BASE i levels.old
        ≤ 2 * spent.old + charge_of B.SLOPE B.BASE i (raised result levels.new) }
    ensures risen { spent.old ≤ spent.new }
    ensures cost { let turns = spent.new - spent.old in Spends steps.old steps.new turns 0 (16 * turns) }
{
    let Some((level, above)) = levels.split_first_mut() else {
        return Some(part);
    };
    let Some(other) = level.take() else {
        *level = Some(part);
        return None;
    };
    let joined = join_in(rooms, &part, &other, spent, steps);
    carry(above, rooms, joined, spent, steps)
}
