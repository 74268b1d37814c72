//! A construction of four items, one of which dies after it was read, and one that is given up.
ghost use Rattle.std.specs.Prelude.{◌≡◌, ◌≢◌, [], ◌∷◌, true, IsTrue, IfOk};
ghost use Rattle.query_laws.specs.declared.item.Order.TheVariants.{First, Second};

use crate::pairs::rising_pair;
use builder_trait::{Builder, Part};
use partial_build::{Room, Tables};
use query_laws::step_ledger::Steps;
use query_laws::{Item, NoMemory};
use std::alloc::Global;
use std::sync::ledger::Ledger;

/// Room for a construction into level two.
fn room<B: Builder>(alloc: Global) -> Result<Room<B>, NoMemory>
    ensures { IfOk result (λ room. room ≡ 2) }
{
    let builder = B::room(alloc, 2)?;
    let tables = Tables::room(alloc, 2)?;
    Ok(Room::of(builder, tables))
}

/// A construction of two parts of two items each, one of which dies after the first of four ticks. The turns left, and how many
/// items wait: at first, after that tick, once the item is noted, and after the next tick. Then how many items the new part has and
/// how many are live; the turns and marks of all; and how many turns the next construction on the same tables has left at first, and,
/// after a tick of that, the one in the room that it hands back when it is given up.
pub fn built<B: Builder, L: Ledger>(
    alloc: Global,
    first: B::Item,
    second: B::Item,
    third: B::Item,
    fourth: B::Item,
    steps: &mut Steps<L>,
) -> Result<([u64; 4], [usize; 4], [u64; 6]), NoMemory>
    requires rising_a { IsTrue (B.Item.before First first third) × IsTrue (B.Item.before Second first third) }
    requires rising_b { IsTrue (B.Item.before First second fourth) × IsTrue (B.Item.before Second second fourth) }
    requires apart_first { (B.Item.stamp first ≢ B.Item.stamp second) × (B.Item.stamp first ≢ B.Item.stamp fourth) }
    requires apart_third { (B.Item.stamp third ≢ B.Item.stamp second) × (B.Item.stamp third ≢ B.Item.stamp fourth) }
    requires within_a { B.Item.stamp first ≢ B.Item.stamp third }
    requires within_b { B.Item.stamp second ≢ B.Item.stamp fourth }
{
    let mut a: B::Part = rising_pair::<B, L>(alloc, first, third, steps)?;
    let b: B::Part = rising_pair::<B, L>(alloc, second, fourth, steps)?;
    let builder = B::room(alloc, 2)?;
    steps.start_lap();
    let mut build = room::<B>(alloc)?.begin(&a, &b);
    let begun = (build.turns_left(), build.waiting());
    build.tick(&a, &b, steps);
    let ticked = (build.turns_left(), build.waiting());
    a.mark(&first, steps);
    build.note(&first);
    let noted = (build.turns_left(), build.waiting());
    build.tick(&a, &b, steps);
    let drained = (build.turns_left(), build.waiting());
    build.tick(&a, &b, steps);
    build.tick(&a, &b, steps);
    let (part, tables) = build.publish();
    let mut again = Room::of(builder, tables).begin(&a, &b);
    let left_again = again.turns_left();
    again.tick(&a, &b, steps);
    let third = again.abandon().begin(&a, &b);
    Ok((
        [begun.0, ticked.0, noted.0, drained.0],
        [begun.1, ticked.1, noted.1, drained.1],
        [
            part.len() as u64,
            part.live() as u64,
            steps.lap_turns(),
            steps.lap_marks(),
            left_again,
            third.turns_left(),
        ],
    ))
}
