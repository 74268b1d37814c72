//! Eleven inserts into a binary counter of parts, and a delete before the fourth.
ghost use Rattle.std.specs.Prelude.{◌≡◌, ◌<◌, ◌^◌, [], All, Contains, OnOk, length};
ghost use Rattle.binary_stack.specs.Levels.{weight_of, live_items, all_items};

use crate::item::Pair;
use crate::stacks::pair;
use crate::sums::SumOfX;
use binary_stack::BinaryStack;
use builder_trait::{Answers, Asking, Builder, Part};
use query_laws::NoMemory;
use query_laws::step_ledger::Steps;
use std::alloc::Global;
use std::sync::ledger::Ledger;

/// Inserts so many items into an empty stack, and gives the number of parts and the turns of all inserts after each.
fn insert_up_to<B: Builder<Item = Pair>, L: Ledger>(
    alloc: Global,
    stack: &mut BinaryStack<B>,
    count: u64,
    steps: &mut Steps<L>,
) -> Result<Vec<(u32, u64)>, NoMemory>
    requires few { count < 2 ^ 10 }
    requires empty { stack.old.levels ≡ [] }
    ensures weight { OnOk result (weight_of stack.new.levels ≡ count) }
    ensures live { OnOk result (length (live_items B.Part.Part.contents stack.new.levels) ≡ count) }
    ensures below { OnOk result (All (λ x. x.stamp < count) (all_items B.Part.Part.contents stack.new.levels)) }
    ensures first { OnOk result (0 < count → Contains (live_items B.Part.Part.contents stack.new.levels) (record { x = 1; y = 2; stamp = 0 })) }
{
    let mut seen = Vec::new(alloc);
    for stamp in 0..count {
        stack.prepare()?;
        stack.insert(pair(stamp), steps);
        seen.push((stack.parts(), stack.spent()))?;
    }
    Ok(seen)
}

/// The numbers of parts and the turns of all inserts after each of eleven; then the sum of `x`, the parts consulted, and their live items.
pub fn counted<B: Builder<Item = Pair>, L: Ledger>(
    alloc: Global,
    steps: &mut Steps<L>,
) -> Result<(Vec<(u32, u64)>, u64, u32, u128), NoMemory>
where
    B::Part: Answers<SumOfX>,
{
    let mut stack = BinaryStack::<B>::new(alloc);
    let seen = insert_up_to(alloc, &mut stack, 11, steps)?;
    let mut asking = Asking::<B::Part, SumOfX>::new(alloc, &SumOfX);
    stack.ask(&mut asking, steps)?;
    let given = asking.finish()?;
    let (consulted, live) = (given.consulted(), given.live());
    Ok((seen, given.into_answer(), consulted, live))
}

/// Three inserts, a delete of the first item, and a fourth insert: the turns and marks of the delete, and the turns of that insert; those of all
/// inserts, the weight, and the live items; the parts, and the spare.
pub fn shrunk<B: Builder<Item = Pair>, L: Ledger>(
    alloc: Global,
    steps: &mut Steps<L>,
) -> Result<([u64; 3], [u64; 3], [u32; 2]), NoMemory> {
    let mut stack = BinaryStack::<B>::new(alloc);
    insert_up_to(alloc, &mut stack, 3, steps)?;
    steps.start_lap();
    stack.delete(&pair(0), steps);
    let deleted = (steps.lap_turns(), steps.lap_marks());
    stack.prepare()?;
    steps.start_lap();
    stack.insert(pair(3), steps);
    Ok((
        [deleted.0, deleted.1, steps.lap_turns()],
        [stack.spent(), stack.weight(), stack.live()],
        [stack.parts(), stack.spare()],
    ))
}
