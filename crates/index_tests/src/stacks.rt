//! Twelve inserts, a delete after five, and what a store keeps.
ghost use Rattle.std.specs.Prelude.{◌≡◌, ◌<◌, ◌≤◌, ◌^◌, [], Contains, IfOk, OnOk};
ghost use Rattle.log_levels.specs.Levels.{weight_of, live_items};
ghost use Rattle.log_levels.specs.Trades.{AreLent};

use crate::item::Pair;
use crate::sums::SumOfX;
use builder_trait::{Answers, Asking, Builder, Part};
use log_method::{Retired, Stack};
use part_store::Store;
use query_laws::NoMemory;
use query_laws::step_ledger::Steps;
use std::alloc::Global;
use std::sync::ledger::Ledger;

/// The item with a stamp.
pub fn pair(stamp: u64) -> Pair
    ensures { result ≡ record { x = 1; y = 2; stamp = stamp } }
{
    Pair { x: 1, y: 2, stamp }
}

/// Inserts so many items into an empty stack, and gives the number of parts and the weight after each.
fn insert_up_to<B: Builder<Item = Pair>, L: Ledger>(
    alloc: Global,
    stack: &mut Stack<B>,
    store: &mut Store<B>,
    count: u64,
    steps: &mut Steps<L>,
) -> Result<Vec<(u32, u64)>, NoMemory>
    requires few { count < 2 ^ 10 }
    requires empty { stack.old.levels ≡ [] }
    ensures weight { OnOk result (weight_of stack.new.levels ≡ count) }
    ensures first { OnOk result (0 < count → Contains (live_items B.Part.Part.contents stack.new.levels) (record { x = 1; y = 2; stamp = 0 })) }
    ensures lent { OnOk result (AreLent stack.new.levels store.new) }
{
    let mut seen = Vec::new(alloc);
    for stamp in 0..count {
        stack.prepare(store)?;
        stack.insert(pair(stamp), store, steps);
        seen.push((stack.parts(), stack.weight()))?;
    }
    Ok(seen)
}

/// A stack of so many items.
fn filled<B: Builder<Item = Pair>, L: Ledger>(
    alloc: Global,
    store: &mut Store<B>,
    count: u64,
    steps: &mut Steps<L>,
) -> Result<Stack<B>, NoMemory>
    requires { count < 2 ^ 10 }
    ensures weight { IfOk result (λ stack. weight_of stack.levels ≡ count) }
    ensures first { IfOk result (λ stack. 0 < count → Contains (live_items B.Part.Part.contents stack.levels) (record { x = 1; y = 2; stamp = 0 })) }
    ensures lent { IfOk result (λ stack. AreLent stack.levels store.new) }
{
    let mut stack = Stack::<B>::new(alloc);
    insert_up_to(alloc, &mut stack, store, count, steps)?;
    Ok(stack)
}

/// The numbers of parts and the weights after each of twelve inserts; then the sum of `x`, the parts consulted, and their live items.
pub fn traced<B: Builder<Item = Pair>, L: Ledger>(
    alloc: Global,
    steps: &mut Steps<L>,
) -> Result<(Vec<(u32, u64)>, u64, u32, u128), NoMemory>
where
    B::Part: Answers<SumOfX>,
{
    let mut store = Store::<B>::new(alloc);
    let mut stack = Stack::<B>::new(alloc);
    let seen = insert_up_to(alloc, &mut stack, &mut store, 12, steps)?;
    let mut asking = Asking::<B::Part, SumOfX>::new(alloc, &SumOfX);
    stack.ask(&mut asking, steps)?;
    let given = asking.finish()?;
    let (consulted, live) = (given.consulted(), given.live());
    Ok((seen, given.into_answer(), consulted, live))
}

/// Five inserts, and the first item is deleted: the weight, the live items, the parts and the levels after that.
pub fn deleted<B: Builder<Item = Pair>, L: Ledger>(
    alloc: Global,
    steps: &mut Steps<L>,
) -> Result<(u64, u64, u32, u32), NoMemory> {
    let mut store = Store::<B>::new(alloc);
    let mut stack = filled::<B, L>(alloc, &mut store, 5, steps)?;
    stack.prepare(&mut store)?;
    stack.delete(&pair(0), &mut store, steps);
    Ok((stack.weight(), stack.live(), stack.parts(), stack.levels()))
}

/// After so many inserts and a preparation: the weight of what is wanted, and how many builders of levels 0 to 3 are kept.
fn prepared<B: Builder<Item = Pair>, L: Ledger>(
    alloc: Global,
    count: u64,
    steps: &mut Steps<L>,
) -> Result<(u64, [usize; 4]), NoMemory>
    requires { count < 2 ^ 10 }
{
    let mut store = Store::<B>::new(alloc);
    let mut stack = filled::<B, L>(alloc, &mut store, count, steps)?;
    stack.prepare(&mut store)?;
    Ok((
        stack.rooms(),
        [
            store.builders(0),
            store.builders(1),
            store.builders(2),
            store.builders(3),
        ],
    ))
}

/// The same after five, six and nine inserts.
pub fn prepared_thrice<B: Builder<Item = Pair>, L: Ledger>(
    alloc: Global,
    steps: &mut Steps<L>,
) -> Result<[(u64, [usize; 4]); 3], NoMemory> {
    Ok([
        prepared::<B, L>(alloc, 5, steps)?,
        prepared::<B, L>(alloc, 6, steps)?,
        prepared::<B, L>(alloc, 9, steps)?,
    ])
}

/// Gives up so many parts of a retired stack, or all where it has fewer, and gives their number.
fn give_up_all<B: Builder<Item = Pair>>(
    retired: &mut Retired<B>,
    store: &mut Store<B>,
    most: usize,
) -> usize
    requires { AreLent retired.old.levels store.old }
{
    for given in 0..most {
        if retired.is_empty() {
            return given;
        }
        retired.give_up(store);
    }
    most
}

/// A stack of twelve items is retired, and given up part by part: how many parts it had, and how many builders of levels 0 to 3 are kept
/// after it, of how many constructions into level 3 the tables, and of which level the highest is of which something is kept.
pub fn retired<B: Builder<Item = Pair>, L: Ledger>(
    alloc: Global,
    steps: &mut Steps<L>,
) -> Result<(usize, [usize; 4], usize, Option<u32>), NoMemory> {
    let mut store = Store::<B>::new(alloc);
    let stack = filled::<B, L>(alloc, &mut store, 12, steps)?;
    let mut retired = stack.retire();
    let given = give_up_all(&mut retired, &mut store, 64);
    let kept = [
        store.builders(0),
        store.builders(1),
        store.builders(2),
        store.builders(3),
    ];
    Ok((given, kept, store.tables(3), store.highest()))
}
