//! A merge of two flat parts of two items each, one of which dies after it was read, and one before.
ghost use Rattle.std.specs.Prelude.{◌≡◌, ◌≢◌, IsTrue, false, length};
ghost use Rattle.query_laws.specs.declared.item.Order.TheVariants.{First, Second};
ghost use Rattle.ordered_merge.specs.Merging.{MergesInto};

use crate::pairs::{rising_pair, sealed};
use builder_trait::{Builder, Part, Profiled};
use ordered_merge::Merge;
use query_laws::step_ledger::Steps;
use query_laws::{Item, NoMemory, Order};
use std::alloc::Global;
use std::sync::ledger::Ledger;

/// The turns left at the beginning, after two of them, and once the merge is cleared; which of the four items the first order had passed after two
/// turns; whether all was done, and after how many turns; and the stamps of the part of both, in the first order and then in the second.
#[derive(Drop)]
pub struct MergeFindings {
    pub left: [u64; 3],
    pub passed: [bool; 4],
    pub done: bool,
    pub turns: u64,
    pub stamps: Vec<u64>,
}

/// Takes all turns that are left, and says whether all is done.
fn run<B: Builder, L: Ledger>(
    merge: &mut Merge<B>,
    a: &B::Part,
    b: &B::Part,
    builder: &mut B,
    steps: &mut Steps<L>,
) -> bool
    requires { MergesInto B.Part.Part.contents B.progress ⟦<B as Profiled>⟧.profile merge.old a.now b.now builder.old }
    ensures open { (B.progress builder.new).is_sealed ≡ false }
    ensures complete { length (B.progress builder.new).reordered ≡ length (B.progress builder.new).items }
{
    // By their contracts both are parts.
    let _lengths = (a.len(), b.len());
    let left = merge.left();
    merge.turns(left, a, b, builder, steps);
    merge.done()
}

/// Adds the stamps of a part in an order.
fn add_stamps<P: Part, L: Ledger>(
    stamps: &mut Vec<u64>,
    order: Order,
    part: &P,
    steps: &mut Steps<L>,
) -> Result<(), NoMemory> {
    for k in 0..part.len() {
        stamps.push(part.item(order, k, steps).stamp())?;
    }
    Ok(())
}

/// The parts of the first and the third item, and of the second and the fourth, merged. After two turns the first item dies, and the fourth.
pub fn merged<B: Builder, L: Ledger>(
    alloc: Global,
    first: B::Item,
    second: B::Item,
    third: B::Item,
    fourth: B::Item,
    steps: &mut Steps<L>,
) -> Result<MergeFindings, NoMemory>
    requires rising_a { IsTrue (B.Item.before First first third) × IsTrue (B.Item.before Second first third) }
    requires rising_b { IsTrue (B.Item.before First second fourth) × IsTrue (B.Item.before Second second fourth) }
    requires apart_first { (B.Item.stamp first ≢ B.Item.stamp second) × (B.Item.stamp first ≢ B.Item.stamp fourth) }
    requires apart_third { (B.Item.stamp third ≢ B.Item.stamp second) × (B.Item.stamp third ≢ B.Item.stamp fourth) }
    requires within_a { B.Item.stamp first ≢ B.Item.stamp third }
    requires within_b { B.Item.stamp second ≢ B.Item.stamp fourth }
{
    let mut a: B::Part = rising_pair::<B, L>(alloc, first, third, steps)?;
    let mut b: B::Part = rising_pair::<B, L>(alloc, second, fourth, steps)?;
    let mut merge = Merge::<B>::room(alloc, 2)?;
    let mut builder = B::room(alloc, 2)?;
    steps.start_lap();
    merge.begin(&a, &b);
    let begun = merge.left();
    merge.turns(2, &a, &b, &mut builder, steps);
    let left = merge.left();
    a.mark(&first, steps);
    b.mark(&fourth, steps);
    let passed = [
        merge.passed(&first),
        merge.passed(&second),
        merge.passed(&third),
        merge.passed(&fourth),
    ];
    let done = run(&mut merge, &a, &b, &mut builder, steps);
    let turns = steps.lap_turns();
    merge.clear();
    let (_turns, part) = sealed(builder, steps);
    let mut stamps = Vec::new(alloc);
    add_stamps(&mut stamps, Order::First, &part, steps)?;
    add_stamps(&mut stamps, Order::Second, &part, steps)?;
    Ok(MergeFindings {
        left: [begun, left, merge.left()],
        passed,
        done,
        turns,
        stamps,
    })
}
