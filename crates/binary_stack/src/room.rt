//! The memory in which a part is built of two, and the builds themselves.
ghost use Rattle.std.specs.Prelude.{◌≡◌, ℕ, ◌+◌, ◌-◌, ◌*◌, ◌<◌, ◌≤◌, ◌^◌, ◌∷◌, ◌++◌, [], List, true, false, IfOk, IfSome, length};
ghost use Rattle.std.specs.Option.{is_some};
ghost use Rattle.query_laws.specs.Permuted.{Permuted};
ghost use Rattle.query_laws.specs.StepLedger.{Spends};
ghost use Rattle.builder_trait.specs.Parts.{live_of};
ghost use Rattle.builder_trait.specs.Builders.{begun, all_live, IsQuota};
ghost use Rattle.ordered_merge.specs.Merging.{StampsDiffer, unbegun};
ghost use Rattle.binary_stack.specs.Charge.{charge_at};

use builder_trait::{Builder, Part};
use ordered_merge::Merge;
use query_laws::step_ledger::Steps;
use query_laws::{Item, NoMemory, Order};
use std::alloc::Global;
use std::collections::VecDeque;
use std::marker::Model;
use std::sync::ledger::Ledger;

/// All the memory that is needed to join two parts of at most `2^(size - 1)` items each: that of a construction (`partial_build::Room`) but for a
/// list of items that wait, since none dies meanwhile.
///
/// Contracts see it as its size.
#[derive(Drop)]
pub(crate) struct Room<B: Builder> {
    size: u32,
    builder: B,
    merge: Merge<B>,
}

impl<B: Builder> Model for Room<B> {
    ghost use Rattle.std.specs.Prelude.{ℕ, ◌≡◌, ◌-◌, ◌^◌, ◌<◌, ◌≤◌};
    ghost use Rattle.builder_trait.specs.Builders.{begun};
    ghost use Rattle.ordered_merge.specs.Merging.{unbegun};

    ghost Value = { ℕ };

    ghost view = { λ r. r.size };

    ghost invariant = { λ r. (1 ≤ r.size) × (r.size < 32) × (B.progress r.builder ≡ begun r.size) × (r.merge ≡ unbegun (2 ^ (r.size - 1))) };
}

impl<B: Builder> Room<B> {
    /// A room of this size.
    ///
    /// `NoMemory` where memory for it isn't given.
    pub(crate) fn new(alloc: Global, size: u32) -> Result<Room<B>, NoMemory>
        requires least { 1 ≤ size }
        requires most { size < 32 }
        ensures { IfOk result (λ room. room ≡ size) }
    {
        let builder = B::room(alloc, size)?;
        let merge = Merge::room(alloc, size)?;
        Ok(Room {
            size,
            builder,
            merge,
        })
    }

    /// The part of the live items of two, and how many turns it took: sixteen touches at most each.
    fn join<L: Ledger>(self, a: &B::Part, b: &B::Part, steps: &mut Steps<L>) -> (B::Part, u64)
        requires fits { length (B.Part.Part.contents a.now).items ≤ 2 ^ (self - 1) }
        requires other_fits { length (B.Part.Part.contents b.now).items ≤ 2 ^ (self - 1) }
        requires differ { StampsDiffer B.Item.stamp (B.Part.Part.contents a.now).items (B.Part.Part.contents b.now).items }
        ensures items { Permuted (B.Part.Part.contents result.0).items
            (live_of (B.Part.Part.contents a.now) ++ live_of (B.Part.Part.contents b.now)) }
        ensures live { live_of (B.Part.Part.contents result.0) ≡ (B.Part.Part.contents result.0).items }
        ensures charged { 2 * result.1 ≤ charge_at B.SLOPE B.BASE self }
        ensures few { result.1 < 2 ^ 50 }
        ensures cost { Spends steps.old steps.new result.1 0 (16 * result.1) }
    {
        let Room {
            size: _,
            mut builder,
            mut merge,
        } = self;
        merge.begin(a, b);
        let read = merge.left();
        merge.turns(read, a, b, &mut builder, steps);
        let (part, built) = complete(builder, steps);
        let turns = read + built;
        (part, turns)
    }
}

/// The part of all that was put into a builder, and how many turns it took after the puts: sixteen touches at most each.
fn complete<B: Builder, L: Ledger>(builder: B, steps: &mut Steps<L>) -> (B::Part, u64)
    requires open { (B.progress builder).is_sealed ≡ false }
    requires complete { length (B.progress builder).reordered ≡ length (B.progress builder).items }
    ensures whole { B.Part.Part.contents result.0 ≡ all_live (B.progress builder) }
    ensures live { live_of (B.Part.Part.contents result.0) ≡ (B.progress builder).items }
    ensures quota { IsQuota B.SLOPE B.BASE (B.progress builder).at_level (length (B.progress builder).items) result.1 }
    ensures cost { Spends steps.old steps.new result.1 0 (16 * result.1) }
{
    let mut builder = builder;
    builder.seal();
    let turns = builder.left();
    builder.turns(turns, steps);
    (builder.finish(), turns)
}

/// A part of one item, by a builder that stands ready. Its turns are added to those that were spent.
pub(crate) fn part_of<B: Builder, L: Ledger>(
    starter: &mut Option<B>,
    item: B::Item,
    spent: &mut u64,
    steps: &mut Steps<L>,
) -> B::Part
    requires some { is_some starter.old ≡ true }
    requires begun { IfSome starter.old (λ builder. B.progress builder ≡ begun 0) }
    requires few { spent.old + 2 ^ 50 < 2 ^ 64 }
    ensures items { (B.Part.Part.contents result).items ≡ item ∷ [] }
    ensures live { live_of (B.Part.Part.contents result) ≡ item ∷ [] }
    ensures risen { spent.old + 3 ≤ spent.new }
    ensures charged { 2 * spent.new ≤ 2 * spent.old + charge_at B.SLOPE B.BASE 0 }
    ensures few { spent.new ≤ spent.old + 2 ^ 50 }
    ensures cost { let turns = spent.new - spent.old in Spends steps.old steps.new turns 0 (16 * turns) }
{
    match starter.take() {
        Some(builder) => {
            let (part, turns) = single(builder, item, steps);
            *spent += turns;
            part
        }
        None => unreachable!(),
    }
}

/// A part of one item, and how many turns it took, which `builder_trait::at_once` doesn't tell.
fn single<B: Builder, L: Ledger>(builder: B, item: B::Item, steps: &mut Steps<L>) -> (B::Part, u64)
    requires { B.progress builder ≡ begun 0 }
    ensures items { (B.Part.Part.contents result.0).items ≡ item ∷ [] }
    ensures live { live_of (B.Part.Part.contents result.0) ≡ item ∷ [] }
    ensures level { (B.Part.Part.contents result.0).at_level ≡ 0 }
    ensures some { 3 ≤ result.1 }
    ensures charged { 2 * result.1 ≤ charge_at B.SLOPE B.BASE 0 }
    ensures few { result.1 < 2 ^ 50 }
    ensures cost { Spends steps.old steps.new result.1 0 (16 * result.1) }
{
    let mut builder = builder;
    builder.put(Order::First, item, 0, steps);
    builder.put(Order::Second, item, 0, steps);
    let (part, built) = complete(builder, steps);
    let turns = 2 + built;
    (part, turns)
}

/// The part of the live items of two, by the first of some rooms. Its turns are added to those that were spent.
pub(crate) fn join_in<B: Builder, L: Ledger>(
    rooms: &mut VecDeque<Room<B>>,
    a: &B::Part,
    b: &B::Part,
    spent: &mut u64,
    steps: &mut Steps<L>,
) -> B::Part
    requires room { (size : ℕ) × (rest : List ℕ) × (rooms.old.items ≡ size ∷ rest)
        × (length (B.Part.Part.contents a.now).items ≤ 2 ^ (size - 1)) × (length (B.Part.Part.contents b.now).items ≤ 2 ^ (size - 1)) }
    requires differ { StampsDiffer B.Item.stamp (B.Part.Part.contents a.now).items (B.Part.Part.contents b.now).items }
    requires few { spent.old + 2 ^ 50 < 2 ^ 64 }
    ensures items { Permuted (B.Part.Part.contents result).items
        (live_of (B.Part.Part.contents a.now) ++ live_of (B.Part.Part.contents b.now)) }
    ensures live { live_of (B.Part.Part.contents result) ≡ (B.Part.Part.contents result).items }
    ensures rooms { (size : ℕ) (rest : List ℕ) → rooms.old.items ≡ size ∷ rest → rooms.new.items ≡ rest }
    ensures charged { (size : ℕ) (rest : List ℕ) → rooms.old.items ≡ size ∷ rest
        → 2 * spent.new ≤ 2 * spent.old + charge_at B.SLOPE B.BASE size }
    ensures risen { spent.old ≤ spent.new }
    ensures few { spent.new ≤ spent.old + 2 ^ 50 }
    ensures cost { let turns = spent.new - spent.old in Spends steps.old steps.new turns 0 (16 * turns) }
{
    match rooms.pop_front() {
        Some(room) => {
            let (part, turns) = room.join(a, b, steps);
            *spent += turns;
            part
        }
        None => unreachable!(),
    }
}
