//! Builders, which make a part turn by turn.
ghost use Rattle.std.specs.Prelude.{◌≡◌, ◌<◌, ◌≤◌, ◌-◌, ◌*◌, ◌%◌, ℕ, false, true, IfOk, length};
ghost use Rattle.query_laws.specs.StepLedger.{Spends};
ghost use Rattle.query_laws.specs.declared.item.Order.TheVariants.{First, Second};
ghost use Rattle.builder_trait.specs.Parts.{live_of};
ghost use Rattle.builder_trait.specs.Builders.{Progress, begun, FitsFirst, FitsSecond, with_put, sealed_with, all_live, IsQuota};

use crate::part::Part;
use query_laws::step_ledger::Steps;
use query_laws::{Item, NoMemory, Order};
use std::alloc::Global;
use std::sync::ledger::Ledger;

/// A part under construction: first the items are put, in the first order and then in the second order, then the builder is sealed, and then
/// each turn does one unit of the work that is left (Overmars and van Leeuwen 1981).
///
/// Only `room` takes memory. Once a part is of no use, `recycle` makes a builder of its memory; and `restart` does of a builder that is given up
/// before its end. So whoever keeps builders is handed all memory back, and none is freed whole.
pub trait Builder: Drop + Sized {
    type Item: Item;

    type Part: Part<Item = Self::Item>;

    /// For n items at level i the turns after the seal are at most half of `2^i * (SLOPE * i + BASE)`.
    const SLOPE: u64;

    const BASE: u64;

    ghost SLOPE: { ℕ };

    ghost BASE: { ℕ };

    ghost progress: { Self → Progress Self.Item };

    /// A builder with room for `2^level` items.
    ///
    /// `NoMemory` where memory for them isn't given.
    fn room(alloc: Global, level: u32) -> Result<Self, NoMemory>
        requires { level < 32 }
        ensures { IfOk result (λ builder. progress builder ≡ begun level) };

    /// Puts the next item of an order, with its place in the first order: one turn, and eight touches at most.
    fn put<L: Ledger>(&mut self, order: Order, item: Self::Item, place: usize, steps: &mut Steps<L>)
        requires open { (progress self.old).is_sealed ≡ false }
        requires first { order ≡ First → FitsFirst (Self.Item.before First) (progress self.old) item place }
        requires second { order ≡ Second → FitsSecond (Self.Item.before Second) (progress self.old) item place }
        ensures added { progress self.new ≡ with_put order item place (progress self.old) }
        ensures cost { Spends steps.old steps.new 1 0 8 };

    /// Ends the puts, once each item was put in both orders. It counts nothing.
    fn seal(&mut self)
        requires open { (progress self.old).is_sealed ≡ false }
        requires complete { length (progress self.old).reordered ≡ length (progress self.old).items }
        ensures closed { progress self.new ≡ sealed_with (progress self.new).left (progress self.old) }
        ensures quota { IsQuota SLOPE BASE (progress self.old).at_level (length (progress self.old).items) (progress self.new).left };

    /// How many turns are left: zero before the seal. It counts nothing.
    fn left(&self) -> u64
        ensures { result ≡ (progress self.now).left };

    /// Does one unit of the work: one turn, and sixteen touches at most.
    fn turn<L: Ledger>(&mut self, steps: &mut Steps<L>)
        requires closed { (progress self.old).is_sealed ≡ true }
        requires more { 0 < (progress self.old).left }
        ensures done { progress self.new ≡ sealed_with ((progress self.old).left - 1) (progress self.old) }
        ensures cost { Spends steps.old steps.new 1 0 16 };

    /// Takes so many turns: sixteen touches at most each.
    fn turns<L: Ledger>(&mut self, count: u64, steps: &mut Steps<L>)
        requires closed { (progress self.old).is_sealed ≡ true }
        requires enough { count ≤ (progress self.old).left }
        ensures done { progress self.new ≡ sealed_with ((progress self.old).left - count) (progress self.old) }
        ensures cost { Spends steps.old steps.new count 0 (16 * count) }
    {
        for _taken in 0..count {
            self.turn(steps);
        }
    }

    /// The part of all that was put, each item live. It counts nothing.
    fn finish(self) -> Self::Part
        requires closed { (progress self).is_sealed ≡ true }
        requires ended { (progress self).left ≡ 0 }
        ensures whole { Self.Part.contents result ≡ all_live (progress self) }
        ensures live { live_of (Self.Part.contents result) ≡ (progress self).items };

    /// A builder of the part's level to which nothing was put, on the memory of the part. It takes no memory, frees none, and
    /// counts nothing.
    fn recycle(part: Self::Part) -> Self
        ensures { progress result ≡ begun (Self.Part.contents part).at_level };

    /// The same of a builder, at any time: what was put is taken out. It takes no memory, frees none, and counts nothing; each row is
    /// emptied in one step, however much it holds.
    fn restart(self) -> Self
        ensures { progress result ≡ begun (progress self).at_level };

    /// The base is even, so that its half is a number of turns; and both numbers are small.
    ghost base_even: { BASE % 2 ≡ 0 };

    ghost small: { (SLOPE ≤ 4096) × (BASE ≤ 4096) };
}
