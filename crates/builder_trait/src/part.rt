//! Parts, and the questions that they answer.
ghost use Rattle.std.specs.Prelude.{◌≡◌, ◌<◌, ◌≤◌, ◌^◌, ◌↔◌, ℕ, List, IsTrue, IfOk, IsErr, length, Some, slice_get};
ghost use Rattle.query_laws.specs.StepLedger.{Spends, one_mark};
ghost use Rattle.builder_trait.specs.Parts.{Contents, IsPart, live_of, in_order, place_of, has_stamp, without, marked, OwnsStamp, IsOutside};

use query_laws::step_ledger::Steps;
use query_laws::{Item, NoMemory, Order, Question, Tally};
use std::sync::ledger::Ledger;

/// A static structure over items in two orders, in which items can be marked as dead (weak deletion, Overmars 1983).
///
/// Indices are from 0 on, in either order. No call takes memory.
pub trait Part: Drop {
    type Item: Item;

    ghost contents: { Self → Contents Self.Item };

    /// The most touches of one mark, at a part of at most `2 ^ h` items.
    ghost mark_touches: { ℕ → ℕ };

    /// How many items there are, dead ones included. It counts nothing.
    fn len(&self) -> usize
        ensures value { result ≡ length (contents self.now).items }
        ensures valid { IsPart Self.Item.before (contents self.now) };

    /// Whether there is no item, dead ones included. It counts nothing.
    fn is_empty(&self) -> bool
        ensures { IsTrue result ↔ (length (contents self.now).items ≡ 0) }
    {
        self.len() == 0
    }

    /// How many live items there are. It counts nothing.
    fn live(&self) -> usize
        ensures { result ≡ length (live_of (contents self.now)) };

    /// The item at an index of an order: two touches at most.
    fn item<L: Ledger>(&self, order: Order, k: usize, steps: &mut Steps<L>) -> Self::Item
        requires { k < length (contents self.now).items }
        ensures value { slice_get (in_order order (contents self.now)) k ≡ Some result }
        ensures cost { Spends steps.old steps.new 0 0 2 };

    /// The place in the first order of the item at an index of an order: two touches at most.
    fn place<L: Ledger>(&self, order: Order, k: usize, steps: &mut Steps<L>) -> usize
        requires { k < length (contents self.now).items }
        ensures value { result ≡ place_of order (contents self.now) k }
        ensures cost { Spends steps.old steps.new 0 0 2 };

    /// Whether the item at a place of the first order is live: one touch or two.
    fn alive<L: Ledger>(&self, k: usize, steps: &mut Steps<L>) -> bool
        requires { k < length (contents self.now).items }
        ensures value { slice_get (contents self.now).flags k ≡ Some result }
        ensures read { steps.old.touches < steps.new.touches }
        ensures cost { Spends steps.old steps.new 0 0 2 };

    /// Marks an item as dead, where it is there and live, and says whether it was. One mark either way, and no touch for an item
    /// that is older than all items, or younger.
    fn mark<L: Ledger>(&mut self, item: &Self::Item, steps: &mut Steps<L>) -> bool
        requires { OwnsStamp Self.Item.stamp item.now (contents self.old).items }
        ensures found { result ≡ has_stamp Self.Item.stamp (Self.Item.stamp item.now) (live_of (contents self.old)) }

        // Where it isn't there and live, this is the part as it was.
        ensures marked { contents self.new ≡ marked Self.Item.stamp (Self.Item.stamp item.now) (contents self.old) }
        ensures live { live_of (contents self.new) ≡ without Self.Item.stamp (Self.Item.stamp item.now) (live_of (contents self.old)) }
        ensures cost { (h : ℕ) → length (contents self.old).items ≤ 2 ^ h → Spends steps.old steps.new 0 1 (mark_touches h) }
        ensures outside { IsOutside Self.Item.stamp item.now (contents self.old).items → steps.new ≡ one_mark steps.old };

    /// The bound doesn't fall where there may be more items.
    ghost mark_touches_rise: { (g h : ℕ) → g ≤ h → mark_touches g ≤ mark_touches h };
}

/// A part that answers a question.
pub trait Answers<Q: Question<Item = Self::Item>>: Part {
    /// The most touches of one call.
    ghost ask_touches: { Q → Self → ℕ };

    /// Joins the answer over the live items to a tally of the question.
    ///
    /// `NoMemory` where the tally wanted memory that wasn't given. The tally is then given up: what it has so far means
    /// nothing.
    fn ask<L: Ledger>(
        &self,
        question: &Q,
        tally: &mut Q::Tally,
        steps: &mut Steps<L>,
    ) -> Result<(), NoMemory>
        requires { Q.owns question.now tally.old }
        ensures owned { Q.owns question.now tally.new }
        ensures joined { IfOk result (λ _. Q.Tally.so_far tally.new
            ≡ Q.join question.now (Q.Tally.so_far tally.old) (Q.value question.now (live_of (Self.contents self.now)))) }
        ensures refused { IsErr result → IsTrue (Q.Tally.can_refuse tally.old) }
        ensures same_refusal { Q.Tally.can_refuse tally.new ≡ Q.Tally.can_refuse tally.old }
        ensures cost { Spends steps.old steps.new 0 0 (ask_touches question.now self.now) }

        // No answer comes without a counted read.
        ensures read { 0 < length (Self.contents self.now).items → steps.old.touches < steps.new.touches };
}
