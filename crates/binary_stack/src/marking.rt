//! An item that is marked as dead in the part that has it.
ghost use Rattle.std.specs.Prelude.{◌≡◌, ℕ, ◌+◌, ◌-◌, ◌*◌, ◌^◌, ◌≤◌, length};
ghost use Rattle.query_laws.specs.Orders.{AllStampsDiffer};
ghost use Rattle.query_laws.specs.StepLedger.{Spends};
ghost use Rattle.builder_trait.specs.Parts.{OwnsStamp, has_stamp, without};
ghost use Rattle.binary_stack.specs.Levels.{parts_in, parts_of, live_in, items_in, live_items, all_items, HaveAtMost, IsSameLevel, AreMarked};

use builder_trait::Part;
use query_laws::Item;
use query_laws::step_ledger::Steps;
use std::sync::ledger::Ledger;

/// Marks an item as dead in the part that has it, and says whether one has. Parts are asked up to that one, those of the highest level first.
pub(crate) fn mark_in<P: Part, L: Ledger>(
    levels: &mut [Option<P>],
    item: &P::Item,
    steps: &mut Steps<L>,
) -> bool
    requires apart { AllStampsDiffer P.Item.stamp (all_items P.contents levels.old) }
    requires owner { OwnsStamp P.Item.stamp item.now (all_items P.contents levels.old) }
    ensures found { result ≡ has_stamp P.Item.stamp (P.Item.stamp item.now) (live_items P.contents levels.old) }
    ensures marked { AreMarked P.contents P.Item.stamp (P.Item.stamp item.now) levels.old levels.new }
    ensures few { steps.new.marks ≤ steps.old.marks + parts_of levels.old }
    ensures cost { (h : ℕ) → HaveAtMost P.contents (2 ^ h) levels.old → let marks = steps.new.marks - steps.old.marks in
        Spends steps.old steps.new 0 marks (marks * P.mark_touches h) }
{
    match levels.split_first_mut() {
        Some((level, above)) => {
            if mark_in(above, item, steps) {
                return true;
            }
            mark_level(level, item, steps)
        }
        None => false,
    }
}

/// Marks an item as dead in the part of a level, if it has one, and says whether that has the item.
fn mark_level<P: Part, L: Ledger>(
    level: &mut Option<P>,
    item: &P::Item,
    steps: &mut Steps<L>,
) -> bool
    requires { OwnsStamp P.Item.stamp item.now (items_in P.contents level.old) }
    ensures found { result ≡ has_stamp P.Item.stamp (P.Item.stamp item.now) (live_in P.contents level.old) }
    ensures live { live_in P.contents level.new ≡ without P.Item.stamp (P.Item.stamp item.now) (live_in P.contents level.old) }
    ensures same { IsSameLevel P.contents level.old level.new }
    ensures few { steps.new.marks ≤ steps.old.marks + parts_in level.old }
    ensures cost { (h : ℕ) → length (items_in P.contents level.old) ≤ 2 ^ h → let marks = steps.new.marks - steps.old.marks in
        Spends steps.old steps.new 0 marks (marks * P.mark_touches h) }
{
    match level {
        Some(part) => part.mark(item, steps),
        None => false,
    }
}
