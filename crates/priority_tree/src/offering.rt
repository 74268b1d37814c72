//! The highest point of a strip: down along both of its ends, leaving each block whose first point isn't better.
ghost use Rattle.std.specs.Prelude.{◌≡◌, ◌+◌, ◌*◌, ◌^◌, ◌≤◌, length, filter, not, IsTrue, MatchOption};
ghost use Rattle.std.specs.Option.{option_to_list};
ghost use Rattle.query_laws.specs.StepLedger.{Spends};
ghost use Rattle.map_shapes.specs.Found.{higher_le};
ghost use Rattle.map_questions.specs.FirstFew.{first_of_both};
ghost use Rattle.priority_tree.specs.Entries.{peak_of, best_of, entries_from};
ghost use Rattle.priority_tree.specs.Tree.{IsBlock, IsHeap, entries_in};
ghost use Rattle.priority_tree.specs.Strips.{is_in, cuts};

use crate::entry::Entry;
use crate::heap::Heap;
use crate::leaf::{LEAF_LEN, Slot};
use crate::strip::Strip;
use map_questions::TopTally;
use query_laws::step_ledger::Steps;
use row_blocks::block_len;
use std::sync::ledger::Ledger;

/// Whether a point comes before the best so far.
#[inline]
pub(crate) fn beats(entry: &Entry, tally: &TopTally) -> bool
    ensures { MatchOption tally.now (IsTrue result) (λ best. result ≡ not (higher_le best (peak_of entry.now))) }
{
    tally.best().is_none_or(|best| entry.peak().before(&best))
}

/// Takes in a point, where it is there and in the strip.
#[inline]
fn offer_entry(entry: Option<Entry>, strip: &Strip, tally: &mut TopTally)
    ensures { tally.new ≡ first_of_both higher_le tally.old (best_of (filter (is_in strip.now) (option_to_list entry))) }
{
    if let Some(entry) = entry {
        if strip.has(entry.place) {
            tally.offer(entry.peak());
        }
    }
}

/// Takes in the points of the strip that stand at neighbouring places.
fn offer_slots(slots: &[Slot], from: usize, strip: &Strip, tally: &mut TopTally)
    requires { from + length slots.now ≤ 2 ^ 32 }
    ensures { tally.new ≡ first_of_both higher_le tally.old (best_of (filter (is_in strip.now) (entries_from from slots.now))) }
{
    let Some((slot, rest)) = slots.split_first() else {
        return;
    };
    offer_entry(slot.entry(from), strip, tally);
    offer_slots(rest, from + 1, strip, tally);
}

impl Heap {
    /// Takes in the points of the strip that stand in a block.
    pub(crate) fn offer<L: Ledger>(
        &self,
        height: u32,
        start: usize,
        strip: &Strip,
        tally: &mut TopTally,
        steps: &mut Steps<L>,
    )
        requires block { IsBlock self.now height start }
        requires heap { IsHeap self.now height start }
        requires ordered { strip.now.from ≤ strip.now.to }
        ensures joined { tally.new ≡ first_of_both higher_le tally.old (best_of (filter (is_in strip.now) (entries_in self.now height start))) }
        ensures cost { Spends steps.old steps.new 0 0 (1 + 2 * (height * cuts strip.now height start)) }
    {
        if strip.misses(height, start) {
            return;
        }
        if height == 0 {
            let leaf = self.leaf(start, steps);
            offer_slots(&leaf.slots, LEAF_LEN * start, strip, tally);
            return;
        }
        let low = height - 1;
        let middle = start + block_len(low);
        let Some(entry) = self.held(middle, steps) else {
            return;
        };
        if !beats(&entry, tally) {
            return;
        }
        if strip.has(entry.place) {
            tally.offer(entry.peak());
            return;
        }
        self.offer(low, start, strip, tally, steps);
        self.offer(low, middle, strip, tally, steps);
    }
}
