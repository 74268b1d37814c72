//! The points of a strip that are high: down from each block's place while its point is high enough.
ghost use Rattle.std.specs.Prelude.{◌≡◌, ◌+◌, ◌*◌, ◌^◌, ◌≤◌, ◌++◌, length, filter, OnOk};
ghost use Rattle.std.specs.Option.{option_to_list};
ghost use Rattle.query_laws.specs.StepLedger.{Spends};
ghost use Rattle.priority_tree.specs.Entries.{entries_from};
ghost use Rattle.priority_tree.specs.Tree.{IsBlock, IsHeap, entries_in};
ghost use Rattle.priority_tree.specs.Strips.{is_hit, ids_of, cuts};

use crate::entry::Entry;
use crate::heap::Heap;
use crate::leaf::{LEAF_LEN, Slot};
use crate::strip::Strip;
use map_shapes::IdTally;
use query_laws::NoMemory;
use query_laws::step_ledger::Steps;
use row_blocks::block_len;
use std::sync::ledger::Ledger;

/// Pushes a point's identifier, where it is there, in the strip and high enough.
#[inline]
fn list_entry(
    entry: Option<Entry>,
    strip: &Strip,
    y: u32,
    tally: &mut IdTally,
) -> Result<(), NoMemory>
    ensures { OnOk result (tally.new ≡ tally.old ++ ids_of (filter (is_hit strip.now y) (option_to_list entry))) }
{
    if let Some(entry) = entry {
        if strip.has(entry.place) && entry.reaches(y) {
            tally.push(entry.id)?;
        }
    }
    Ok(())
}

/// Pushes the identifiers of the points at neighbouring places that are in the strip and high enough.
fn list_slots(
    slots: &[Slot],
    from: usize,
    strip: &Strip,
    y: u32,
    tally: &mut IdTally,
) -> Result<(), NoMemory>
    requires { from + length slots.now ≤ 2 ^ 32 }
    ensures { OnOk result (tally.new ≡ tally.old ++ ids_of (filter (is_hit strip.now y) (entries_from from slots.now))) }
{
    let Some((slot, rest)) = slots.split_first() else {
        return Ok(());
    };
    list_entry(slot.entry(from), strip, y, tally)?;
    list_slots(rest, from + 1, strip, y, tally)
}

impl Heap {
    /// Pushes the identifiers of the points of a block that are in the strip and high enough.
    pub(crate) fn list<L: Ledger>(
        &self,
        height: u32,
        start: usize,
        strip: &Strip,
        y: u32,
        tally: &mut IdTally,
        steps: &mut Steps<L>,
    ) -> Result<(), NoMemory>
        requires block { IsBlock self.now height start }
        requires heap { IsHeap self.now height start }
        requires ordered { strip.now.from ≤ strip.now.to }
        ensures listed { OnOk result (tally.new ≡ tally.old ++ ids_of (filter (is_hit strip.now y) (entries_in self.now height start))) }
        ensures cost { Spends steps.old steps.new 0 0
            (1 + 2 * (height * cuts strip.now height start) + 2 * length (filter (is_hit strip.now y) (entries_in self.now height start))) }
    {
        if strip.misses(height, start) {
            return Ok(());
        }
        if height == 0 {
            let leaf = self.leaf(start, steps);
            return list_slots(&leaf.slots, LEAF_LEN * start, strip, y, tally);
        }
        let low = height - 1;
        let middle = start + block_len(low);
        let Some(entry) = self.held(middle, steps) else {
            return Ok(());
        };
        if !entry.reaches(y) {
            return Ok(());
        }
        list_entry(Some(entry), strip, y, tally)?;
        self.list(low, start, strip, y, tally, steps)?;
        self.list(low, middle, strip, y, tally, steps)
    }
}
