//! Leaves: the spots of eight points, and which of them are live.
ghost use Rattle.std.specs.Prelude.{◌≡◌, ℕ, ◌+◌, ◌*◌, ◌/◌, ◌^◌, ◌<◌, ◌≤◌, true, false, Bool, List, [], IfOk, length, Some, slice_get, slice_set};
ghost use Rattle.query_laws.specs.StepLedger.{Spends};
ghost use Rattle.builder_trait.specs.Parts.{Contents};
ghost use Rattle.map_shapes.specs.declared.point.Point.{Point};
ghost use Rattle.kd_tree.specs.declared.spot.Spot.{Spot};
ghost use Rattle.kd_tree.specs.declared.area.Area.{Area};
ghost use Rattle.kd_tree.specs.Areas.{Has, IsInside, IsBox, spot_of};
ghost use Rattle.kd_tree.specs.Heights.{span};
ghost use Rattle.kd_tree.specs.Blocks.{AreSpots, AreLive, AreLeavesOf, AllLive, IsLeastBox};
ghost use Rattle.kd_tree.specs.Leaves.{HasLive};

use crate::area::Area;
use crate::height::LEAF;
use crate::spot::Spot;
use query_laws::NoMemory;
use query_laws::step_ledger::{Row, Steps};
use std::alloc::Global;
use std::mem::size_of;
use std::sync::ledger::Ledger;

/// The leaves over some positions: one entry for the spots of eight of them, and one for which are live.
#[derive(Drop)]
pub(crate) struct Leaves {
    pub(crate) spots: Row<[Spot; 8]>,
    pub(crate) live: Row<[bool; 8]>,
}

// A touch reads or writes one entry, of at most 64 bytes.
const _: () = prove!(size_of::<[Spot; 8]>() <= 64);

const _: () = prove!(size_of::<[bool; 8]>() <= 64);

/// The least box with another and a spot, if it is live.
#[inline]
fn with_live(area: &Area, spot: &Spot, live: bool) -> Area
    ensures more { live ≡ true → Has result spot.now }
    ensures kept { (other : Spot) → Has area.now other → Has result other }
    ensures least { (all : Area) → IsInside area.now all → (live ≡ true → Has all spot.now) → IsInside result all }
{
    if live { area.with(spot) } else { *area }
}

/// The least box of the live ones of the first so many slots.
fn hull(spots: &[Spot; 8], live: &[bool; 8], count: usize) -> Area
    requires { count ≤ 8 }
    ensures has { HasLive spots.now live.now count result }
    ensures least { (all : Area) → IsBox all → HasLive spots.now live.now count all → IsInside result all }
{
    let mut area = Area::nothing();
    for slot in 0..count {
        area = with_live(&area, &spots[slot], live[slot]);
    }
    area
}

/// Puts a spot into a slot.
#[inline]
fn put_spot(spots: &mut [Spot; 8], slot: usize, spot: Spot)
    requires { slot < 8 }
    ensures spots { spots.new ≡ slice_set spots.old slot spot }
    ensures own { slice_get spots.new slot ≡ Some spot }
{
    spots[slot] = spot;
}

impl Leaves {
    ghost use Rattle.kd_tree.specs.Leaves.{HasLeaves, HasLeafRoom};

    /// Room for the leaves over so many positions.
    pub(crate) fn room(alloc: Global, cap: usize) -> Result<Leaves, NoMemory>
        requires { cap ≤ 2 ^ 31 }
        ensures room { IfOk result (λ leaves. HasLeafRoom cap leaves) }
        ensures none { IfOk result (λ leaves. leaves.live.items ≡ []) }
        ensures empty { IfOk result (λ leaves. HasLeaves 0 leaves) }
    {
        Ok(Leaves {
            spots: Row::room(alloc, cap / LEAF + 1)?,
            live: Row::room(alloc, cap / LEAF + 1)?,
        })
    }

    /// Puts a spot at the next position, as a live one: two touches.
    pub(crate) fn put<L: Ledger>(&mut self, position: usize, spot: Spot, steps: &mut Steps<L>)
        requires leaves { HasLeaves position self.old }
        requires room { (position / 8 < self.old.spots.capacity) × (position / 8 < self.old.live.capacity) }
        ensures leaves { HasLeaves (position + 1) self.new }
        ensures same_room { (self.new.spots.capacity ≡ self.old.spots.capacity) × (self.new.live.capacity ≡ self.old.live.capacity) }
        ensures spots { (points : List Point) (order : List ℕ) (place : ℕ) (p : Point) → AreSpots points order position self.old.spots.items
            → slice_get order position ≡ Some place → slice_get points place ≡ Some p → spot ≡ spot_of p
            → AreSpots points order (position + 1) self.new.spots.items }
        ensures live { AllLive self.old.live.items → AllLive self.new.live.items }
        ensures cost { Spends steps.old steps.new 0 0 2 }
    {
        let slot = position % LEAF;
        if slot == 0 {
            self.spots.push([spot; 8], steps);
            self.live.push([true; 8], steps);
        } else {
            put_spot(self.spots.entry_mut(position / LEAF, steps), slot, spot);
        }
    }

    /// The least box of the live points of a leaf over so many positions: two touches.
    pub(crate) fn area<L: Ledger>(&self, j: usize, len: usize, steps: &mut Steps<L>) -> Area
        requires leaves { HasLeaves len self.now }
        requires index { 8 * j < len }
        ensures least { (part : Contents Point) (order : List ℕ) → AreLeavesOf part order len self.now.spots.items self.now.live.items
            → IsLeastBox part order result (j * span 0) ((j + 1) * span 0) }
        ensures cost { Spends steps.old steps.new 0 0 2 }
    {
        let spots = self.spots.at(j, steps);
        let live = self.live.at(j, steps);
        hull(&spots, &live, (len - LEAF * j).min(LEAF))
    }

    /// Takes the point at a position out, which is live: two touches.
    pub(crate) fn kill<L: Ledger>(&mut self, position: usize, steps: &mut Steps<L>)
        requires { position / 8 < length self.old.live.items }
        ensures kept { self.new ≡ record self.old { live = record self.old.live { items = self.new.live.items } } }
        ensures as_many { length self.new.live.items ≡ length self.old.live.items }
        ensures live { (flags : List Bool) (order : List ℕ) (place : ℕ) → AreLive flags order self.old.live.items
            → slice_get order position ≡ Some place → ((other : ℕ) → slice_get order other ≡ Some place → other ≡ position)
            → AreLive (slice_set flags place false) order self.new.live.items }
        ensures cost { Spends steps.old steps.new 0 0 2 }
    {
        let mut live = self.live.at(position / LEAF, steps);
        live[position % LEAF] = false;
        self.live.set(position / LEAF, live, steps);
    }

    /// Takes all leaves out, and keeps the memory. It counts nothing.
    pub(crate) fn clear(&mut self)
        ensures same_room { (self.new.spots.capacity ≡ self.old.spots.capacity) × (self.new.live.capacity ≡ self.old.live.capacity) }
        ensures none { self.new.live.items ≡ [] }
        ensures empty { HasLeaves 0 self.new }
    {
        self.spots.clear();
        self.live.clear();
    }
}
