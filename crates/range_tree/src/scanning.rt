//! Neighbouring places of the first order, whose x are in the rectangle.
ghost use Rattle.std.specs.Prelude.{◌≡◌, ◌+◌, ◌-◌, ◌*◌, ◌/◌, ◌%◌, ◌^◌, ◌<◌, ◌≤◌, ◌++◌, ℕ, OnOk, length, map, sum_by, nat_le, ◌&&◌};
ghost use Rattle.query_laws.specs.StepLedger.{Spends};
ghost use Rattle.builder_trait.specs.Parts.{IsPart};
ghost use Rattle.range_tree.specs.Heights.{lowest};
ghost use Rattle.range_tree.specs.LeafHits.{AreHits, points_at};
ghost use Rattle.range_tree.specs.Measures.{leaf_touches, measure_of};
ghost use Rattle.range_tree.specs.Tree.{IsTree, before};
ghost use Rattle.range_tree.specs.declared.scanning.Places.{Places};
ghost use Rattle.row_blocks.specs.Blocks.{IsMultiple};
ghost use Rattle.range_tree.specs.Queries.{AreWithinX, IsLeafOf, live_in_places};

use crate::leaves::{LEAF_LEN, Leaf};
use crate::measure::Measure;
use crate::rows::RangeTree;
use builder_trait::flat::FlatPart;
use builder_trait::partition_point;
use map_shapes::{IdTally, Point, Rect};
use map_structures::Reach;
use query_laws::NoMemory;
use query_laws::step_ledger::Steps;
use row_blocks::{block_len, block_start};
use std::simd::prelude::*;
use std::sync::ledger::Ledger;

/// Neighbouring places of the first order: those from `from` on and below `to`.
#[derive(Clone, Copy, Debug)]
pub(crate) struct Places {
    pub(crate) from: usize,
    pub(crate) to: usize,
}

impl Places {
    /// The places between that whole blocks of a height have.
    pub(crate) fn whole_blocks(self, height: u32) -> Places
        requires ordered { self.from ≤ self.to }
        requires small { self.to ≤ 2 ^ 31 }
        requires low { height ≤ 32 }
        ensures first { self.from ≤ result.from }
        ensures ordered { result.from ≤ result.to }
        ensures last { result.to ≤ self.to }
        ensures front { result.from < result.to → IsMultiple result.from height }
        ensures back { result.from < result.to → IsMultiple result.to height }
        ensures few { result.from - self.from + (self.to - result.to) ≤ 2 * (2 ^ height - 1) }
    {
        let low = block_start(self.from + block_len(height) - 1, height);
        let high = block_start(self.to, height);
        if low <= high {
            Places {
                from: low,
                to: high,
            }
        } else {
            Places {
                from: self.to,
                to: self.to,
            }
        }
    }

    /// Whether they have all from `start` on and below `end`.
    #[inline]
    pub(crate) fn have(self, start: usize, end: usize) -> bool
        ensures { result ≡ (nat_le self.from start && nat_le end self.to) }
    {
        self.from <= start && end <= self.to
    }
}

/// Which of a leaf's live points have a y in the rectangle, from the first place on: the lowest bit tells of that one. All are compared at
/// once, so that the processor guesses at none.
#[inline]
fn hit_bits(leaf: &Leaf, rect: &Rect, places: Places) -> u64
    requires ordered { places.from ≤ places.to }
    requires own { places.from % 16 + (places.to - places.from) ≤ 16 }
    ensures { AreHits rect.now leaf.now places.from places.to result }
{
    let ys = u32x16::from_array(leaf.ys);
    let above = u32x16::splat(rect.y1).simd_le(ys).to_bitmask();
    let below = ys.simd_le(u32x16::splat(rect.y2)).to_bitmask();
    let own = (1 << (places.to - places.from)) - 1;
    ((above & below & leaf.live as u64) >> (places.from % LEAF_LEN)) & own
}

/// What the point at a place weighs.
#[inline]
fn weigh_at<L: Ledger>(points: &FlatPart<Point>, place: usize, steps: &mut Steps<L>) -> u64
    requires { place < length points.now.items }
    ensures sum { result ≡ sum_by (λ p. p.w) (points_at points.now place) }
    ensures small { result < 2 ^ 31 }
    ensures cost { Spends steps.old steps.new 0 0 1 }
{
    points.items().at(place, steps).w as u64
}

/// Pushes the identifier of the point at a place.
#[inline]
fn list_at<L: Ledger>(
    points: &FlatPart<Point>,
    place: usize,
    tally: &mut IdTally,
    steps: &mut Steps<L>,
) -> Result<(), NoMemory>
    requires { place < length points.now.items }
    ensures listed { OnOk result (tally.new ≡ tally.old ++ map (λ p. p.id) (points_at points.now place)) }
    ensures cost { Spends steps.old steps.new 0 0 1 }
{
    let item = points.items().at(place, steps);
    tally.push(item.id)
}

/// What the live points of the rectangle at places of one leaf weigh: a touch for each of them.
fn weigh_leaf<L: Ledger>(
    points: &FlatPart<Point>,
    rect: &Rect,
    leaf: &Leaf,
    places: Places,
    steps: &mut Steps<L>,
) -> u64
    requires leaf { IsLeafOf points.now rect.now places leaf.now }
    ensures sum { result ≡ sum_by (λ p. p.w) (live_in_places points.now rect.now places) }
    ensures small { result ≤ (places.to - places.from) * 2 ^ 31 }
    ensures cost { Spends steps.old steps.new 0 0 (places.to - places.from) }
{
    let mut sum = 0u64;
    let mut place = places.from;
    let mut left = hit_bits(leaf, rect, places);
    while left != 0 {
        let gap = left.trailing_zeros();
        place += gap as usize;
        sum += weigh_at(points, place, steps);
        place += 1;
        left = left >> gap >> 1;
    }
    sum
}

/// What the live points of the rectangle at places of one leaf count for.
fn measure_leaf<L: Ledger>(
    points: &FlatPart<Point>,
    rect: &Rect,
    leaf: &Leaf,
    places: Places,
    measure: Measure,
    steps: &mut Steps<L>,
) -> u64
    requires leaf { IsLeafOf points.now rect.now places leaf.now }
    ensures sum { result ≡ sum_by (measure_of measure) (live_in_places points.now rect.now places) }
    ensures small { result ≤ (places.to - places.from) * 2 ^ 31 }
    ensures cost { Spends steps.old steps.new 0 0 (leaf_touches measure (places.to - places.from)) }
{
    match measure {
        Measure::Count => hit_bits(leaf, rect, places).count_ones() as u64,
        Measure::Weight => weigh_leaf(points, rect, leaf, places, steps),
    }
}

/// Pushes the identifiers of the live points of the rectangle at places of one leaf: a touch for each of them.
fn list_leaf<L: Ledger>(
    points: &FlatPart<Point>,
    rect: &Rect,
    leaf: &Leaf,
    places: Places,
    tally: &mut IdTally,
    steps: &mut Steps<L>,
) -> Result<(), NoMemory>
    requires leaf { IsLeafOf points.now rect.now places leaf.now }
    ensures listed { OnOk result (tally.new ≡ tally.old ++ map (λ p. p.id) (live_in_places points.now rect.now places)) }
    ensures cost { Spends steps.old steps.new 0 0 (length (live_in_places points.now rect.now places)) }
{
    let mut place = places.from;
    let mut left = hit_bits(leaf, rect, places);
    while left != 0 {
        let gap = left.trailing_zeros();
        place += gap as usize;
        list_at(points, place, tally, steps)?;
        place += 1;
        left = left >> gap >> 1;
    }
    Ok(())
}

impl RangeTree {
    /// The places whose points have x in the rectangle: two binary searches.
    pub(crate) fn places_in<L: Ledger>(
        &self,
        points: &FlatPart<Point>,
        rect: &Rect,
        steps: &mut Steps<L>,
    ) -> Places
        requires valid { IsPart before points.now }
        requires over { IsTree points.now self.now }
        ensures inside { AreWithinX points.now result rect.now }
        ensures read { 0 < length points.now.items → steps.old.touches < steps.new.touches }
        ensures cost { (h : ℕ) → length points.now.items ≤ 2 ^ h → Spends steps.old steps.new 0 0 (2 * (h + 1)) }
    {
        let row = &self.xs;
        let from = partition_point(row, &Reach::Below(rect.x1), 0, row.len(), steps);
        let to = partition_point(row, &Reach::UpTo(rect.x2), from, row.len(), steps);
        Places { from, to }
    }

    /// What the live points of the rectangle at places whose x are in it count for: for a number a touch for each leaf, and for
    /// weights one more for each point.
    pub(crate) fn measure_places<L: Ledger>(
        &self,
        points: &FlatPart<Point>,
        rect: &Rect,
        places: Places,
        measure: Measure,
        steps: &mut Steps<L>,
    ) -> u64
        requires over { IsTree points.now self.now }
        requires ordered { places.from ≤ places.to }
        requires inside { (all : Places) × AreWithinX points.now all rect.now × (all.from ≤ places.from) × (places.to ≤ all.to) }
        ensures sum { result ≡ sum_by (measure_of measure) (live_in_places points.now rect.now places) }
        ensures cost { Spends steps.old steps.new 0 0 ((places.to - places.from) / 16 + 2 + leaf_touches measure (places.to - places.from)) }
    {
        let mut sum = 0u64;
        for l in places.from / LEAF_LEN..places.to.div_ceil(LEAF_LEN) {
            let leaf = self.leaves.at(l, steps);
            let from = places.from.max(l * LEAF_LEN);
            let to = places.to.min(l * LEAF_LEN + LEAF_LEN);
            sum += measure_leaf(points, rect, &leaf, Places { from, to }, measure, steps);
        }
        sum
    }

    /// Pushes the identifiers of the live points of the rectangle at places whose x are in it.
    pub(crate) fn list_places<L: Ledger>(
        &self,
        points: &FlatPart<Point>,
        rect: &Rect,
        places: Places,
        tally: &mut IdTally,
        steps: &mut Steps<L>,
    ) -> Result<(), NoMemory>
        requires over { IsTree points.now self.now }
        requires ordered { places.from ≤ places.to }
        requires inside { (all : Places) × AreWithinX points.now all rect.now × (all.from ≤ places.from) × (places.to ≤ all.to) }
        ensures listed { OnOk result (tally.new ≡ tally.old ++ map (λ p. p.id) (live_in_places points.now rect.now places)) }
        ensures cost { Spends steps.old steps.new 0 0 ((places.to - places.from) / 16 + 2 + length (live_in_places points.now rect.now places)) }
    {
        for l in places.from / LEAF_LEN..places.to.div_ceil(LEAF_LEN) {
            let leaf = self.leaves.at(l, steps);
            let from = places.from.max(l * LEAF_LEN);
            let to = places.to.min(l * LEAF_LEN + LEAF_LEN);
            list_leaf(points, rect, &leaf, Places { from, to }, tally, steps)?;
        }
        Ok(())
    }
}
