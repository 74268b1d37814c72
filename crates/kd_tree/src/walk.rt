//! A walk over the blocks of a tree, the nearest ones first.
ghost use Rattle.std.specs.Prelude.{◌≡◌, ℕ, ◌+◌, ◌-◌, ◌*◌, ◌^◌, ◌<◌, ◌≤◌, [], ◌∷◌, ◌++◌, Bool, true, min, filter, length, All, Some, slice_get};
ghost use Rattle.std.specs.List.{flat_map};
ghost use Rattle.query_laws.specs.StepLedger.{Spends};
ghost use Rattle.query_laws.specs.Permuted.{Permuted};
ghost use Rattle.builder_trait.specs.Parts.{live_of};
ghost use Rattle.map_model.specs.Found.{Found};
ghost use Rattle.map_shapes.specs.declared.point.Point.{Point};
ghost use Rattle.map_shapes.specs.Found.{nearer_le};
ghost use Rattle.map_questions.specs.FirstFew.{IsFirstFew, first_few};
ghost use Rattle.kd_tree.specs.declared.block.Block.{Block};
ghost use Rattle.kd_tree.specs.Areas.{spot_of};
ghost use Rattle.kd_tree.specs.Distances.{least};
ghost use Rattle.kd_tree.specs.Growing.{IsTree};
ghost use Rattle.kd_tree.specs.Walks.{spot_asked, founds, live_in, live_in_block, IsFar, IsBlock, IsChild, IsStack, IsLeftOut, work_of, work_of_all, Takes};

use crate::block::{Block, farther_first};
use crate::distance::is_below;
use crate::height::{LEAF, index};
use crate::kept::KeepsNearest;
use crate::rows::KdRows;
use crate::spot::Spot;
use arrayvec::ArrayVec;
use builder_trait::Part;
use builder_trait::flat::FlatPart;
use map_questions::Near;
use map_shapes::Point;
use query_laws::step_ledger::Steps;
use std::sync::ledger::Ledger;

/// What a leaf says of the point at a position.
#[derive(Clone, Copy, Debug)]
struct Slot {
    position: usize,
    spot: Spot,
    live: bool,
}

/// Where a question asks.
#[inline]
fn spot_asked(near: &Near) -> Spot
    ensures { result ≡ spot_asked near.now }
{
    Spot {
        x: near.x,
        y: near.y,
    }
}

/// Whether what is at least so far, made coarse, is farther than all that is kept, where there is no room for more.
#[inline]
fn is_farther<T: KeepsNearest>(dist: u64, tally: &T) -> bool
    ensures { result ≡ true → (worst : Found) × (slice_get (T.kept tally.now) (T.most tally.now - 1) ≡ Some worst) × (worst.dist < least dist) }
{
    tally
        .farthest()
        .is_some_and(|worst| is_below(worst.dist(), dist))
}

/// Whether a block has no live points, or none that is near enough.
#[inline]
fn is_left_out<T: KeepsNearest>(block: &Block, tally: &T) -> bool
    ensures { result ≡ true → IsLeftOut (T.most tally.now) (T.kept tally.now) block.now }
{
    !block.some || is_farther(block.dist, tally)
}

/// Whether all blocks of a node are left out.
fn are_left_out<T: KeepsNearest>(blocks: &[Block; 4], tally: &T) -> bool
    ensures { result ≡ true → All (IsLeftOut (T.most tally.now) (T.kept tally.now)) blocks.now }
{
    for block in blocks {
        if !is_left_out(block, tally) {
            return false;
        }
    }
    true
}

/// Pushes a block that may have live points.
#[inline]
fn push_one(stack: &mut ArrayVec<Block, 48>, block: &Block)
    requires { length stack.old.items < 48 }
    ensures { stack.new.items ≡ stack.old.items ++ filter (λ b. b.some) (block.now ∷ []) }
{
    if block.some {
        stack.push(*block);
    }
}

/// Pushes the blocks that may have live points.
fn push_some(stack: &mut ArrayVec<Block, 48>, blocks: &[Block; 4])
    requires { length stack.old.items ≤ 44 }
    ensures { stack.new.items ≡ stack.old.items ++ filter (λ b. b.some) blocks.now }
{
    for block in blocks {
        push_one(stack, block);
    }
}

impl KdRows {
    /// Looks at the point at a position: two touches at most.
    fn look<T: KeepsNearest, L: Ledger>(
        &self,
        points: &FlatPart<Point>,
        near: &Near,
        slot: &Slot,
        tally: &mut T,
        steps: &mut Steps<L>,
    )
        requires tree { IsTree points.now self.now }
        requires few { IsFirstFew nearer_le (T.most tally.old) (T.kept tally.old) }
        requires within { slot.now.position < length points.now.items }
        requires spot { (place : ℕ) (p : Point) → slice_get self.now.places.items slot.now.position ≡ Some place → slice_get points.now.items place ≡ Some p
            → slot.now.spot ≡ spot_of p }
        requires live { (place : ℕ) (flag : Bool) → slice_get self.now.places.items slot.now.position ≡ Some place
            → slice_get points.now.flags place ≡ Some flag → slot.now.live ≡ flag }
        requires flagged { length points.now.flags ≡ length points.now.items }
        ensures taken { Takes (T.most tally.old) (T.kept tally.old) (founds near.now (live_in points.now self.now.places.items slot.now.position (slot.now.position + 1)))
            (T.kept tally.new) }
        ensures most { T.most tally.new ≡ T.most tally.old }
        ensures cost { Spends steps.old steps.new 0 0 2 }
    {
        if !slot.live {
            return;
        }
        if is_farther(spot_asked(near).apart(&slot.spot), tally) {
            return;
        }
        let place = self.places.place_at(slot.position, steps);
        let point = points.items().at(place, steps);
        tally.take_in(near.found(&point));
    }

    /// Looks at the live points of a leaf: two touches, and two for each point.
    fn scan<T: KeepsNearest, L: Ledger>(
        &self,
        points: &FlatPart<Point>,
        near: &Near,
        leaf: usize,
        tally: &mut T,
        steps: &mut Steps<L>,
    )
        requires tree { IsTree points.now self.now }
        requires few { IsFirstFew nearer_le (T.most tally.old) (T.kept tally.old) }
        requires within { 8 * leaf < length points.now.items }
        ensures taken { Takes (T.most tally.old) (T.kept tally.old) (founds near.now (live_in points.now self.now.places.items (8 * leaf) (8 * leaf + 8)))
            (T.kept tally.new) }
        ensures most { T.most tally.new ≡ T.most tally.old }
        ensures cost { Spends steps.old steps.new 0 0 (2 + 2 * min 8 (length points.now.items - 8 * leaf)) }
    {
        let first = LEAF * leaf;
        let spots = self.leaves.spots.at(leaf, steps);
        let live = self.leaves.live.at(leaf, steps);
        let count = (points.len() - first).min(LEAF);
        for slot in 0..count {
            let here = Slot {
                position: first + slot,
                spot: spots[slot],
                live: live[slot],
            };
            self.look(points, near, &here, tally, steps);
        }
    }

    /// The blocks of a node, the farthest first: one touch.
    fn blocks_of<L: Ledger>(
        &self,
        points: &FlatPart<Point>,
        near: &Near,
        block: &Block,
        steps: &mut Steps<L>,
    ) -> [Block; 4]
        requires tree { IsTree points.now self.now }
        requires block { IsBlock self.now.depth (length points.now.items) block.now }
        requires high { 0 < block.now.level }
        ensures four { length result ≡ 4 }
        ensures children { All (IsChild points.now self.now.places.items near.now self.now.depth (length points.now.items) (block.now.level - 1)) result }
        ensures live { let live = live_in_block points.now self.now.places.items in Permuted (flat_map live result) (live block.now) }
        ensures work { work_of_all (length points.now.items) result + 1 ≡ work_of (length points.now.items) block.now }
        ensures read { steps.old.touches < steps.new.touches }
        ensures cost { Spends steps.old steps.new 0 0 1 }
    {
        let from = spot_asked(near);
        let len = points.len();
        let level = block.level - 1;
        let first = 4 * block.place;
        let areas = self.nodes.at(index(self.depth, level, block.place), steps);
        let mut blocks = [
            Block::child(&areas, 0, level, first, &from, len),
            Block::child(&areas, 1, level, first, &from, len),
            Block::child(&areas, 2, level, first, &from, len),
            Block::child(&areas, 3, level, first, &from, len),
        ];
        farther_first(&mut blocks);
        blocks
    }

    /// Puts the blocks of a node onto the stack, the nearest one last: one touch.
    fn open<L: Ledger>(
        &self,
        points: &FlatPart<Point>,
        near: &Near,
        block: &Block,
        stack: &mut ArrayVec<Block, 48>,
        steps: &mut Steps<L>,
    )
        requires tree { IsTree points.now self.now }
        requires block { IsBlock self.now.depth (length points.now.items) block.now }
        requires high { 0 < block.now.level }
        requires stack { IsStack points.now self.now.places.items near.now self.now.depth (length points.now.items) stack.old.items }
        requires low { length stack.old.items + 3 * block.now.level ≤ 3 * self.now.depth }
        ensures stack { IsStack points.now self.now.places.items near.now self.now.depth (length points.now.items) stack.new.items }
        ensures same { Permuted (flat_map (live_in_block points.now self.now.places.items) stack.new.items)
            (flat_map (live_in_block points.now self.now.places.items) (stack.old.items ++ block.now ∷ [])) }
        ensures less { work_of_all (length points.now.items) stack.new.items + 1 ≤ work_of_all (length points.now.items) (stack.old.items ++ block.now ∷ []) }
        ensures cost { Spends steps.old steps.new 0 0 1 }
    {
        let blocks = self.blocks_of(points, near, block, steps);
        push_some(stack, &blocks);
    }

    /// Visits a block, unless it is farther than all that is kept.
    fn visit<T: KeepsNearest, L: Ledger>(
        &self,
        points: &FlatPart<Point>,
        near: &Near,
        block: &Block,
        stack: &mut ArrayVec<Block, 48>,
        tally: &mut T,
        steps: &mut Steps<L>,
    )
        requires tree { IsTree points.now self.now }
        requires few { IsFirstFew nearer_le (T.most tally.old) (T.kept tally.old) }
        requires block { IsBlock self.now.depth (length points.now.items) block.now }
        requires far { IsFar points.now self.now.places.items near.now block.now }
        requires stack { IsStack points.now self.now.places.items near.now self.now.depth (length points.now.items) stack.old.items }
        requires low { length stack.old.items + 3 * block.now.level ≤ 3 * self.now.depth }
        ensures stack { IsStack points.now self.now.places.items near.now self.now.depth (length points.now.items) stack.new.items }
        ensures taken { let live = flat_map (live_in_block points.now self.now.places.items) in
            first_few nearer_le (T.most tally.old) (T.kept tally.new ++ founds near.now (live stack.new.items))
            ≡ first_few nearer_le (T.most tally.old) (T.kept tally.old ++ founds near.now (live (stack.old.items ++ block.now ∷ []))) }
        ensures few { IsFirstFew nearer_le (T.most tally.new) (T.kept tally.new) }
        ensures most { T.most tally.new ≡ T.most tally.old }
        ensures less { work_of_all (length points.now.items) stack.new.items < work_of_all (length points.now.items) (stack.old.items ++ block.now ∷ []) }
        ensures cost { Spends steps.old steps.new 0 0 (work_of_all (length points.now.items) (stack.old.items ++ block.now ∷ [])
            - work_of_all (length points.now.items) stack.new.items) }
    {
        if is_farther(block.dist, tally) {
            return;
        }
        if block.level == 0 {
            self.scan(points, near, block.place, tally, steps);
        } else {
            self.open(points, near, block, stack, steps);
        }
    }

    /// Takes in the nearest of all live points.
    pub(crate) fn walk<T: KeepsNearest, L: Ledger>(
        &self,
        points: &FlatPart<Point>,
        near: &Near,
        tally: &mut T,
        steps: &mut Steps<L>,
    )
        requires tree { IsTree points.now self.now }
        requires few { IsFirstFew nearer_le (T.most tally.old) (T.kept tally.old) }
        ensures taken { Takes (T.most tally.old) (T.kept tally.old) (founds near.now (live_of points.now)) (T.kept tally.new) }
        ensures most { T.most tally.new ≡ T.most tally.old }
        ensures read { 0 < length points.now.items → steps.old.touches < steps.new.touches }
        ensures cost { Spends steps.old steps.new 0 0 (16 * (length points.now.items + 1)) }
    {
        // By their contracts each place stands once, and each point has a flag.
        let _places = self.places.len();
        if points.len() == 0 {
            return;
        }
        let root = Block {
            level: self.depth,
            place: 0,
            dist: 0,
            some: true,
        };
        let blocks = self.blocks_of(points, near, &root, steps);
        if are_left_out(&blocks, tally) {
            return;
        }
        let mut stack: ArrayVec<Block, 48> = ArrayVec::new();
        push_some(&mut stack, &blocks);
        while let Some(block) = stack.pop() {
            self.visit(points, near, &block, &mut stack, tally, steps);
        }
    }
}
