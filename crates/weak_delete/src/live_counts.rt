//! The number and the weight of live places, by a Fenwick tree.
ghost use Rattle.std.specs.Prelude.{◌≡◌, ℕ, ◌+◌, ◌-◌, ◌*◌, ◌/◌, ◌%◌, ◌≢◌, ◌^◌, ◌<◌, ◌≤◌, ◌∷◌, ◌++◌, ◌↔◌, [], true, false, IfOk, IfSome, IsNone, length, take, count_by, sum_by};
ghost use Rattle.query_laws.specs.StepLedger.{Spends};
ghost use Rattle.weak_delete.specs.Places.{IsLive, is_live, live_amount, live_place, cleared, nothing_put, IsBuilt};
ghost use Rattle.row_blocks.specs.Blocks.{height_at};
ghost use Rattle.weak_delete.specs.Fenwick.{IsOver};

use crate::packed::{WIDTH, live_below, nth_live, weight_below, without};
use query_laws::NoMemory;
use query_laws::step_ledger::{Row, Steps};
use row_blocks::{block_len, height_above, height_at};
use std::alloc::Global;
use std::marker::Model;
use std::mem::size_of;
use std::sync::ledger::Ledger;

/// How many live places a range has, and what they weigh together.
#[derive(Clone, Copy, Debug)]
struct Node {
    count: u32,
    weight: u64,
}

/// The node over no entry.
const NOTHING: Node = Node {
    count: 0,
    weight: 0,
};

impl Node {
    /// The node over the places of both.
    #[inline]
    fn plus(self, other: Node) -> Node
        requires count { self.count + other.count < 2 ^ 32 }
        requires weight { self.weight + other.weight < 2 ^ 64 }
        ensures { result ≡ record { count = self.count + other.count; weight = self.weight + other.weight } }
    {
        Node {
            count: self.count + other.count,
            weight: self.weight + other.weight,
        }
    }

    /// The node over the places that another doesn't have, which has none but these.
    #[inline]
    fn minus(self, other: Node) -> Node
        requires count { other.count ≤ self.count }
        requires weight { other.weight ≤ self.weight }
        ensures { result ≡ record { count = self.count - other.count; weight = self.weight - other.weight } }
    {
        Node {
            count: self.count - other.count,
            weight: self.weight - other.weight,
        }
    }
}

/// Places with a weight each, which are live until they are cleared: a Fenwick tree (Fenwick 1994) over entries of sixteen
/// places each.
///
/// An entry has the weights of its places, 64 bytes, and a mask of those that are live. Node `e`, counted from 1, stands for
/// the last `2^l` entries up to the `e`-th, where `2^l` is the greatest power of two that divides `e`. While places are put,
/// each node stands for all places up to the end of its own entry, and a turn takes from one node, the last that wasn't yet
/// turned, what stands before its range. A place takes 5 1/8 bytes.
#[derive(Drop)]
pub struct LiveCounts {
    weights: Row<[u32; WIDTH]>,
    masks: Row<u16>,
    nodes: Row<Node>,
    total: Node,
    cap: usize,
    len: usize,
    unturned: usize,
    sealed: bool,
}

// A touch reads or writes one entry, of at most 64 bytes.
const _: () = prove!(size_of::<[u32; WIDTH]>() <= 64);

const _: () = prove!(size_of::<Node>() <= 64);

impl Model for LiveCounts {
    ghost use Rattle.weak_delete.specs.Places.{LivePlaces};
    ghost use Rattle.weak_delete.specs.Packed.{packed};
    ghost use Rattle.weak_delete.specs.Fenwick.{IsFenwick};

    ghost Value = { LivePlaces };

    ghost use Rattle.std.specs.Prelude.{if◌then◌else◌};

    ghost view = { λ s. record {
      places = packed s.weights.items s.masks.items s.len;
      capacity = s.cap;
      sealed = s.sealed;
      left = if s.sealed then s.unturned else 0;
    } };

    ghost invariant = { λ s. IsFenwick (packed s.weights.items s.masks.items s.len) s.weights s.masks s.nodes s.total s.cap s.len s.unturned s.sealed };
}

impl LiveCounts {
    /// No places yet, and room for `cap` of them, at most 2^31. Nothing else of this type takes memory.
    pub fn room(alloc: Global, cap: usize) -> Result<LiveCounts, NoMemory>
        requires { cap ≤ 2 ^ 31 }
        ensures { IfOk result (λ counts. counts ≡ nothing_put cap) }
    {
        let entries = cap.div_ceil(WIDTH);
        Ok(LiveCounts {
            weights: Row::room(alloc, entries)?,
            masks: Row::room(alloc, entries)?,
            nodes: Row::room(alloc, entries)?,
            total: NOTHING,
            cap,
            len: 0,
            unturned: 0,
            sealed: false,
        })
    }

    /// Takes all places out, in one step, and keeps the memory. Puts may come again. It counts nothing.
    #[inline]
    pub fn reset(&mut self)
        ensures { self.new ≡ nothing_put self.old.capacity }
    {
        self.weights.clear();
        self.masks.clear();
        self.nodes.clear();
        self.total = NOTHING;
        self.len = 0;
        self.unturned = 0;
        self.sealed = false;
    }

    /// How many places were put. It counts nothing.
    #[inline]
    pub fn len(&self) -> usize
        ensures value { result ≡ length self.now.places }
        ensures within { result ≤ self.now.capacity }
    {
        self.len
    }

    /// Whether no more places come. It counts nothing.
    #[inline]
    pub fn is_sealed(&self) -> bool
        ensures { result ≡ self.now.sealed }
    {
        self.sealed
    }

    /// How many turns are left until the tree is built: none before the seal. It counts nothing.
    #[inline]
    pub fn left(&self) -> u64
        ensures { result ≡ self.now.left }
    {
        if self.sealed { self.unturned as u64 } else { 0 }
    }

    /// Puts a live place of this weight, any u32, behind the others: one turn.
    pub fn put<L: Ledger>(&mut self, weight: u32, steps: &mut Steps<L>)
        requires open { self.old.sealed ≡ false }
        requires room { length self.old.places < self.old.capacity }
        ensures put { self.new ≡ record self.old { places = self.old.places ++ live_place weight ∷ [] } }
        ensures cost { Spends steps.old steps.new 1 0 4 }
    {
        if self.len() % WIDTH == 0 {
            self.put_first(weight, steps);
        } else {
            self.put_behind(weight, steps);
        }
        steps.turn();
    }

    /// Puts the first place of an entry. The weights behind it are those of no place yet.
    fn put_first<L: Ledger>(&mut self, weight: u32, steps: &mut Steps<L>)
        requires open { self.old.sealed ≡ false }
        requires room { length self.old.places < self.old.capacity }
        requires first { length self.old.places % 16 ≡ 0 }
        ensures put { self.new ≡ record self.old { places = self.old.places ++ live_place weight ∷ [] } }
        ensures cost { Spends steps.old steps.new 0 0 3 }
    {
        self.total.count += 1;
        self.total.weight += weight as u64;
        self.weights.push([weight; WIDTH], steps);
        self.masks.push(u16::MAX, steps);
        self.nodes.push(self.total, steps);
        self.len += 1;
        self.unturned += 1;
    }

    /// Puts a place of an entry that has one.
    fn put_behind<L: Ledger>(&mut self, weight: u32, steps: &mut Steps<L>)
        requires open { self.old.sealed ≡ false }
        requires room { length self.old.places < self.old.capacity }
        requires behind { length self.old.places % 16 ≢ 0 }
        ensures put { self.new ≡ record self.old { places = self.old.places ++ live_place weight ∷ [] } }
        ensures cost { Spends steps.old steps.new 0 0 3 }
    {
        self.total.count += 1;
        self.total.weight += weight as u64;
        let entry = self.len / WIDTH;
        self.weights.entry_mut(entry, steps)[self.len % WIDTH] = weight;
        self.nodes.set(entry, self.total, steps);
        self.len += 1;
        self.unturned += 1;
    }

    /// Ends the puts. A turn is left for each place, of which one in sixteen builds a node. It counts nothing.
    pub fn seal(&mut self)
        requires { self.old.sealed ≡ false }
        ensures sealed { self.new ≡ record self.old { sealed = true; left = self.new.left } }
        ensures each { self.new.left ≡ length self.new.places }
    {
        self.sealed = true;
    }

    /// Builds a node, where the last place that is left is the first of an entry: one turn.
    pub fn turn<L: Ledger>(&mut self, steps: &mut Steps<L>)
        requires sealed { self.old.sealed ≡ true }
        requires left { 0 < self.old.left }
        ensures turned { self.new ≡ record self.old { left = self.old.left - 1 } }
        ensures cost { Spends steps.old steps.new 1 0 8 }
    {
        let last = self.unturned - 1;
        if last % WIDTH != 0 {
            self.unturned = last;
            steps.turn();
            return;
        }
        let entry = last / WIDTH;
        let node = self.own_node(entry, steps);
        self.nodes.set(entry, node, steps);
        self.unturned = last;
        steps.turn();
    }

    /// The node of an entry over its own range, made of two that still stand for all places before their ends.
    fn own_node<L: Ledger>(&self, entry: usize, steps: &mut Steps<L>) -> Node
        requires sealed { self.now.sealed ≡ true }
        requires unturned { 16 * entry < self.now.left }
        requires small { entry < 2 ^ 31 }
        ensures over { IsOver self.now.places (16 * (entry + 1 - 2 ^ height_at (entry + 1))) (16 * (entry + 1)) result }
        ensures cost { Spends steps.old steps.new 0 0 2 }
    {
        let start = entry + 1 - block_len(height_at(entry + 1));
        let whole = self.whole(entry + 1, steps);
        let before = self.whole(start, steps);
        whole.minus(before)
    }

    /// The node over all entries before one, which still stands there as it was put.
    fn whole<L: Ledger>(&self, end: usize, steps: &mut Steps<L>) -> Node
        requires sealed { self.now.sealed ≡ true }
        requires unturned { 16 * end < self.now.left + 16 }
        ensures over { IsOver self.now.places 0 (16 * end) result }
        ensures cost { Spends steps.old steps.new 0 0 1 }
    {
        if end == 0 {
            return NOTHING;
        }
        self.nodes.at(end - 1, steps)
    }

    /// Takes the live place `k` out of its node in each height of the tree. A caller knows by its own flags that it is live.
    pub fn clear<L: Ledger>(&mut self, k: usize, steps: &mut Steps<L>)
        requires built { IsBuilt self.old }
        requires live { IsLive self.old.places k }
        ensures cleared { self.new ≡ record self.old { places = cleared self.old.places k } }
        ensures cost { (h : ℕ) → length self.old.places ≤ 2 ^ h → Spends steps.old steps.new 0 0 (4 * (h + 2)) }
    {
        let entry = k / WIDTH;
        let slot = k % WIDTH;
        let weights = self.weights.at(entry, steps);
        let amount = weights[slot];
        let entries = self.nodes.len();
        let mut height = height_above(entries);
        let mut start = 0;
        while height > 0 {
            height -= 1;
            let end = start + block_len(height);
            if end <= entry {
                start = end;
            } else if end <= entries {
                let node = self.nodes.at(end - 1, steps);
                let node = Node {
                    count: node.count - 1,
                    weight: node.weight - amount as u64,
                };
                self.nodes.set(end - 1, node, steps);
            }
        }
        self.total.count -= 1;
        self.total.weight -= amount as u64;
        let mask = self.masks.at(entry, steps);
        self.masks.set(entry, without(mask, slot), steps);
    }

    /// The number of live places below `k`: at most `h + 1` touches, where there are at most `2^h` places.
    pub fn prefix<L: Ledger>(&self, k: usize, steps: &mut Steps<L>) -> u64
        requires built { IsBuilt self.now }
        requires within { k ≤ length self.now.places }
        ensures count { result ≡ count_by is_live (take k self.now.places) }
        ensures cost { (h : ℕ) → length self.now.places ≤ 2 ^ h → Spends steps.old steps.new 0 0 (h + 1) }
    {
        if self.total.count as usize == self.len {
            return k as u64;
        }
        if k == self.len {
            return self.total.count as u64;
        }
        let before = self.below(k / WIDTH, steps).count;
        before as u64 + self.live_before(k, steps) as u64
    }

    /// What the live places below `k` weigh: at most `h + 2` touches, where there are at most `2^h` places.
    pub fn sum_prefix<L: Ledger>(&self, k: usize, steps: &mut Steps<L>) -> u64
        requires built { IsBuilt self.now }
        requires within { k ≤ length self.now.places }
        ensures sum { result ≡ sum_by live_amount (take k self.now.places) }
        ensures cost { (h : ℕ) → length self.now.places ≤ 2 ^ h → Spends steps.old steps.new 0 0 (h + 2) }
    {
        if k == self.len {
            return self.total.weight;
        }
        let before = self.below(k / WIDTH, steps).weight;
        before + self.weight_before(k, steps)
    }

    /// How many live places of its own entry stand before a place.
    fn live_before<L: Ledger>(&self, k: usize, steps: &mut Steps<L>) -> u32
        requires { k ≤ length self.now.places }
        ensures count { result + count_by is_live (take (16 * (k / 16)) self.now.places) ≡ count_by is_live (take k self.now.places) }
        ensures few { result ≤ 16 }
        ensures cost { Spends steps.old steps.new 0 0 1 }
    {
        if k % WIDTH == 0 {
            return 0;
        }
        let mask = self.masks.at(k / WIDTH, steps);
        live_below(mask, k % WIDTH)
    }

    /// What the live places of its own entry that stand before a place weigh.
    fn weight_before<L: Ledger>(&self, k: usize, steps: &mut Steps<L>) -> u64
        requires { k ≤ length self.now.places }
        ensures sum { result + sum_by live_amount (take (16 * (k / 16)) self.now.places) ≡ sum_by live_amount (take k self.now.places) }
        ensures few { result ≤ 16 * (2 ^ 32 - 1) }
        ensures cost { Spends steps.old steps.new 0 0 2 }
    {
        if k % WIDTH == 0 {
            return 0;
        }
        let weights = self.weights.at(k / WIDTH, steps);
        let mask = self.masks.at(k / WIDTH, steps);
        weight_below(&weights, mask, k % WIDTH)
    }

    /// The node over the entries before this one: it goes down, from node to node, until none stands before.
    fn below<L: Ledger>(&self, entry: usize, steps: &mut Steps<L>) -> Node
        requires built { IsBuilt self.now }
        requires within { 16 * entry < length self.now.places + 16 }
        ensures over { IsOver self.now.places 0 (16 * entry) result }
        ensures cost { (h : ℕ) → entry < 2 ^ h → Spends steps.old steps.new 0 0 h }
    {
        let mut end = entry;
        let mut sum = NOTHING;
        while end > 0 {
            let start = end - block_len(height_at(end));
            let node = self.half(start, end, steps);
            sum = sum.plus(node);
            end = start;
        }
        sum
    }

    /// The node over the first half of a block of entries.
    #[inline]
    fn half<L: Ledger>(&self, start: usize, end: usize, steps: &mut Steps<L>) -> Node
        requires built { IsBuilt self.now }
        requires some { 0 < end }
        requires within { 16 * end < length self.now.places + 16 }
        requires half { start + 2 ^ height_at end ≡ end }
        ensures over { IsOver self.now.places (16 * start) (16 * end) result }

        // The sums of any places fit.
        ensures few { length self.now.places ≤ 2 ^ 31 }
        ensures light { sum_by live_amount self.now.places ≤ length self.now.places * (2 ^ 32 - 1) }
        ensures cost { Spends steps.old steps.new 0 0 1 }
    {
        self.nodes.at(end - 1, steps)
    }

    /// The live place with exactly `j` live places below it, or None where at most `j` are live: at most `h + 1` touches, where
    /// there are at most `2^h` places.
    pub fn kth_live<L: Ledger>(&self, j: usize, steps: &mut Steps<L>) -> Option<usize>
        requires built { IsBuilt self.now }
        ensures found { IfSome result (λ k. IsLive self.now.places k) }
        ensures rank { IfSome result (λ k. count_by is_live (take k self.now.places) ≡ j) }
        ensures none { IsNone result ↔ (count_by is_live self.now.places ≤ j) }
        ensures cost { (h : ℕ) → length self.now.places ≤ 2 ^ h → Spends steps.old steps.new 0 0 (h + 1) }
    {
        if j >= self.total.count as usize {
            return None;
        }
        let last = (self.len - 1) / WIDTH;
        let mut height = height_above(last);
        let mut start = 0;
        let mut rest = j;
        while height > 0 {
            height -= 1;
            let end = start + block_len(height);
            if end <= last {
                let count = self.half(start, end, steps).count as usize;
                if count <= rest {
                    rest -= count;
                    start = end;
                }
            }
        }
        let mask = self.masks.at(start, steps);
        Some(WIDTH * start + nth_live(mask, rest))
    }
}
