//! Rows of bits with ranks.
ghost use Rattle.std.specs.Prelude.{◌≡◌, ◌+◌, ◌-◌, ◌*◌, ◌/◌, ◌^◌, ◌<◌, ◌≤◌, ◌==◌, ℕ, true, false, All, IfOk, length, sum, slice_get, slice_range, slice_index_or, Some, if◌then◌else◌};
ghost use Rattle.query_laws.specs.StepLedger.{Spends};
ghost use Rattle.row_blocks.specs.Blocks.{start_of, IsMultiple};
ghost use Rattle.rank_rows.specs.Ranked.{Ranked, no_places, place_at, slice_of, how_many, rank, IsPlace, IsFront, IsNextRow, next_place, with_place, marked};

use crate::cursor::Cursor;
use crate::store::Store;
use crate::word::{WIDTH, has_bit, nth_clear, ones_below};
use query_laws::NoMemory;
use query_laws::step_ledger::{Row, Steps};
use row_blocks::{block_len, block_start};
use std::alloc::Global;
use std::marker::Model;
use std::sync::ledger::Ledger;

/// Rows of places, one behind another, each of whole words.
///
/// The blocks of the first row have some height, and those of each next row are half as long. A place takes 4 bytes for its weight and
/// 3/4 of a byte in a word; a word has 48 bytes.
#[derive(Drop)]
pub struct RankRows {
    store: Store,
    stride: usize,
    height: u32,
    cursor: Cursor,
}

impl Model for RankRows {
    ghost use Rattle.std.specs.Prelude.{length};
    ghost use Rattle.rank_rows.specs.Ranked.{Ranked, seconds, lives, IsKept};

    ghost Value = { Ranked };

    ghost view = { λ r. record {
      second = seconds r.store.words.items (length r.store.weights.items);
      live = lives r.store.words.items (length r.store.weights.items);
      weights = r.store.weights.items;
      stride = r.stride;
      height = r.height;
      room = r.store.weights.capacity;
    } };

    ghost invariant = { λ r. IsKept r.store.words r.store.weights r.stride r.height r.cursor };
}

/// Where a position in a block stands in the two halves of the block, in the next row: as many of their places stand before it.
#[derive(Clone, Copy, Debug)]
pub struct Halves {
    pub first: usize,
    pub second: usize,
}

impl RankRows {
    /// No places, and room for so many. Nothing else of this type takes memory.
    pub fn room(alloc: Global, cap: usize) -> Result<RankRows, NoMemory>
        requires { cap ≤ 2 ^ 40 }
        ensures { IfOk result (λ rows. rows ≡ no_places 1 7 cap) }
    {
        let words = Row::room(alloc, cap.div_ceil(WIDTH))?;
        let weights = Row::room(alloc, cap)?;
        Ok(RankRows {
            store: Store { words, weights },
            stride: 1,
            height: 7,
            cursor: Cursor::first(),
        })
    }

    /// Takes all places out, in one step, for rows of so many words, the first in blocks of `2^height` places. It counts nothing.
    pub fn begin(&mut self, stride: usize, height: u32)
        requires some { 0 < stride }
        requires few { stride ≤ 2 ^ 26 }
        requires low { height ≤ 32 }
        ensures { self.new ≡ no_places stride height self.old.room }
    {
        self.store.words.clear();
        self.store.weights.clear();
        self.stride = stride;
        self.height = height;
        self.cursor = Cursor::first();
    }

    /// The height of the blocks of the row that is made. It counts nothing.
    #[inline]
    pub fn next_height(&self) -> u32
        requires { (row : ℕ) × IsNextRow self.now row }
        ensures { (row : ℕ) → IsNextRow self.now row → result ≡ self.now.height - row }
    {
        self.height - self.cursor.row
    }

    /// Puts the next place, which is live, and gives where it stands in the next row: three touches at most.
    pub fn push<L: Ledger>(&mut self, second: bool, weight: u32, steps: &mut Steps<L>) -> usize
        requires room { length self.old.second < self.old.room }
        requires row { (row : ℕ) × IsNextRow self.old row }
        requires fresh { All (λ live. live ≡ true) self.old.live }
        ensures put { self.new ≡ with_place second weight self.old }
        ensures next { (row k : ℕ) → length self.old.second ≡ place_at self.old row k → k < 64 * self.old.stride → result ≡ next_place self.new row k }
        ensures cost { Spends steps.old steps.new 0 0 3 }
    {
        let height = self.next_height();
        let cursor = self.cursor;
        self.store
            .put(second, weight, cursor.ones, cursor.weight, steps);
        self.cursor = cursor.next(second, weight, height, self.stride);
        cursor.target(second, height)
    }

    /// The words of the row begin here.
    #[inline]
    fn base(&self, row: u32) -> usize
        requires { row * self.now.stride ≤ 2 ^ 40 }
        ensures { result ≡ row * self.now.stride }
    {
        row as usize * self.stride
    }

    /// How many places of a block from its start on and below `to` go into the second half: one touch.
    pub fn rank<L: Ledger>(&self, row: u32, start: usize, to: usize, steps: &mut Steps<L>) -> usize
        requires { IsFront self.now row start to }
        ensures value { result ≡ rank self.now row start to }
        ensures cost { Spends steps.old steps.new 0 0 1 }
    {
        if to == start {
            return 0;
        }
        let word = self
            .store
            .words
            .at(self.base(row) + (to - 1) / WIDTH, steps);
        word.ones + ones_below(word.second, (to - 1) % WIDTH + 1)
    }

    /// Whether a place goes into the second half of its block: one touch.
    fn goes_second<L: Ledger>(&self, row: u32, k: usize, steps: &mut Steps<L>) -> bool
        requires { IsPlace self.now row k }
        ensures value { result ≡ slice_index_or self.now.second (place_at self.now row k) true }
        ensures cost { Spends steps.old steps.new 0 0 1 }
    {
        let word = self.store.words.at(self.base(row) + k / WIDTH, steps);
        has_bit(word.second, k % WIDTH)
    }

    /// Where a place stands in the next row: two touches.
    pub fn next<L: Ledger>(&self, row: u32, k: usize, steps: &mut Steps<L>) -> usize
        requires { IsPlace self.now row k }
        ensures value { result ≡ next_place self.now row k }
        ensures cost { Spends steps.old steps.new 0 0 2 }
    {
        let height = self.height - row;
        let start = block_start(k, height);
        let rank = self.rank(row, start, k, steps);
        if self.goes_second(row, k, steps) {
            start + block_len(height - 1) + rank
        } else {
            k - rank
        }
    }

    /// Where a position in a block stands in its halves: one touch.
    pub fn halves<L: Ledger>(
        &self,
        row: u32,
        start: usize,
        to: usize,
        steps: &mut Steps<L>,
    ) -> Halves
        requires { IsFront self.now row start to }
        ensures first { result.first + rank self.now row start to ≡ to }
        ensures second { result.second ≡ start + 2 ^ (self.now.height - row - 1) + rank self.now row start to }
        ensures cost { Spends steps.old steps.new 0 0 1 }
    {
        let rank = self.rank(row, start, to, steps);
        Halves {
            first: to - rank,
            second: start + block_len(self.height - row - 1) + rank,
        }
    }

    /// How many places of a block from its start on and below `to` are live: a touch for each height of the block at most.
    pub fn live_before<L: Ledger>(
        &self,
        row: u32,
        start: usize,
        to: usize,
        steps: &mut Steps<L>,
    ) -> usize
        requires { IsFront self.now row start to }
        ensures value { result ≡ how_many (slice_of self.now self.now.live row start to) }
        ensures cost { Spends steps.old steps.new 0 0 (self.now.height - row) }
    {
        if to == start {
            return 0;
        }
        let height = self.height - row;
        let base = self.base(row);
        let at = base + (to - 1) / WIDTH;
        let front = self
            .store
            .front(base + start / WIDTH, height - 6, at, steps);
        let dead = ones_below(front.word.dead, (to - 1) % WIDTH + 1);
        to - start - front.died.count - dead
    }

    /// What places from `from` on and below `to`, counted from the first row on, weigh: a touch each.
    fn weigh<L: Ledger>(&self, from: usize, to: usize, steps: &mut Steps<L>) -> u64
        requires ordered { from ≤ to }
        requires few { to ≤ from + 64 }
        requires there { to ≤ length self.now.weights }
        ensures value { result ≡ sum (slice_range self.now.weights from to) }
        ensures small { result < 2 ^ 40 }
        ensures cost { Spends steps.old steps.new 0 0 (to - from) }
    {
        let mut sum = 0u64;
        for k in from..to {
            sum += self.store.weights.at(k, steps) as u64;
        }
        sum
    }

    /// What the live places of a block from its start on and below `to` weigh: as many touches, and one for each place of a word.
    pub fn weight_before<L: Ledger>(
        &self,
        row: u32,
        start: usize,
        to: usize,
        steps: &mut Steps<L>,
    ) -> u64
        requires { IsFront self.now row start to }
        ensures value { result ≡ sum (slice_of self.now self.now.weights row start to) }
        ensures cost { Spends steps.old steps.new 0 0 (self.now.height - row + 64) }
    {
        if to == start {
            return 0;
        }
        let height = self.height - row;
        let base = self.base(row);
        let at = base + (to - 1) / WIDTH;
        let front = self
            .store
            .front(base + start / WIDTH, height - 6, at, steps);
        let weight = self.weigh(at * WIDTH, base * WIDTH + to, steps);
        front.word.weight - front.died.weight + weight
    }

    /// Marks a live place as dead: two touches for each height of its block at most.
    pub fn mark<L: Ledger>(&mut self, row: u32, k: usize, weight: u32, steps: &mut Steps<L>)
        requires place { IsPlace self.old row k }
        requires live { slice_get self.old.live (place_at self.old row k) ≡ Some true }
        requires weight { slice_get self.old.weights (place_at self.old row k) ≡ Some weight }
        ensures marked { self.new ≡ marked row k self.old }
        ensures cost { Spends steps.old steps.new 0 0 (2 * (self.old.height - row)) }
    {
        let height = self.height - row;
        let base = self.base(row);
        let first = base + block_start(k, height) / WIDTH;
        let end = (base + self.stride).min(self.store.words.len());
        let at = base + k / WIDTH;
        self.store
            .add_dead(first, height - 6, end, at, weight, steps);
        self.store.kill(base * WIDTH + k, steps);
    }

    /// Whether a place is live: one touch.
    pub fn is_live<L: Ledger>(&self, row: u32, k: usize, steps: &mut Steps<L>) -> bool
        requires { IsPlace self.now row k }
        ensures value { slice_get self.now.live (place_at self.now row k) ≡ Some result }
        ensures cost { Spends steps.old steps.new 0 0 1 }
    {
        let word = self.store.words.at(self.base(row) + k / WIDTH, steps);
        !has_bit(word.dead, k % WIDTH)
    }

    /// The live place of a block with so many live ones before it in the block, of which there are more below `to`: a touch for each
    /// height of the block at most.
    pub fn nth_live<L: Ledger>(
        &self,
        row: u32,
        start: usize,
        to: usize,
        rank: usize,
        steps: &mut Steps<L>,
    ) -> usize
        requires front { IsFront self.now row start to }
        requires some { rank < how_many (slice_of self.now self.now.live row start to) }
        ensures from { start ≤ result }
        ensures within { result < to }
        ensures live { slice_get self.now.live (place_at self.now row result) ≡ Some true }
        ensures ranked { how_many (slice_of self.now self.now.live row start result) ≡ rank }
        ensures cost { Spends steps.old steps.new 0 0 (self.now.height - row) }
    {
        let height = self.height - row;
        let base = self.base(row);
        let first = base + start / WIDTH;
        let end = base + (to - 1) / WIDTH + 1;
        let held = self.store.holder(first, height - 6, end, rank, steps);
        let word = self.store.words.at(held.at, steps);
        (held.at - base) * WIDTH + nth_clear(word.dead, held.rest)
    }
}
