//! What died in a block: a tree over its words.
ghost use Rattle.std.specs.Prelude.{◌≡◌, ◌+◌, ◌-◌, ◌*◌, ◌^◌, ◌<◌, ◌≤◌, ◌⊎◌, ℕ, length, min};
ghost use Rattle.query_laws.specs.StepLedger.{Spends};
ghost use Rattle.rank_rows.specs.Words.{word_at, dead_before, weight_before};
ghost use Rattle.rank_rows.specs.Nodes.{AreNodes, IsReady, HasMore, IsHolder, IsSameButDied, IsWordOf, with_dead};

use crate::store::Store;
use crate::word::{Dead, NOTHING, WIDTH, Word};
use query_laws::step_ledger::{Row, Steps};
use row_blocks::block_len;
use std::sync::ledger::Ledger;

/// A word of a block, and what died in the words of the block before it.
#[derive(Clone, Copy)]
pub(crate) struct Front {
    pub(crate) word: Word,
    pub(crate) died: Dead,
}

/// A word of a block, and the live place in it with `rest` live ones of the word before it.
#[derive(Clone, Copy)]
pub(crate) struct Held {
    pub(crate) at: usize,
    pub(crate) rest: usize,
}

impl Store {
    /// The word at `at` of a block, and what died before it: a touch more than the block is high.
    pub(crate) fn front<L: Ledger>(
        &self,
        first: usize,
        height: u32,
        at: usize,
        steps: &mut Steps<L>,
    ) -> Front
        requires { IsWordOf self.now.words.items self.now.weights.items first height at }
        ensures word { result.word ≡ word_at self.now.words.items at }
        ensures count { result.died.count + dead_before self.now.words.items first ≡ dead_before self.now.words.items at }
        ensures weight { result.died.weight + weight_before self.now.weights.items at + (word_at self.now.words.items first).weight
            ≡ weight_before self.now.weights.items first + result.word.weight }
        ensures cost { Spends steps.old steps.new 0 0 (height + 1) }
    {
        let word = self.words.at(at, steps);
        let died = self.died_before(first, height, at, NOTHING, steps);
        Front { word, died }
    }

    /// What died in the words of a block before the one at `at`, and `sum` more: a touch for each height at most.
    pub(crate) fn died_before<L: Ledger>(
        &self,
        start: usize,
        height: u32,
        at: usize,
        sum: Dead,
        steps: &mut Steps<L>,
    ) -> Dead
        requires from { start ≤ at }
        requires block { at < start + 2 ^ height }
        requires within { at < length self.now.words.items }
        requires small { length self.now.words.items ≤ 2 ^ 40 }
        requires low { height ≤ 32 }
        requires nodes { AreNodes self.now.words.items (dead_before self.now.words.items) (weight_before self.now.weights.items) start height (at + 1) }
        requires few { sum.count ≤ dead_before self.now.words.items start }
        requires light { sum.weight + weight_before self.now.weights.items start + (word_at self.now.words.items at).weight
            < 2 ^ 64 + weight_before self.now.weights.items at + (word_at self.now.words.items start).weight }
        ensures count { result.count + dead_before self.now.words.items start ≡ sum.count + dead_before self.now.words.items at }
        ensures weight { result.weight + weight_before self.now.weights.items at + (word_at self.now.words.items start).weight
            ≡ sum.weight + weight_before self.now.weights.items start + (word_at self.now.words.items at).weight }
        ensures cost { Spends steps.old steps.new 0 0 height }
    {
        if height == 0 {
            return sum;
        }
        let middle = start + block_len(height - 1);
        if at < middle {
            return self.died_before(start, height - 1, at, sum, steps);
        }
        let died = self.words.at(middle, steps).died;
        self.died_before(middle, height - 1, at, sum.plus(died), steps)
    }

    /// One more place of this weight died before the middle of a block, if its row has that word: it ends before the word `end`.
    fn count_dead<L: Ledger>(
        &mut self,
        middle: usize,
        end: usize,
        weight: u32,
        steps: &mut Steps<L>,
    )
        requires within { end ≤ length self.old.words.items }
        requires few { middle < end → (word_at self.old.words.items middle).died.count + 1 < 2 ^ 64 }
        requires light { middle < end
            → (word_at self.old.words.items middle).died.weight + weight ≤ (word_at self.old.words.items middle).weight }
        ensures counted { middle < end → word_at self.new.words.items middle ≡ with_dead weight (word_at self.old.words.items middle) }
        ensures kept { (e : ℕ) → IsSameButDied (word_at self.old.words.items e) (word_at self.new.words.items e) }
        ensures others { (e : ℕ) → (e ≡ middle → ⊥) → word_at self.new.words.items e ≡ word_at self.old.words.items e }
        ensures behind { (e : ℕ) → end ≤ e → word_at self.new.words.items e ≡ word_at self.old.words.items e }
        ensures as_many { length self.new.words.items ≡ length self.old.words.items }
        ensures room { self.new.words.capacity ≡ self.old.words.capacity }
        ensures weights { self.new.weights ≡ self.old.weights }
        ensures cost { Spends steps.old steps.new 0 0 2 }
    {
        if middle >= end {
            return;
        }
        let word = self.words.at(middle, steps);
        let one = Dead {
            count: 1,
            weight: weight as u64,
        };
        let died = word.died.plus(one);
        self.words.set(middle, Word { died, ..word }, steps);
    }

    /// One more place of this weight died in the word at `at` of a block, whose row ends before the word `end`.
    pub(crate) fn add_dead<L: Ledger>(
        &mut self,
        start: usize,
        height: u32,
        end: usize,
        at: usize,
        weight: u32,
        steps: &mut Steps<L>,
    )
        requires from { start ≤ at }
        requires block { at < start + 2 ^ height }
        requires before_end { at < end }
        requires within { end ≤ length self.old.words.items }
        requires small { length self.old.words.items ≤ 2 ^ 40 }
        requires low { height ≤ 32 }
        requires ready { IsReady self.old.words.items start height end at weight }
        ensures nodes { (ready : IsReady self.old.words.items start height end at weight)
            → AreNodes self.new.words.items ready.dead' ready.weighs' start height end }
        ensures others { (e : ℕ) → (e ≤ start) ⊎ (start + 2 ^ height ≤ e) → word_at self.new.words.items e ≡ word_at self.old.words.items e }
        ensures behind { (e : ℕ) → end ≤ e → word_at self.new.words.items e ≡ word_at self.old.words.items e }
        ensures kept { (e : ℕ) → IsSameButDied (word_at self.old.words.items e) (word_at self.new.words.items e) }
        ensures as_many { length self.new.words.items ≡ length self.old.words.items }
        ensures room { self.new.words.capacity ≡ self.old.words.capacity }
        ensures weights { self.new.weights ≡ self.old.weights }
        ensures cost { Spends steps.old steps.new 0 0 (2 * height) }
    {
        if height == 0 {
            return;
        }
        let middle = start + block_len(height - 1);
        if middle <= at {
            self.add_dead(middle, height - 1, end, at, weight, steps);
            return;
        }
        self.count_dead(middle, end, weight, steps);
        self.add_dead(start, height - 1, end, at, weight, steps);
    }

    /// The word that has the live place of a block with `rank` live ones before it in the block, of which there are more before the
    /// word `end`: a touch for each height at most.
    pub(crate) fn holder<L: Ledger>(
        &self,
        start: usize,
        height: u32,
        end: usize,
        rank: usize,
        steps: &mut Steps<L>,
    ) -> Held
        requires from { start < end }
        requires within { end ≤ length self.now.words.items }
        requires small { length self.now.words.items ≤ 2 ^ 40 }
        requires low { height ≤ 32 }
        requires nodes { AreNodes self.now.words.items (dead_before self.now.words.items) (weight_before self.now.weights.items) start height end }
        requires some { HasMore (dead_before self.now.words.items) start (min (start + 2 ^ height) end) rank }
        ensures held { IsHolder (dead_before self.now.words.items) start (min (start + 2 ^ height) end) rank result }
        ensures cost { Spends steps.old steps.new 0 0 height }
    {
        if height == 0 {
            return Held {
                at: start,
                rest: rank,
            };
        }
        let half = block_len(height - 1);
        let middle = start + half;
        if middle >= end {
            return self.holder(start, height - 1, end, rank, steps);
        }
        let live = WIDTH * half - self.words.at(middle, steps).died.count;
        if live <= rank {
            self.holder(middle, height - 1, end, rank - live, steps)
        } else {
            self.holder(start, height - 1, end, rank, steps)
        }
    }
}
