//! Places in words, and what they weigh.
ghost use Rattle.std.specs.Prelude.{◌≡◌, ◌≢◌, ◌+◌, ◌-◌, ◌*◌, ◌/◌, ◌%◌, ◌^◌, ◌<◌, ◌≤◌, ℕ, length};
ghost use Rattle.std.specs.Int.{bit_at};
ghost use Rattle.query_laws.specs.StepLedger.{Spends, one_touch};
ghost use Rattle.rank_rows.specs.Totals.{total};
ghost use Rattle.rank_rows.specs.Words.{word_at, second_at, dead_at, weight_at};
ghost use Rattle.rank_rows.specs.Putting.{IsClearFrom, IsWordPut, IsPut, IsKilled};

use crate::word::{NOTHING, WIDTH, Word, with_bit};
use query_laws::step_ledger::{Row, Steps};
use std::mem::size_of;
use std::sync::ledger::Ledger;

/// Places, sixty-four a word, with the weight of each.
#[derive(Drop)]
pub(crate) struct Store {
    pub(crate) words: Row<Word>,
    pub(crate) weights: Row<u32>,
}

// A touch reads or writes one entry, of at most 64 bytes.
const _: () = prove!(size_of::<Word>() <= 64);

impl Store {
    /// Begins a word with the place `n`, which is its first.
    fn open_word<L: Ledger>(
        &mut self,
        n: usize,
        second: bool,
        ones: usize,
        weight: u64,
        steps: &mut Steps<L>,
    )
        requires first { n ≡ 64 * length self.old.words.items }
        requires room { length self.old.words.items < self.old.words.capacity }
        ensures put { IsWordPut n second ones weight self.old.words self.new.words }
        ensures weights { self.new.weights ≡ self.old.weights }
        ensures cost { Spends steps.old steps.new 0 0 2 }
    {
        let word = Word {
            second: second as u64,
            dead: 0,
            ones,
            weight,
            died: NOTHING,
        };
        self.words.push(word, steps);
    }

    /// Sets the bit of the place `n` of the last word, where it goes into the second half.
    fn set_second<L: Ledger>(&mut self, n: usize, second: bool, steps: &mut Steps<L>)
        requires behind { n / 64 + 1 ≡ length self.old.words.items }
        requires not_first { n % 64 ≢ 0 }
        requires clear { IsClearFrom n self.old.words.items }
        ensures put { (ones weight : ℕ) → IsWordPut n second ones weight self.old.words self.new.words }
        ensures weights { self.new.weights ≡ self.old.weights }
        ensures cost { Spends steps.old steps.new 0 0 2 }
    {
        if second {
            let e = n / WIDTH;
            let word = self.words.at(e, steps);
            let second = with_bit(word.second, n % WIDTH);
            self.words.set(e, Word { second, ..word }, steps);
        }
    }

    /// Puts the next place. Of the places before its word, `ones` go into the second half, and they weigh `before`.
    pub(crate) fn put<L: Ledger>(
        &mut self,
        second: bool,
        weight: u32,
        ones: usize,
        before: u64,
        steps: &mut Steps<L>,
    )
        requires entries { length self.old.words.items ≡ (length self.old.weights.items + 63) / 64 }
        requires room { length self.old.weights.items < self.old.weights.capacity }
        requires room_words { (self.old.weights.capacity + 63) / 64 ≤ self.old.words.capacity }
        requires clear { IsClearFrom (length self.old.weights.items) self.old.words.items }
        ensures put { IsPut second weight ones before self.old self.new }
        ensures cost { Spends steps.old steps.new 0 0 3 }
    {
        let n = self.weights.len();
        if n % WIDTH == 0 {
            self.open_word(n, second, ones, before, steps);
        } else {
            self.set_second(n, second, steps);
        }
        self.weights.push(weight, steps);
    }

    /// Makes a place dead, which weighs nothing then. What died before a word is counted by `add_dead`.
    pub(crate) fn kill<L: Ledger>(&mut self, k: usize, steps: &mut Steps<L>)
        requires within { k < length self.old.weights.items }
        requires entries { k / 64 < length self.old.words.items }
        ensures killed { IsKilled k self.old self.new }
        ensures cost { Spends steps.old steps.new 0 0 3 }
    {
        let e = k / WIDTH;
        let word = self.words.at(e, steps);
        let dead = with_bit(word.dead, k % WIDTH);
        self.words.set(e, Word { dead, ..word }, steps);
        self.weights.set(k, 0, steps);
    }
}
