//! The next live place with a large value, by a tournament.
ghost use Rattle.std.specs.Prelude.{◌≡◌, ℕ, ◌+◌, ◌-◌, ◌*◌, ◌^◌, ◌<◌, ◌≤◌, ◌∷◌, ◌++◌, ◌↔◌, [], IsTrue, true, false, IfOk, length, max, slice_range, slice_index_or, ◌≢◌};
ghost use Rattle.std.specs.List.{position_from};
ghost use Rattle.query_laws.specs.StepLedger.{Spends};
ghost use Rattle.weak_delete.specs.Places.{IsLive, is_live_at_least, live_place, cleared, nothing_put, IsBuilt};
ghost use Rattle.row_blocks.specs.Blocks.{IsMultiple};
ghost use Rattle.weak_delete.specs.Tournament.{rank_of, winner_rank, rank_at, IsGreatest, IsWinnerAt, AreWinnersBelow, IsBelowBound};

use crate::place::Place;
use query_laws::NoMemory;
use query_laws::step_ledger::{Row, Steps};
use row_blocks::{block_len, height_above};
use std::alloc::Global;
use std::marker::Model;
use std::mem::size_of;
use std::sync::ledger::Ledger;

/// Places with a value each, which are live until they are cleared: a tournament tree in one row.
///
/// The winner of a block of `2^l` places, its greatest live value, stands at the place in the block's middle, where the
/// winners of its two halves met. So there is a winner between each two neighbours, and none at place 0. The turns build
/// the winners from the small blocks to the large ones.
#[derive(Drop)]
pub struct LiveMax {
    places: Row<Place>,
    winners: Row<Option<u32>>,
    height: u32,
    left: usize,
    sealed: bool,
}

// A touch reads or writes one entry, of at most 64 bytes.
const _: () = prove!(size_of::<Place>() <= 64);

const _: () = prove!(size_of::<Option<u32>>() <= 64);

impl Model for LiveMax {
    ghost use Rattle.weak_delete.specs.Places.{LivePlaces};
    ghost use Rattle.weak_delete.specs.Tournament.{IsTournament};

    ghost Value = { LivePlaces };

    ghost view = { λ s. record {
      places = s.places.items;
      capacity = s.places.capacity;
      sealed = s.sealed;
      left = s.left;
    } };

    ghost invariant = { λ s. IsTournament s.places s.winners s.height s.left s.sealed };
}

/// What a place brings into the tournament: its value while it is live.
#[inline]
fn entrant(place: Place) -> Option<u32>
    ensures { winner_rank result ≡ rank_of place }
{
    if place.live { Some(place.amount) } else { None }
}

/// The greater of two winners, where there is one.
#[inline]
fn greater(first: Option<u32>, second: Option<u32>) -> Option<u32>
    ensures { winner_rank result ≡ max (winner_rank first) (winner_rank second) }
{
    match (first, second) {
        (Some(one), Some(other)) => Some(one.max(other)),
        (Some(one), None) => Some(one),
        (None, other) => other,
    }
}

/// Whether a winner reaches a bound.
#[inline]
fn reaches(winner: Option<u32>, bound: u32) -> bool
    ensures { IsTrue result ↔ (bound < winner_rank winner) }
{
    match winner {
        Some(value) => bound <= value,
        None => false,
    }
}

/// The winner of a block, where those of the smaller blocks in it stand.
fn winner_of<L: Ledger>(
    places: &Row<Place>,
    winners: &Row<Option<u32>>,
    start: usize,
    height: u32,
    steps: &mut Steps<L>,
) -> Option<u32>
    requires same_length { length winners.now.items ≡ length places.now.items }
    requires few { length places.now.items ≤ 2 ^ 31 }
    requires block { IsMultiple start height }
    requires small { height ≤ 32 }
    requires within { start < length places.now.items }
    requires built { AreWinnersBelow places.now.items winners.now.items height }
    ensures greatest { IsGreatest places.now.items start (start + 2 ^ height) (winner_rank result) }
    ensures cost { Spends steps.old steps.new 0 0 1 }
{
    let mut low = height;
    while low > 0 {
        let middle = start + block_len(low - 1);
        if middle < winners.len() {
            return winners.at(middle, steps);
        }
        low -= 1;
    }
    entrant(places.at(start, steps))
}

/// Lets the winners of a block's halves meet, and writes who wins in the middle.
fn play<L: Ledger>(
    places: &Row<Place>,
    winners: &mut Row<Option<u32>>,
    start: usize,
    height: u32,
    steps: &mut Steps<L>,
)
    requires same_length { length winners.old.items ≡ length places.now.items }
    requires few { length places.now.items ≤ 2 ^ 31 }
    requires block { IsMultiple start (height + 1) }
    requires small { height < 32 }
    requires within { start + 2 ^ height < length places.now.items }
    requires built { AreWinnersBelow places.now.items winners.old.items height }
    ensures wins { IsWinnerAt places.now.items winners.new.items (start + 2 ^ height) }
    ensures others { (k : ℕ) → k ≢ start + 2 ^ height → slice_index_or winners.new.items k None ≡ slice_index_or winners.old.items k None }
    ensures long { length winners.new.items ≡ length winners.old.items }
    ensures room { winners.new.capacity ≡ winners.old.capacity }
    ensures cost { Spends steps.old steps.new 0 0 3 }
{
    let middle = start + block_len(height);
    let first = winner_of(places, winners, start, height, steps);
    let second = winner_of(places, winners, middle, height, steps);
    winners.set(middle, greater(first, second), steps);
}

impl LiveMax {
    /// No places yet, and room for `cap` of them, at most 2^31. Nothing else of this type takes memory.
    pub fn room(alloc: Global, cap: usize) -> Result<LiveMax, NoMemory>
        requires { cap ≤ 2 ^ 31 }
        ensures { IfOk result (λ most. most ≡ nothing_put cap) }
    {
        let places = Row::room(alloc, cap)?;
        let winners = Row::room(alloc, cap)?;
        Ok(LiveMax {
            places,
            winners,
            height: 0,
            left: 0,
            sealed: false,
        })
    }

    /// Takes all places out, in one step, and keeps the memory. Puts may come again. It counts nothing.
    #[inline]
    pub fn reset(&mut self)
        ensures { self.new ≡ nothing_put self.old.capacity }
    {
        self.places.clear();
        self.winners.clear();
        self.height = 0;
        self.left = 0;
        self.sealed = false;
    }

    /// How many places were put. It counts nothing.
    #[inline]
    pub fn len(&self) -> usize
        ensures value { result ≡ length self.now.places }
        ensures within { result ≤ self.now.capacity }
    {
        self.places.len()
    }

    /// Whether no more places come. It counts nothing.
    #[inline]
    pub fn is_sealed(&self) -> bool
        ensures { result ≡ self.now.sealed }
    {
        self.sealed
    }

    /// How many turns are left until the tournament is played: none before the seal. It counts nothing.
    #[inline]
    pub fn left(&self) -> u64
        ensures { result ≡ self.now.left }
    {
        self.left as u64
    }

    /// Puts a live place of this value, any u32, behind the others: one turn.
    pub fn put<L: Ledger>(&mut self, value: u32, steps: &mut Steps<L>)
        requires open { self.old.sealed ≡ false }
        requires room { length self.old.places < self.old.capacity }
        ensures put { self.new ≡ record self.old { places = self.old.places ++ live_place value ∷ [] } }
        ensures cost { Spends steps.old steps.new 1 0 4 }
    {
        self.places.push(
            Place {
                amount: value,
                live: true,
            },
            steps,
        );
        self.winners.push(None, steps);
        steps.turn();
    }

    /// Ends the puts. A turn is left for each place but the first. It counts nothing.
    pub fn seal(&mut self)
        requires { self.old.sealed ≡ false }
        ensures { self.new ≡ record self.old { sealed = true; left = length self.old.places - 1 } }
    {
        self.height = 0;
        self.left = self.places.len().saturating_sub(1);
        self.sealed = true;
    }

    /// Finds the winner of one block: one turn.
    pub fn turn<L: Ledger>(&mut self, steps: &mut Steps<L>)
        requires sealed { self.old.sealed ≡ true }
        requires left { 0 < self.old.left }
        ensures turned { self.new ≡ record self.old { left = self.old.left - 1 } }
        ensures cost { Spends steps.old steps.new 1 0 8 }
    {
        let half = block_len(self.height);
        let blocks = (self.places.len() - 1) / half;
        let start = 2 * (blocks - self.left) * half;
        play(&self.places, &mut self.winners, start, self.height, steps);
        self.left -= 1;
        if self.left == blocks / 2 {
            self.height += 1;
        }
        steps.turn();
    }

    /// Takes the live place `k` out, and finds the winners of the blocks that hold it anew, from the small ones to the large. A
    /// caller knows by its own flags that it is live.
    pub fn clear<L: Ledger>(&mut self, k: usize, steps: &mut Steps<L>)
        requires built { IsBuilt self.old }
        requires live { IsLive self.old.places k }
        ensures cleared { self.new ≡ record self.old { places = cleared self.old.places k } }
        ensures cost { (h : ℕ) → length self.old.places ≤ 2 ^ h → Spends steps.old steps.new 0 0 (4 * (h + 2)) }
    {
        let amount = self.places.at(k, steps).amount;
        self.places.set(
            k,
            Place {
                amount,
                live: false,
            },
            steps,
        );
        for height in 0..height_above(self.places.len()) {
            let half = block_len(height);
            let start = k / (2 * half) * (2 * half);
            if start + half >= self.places.len() {
                continue;
            }
            play(&self.places, &mut self.winners, start, height, steps);
        }
    }

    /// The first live place from `from` on and below `to` whose value is at least `bound`.
    ///
    /// It goes up from `from` over blocks that grow, until one has such a winner, and down to the place in that block. So each
    /// height costs at most two touches.
    pub fn next_at_least<L: Ledger>(
        &self,
        from: usize,
        to: usize,
        bound: u32,
        steps: &mut Steps<L>,
    ) -> Option<usize>
        requires built { IsBuilt self.now }
        requires order { from ≤ to }
        requires within { to ≤ length self.now.places }
        ensures first { result ≡ position_from (is_live_at_least bound) from (slice_range self.now.places from to) }
        ensures cost { (h : ℕ) → length self.now.places ≤ 2 ^ h → Spends steps.old steps.new 0 0 (6 * (h + 2)) }
    {
        let top = height_above(self.places.len());
        let mut start = from;
        for height in 0..top + 1 {
            if height < top && start / block_len(height) % 2 == 0 {
                continue;
            }
            if start >= to {
                break;
            }
            if reaches(self.winner(start, height, steps), bound) {
                let k = self.first_in(start, height, bound, steps);
                return if k < to { Some(k) } else { None };
            }
            start += block_len(height);
        }
        None
    }

    /// The winner of a block.
    #[inline]
    fn winner<L: Ledger>(&self, start: usize, height: u32, steps: &mut Steps<L>) -> Option<u32>
        requires built { IsBuilt self.now }
        requires block { IsMultiple start height }
        requires small { height ≤ 32 }
        requires within { start < length self.now.places }
        ensures greatest { IsGreatest self.now.places start (start + 2 ^ height) (winner_rank result) }
        ensures few { length self.now.places ≤ 2 ^ 31 }
        ensures cost { Spends steps.old steps.new 0 0 1 }
    {
        winner_of(&self.places, &self.winners, start, height, steps)
    }

    /// The first place of a block that reaches the bound, where one of the block does.
    fn first_in<L: Ledger>(
        &self,
        start: usize,
        height: u32,
        bound: u32,
        steps: &mut Steps<L>,
    ) -> usize
        requires built { IsBuilt self.now }
        requires block { IsMultiple start height }
        requires small { height ≤ 32 }
        requires some { ¬ IsBelowBound self.now.places start (start + 2 ^ height) bound }
        ensures after { start ≤ result }
        ensures below { IsBelowBound self.now.places start result bound }
        ensures above { bound < rank_at self.now.places result }
        ensures cost { Spends steps.old steps.new 0 0 height }
    {
        let mut first = start;
        let mut low = height;
        while low > 0 {
            low -= 1;
            if !reaches(self.winner(first, low, steps), bound) {
                first += block_len(low);
            }
        }
        first
    }
}
