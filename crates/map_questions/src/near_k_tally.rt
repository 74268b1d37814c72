//! The tally of a question for the nearest points.
ghost use Rattle.std.specs.Prelude.{◌≡◌, ℕ, ◌-◌, ◌<◌, ◌≤◌, [], ◌∷◌, IsTrue, true, false, IfSome, MatchOption, slice_get, slice_index_or, length, not};
ghost use Rattle.map_model.specs.Found as model;
ghost use Rattle.map_model.specs.Found.{insert_by, sorted_by};
ghost use Rattle.map_shapes.specs.Found.{nearer_le};
ghost use Rattle.map_questions.specs.FirstFew.{IsFirstFew, first_few_of_both};

use map_shapes::{Found, FoundList};
use query_laws::{NoMemory, Tally};
use std::marker::Model;

/// The nearest points so far, up to a number of them. It takes no memory of the heap, and never refuses.
#[derive(Drop)]
pub struct NearKTally {
    k: usize,
    found: FoundList,
}

impl Model for NearKTally {
    ghost use Rattle.std.specs.Prelude.{◌≤◌};
    ghost use Rattle.map_shapes.specs.Found.{nearer_le};
    ghost use Rattle.map_questions.specs.FirstFew.{IsFirstFew};
    ghost use Rattle.map_questions.specs.NearestSoFar.{NearestSoFar};

    ghost Value = { NearestSoFar };

    ghost view = { λ t. record { k = t.k; found = t.found } };

    ghost invariant = { λ t. (1 ≤ t.k) × (t.k ≤ 64) × IsFirstFew nearer_le t.k t.found };
}

impl NearKTally {
    /// Nothing yet, and room for `k` points.
    pub fn new(k: usize) -> NearKTally
        requires some { 1 ≤ k }
        requires few { k ≤ 64 }
        ensures { result ≡ record { k = k; found = [] } }
    {
        NearKTally {
            k,
            found: FoundList::new(),
        }
    }

    /// Takes in a point.
    pub fn offer(&mut self, found: Found)
        ensures joined { self.new ≡ record self.old { found = first_few_of_both nearer_le self.old.k self.old.found (found ∷ []) } }
        ensures first_few { IsFirstFew nearer_le self.new.k self.new.found }

        // Where there is no room, one that doesn't come before the worst so far changes nothing.
        ensures unchanged { IfSome (slice_get self.old.found (self.old.k - 1)) (λ worst. IsTrue (nearer_le worst found) → self.new ≡ self.old) }
    {
        if self.takes(&found) {
            self.found.truncate(self.k - 1);
            insert_in_order(&mut self.found, found);
        }
    }

    /// Whether a point is among the nearest.
    fn takes(&self, found: &Found) -> bool
        ensures { MatchOption (slice_get self.now.found (self.now.k - 1)) (IsTrue result) (λ worst. result ≡ not (nearer_le worst found.now)) }
    {
        self.worst().is_none_or(|worst| found.before(&worst))
    }

    /// What a better point comes before; `None` while there is room.
    pub fn worst(&self) -> Option<Found>
        ensures { result ≡ slice_get self.now.found (self.now.k - 1) }
    {
        if self.found.len() < self.k {
            return None;
        }
        Some(self.found.get(self.k - 1))
    }
}

/// Puts a point into a list that is in order, before the first that doesn't come before it.
fn insert_in_order(list: &mut FoundList, found: Found)
    requires room { length list.old < 64 }
    requires sorted { sorted_by nearer_le list.old ≡ list.old }
    ensures { list.new ≡ insert_by nearer_le found list.old }
{
    let place = count_before(list, &found, 0, list.len());
    list.insert(place, found);
}

/// How many of a list that is in order come before a point, where it is known of those before `low` that they do, and of those
/// from `high` on that they don't.
fn count_before(list: &FoundList, found: &Found, low: usize, high: usize) -> usize
    requires sorted { sorted_by nearer_le list.now ≡ list.now }
    requires ordered { low ≤ high }
    requires within { high ≤ length list.now }
    ensures from_low { low ≤ result }
    ensures to_high { result ≤ high }
    ensures before { (k : ℕ) (d : model.Found) → low ≤ k → k < result → not (nearer_le found.now (slice_index_or list.now k d)) ≡ true }
    ensures after { (k : ℕ) (d : model.Found) → result ≤ k → k < high → not (nearer_le found.now (slice_index_or list.now k d)) ≡ false }
{
    if low == high {
        return low;
    }
    let middle = low + (high - low) / 2;
    if list.get(middle).before(found) {
        count_before(list, found, middle + 1, high)
    } else {
        count_before(list, found, low, middle)
    }
}

impl Tally for NearKTally {
    type Answer = FoundList;

    ghost so_far = { λ t. t.found };

    ghost can_refuse = { λ _. false };

    fn can_refuse(&self) -> bool {
        false
    }

    fn finish(self) -> Result<FoundList, NoMemory> {
        Ok(self.found)
    }
}
