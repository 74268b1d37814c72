//! What keeps the nearest points so far: the tallies of both questions.
ghost use Rattle.std.specs.Prelude.{◌≡◌, ℕ, ◌-◌, ◌≤◌, List, [], ◌∷◌, slice_get};
ghost use Rattle.map_model.specs.Found.{Found};
ghost use Rattle.map_shapes.specs.Found.{nearer_le};
ghost use Rattle.map_questions.specs.FirstFew.{IsFirstFew, first_few_of_both};

use map_questions::{NearKTally, NearTally};
use map_shapes::Found;

/// The first few of the points that were taken in.
pub(crate) trait KeepsNearest {
    ghost kept: { Self → List Found };

    /// How many it keeps at most.
    ghost most: { Self → ℕ };

    /// What a better point comes before; `None` while any point is better.
    fn farthest(&self) -> Option<Found>
        ensures { result ≡ slice_get (kept self.now) (most self.now - 1) };

    /// Takes in a point.
    fn take_in(&mut self, found: Found)
        ensures kept { kept self.new ≡ first_few_of_both nearer_le (most self.old) (kept self.old) (found ∷ []) }
        ensures most { most self.new ≡ most self.old };
}

impl KeepsNearest for NearTally {
    ghost use Rattle.std.specs.Option.{option_to_list};

    ghost kept = { λ t. option_to_list t };

    ghost most = { λ t. 1 };

    fn farthest(&self) -> Option<Found> {
        self.worst()
    }

    fn take_in(&mut self, found: Found) {
        self.offer(found);
    }
}

impl KeepsNearest for NearKTally {
    ghost kept = { λ t. t.found };

    ghost most = { λ t. t.k };

    fn farthest(&self) -> Option<Found> {
        self.worst()
    }

    fn take_in(&mut self, found: Found) {
        self.offer(found);
    }
}
