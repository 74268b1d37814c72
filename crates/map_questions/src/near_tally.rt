//! The tally of a question for the nearest point.
ghost use Rattle.std.specs.Prelude.{◌≡◌, IsTrue, false, Some, None, IfSome};
ghost use Rattle.map_shapes.specs.Found.{nearer_le};
ghost use Rattle.map_questions.specs.FirstFew.{first_of_both};

use map_shapes::Found;
use query_laws::{NoMemory, Tally};
use std::marker::Model;

/// The nearest point so far. It takes no memory, and never refuses.
#[derive(Drop)]
pub struct NearTally {
    nearest: Option<Found>,
}

impl Model for NearTally {
    ghost use Rattle.std.specs.Prelude.{Option};
    ghost use Rattle.map_model.specs.Found.{Found};

    ghost Value = { Option Found };

    ghost view = { λ t. t.nearest };
}

impl NearTally {
    /// Nothing yet.
    pub fn new() -> NearTally
        ensures { result ≡ None }
    {
        NearTally { nearest: None }
    }

    /// Takes in a point.
    pub fn offer(&mut self, found: Found)
        ensures joined { self.new ≡ first_of_both nearer_le self.old (Some found) }

        // One that doesn't come before the worst so far changes nothing.
        ensures unchanged { IfSome self.old (λ worst. IsTrue (nearer_le worst found) → self.new ≡ self.old) }
    {
        if self.nearest.is_none_or(|worst| found.before(&worst)) {
            self.nearest = Some(found);
        }
    }

    /// What a better point comes before; `None` where any point is better.
    pub fn worst(&self) -> Option<Found>
        ensures { result ≡ self.now }
    {
        self.nearest
    }
}

impl Tally for NearTally {
    type Answer = Option<Found>;

    ghost so_far = { λ nearest. nearest };

    ghost can_refuse = { λ _. false };

    fn can_refuse(&self) -> bool {
        false
    }

    fn finish(self) -> Result<Option<Found>, NoMemory> {
        Ok(self.nearest)
    }
}
