//! The tally of a question for the highest point.
ghost use Rattle.std.specs.Prelude.{◌≡◌, IsTrue, false, Some, None, IfSome};
ghost use Rattle.map_shapes.specs.Found.{higher_le};
ghost use Rattle.map_questions.specs.FirstFew.{first_of_both};

use map_shapes::Peak;
use query_laws::{NoMemory, Tally};
use std::marker::Model;

/// The highest point so far. It takes no memory, and never refuses.
#[derive(Drop)]
pub struct TopTally {
    highest: Option<Peak>,
}

impl Model for TopTally {
    ghost use Rattle.std.specs.Prelude.{Option};
    ghost use Rattle.map_shapes.specs.declared.peak.Peak.{Peak};

    ghost Value = { Option Peak };

    ghost view = { λ t. t.highest };
}

impl TopTally {
    /// Nothing yet.
    pub fn new() -> TopTally
        ensures { result ≡ None }
    {
        TopTally { highest: None }
    }

    /// Takes in a point.
    pub fn offer(&mut self, peak: Peak)
        ensures joined { self.new ≡ first_of_both higher_le self.old (Some peak) }

        // One that doesn't come before the best so far changes nothing.
        ensures unchanged { IfSome self.old (λ best. IsTrue (higher_le best peak) → self.new ≡ self.old) }
    {
        if self.highest.is_none_or(|best| peak.before(&best)) {
            self.highest = Some(peak);
        }
    }

    /// What a better point comes before; `None` where any point is better.
    pub fn best(&self) -> Option<Peak>
        ensures { result ≡ self.now }
    {
        self.highest
    }
}

impl Tally for TopTally {
    type Answer = Option<Peak>;

    ghost so_far = { λ highest. highest };

    ghost can_refuse = { λ _. false };

    fn can_refuse(&self) -> bool {
        false
    }

    fn finish(self) -> Result<Option<Peak>, NoMemory> {
        Ok(self.highest)
    }
}
