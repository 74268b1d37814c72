//! Which point is nearest.
ghost use Rattle.std.specs.Prelude.{◌≡◌, false, None};
ghost use Rattle.map_shapes.specs.Found.{nearer_le};
ghost use Rattle.map_questions.specs.FirstFew.{first_of_both};
ghost use Rattle.map_questions.specs.Questions.{near, found_at};
ghost use Rattle.map_questions.specs.QuestionLaws.{IsDecomposable-near};

use crate::NearTally;
use map_shapes::{Found, Point};
use query_laws::Question;
use std::alloc::Global;

/// The point nearest to a place, and of several at one distance the one with the least identifier.
#[derive(Clone, Copy, Debug)]
pub struct Near {
    pub x: u32,
    pub y: u32,
}

impl Near {
    /// A point by its distance from the place.
    pub fn found(&self, point: &Point) -> Found
        ensures { result ≡ found_at self.now.x self.now.y point.now }
    {
        point.found_from(self.x, self.y)
    }
}

impl Question for Near {
    type Item = Point;

    type Answer = Option<Found>;

    type Tally = NearTally;

    ghost value = { λ q. near q.x q.y };

    ghost join = { λ _. first_of_both nearer_le };

    ghost unit = { λ _. None };

    ghost lawful = { λ _ _. Unit {0} };

    ghost owns = { λ _ _. Unit {0} };

    ghost refusable = { false };

    fn tally(&self, _alloc: Global) -> NearTally {
        NearTally::new()
    }

    ghost decomposable = { λ q. IsDecomposable-near q.x q.y };

    ghost owned_lawful = { λ q t owned. tt };
}
