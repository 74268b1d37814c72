//! Which points are nearest.
ghost use Rattle.std.specs.Prelude.{◌≡◌, ◌≤◌, [], false};
ghost use Rattle.map_shapes.specs.Found.{nearer_le};
ghost use Rattle.map_questions.specs.FirstFew.{IsFirstFew, first_few_of_both};
ghost use Rattle.map_questions.specs.Questions.{near_k, found_at};
ghost use Rattle.map_questions.specs.QuestionLaws.{IsDecomposable-near_k};

use crate::NearKTally;
use map_shapes::{Found, FoundList, Point};
use query_laws::Question;
use std::alloc::Global;

/// The `k` points nearest to a place, the nearest first and those at one distance by identifier; all where there are
/// fewer.
#[derive(Clone, Copy, Debug)]
pub struct NearK {
    pub k: usize,
    pub x: u32,
    pub y: u32,
    pub ghost some: { 1 ≤ k },
    pub ghost few: { k ≤ 64 },
}

impl NearK {
    /// A point by its distance from the place.
    pub fn found(&self, point: &Point) -> Found
        ensures { result ≡ found_at self.now.x self.now.y point.now }
    {
        point.found_from(self.x, self.y)
    }
}

impl Question for NearK {
    type Item = Point;

    type Answer = FoundList;

    type Tally = NearKTally;

    ghost value = { λ q. near_k q.k q.x q.y };

    ghost join = { λ q. first_few_of_both nearer_le q.k };

    ghost unit = { λ _. [] };

    ghost lawful = { λ q. IsFirstFew nearer_le q.k };

    ghost owns = { λ q t. (t.k ≡ q.k) × IsFirstFew nearer_le q.k t.found };

    ghost refusable = { false };

    fn tally(&self, _alloc: Global) -> NearKTally {
        NearKTally::new(self.k)
    }

    ghost decomposable = { λ q. IsDecomposable-near_k q.k q.x q.y };

    ghost owned_lawful = { λ q t owned. owned.1 };
}
