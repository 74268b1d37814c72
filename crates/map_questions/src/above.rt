//! Which points of a span are high.
ghost use Rattle.std.specs.Prelude.{◌≡◌, ◌≤◌, [], true};
ghost use Rattle.std.specs.List.Sorted.{IsNonDecreasing};
ghost use Rattle.map_model.specs.Shape.{is_above};
ghost use Rattle.map_shapes.specs.Ascending.{sorted_union};
ghost use Rattle.map_shapes.specs.AscendingLaws.{IsNonDecreasing-sorted_ids};
ghost use Rattle.map_shapes.specs.Point.{shape_of};
ghost use Rattle.map_questions.specs.Questions.{above};
ghost use Rattle.map_questions.specs.QuestionLaws.{IsDecomposable-above};

use map_shapes::{IdList, IdTally, Point};
use query_laws::Question;
use std::alloc::Global;

/// The identifiers of the points from `x1` to `x2` that are at least as high as `y`, in ascending order.
#[derive(Clone, Copy, Debug)]
pub struct Above {
    pub x1: u32,
    pub x2: u32,
    pub y: u32,
    pub ghost x_ordered: { x1 ≤ x2 },
}

impl Above {
    /// Whether a point is one of them.
    pub fn has(&self, point: &Point) -> bool
        ensures { result ≡ is_above self.now.x1 self.now.x2 self.now.y (shape_of point.now) }
    {
        self.x1 <= point.x && point.x <= self.x2 && self.y <= point.y
    }
}

impl Question for Above {
    type Item = Point;

    type Answer = IdList;

    type Tally = IdTally;

    ghost value = { λ q. above q.x1 q.x2 q.y };

    ghost join = { λ _. sorted_union };

    ghost unit = { λ _. [] };

    ghost lawful = { λ _. IsNonDecreasing };

    ghost owns = { λ _ _. Unit {0} };

    ghost refusable = { true };

    fn tally(&self, alloc: Global) -> IdTally {
        IdTally::new(alloc)
    }

    ghost decomposable = { λ q. IsDecomposable-above q.x1 q.x2 q.y };

    ghost owned_lawful = { λ q t owned. IsNonDecreasing-sorted_ids t };
}
