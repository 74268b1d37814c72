//! Which point of a span is highest.
ghost use Rattle.std.specs.Prelude.{◌≡◌, ◌≤◌, false, None};
ghost use Rattle.map_model.specs.Shape.{is_between};
ghost use Rattle.map_shapes.specs.Found.{higher_le};
ghost use Rattle.map_shapes.specs.Point.{shape_of};
ghost use Rattle.map_questions.specs.FirstFew.{first_of_both};
ghost use Rattle.map_questions.specs.Questions.{top, peak_at};
ghost use Rattle.map_questions.specs.QuestionLaws.{IsDecomposable-top};

use crate::TopTally;
use map_shapes::{Peak, Point};
use query_laws::Question;
use std::alloc::Global;

/// The highest of the points from `x1` to `x2`, and of several at one height the one with the least identifier.
#[derive(Clone, Copy, Debug)]
pub struct Top {
    pub x1: u32,
    pub x2: u32,
    pub ghost x_ordered: { x1 ≤ x2 },
}

impl Top {
    /// Whether a point is from `x1` to `x2`.
    pub fn has(&self, point: &Point) -> bool
        ensures { result ≡ is_between self.now.x1 self.now.x2 (shape_of point.now) }
    {
        self.x1 <= point.x && point.x <= self.x2
    }

    /// A point by its height.
    pub fn peak(&self, point: &Point) -> Peak
        ensures { result ≡ peak_at point.now }
    {
        Peak {
            y: point.y,
            id: point.id,
        }
    }
}

impl Question for Top {
    type Item = Point;

    type Answer = Option<Peak>;

    type Tally = TopTally;

    ghost value = { λ q. top q.x1 q.x2 };

    ghost join = { λ _. first_of_both higher_le };

    ghost unit = { λ _. None };

    ghost lawful = { λ _ _. Unit {0} };

    ghost owns = { λ _ _. Unit {0} };

    ghost refusable = { false };

    fn tally(&self, _alloc: Global) -> TopTally {
        TopTally::new()
    }

    ghost decomposable = { λ q. IsDecomposable-top q.x1 q.x2 };

    ghost owned_lawful = { λ q t owned. tt };
}
