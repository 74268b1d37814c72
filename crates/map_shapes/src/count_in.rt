//! How many points lie in a rectangle.
ghost use Rattle.std.specs.Prelude.{◌≡◌, false};
ghost use Rattle.query_laws.specs.Sums.{capped_add, FitsU64};
ghost use Rattle.map_shapes.specs.Questions.{count_in};
ghost use Rattle.map_shapes.specs.QuestionLaws.{IsDecomposable-count_in};

use crate::{Point, Rect};
use query_laws::{Question, Total};
use std::alloc::Global;

/// The number of points in a rectangle or on its border.
#[derive(Clone, Copy, Debug)]
pub struct CountIn(pub Rect);

impl Question for CountIn {
    type Item = Point;

    type Answer = u64;

    type Tally = Total;

    ghost value = { λ q. count_in q.0 };

    ghost join = { λ _. capped_add };

    ghost unit = { λ _. 0 };

    ghost lawful = { λ _. FitsU64 };

    ghost owns = { λ _. FitsU64 };

    ghost refusable = { false };

    fn tally(&self, _alloc: Global) -> Total {
        Total::new()
    }

    ghost decomposable = { λ q. IsDecomposable-count_in q.0 };

    ghost owned_lawful = { λ q t owned. owned };
}
