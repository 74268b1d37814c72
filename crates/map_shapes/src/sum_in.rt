//! What the points in a rectangle weigh together.
ghost use Rattle.std.specs.Prelude.{◌≡◌, false};
ghost use Rattle.query_laws.specs.Sums.{capped_add, FitsU64};
ghost use Rattle.map_shapes.specs.Questions.{weight_in};
ghost use Rattle.map_shapes.specs.QuestionLaws.{IsDecomposable-weight_in};

use crate::{Point, Rect};
use query_laws::{Question, Total};
use std::alloc::Global;

/// The sum of the weights of the points in a rectangle or on its border.
#[derive(Clone, Copy, Debug)]
pub struct SumIn(pub Rect);

impl Question for SumIn {
    type Item = Point;

    type Answer = u64;

    type Tally = Total;

    ghost value = { λ q. weight_in q.0 };

    ghost join = { λ _. capped_add };

    ghost unit = { λ _. 0 };

    ghost lawful = { λ _. FitsU64 };

    ghost owns = { λ _. FitsU64 };

    ghost refusable = { false };

    fn tally(&self, _alloc: Global) -> Total {
        Total::new()
    }

    ghost decomposable = { λ q. IsDecomposable-weight_in q.0 };

    ghost owned_lawful = { λ q t owned. owned };
}
