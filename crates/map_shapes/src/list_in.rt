//! Which points lie in a rectangle.
ghost use Rattle.std.specs.Prelude.{◌≡◌, [], true};
ghost use Rattle.std.specs.List.Sorted.{IsNonDecreasing};
ghost use Rattle.map_shapes.specs.Ascending.{sorted_union};
ghost use Rattle.map_shapes.specs.AscendingLaws.{IsNonDecreasing-sorted_ids};
ghost use Rattle.map_shapes.specs.Questions.{ids_in};
ghost use Rattle.map_shapes.specs.QuestionLaws.{IsDecomposable-ids_in};

use crate::{IdList, IdTally, Point, Rect};
use query_laws::Question;
use std::alloc::Global;

/// The identifiers of the points in a rectangle or on its border, in ascending order.
#[derive(Clone, Copy, Debug)]
pub struct ListIn(pub Rect);

impl Question for ListIn {
    type Item = Point;

    type Answer = IdList;

    type Tally = IdTally;

    ghost value = { λ q. ids_in q.0 };

    ghost join = { λ _. sorted_union };

    ghost unit = { λ _. [] };

    ghost lawful = { λ _. IsNonDecreasing };

    ghost owns = { λ _ _. Unit {0} };

    ghost refusable = { true };

    fn tally(&self, alloc: Global) -> IdTally {
        IdTally::new(alloc)
    }

    ghost decomposable = { λ q. IsDecomposable-ids_in q.0 };

    ghost owned_lawful = { λ q t owned. IsNonDecreasing-sorted_ids t };
}
