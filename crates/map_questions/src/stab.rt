//! Which segments lie over a place.
ghost use Rattle.std.specs.Prelude.{◌≡◌, [], true};
ghost use Rattle.std.specs.List.Sorted.{IsNonDecreasing};
ghost use Rattle.map_model.specs.Shape.{is_stabbed};
ghost use Rattle.map_shapes.specs.Ascending.{sorted_union};
ghost use Rattle.map_shapes.specs.AscendingLaws.{IsNonDecreasing-sorted_ids};
ghost use Rattle.map_shapes.specs.Segment.{shape_of_segment};
ghost use Rattle.map_questions.specs.Questions.{stab};
ghost use Rattle.map_questions.specs.QuestionLaws.{IsDecomposable-stab};

use map_shapes::{IdList, IdTally, Segment};
use query_laws::Question;
use std::alloc::Global;

/// The identifiers of the segments over `x`, their ends included, in ascending order.
#[derive(Clone, Copy, Debug)]
pub struct Stab {
    pub x: u32,
}

impl Stab {
    /// Whether a segment is one of them.
    pub fn has(&self, segment: &Segment) -> bool
        ensures { result ≡ is_stabbed self.now.x (shape_of_segment segment.now) }
    {
        segment.is_stabbed(self.x)
    }
}

impl Question for Stab {
    type Item = Segment;

    type Answer = IdList;

    type Tally = IdTally;

    ghost value = { λ q. stab q.x };

    ghost join = { λ _. sorted_union };

    ghost unit = { λ _. [] };

    ghost lawful = { λ _. IsNonDecreasing };

    ghost owns = { λ _ _. Unit {0} };

    ghost refusable = { true };

    fn tally(&self, alloc: Global) -> IdTally {
        IdTally::new(alloc)
    }

    ghost decomposable = { λ q. IsDecomposable-stab q.x };

    ghost owned_lawful = { λ q t owned. IsNonDecreasing-sorted_ids t };
}
