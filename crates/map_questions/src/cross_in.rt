//! Which segments a vertical one meets.
ghost use Rattle.std.specs.Prelude.{◌≡◌, ◌≤◌, [], true};
ghost use Rattle.std.specs.List.Sorted.{IsNonDecreasing};
ghost use Rattle.map_model.specs.Shape.{is_met};
ghost use Rattle.map_shapes.specs.Ascending.{sorted_union};
ghost use Rattle.map_shapes.specs.AscendingLaws.{IsNonDecreasing-sorted_ids};
ghost use Rattle.map_shapes.specs.Segment.{shape_of_segment};
ghost use Rattle.map_questions.specs.Questions.{crossed};
ghost use Rattle.map_questions.specs.QuestionLaws.{IsDecomposable-crossed};

use map_shapes::{IdList, IdTally, Segment};
use query_laws::Question;
use std::alloc::Global;

/// The identifiers of the segments that one from (`x`, `y1`) to (`x`, `y2`) meets, all ends included, in ascending order.
#[derive(Clone, Copy, Debug)]
pub struct CrossIn {
    pub x: u32,
    pub y1: u32,
    pub y2: u32,
    pub ghost ordered: { y1 ≤ y2 },
}

impl CrossIn {
    /// Whether a segment is one of them.
    pub fn has(&self, segment: &Segment) -> bool
        ensures { result ≡ is_met self.now.x self.now.y1 self.now.y2 (shape_of_segment segment.now) }
    {
        segment.is_met(self.x, self.y1, self.y2)
    }
}

impl Question for CrossIn {
    type Item = Segment;

    type Answer = IdList;

    type Tally = IdTally;

    ghost value = { λ q. crossed q.x q.y1 q.y2 };

    ghost join = { λ _. sorted_union };

    ghost unit = { λ _. [] };

    ghost lawful = { λ _. IsNonDecreasing };

    ghost owns = { λ _ _. Unit {0} };

    ghost refusable = { true };

    fn tally(&self, alloc: Global) -> IdTally {
        IdTally::new(alloc)
    }

    ghost decomposable = { λ q. IsDecomposable-crossed q.x q.y1 q.y2 };

    ghost owned_lawful = { λ q t owned. IsNonDecreasing-sorted_ids t };
}
