//! How many segments lie over a place.
ghost use Rattle.std.specs.Prelude.{◌≡◌, false};
ghost use Rattle.query_laws.specs.Sums.{capped_add, FitsU64};
ghost use Rattle.map_model.specs.Shape.{is_stabbed};
ghost use Rattle.map_shapes.specs.Segment.{shape_of_segment};
ghost use Rattle.map_questions.specs.Questions.{stab_count};
ghost use Rattle.map_questions.specs.QuestionLaws.{IsDecomposable-stab_count};

use map_shapes::Segment;
use query_laws::{Question, Total};
use std::alloc::Global;

/// The number of segments over `x`, their ends included.
#[derive(Clone, Copy, Debug)]
pub struct StabCount {
    pub x: u32,
}

impl StabCount {
    /// Whether a segment is one of them.
    pub fn has(&self, segment: &Segment) -> bool
        ensures { result ≡ is_stabbed self.now.x (shape_of_segment segment.now) }
    {
        segment.is_stabbed(self.x)
    }
}

impl Question for StabCount {
    type Item = Segment;

    type Answer = u64;

    type Tally = Total;

    ghost value = { λ q. stab_count q.x };

    ghost join = { λ _. capped_add };

    ghost unit = { λ _. 0 };

    ghost lawful = { λ _. FitsU64 };

    ghost owns = { λ _. FitsU64 };

    ghost refusable = { false };

    fn tally(&self, _alloc: Global) -> Total {
        Total::new()
    }

    ghost decomposable = { λ q. IsDecomposable-stab_count q.x };

    ghost owned_lawful = { λ q t owned. owned };
}
