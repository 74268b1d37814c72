//! How many segments a vertical one meets.
ghost use Rattle.std.specs.Prelude.{◌≡◌, ◌≤◌, false};
ghost use Rattle.query_laws.specs.Sums.{capped_add, FitsU64};
ghost use Rattle.map_model.specs.Shape.{is_met};
ghost use Rattle.map_shapes.specs.Segment.{shape_of_segment};
ghost use Rattle.map_questions.specs.Questions.{cross_count};
ghost use Rattle.map_questions.specs.QuestionLaws.{IsDecomposable-cross_count};

use map_shapes::Segment;
use query_laws::{Question, Total};
use std::alloc::Global;

/// The number of segments that one from (`x`, `y1`) to (`x`, `y2`) meets, all ends included.
#[derive(Clone, Copy, Debug)]
pub struct CrossCount {
    pub x: u32,
    pub y1: u32,
    pub y2: u32,
    pub ghost ordered: { y1 ≤ y2 },
}

impl CrossCount {
    /// Whether a segment is one of them.
    pub fn has(&self, segment: &Segment) -> bool
        ensures { result ≡ is_met self.now.x self.now.y1 self.now.y2 (shape_of_segment segment.now) }
    {
        segment.is_met(self.x, self.y1, self.y2)
    }
}

impl Question for CrossCount {
    type Item = Segment;

    type Answer = u64;

    type Tally = Total;

    ghost value = { λ q. cross_count q.x q.y1 q.y2 };

    ghost join = { λ _. capped_add };

    ghost unit = { λ _. 0 };

    ghost lawful = { λ _. FitsU64 };

    ghost owns = { λ _. FitsU64 };

    ghost refusable = { false };

    fn tally(&self, _alloc: Global) -> Total {
        Total::new()
    }

    ghost decomposable = { λ q. IsDecomposable-cross_count q.x q.y1 q.y2 };

    ghost owned_lawful = { λ q t owned. owned };
}
