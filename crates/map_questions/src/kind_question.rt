//! Questions about items of one kind.
ghost use Rattle.map_model.specs.Answer as model;
ghost use Rattle.map_questions.specs.Any.{point_question_of, segment_question_of};

use crate::{PointQuestion, SegmentQuestion};

/// A question about items of one kind.
pub trait KindQuestion {
    /// What it asks, as the definitions have it.
    ghost asks: { Self → model.Question };
}

impl KindQuestion for PointQuestion {
    ghost asks = { point_question_of };
}

impl KindQuestion for SegmentQuestion {
    ghost asks = { segment_question_of };
}
