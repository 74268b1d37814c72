// What a command is answered.
use crate::Refusal;
use map_questions::AnyAnswer;
use map_shapes::{QuestionCost, Recent, Shape, UpdateCost};

/// What a command is answered, with what it cost.
#[derive(Drop)]
pub enum Reply {
    /// A layer or an index was made, or a version chosen.
    Made,
    /// An item was added, moved or dropped.
    Updated {
        spent: UpdateCost,
    },
    /// An index answered a question.
    Answered {
        answer: AnyAnswer,
        asked: QuestionCost,
    },
    /// Coordinates are as they are kept.
    Got {
        shape: Shape,
    },
    Size {
        n: u64,
    },
    /// The newest first.
    Recent {
        ids: Recent,
    },
    Refused {
        cause: Refusal,
    },
}

impl Reply {
    ghost use Rattle.std.specs.Prelude.{◌≡◌};
    ghost use Rattle.map_model.specs.Reply.{is_refusal};
    ghost use Rattle.answer_text.specs.Reply.{reply_of};

    /// Whether it is a refusal: exactly where its line begins with `no `.
    pub fn refused(&self) -> bool
        ensures { result ≡ is_refusal (reply_of self.now) }
    {
        matches!(self, Reply::Refused { .. })
    }
}
