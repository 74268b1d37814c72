//! A question of one type, as one of all.
ghost use Rattle.std.specs.Prelude.{◌≡◌, map};
ghost use Rattle.std.specs.Option.{option_map};
ghost use Rattle.map_model.specs.Answer as model;
ghost use Rattle.map_shapes.specs.Found.{found_of, peak_of};
ghost use Rattle.map_shapes.specs.Rect.{rect_of};
ghost use Rattle.map_questions.specs.Any.{question_of, answer_of};

use crate::{
    Above, AnyAnswer, AnyQuestion, CrossCount, CrossIn, Near, NearK, PointQuestion,
    SegmentQuestion, Stab, StabCount, Top,
};
use map_shapes::{CountIn, Found, FoundList, IdList, ListIn, Peak, SumIn};
use query_laws::Question;

/// One of all questions.
pub trait OneQuestion: Question {
    /// What it asks, as the definitions have it.
    ghost asks: { Self → model.Question };

    /// What an answer tells, as the definitions have it.
    ghost tells: { Self.Answer → model.Answer };

    /// The question, as one of all.
    fn question(self) -> AnyQuestion
        ensures { question_of result ≡ asks self };

    /// An answer to it, as one of all.
    fn answer(answer: Self::Answer) -> AnyAnswer
        ensures { answer_of result ≡ tells answer };
}

impl OneQuestion for CountIn {
    ghost asks = { λ q. model.CountIn (rect_of q.0) };

    ghost tells = { model.Counted };

    fn question(self) -> AnyQuestion {
        AnyQuestion::Points(PointQuestion::CountIn(self))
    }

    fn answer(answer: u64) -> AnyAnswer {
        AnyAnswer::Counted(answer)
    }
}

impl OneQuestion for SumIn {
    ghost asks = { λ q. model.SumIn (rect_of q.0) };

    ghost tells = { model.Summed };

    fn question(self) -> AnyQuestion {
        AnyQuestion::Points(PointQuestion::SumIn(self))
    }

    fn answer(answer: u64) -> AnyAnswer {
        AnyAnswer::Summed(answer)
    }
}

impl OneQuestion for ListIn {
    ghost asks = { λ q. model.ListIn (rect_of q.0) };

    ghost tells = { model.Listed };

    fn question(self) -> AnyQuestion {
        AnyQuestion::Points(PointQuestion::ListIn(self))
    }

    fn answer(answer: IdList) -> AnyAnswer {
        AnyAnswer::Listed(answer)
    }
}

impl OneQuestion for Near {
    ghost asks = { λ q. model.Near q.x q.y };

    ghost tells = { λ found. model.NearestOne (option_map found_of found) };

    fn question(self) -> AnyQuestion {
        AnyQuestion::Points(PointQuestion::Near(self))
    }

    fn answer(answer: Option<Found>) -> AnyAnswer {
        AnyAnswer::NearestOne(answer)
    }
}

impl OneQuestion for NearK {
    ghost asks = { λ q. model.Nearest q.k q.x q.y };

    ghost tells = { λ found. model.NearestOnes (map found_of found) };

    fn question(self) -> AnyQuestion {
        AnyQuestion::Points(PointQuestion::NearK(self))
    }

    fn answer(answer: FoundList) -> AnyAnswer {
        AnyAnswer::NearestOnes(answer)
    }
}

impl OneQuestion for Above {
    ghost asks = { λ q. model.Above q.x1 q.x2 q.y };

    ghost tells = { model.ListedAbove };

    fn question(self) -> AnyQuestion {
        AnyQuestion::Points(PointQuestion::Above(self))
    }

    fn answer(answer: IdList) -> AnyAnswer {
        AnyAnswer::ListedAbove(answer)
    }
}

impl OneQuestion for Top {
    ghost asks = { λ q. model.Top q.x1 q.x2 };

    ghost tells = { λ peak. model.Highest (option_map peak_of peak) };

    fn question(self) -> AnyQuestion {
        AnyQuestion::Points(PointQuestion::Top(self))
    }

    fn answer(answer: Option<Peak>) -> AnyAnswer {
        AnyAnswer::Highest(answer)
    }
}

impl OneQuestion for Stab {
    ghost asks = { λ q. model.Stab q.x };

    ghost tells = { model.Stabbed };

    fn question(self) -> AnyQuestion {
        AnyQuestion::Segments(SegmentQuestion::Stab(self))
    }

    fn answer(answer: IdList) -> AnyAnswer {
        AnyAnswer::Stabbed(answer)
    }
}

impl OneQuestion for StabCount {
    ghost asks = { λ q. model.StabCount q.x };

    ghost tells = { model.StabCounted };

    fn question(self) -> AnyQuestion {
        AnyQuestion::Segments(SegmentQuestion::StabCount(self))
    }

    fn answer(answer: u64) -> AnyAnswer {
        AnyAnswer::StabCounted(answer)
    }
}

impl OneQuestion for CrossIn {
    ghost asks = { λ q. model.CrossIn q.x q.y1 q.y2 };

    ghost tells = { model.Crossed };

    fn question(self) -> AnyQuestion {
        AnyQuestion::Segments(SegmentQuestion::CrossIn(self))
    }

    fn answer(answer: IdList) -> AnyAnswer {
        AnyAnswer::Crossed(answer)
    }
}

impl OneQuestion for CrossCount {
    ghost asks = { λ q. model.CrossCount q.x q.y1 q.y2 };

    ghost tells = { model.CrossCounted };

    fn question(self) -> AnyQuestion {
        AnyQuestion::Segments(SegmentQuestion::CrossCount(self))
    }

    fn answer(answer: u64) -> AnyAnswer {
        AnyAnswer::CrossCounted(answer)
    }
}
