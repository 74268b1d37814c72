//! What a question to a layer is answered.
ghost use Rattle.std.specs.Prelude.{◌≡◌};
ghost use Rattle.map_questions.specs.Any.{question_of, answer_of};

use builder_trait::{Answers, Given, Part};
use map_questions::{AnyAnswer, AnyQuestion, OneQuestion};
use query_laws::Question;
use std::marker::Model;

/// The answer to a question over the parts that were consulted. Only one that parts gave makes it.
///
/// It is a [`Given`] whose type names neither the part nor the question: all indexes of a map answer with this one type.
#[derive(Drop)]
pub struct Answered {
    question: AnyQuestion,
    answer: AnyAnswer,
    consulted: u32,
    live: u128,
}

impl Model for Answered {
    ghost use Rattle.map_questions.specs.Any.{question_of, answer_of};
    ghost use Rattle.map_layers.specs.Questions.{AnsweredState};

    ghost Value = { AnsweredState };

    ghost view = { λ a. record { question = question_of a.question; answer = answer_of a.answer; parts = a.consulted; live = a.live } };
}

impl Answered {
    /// What parts gave.
    pub fn new<P: Answers<Q>, Q: Question<Item = P::Item> + OneQuestion>(
        given: Given<P, Q>,
    ) -> Answered
        ensures { result ≡ record { question = Q.asks given.question; answer = Q.tells given.answer; parts = given.parts; live = given.live } }
    {
        Answered {
            question: given.question().question(),
            consulted: given.consulted(),
            live: given.live(),
            answer: Q::answer(given.into_answer()),
        }
    }

    /// The question that was asked.
    pub fn question(&self) -> AnyQuestion
        ensures { question_of result ≡ self.now.question }
    {
        self.question
    }

    /// How many parts were consulted.
    pub fn consulted(&self) -> u32
        ensures { result ≡ self.now.parts }
    {
        self.consulted
    }

    /// How many live items they have.
    pub fn live(&self) -> u128
        ensures { result ≡ self.now.live }
    {
        self.live
    }

    /// The answer.
    pub fn into_answer(self) -> AnyAnswer
        ensures { answer_of result ≡ self.answer }
    {
        self.answer
    }
}
