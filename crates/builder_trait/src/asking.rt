//! A question put to several parts, and its sealed answer.
ghost use Rattle.std.specs.Prelude.{◌≡◌, ◌+◌, ◌<◌, ◌^◌, false, true, length, IsTrue, IfOk, IsErr, OnErr};
ghost use Rattle.query_laws.specs.StepLedger.{Consults};
ghost use Rattle.builder_trait.specs.Parts.{live_of};

use crate::part::{Answers, Part};
use query_laws::step_ledger::Steps;
use query_laws::{NoMemory, Question, Tally};
use std::alloc::Global;
use std::marker::{Model, PhantomData};
use std::sync::ledger::Ledger;

/// A question that is put to one part after another, with the answer so far.
///
/// It counts the parts that answered and their live items, so that a caller who knows both numbers sees that none was left out.
/// Once memory was refused it is given up, and can be neither put to a part nor finished.
#[derive(Drop)]
pub struct Asking<P: Answers<Q>, Q: Question<Item = P::Item>> {
    question: Q,
    tally: Q::Tally,
    consulted: u32,
    live: u128,
    given_up: bool,
    parts: PhantomData<P>,
}

impl<P: Answers<Q>, Q: Question<Item = P::Item>> Model for Asking<P, Q> {
    ghost use Rattle.std.specs.Prelude.{◌*◌, ◌^◌, ◌≤◌};
    ghost use Rattle.builder_trait.specs.Asking.{OpenQuestion};

    ghost Value = { OpenQuestion Q Q.Answer };

    ghost view = { λ a. record {
      question = a.question;
      so_far = Q.Tally.so_far a.tally;
      parts = a.consulted;
      live = a.live;
      refusable = Q.Tally.can_refuse a.tally;
      is_given_up = a.given_up;
    } };

    // A u128 holds the live items of 2^32 parts.
    ghost invariant = { λ a. Q.owns a.question a.tally × (a.live ≤ a.consulted * 2 ^ 64) };
}

impl<P: Answers<Q>, Q: Question<Item = P::Item>> Asking<P, Q> {
    /// The question, put to no part yet. It takes no memory; later calls take theirs from `alloc`.
    pub fn new(alloc: Global, question: &Q) -> Asking<P, Q>
        ensures { result ≡ record {
          question = question.now;
          so_far = Q.unit question.now;
          parts = 0;
          live = 0;
          refusable = Q.refusable;
          is_given_up = false;
        } }
    {
        Asking {
            question: *question,
            tally: question.tally(alloc),
            consulted: 0,
            live: 0,
            given_up: false,
            parts: PhantomData,
        }
    }

    /// Puts the question to a part, and joins its answer to that so far.
    ///
    /// `NoMemory` where the tally wanted memory that wasn't given. The asking is then given up.
    pub fn part<L: Ledger>(&mut self, part: &P, steps: &mut Steps<L>) -> Result<(), NoMemory>
        requires going { self.old.is_given_up ≡ false }
        requires room { self.old.parts + 1 < 2 ^ 32 }
        ensures joined { IfOk result (λ _. self.new ≡ record self.old {
          so_far = Q.join self.old.question self.old.so_far (Q.value self.old.question (live_of (P.Part.contents part.now)));
          parts = self.old.parts + 1;
          live = self.old.live + length (live_of (P.Part.contents part.now));
        }) }
        ensures given_up { OnErr result (self.new ≡ record self.old { so_far = self.new.so_far; is_given_up = true }) }
        ensures refused { IsErr result → IsTrue self.old.refusable }
        ensures lawful { Q.lawful self.old.question self.new.so_far }
        ensures consulted { steps.new.consulted ≡ steps.old.consulted + 1 }
        ensures cost { Consults steps.old steps.new 1 (P.ask_touches self.old.question part.now) }
    {
        steps.consult();
        match part.ask(&self.question, &mut self.tally, steps) {
            Ok(()) => {
                self.consulted += 1;
                self.live += part.live() as u128;
                Ok(())
            }
            Err(refusal) => {
                self.given_up = true;
                Err(refusal)
            }
        }
    }

    /// How many parts have answered. It counts nothing.
    pub fn consulted(&self) -> u32
        ensures value { result ≡ self.now.parts }
        ensures lawful { Q.lawful self.now.question self.now.so_far }
    {
        self.consulted
    }

    /// Seals the answer over the parts consulted. It counts nothing.
    ///
    /// `NoMemory` where the answer itself wanted memory that wasn't given.
    pub fn finish(self) -> Result<Given<P, Q>, NoMemory>
        requires { self.is_given_up ≡ false }
        ensures given { IfOk result (λ given. given
            ≡ record { question = self.question; answer = self.so_far; parts = self.parts; live = self.live }) }
        ensures refused { IsErr result → IsTrue self.refusable }
        ensures lawful { Q.lawful self.question self.so_far }
    {
        let answer = self.tally.finish()?;
        Ok(Given {
            question: self.question,
            answer,
            consulted: self.consulted,
            live: self.live,
            parts: PhantomData,
        })
    }
}

/// The answer to a question over the parts that were consulted. Only [`Asking::finish`] makes one.
#[derive(Drop)]
pub struct Given<P: Answers<Q>, Q: Question<Item = P::Item>> {
    question: Q,
    answer: Q::Answer,
    consulted: u32,
    live: u128,
    parts: PhantomData<P>,
}

impl<P: Answers<Q>, Q: Question<Item = P::Item>> Model for Given<P, Q> {
    ghost use Rattle.builder_trait.specs.Asking.{SealedAnswer};

    ghost Value = { SealedAnswer Q Q.Answer };

    ghost view = { λ g. record { question = g.question; answer = g.answer; parts = g.consulted; live = g.live } };
}

impl<P: Answers<Q>, Q: Question<Item = P::Item>> Given<P, Q> {
    /// The question that was asked.
    pub fn question(&self) -> Q
        ensures { result ≡ self.now.question }
    {
        self.question
    }

    /// How many parts were consulted.
    pub fn consulted(&self) -> u32
        ensures { result ≡ self.now.parts }
    {
        self.consulted
    }

    /// How many live items the parts had that were consulted.
    pub fn live(&self) -> u128
        ensures { result ≡ self.now.live }
    {
        self.live
    }

    /// The answer.
    pub fn into_answer(self) -> Q::Answer
        ensures { result ≡ self.answer }
    {
        self.answer
    }
}
