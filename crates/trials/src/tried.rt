//! What is tried: items of a kind that come and go, and answer questions.
use crate::bench::Bench;
use builder_trait::{Answers, Builder, Rows, RowsBuilder};
use interval_tree::StabRows;
use kd_tree::KdRows;
use map_questions::{AnyAnswer, AnyQuestion, PointQuestion, SegmentQuestion};
use priority_tree::TopRows;
use query_laws::step_ledger::Steps;
use query_laws::{NoMemory, Question};
use range_tree::RangeRows;
use samples::{Failure, Outcome, Seeded};
use std::alloc::Global;
use std::sync::ledger::Ledger;

/// Words of questions with their classes.
pub type Asked = &'static [(&'static str, u32)];

/// Items that come and go, and answer questions. The stamp of each is the number of inserts before its own.
///
/// `NoMemory` where memory isn't given; the items are as before then.
pub trait Tried<B: Builder>: Drop + Sized {
    const WORD: &'static str;

    /// What an update is called, and the most after the first inserts where nothing is compared.
    const UPDATES: (&'static str, usize);

    /// Of eight updates so many are deletes, on average.
    const DELETES: u32;

    /// No items, with room in its own lists for so many.
    fn new(alloc: Global, most: usize) -> Result<Self, NoMemory>;

    fn insert<L: Ledger>(&mut self, item: B::Item, steps: &mut Steps<L>) -> Outcome;

    /// Ends the first inserts.
    fn settle<L: Ledger>(&mut self, _steps: &mut Steps<L>) -> Outcome {
        Ok(())
    }

    /// Deletes the item that a number picks, the front one by 0, and gives it, if one is live there.
    fn delete<L: Ledger>(&mut self, pick: usize, steps: &mut Steps<L>) -> Outcome<Option<B::Item>>;

    /// The answer to a question that is put to all parts.
    fn answer<Q: Question<Item = B::Item>, L: Ledger>(
        &self,
        question: &Q,
        bench: &mut Bench<L>,
    ) -> Outcome<Q::Answer>
    where
        B::Part: Answers<Q>;
}

/// A kind of part, by its rows.
pub trait Kind: Rows<Item: Seeded> {
    /// The word of its index.
    const WORD: &'static str;

    /// The questions that it is asked.
    const ASKED: Asked;

    /// Puts a question to something of the kind. `Unfit` where the kind doesn't answer it.
    fn ask<T: Tried<RowsBuilder<Self>>, L: Ledger>(
        set: &T,
        question: &AnyQuestion,
        bench: &mut Bench<L>,
    ) -> Outcome<AnyAnswer>;
}

impl Kind for RangeRows {
    const WORD: &'static str = "range";

    const ASKED: Asked = &[("count", 60), ("sum", 60), ("list", 60)];

    fn ask<T: Tried<RowsBuilder<RangeRows>>, L: Ledger>(
        set: &T,
        question: &AnyQuestion,
        bench: &mut Bench<L>,
    ) -> Outcome<AnyAnswer> {
        Ok(match question {
            AnyQuestion::Points(PointQuestion::CountIn(q)) => AnyAnswer::Counted(set.answer(
                q, bench,
            )?),
            AnyQuestion::Points(PointQuestion::SumIn(q)) => AnyAnswer::Summed(set.answer(
                q, bench,
            )?),
            AnyQuestion::Points(PointQuestion::ListIn(q)) => AnyAnswer::Listed(set.answer(
                q, bench,
            )?),
            _ => return Err(Failure::Unfit),
        })
    }
}

impl Kind for KdRows {
    const WORD: &'static str = "near";

    const ASKED: Asked = &[
        ("near", 1),
        ("nearest", 1),
        ("nearest", 2),
        ("nearest", 10),
        ("nearest", 64),
    ];

    fn ask<T: Tried<RowsBuilder<KdRows>>, L: Ledger>(
        set: &T,
        question: &AnyQuestion,
        bench: &mut Bench<L>,
    ) -> Outcome<AnyAnswer> {
        Ok(match question {
            AnyQuestion::Points(PointQuestion::Near(q)) => AnyAnswer::NearestOne(set.answer(
                q, bench,
            )?),
            AnyQuestion::Points(PointQuestion::NearK(q)) => AnyAnswer::NearestOnes(set.answer(
                q, bench,
            )?),
            _ => return Err(Failure::Unfit),
        })
    }
}

impl Kind for TopRows {
    const WORD: &'static str = "top";

    const ASKED: Asked = &[
        ("top", 5),
        ("top", 60),
        ("top", 500),
        ("above", 1),
        ("above", 10),
        ("above", 1_000),
    ];

    fn ask<T: Tried<RowsBuilder<TopRows>>, L: Ledger>(
        set: &T,
        question: &AnyQuestion,
        bench: &mut Bench<L>,
    ) -> Outcome<AnyAnswer> {
        Ok(match question {
            AnyQuestion::Points(PointQuestion::Top(q)) => AnyAnswer::Highest(set.answer(q, bench)?),
            AnyQuestion::Points(PointQuestion::Above(q)) => AnyAnswer::ListedAbove(set.answer(
                q, bench,
            )?),
            _ => return Err(Failure::Unfit),
        })
    }
}

impl Kind for StabRows {
    const WORD: &'static str = "stab";

    const ASKED: Asked = &[("stab", 62), ("stab", 1_000), ("stabcount", 62)];

    fn ask<T: Tried<RowsBuilder<StabRows>>, L: Ledger>(
        set: &T,
        question: &AnyQuestion,
        bench: &mut Bench<L>,
    ) -> Outcome<AnyAnswer> {
        Ok(match question {
            AnyQuestion::Segments(SegmentQuestion::Stab(q)) => AnyAnswer::Stabbed(set.answer(
                q, bench,
            )?),
            AnyQuestion::Segments(SegmentQuestion::StabCount(q)) => AnyAnswer::StabCounted(
                set.answer(q, bench)?,
            ),
            _ => return Err(Failure::Unfit),
        })
    }
}
