//! Answers to questions: the segments over a place one after another, or how many there are.
ghost use Rattle.std.specs.Prelude.{◌≡◌, ◌+◌, ◌*◌, ◌^◌, ◌<◌, ◌≤◌, ◌∷◌, ◌++◌, [], ℕ, List, Some, length, map, slice_get, IfOk, OnOk, IfSome, IsNone, MatchOption};
ghost use Rattle.query_laws.specs.StepLedger.{Spends};
ghost use Rattle.builder_trait.specs.Parts.{IsPart, live_of};
ghost use Rattle.map_shapes.specs.Ascending.{sorted_ids, sorted_union};
ghost use Rattle.map_shapes.specs.declared.segment.Segment.{Segment};
ghost use Rattle.map_questions.specs.Questions.{stab};
ghost use Rattle.interval_tree.specs.Costs.{count_touches, stab_touches};
ghost use Rattle.interval_tree.specs.Queries.{hits, hits_before};
ghost use Rattle.interval_tree.specs.Rows.{AreOver, before};

use crate::rows::StabRows;
use crate::search::{begun, ended};
use crate::trees::Trees;
use builder_trait::AnsweringRows;
use builder_trait::flat::FlatPart;
use map_questions::{Stab, StabCount};
use map_shapes::{IdTally, Segment};
use query_laws::step_ledger::Steps;
use query_laws::{NoMemory, Total};
use std::sync::ledger::Ledger;

impl Trees {
    /// The place from `from` on and below `to` of the first live segment that ends at x or behind it.
    fn next_hit<L: Ledger>(
        &self,
        segments: &FlatPart<Segment>,
        x: u32,
        from: usize,
        to: usize,
        steps: &mut Steps<L>,
    ) -> Option<usize>
        requires over { AreOver segments.now self.now }
        requires ordered { from ≤ to }
        requires within { to ≤ length segments.now.items }
        ensures after { IfSome result (λ k. from ≤ k) }
        ensures before { IfSome result (λ k. k < to) }
        ensures next { IfSome result (λ k. (s : Segment) → slice_get segments.now.items k ≡ Some s
            → hits_before x segments.now (k + 1) ≡ hits_before x segments.now from ++ s ∷ []) }
        ensures none { IsNone result → hits_before x segments.now to ≡ hits_before x segments.now from }
        ensures cost { (h : ℕ) → length segments.now.items ≤ 2 ^ h → Spends steps.old steps.new 0 0 (6 * (h + 2)) }
    {
        self.ends.next_at_least(from, to, x, steps)
    }

    /// Pushes the identifier of the next live segment that ends at x or behind it, and gives the place behind it; or gives none where
    /// there is none.
    fn list_next<L: Ledger>(
        &self,
        segments: &FlatPart<Segment>,
        x: u32,
        from: usize,
        to: usize,
        tally: &mut IdTally,
        steps: &mut Steps<L>,
    ) -> Result<Option<usize>, NoMemory>
        requires over { AreOver segments.now self.now }
        requires ordered { from ≤ to }
        requires within { to ≤ length segments.now.items }
        ensures further { IfOk result (λ next. IfSome next (λ k. (from < k) × (k ≤ to))) }
        ensures one { IfOk result (λ next. IfSome next (λ k. length (hits_before x segments.now k) ≡ length (hits_before x segments.now from) + 1)) }
        ensures listed { (ids : List ℕ) → tally.old ≡ ids ++ map (λ s. s.id) (hits_before x segments.now from)
            → IfOk result (λ next. MatchOption next (tally.new ≡ ids ++ map (λ s. s.id) (hits_before x segments.now to))
            (λ k. tally.new ≡ ids ++ map (λ s. s.id) (hits_before x segments.now k))) }
        ensures cost { (h : ℕ) → length segments.now.items ≤ 2 ^ h → Spends steps.old steps.new 0 0 (6 * (h + 2) + 1) }
    {
        let Some(place) = self.next_hit(segments, x, from, to, steps) else {
            return Ok(None);
        };
        tally.push(segments.items().at(place, steps).id)?;
        Ok(Some(place + 1))
    }

    /// Pushes the identifiers of the live segments over x.
    ///
    /// `NoMemory` where the tally wanted memory that wasn't given.
    fn list<L: Ledger>(
        &self,
        segments: &FlatPart<Segment>,
        x: u32,
        tally: &mut IdTally,
        steps: &mut Steps<L>,
    ) -> Result<(), NoMemory>
        requires over { AreOver segments.now self.now }
        ensures joined { OnOk result (sorted_ids tally.new
            ≡ sorted_union (sorted_ids tally.old) (stab x (live_of segments.now))) }
        ensures cost { Spends steps.old steps.new 0 0 (stab_touches x segments.now) }
        ensures read { 0 < length segments.now.items → steps.old.touches < steps.new.touches }
    {
        let to = begun(segments, x, steps);
        let mut from = 0;
        while let Some(next) = self.list_next(segments, x, from, to, tally, steps)? {
            from = next;
        }
        Ok(())
    }

    /// How many live segments are over x: those that have begun, less those that have ended.
    fn count<L: Ledger>(&self, segments: &FlatPart<Segment>, x: u32, steps: &mut Steps<L>) -> u64
        requires valid { IsPart before segments.now }
        requires over { AreOver segments.now self.now }
        ensures value { result ≡ length (hits x segments.now) }
        ensures cost { Spends steps.old steps.new 0 0 (count_touches segments.now.items) }
        ensures read { 0 < length segments.now.items → steps.old.touches < steps.new.touches }
    {
        let lower = begun(segments, x, steps);
        let begun = self.by_lower.prefix(lower, steps);
        let upper = ended(segments, x, steps);
        let ended = self.by_upper.prefix(upper, steps);
        begun - ended
    }
}

impl AnsweringRows<Stab> for StabRows {
    ghost use Rattle.interval_tree.specs.Costs.{stab_touches};

    ghost ask_touches = { λ q part. stab_touches q.x part };

    fn ask<L: Ledger>(
        &self,
        segments: &FlatPart<Segment>,
        question: &Stab,
        tally: &mut IdTally,
        steps: &mut Steps<L>,
    ) -> Result<(), NoMemory> {
        self.trees.list(segments, question.x, tally, steps)
    }
}

impl AnsweringRows<StabCount> for StabRows {
    ghost use Rattle.interval_tree.specs.Costs.{count_touches};

    ghost ask_touches = { λ q part. count_touches part.items };

    fn ask<L: Ledger>(
        &self,
        segments: &FlatPart<Segment>,
        question: &StabCount,
        tally: &mut Total,
        steps: &mut Steps<L>,
    ) -> Result<(), NoMemory> {
        tally.add(self.trees.count(segments, question.x, steps));
        Ok(())
    }
}
