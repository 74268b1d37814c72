//! The indexes of a map's layers, by the names that the definitions give them.
ghost use Rattle.std.specs.Prelude.{◌≡◌, ◌≤◌, ℕ, true, false, [], MatchOption, length, nat_le};
ghost use Rattle.query_laws.specs.StepLedger.{AtLapStart};
ghost use Rattle.map_model.specs.Cost.{Rate, rate_of};
ghost use Rattle.map_model.specs.Index.{fits, one_if, sum_over};
ghost use Rattle.map_model.specs.Line.{IsShape};
ghost use Rattle.map_model.specs.Version.{Two};
ghost use Rattle.map_model.specs.Machine.{is_same_kind};
ghost use Rattle.map_model.specs.Shape as model;
ghost use Rattle.map_model.specs.State.{handed, no_waits, wait_of};
ghost use Rattle.map_shapes.specs.IndexSet.{index_set_of, index_of};
ghost use Rattle.map_shapes.specs.Shape.{model_shape};
ghost use Rattle.layer_kinds.specs.Shares.{all_after, ready_count, share};
ghost use Rattle.map_layers.specs.Layer.{Held, IsBegun, each_after, layer_seen, set_of};
ghost use Rattle.map_layers.specs.Faults.{ask_result_of};
ghost use Rattle.map_layers.specs.Memory.{AddsMemory};
ghost use Rattle.map_layers.specs.Questions.{Asks};

use crate::Answered;
use layer_kinds::{AskFault, Indexes, KindLayer, Standing};
use map_questions::{KindQuestion, PointQuestion, SegmentQuestion};
use map_shapes::{IndexSet, PointIndex, QuestionCost, Shape, Shaped};
use query_laws::step_ledger::Steps;
use std::alloc::Global;
use std::sync::ledger::Ledger;

/// Indexes over items of one kind, each of which has a name.
pub trait NamedIndexes: Indexes {
    /// What each holds, and for how many items it waits.
    ghost held: { Self → Held };

    /// Those that a set names, without items. It takes no memory.
    fn of_set(alloc: Global, indexes: IndexSet) -> Self
        ensures named { fits Self.Item.kind (index_set_of indexes) ≡ true → set_of (held result) ≡ index_set_of indexes }
        ensures ready { (held result).waits ≡ no_waits }
        ensures of { Self.are_of result [] 0 };

    /// An item of an identifier and a shape: `None` where the shape is of the other kind.
    fn item(id: u64, shape: Shape) -> Option<Self::Item>
        requires lawful { IsShape Two (model_shape shape) }
        ensures { MatchOption result (is_same_kind Self.Item.kind (model.kind_of (model_shape shape)) ≡ false)
            (λ item. (is_same_kind Self.Item.kind (model.kind_of (model_shape shape)) ≡ true)
            × (Self.Item.item_of item ≡ record { id = id; shape = model_shape shape })) };

    /// The rates say which are there.
    ghost by_rates: { (s t : Self) → Self.rates s ≡ Self.rates t → set_of (held s) ≡ set_of (held t) };

    /// Each has the rate that the definitions give it.
    ghost sums: { (s : Self) (f : Rate → ℕ) → share f (Self.rates s) ≡ sum_over (set_of (held s)) (λ index. f (rate_of index)) };

    /// How many items each waits for stands beside its name.
    ghost by_waits: { (s t : Self) (after : ℕ → ℕ) → after 0 ≡ 0 → Self.waits t ≡ all_after after (Self.waits s)
        → (held t).waits ≡ each_after after (held s).waits };

    ghost ready: { (s : Self) → ready_count (Self.waits s) ≡ sum_over (set_of (held s)) (λ index. one_if (nat_le (wait_of (held s).waits index) handed)) };

    ghost few: { (s : Self) → length (Self.rates s) ≤ 4 };
}

/// Those of which one answers each question about their kind of item.
pub trait AnsweringIndexes<Q: KindQuestion>: NamedIndexes {
    /// Puts a question to the items of a layer.
    fn ask<L: Ledger>(
        layer: &KindLayer<Self>,
        alloc: Global,
        question: &Q,
        steps: &mut Steps<L>,
    ) -> Result<(Answered, QuestionCost), AskFault>
        requires lap { AtLapStart steps.old }
        ensures { Asks (layer_seen Self.Item.kind Self.Item.item_of Self.held layer.now) (Self.held layer.now.indexes) (Q.asks question.now)
            (ask_result_of result) steps.old steps.new };
}

/// Those of points.
pub trait OverPoints: AnsweringIndexes<PointQuestion> {
    /// Gives a layer an index that it hasn't, `Standing` where it has it. It takes no memory and no turn.
    fn add_index(
        layer: &mut KindLayer<Self>,
        alloc: Global,
        index: PointIndex,
    ) -> Result<(), Standing>
        ensures begun { IsBegun (layer_seen Self.Item.kind Self.Item.item_of Self.held layer.old) (index_of index)
            (layer_seen Self.Item.kind Self.Item.item_of Self.held layer.new) result }
        ensures limit { layer.new.most_items ≡ layer.old.most_items }
        ensures kept { AddsMemory result (Self.memory layer.old.indexes) (Self.memory layer.new.indexes) };

    ghost points: { Self.Item.kind ≡ model.Points };
}

/// Those of segments.
pub trait OverSegments: AnsweringIndexes<SegmentQuestion> {
    ghost segments: { Self.Item.kind ≡ model.Segments };
}
