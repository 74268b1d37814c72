//! A question to one index of a layer.
ghost use Rattle.std.specs.Prelude.{◌≡◌, ℕ};
ghost use Rattle.query_laws.specs.StepLedger.{AtLapStart};
ghost use Rattle.map_model.specs.Answer.{index_of};
ghost use Rattle.map_model.specs.State.{wait_of};
ghost use Rattle.layer_kinds.specs.Indexing.{wait_in};
ghost use Rattle.map_layers.specs.Faults.{ask_result_of};
ghost use Rattle.map_layers.specs.Layer.{held_by, layer_seen};
ghost use Rattle.map_layers.specs.Questions.{touches_for, most_for, Asks};
ghost use Rattle.map_indexes.specs.Held.{parts_held};

use builder_trait::{AnsweringRows, Rows};
use layer_kinds::{AskFault, Has, KindLayer, ask_layer};
use map_layers::{Answered, NamedIndexes};
use map_shapes::{QuestionCost, Shaped};
use map_structures::{MapQuestion, MapRows};
use query_laws::step_ledger::Steps;
use std::alloc::Global;
use std::sync::ledger::Ledger;

/// Puts a question to the items of a layer, by the index of these rows.
pub fn ask_of<R: MapRows, X: NamedIndexes + Has<R>, Q: MapQuestion<R>, L: Ledger>(
    layer: &KindLayer<X>,
    alloc: Global,
    question: &Q,
    steps: &mut Steps<L>,
) -> Result<(Answered, QuestionCost), AskFault>
where
    R: AnsweringRows<Q>,
    R::Item: Shaped,
    requires there { held_by (X.held layer.now.indexes) (index_of (Q.asks question.now)) ≡ parts_held (X.index layer.now.indexes) }
    requires waits { wait_of (X.held layer.now.indexes).waits (index_of (Q.asks question.now)) ≡ wait_in (X.index layer.now.indexes) }
    requires touches { (level : ℕ) → Q.touches level ≡ touches_for (Q.asks question.now) level }
    requires most { (level parts n : ℕ) (answer : Q.Answer) → Q.most_touches level parts n answer ≡ most_for level parts n (Q.tells answer) }
    requires lap { AtLapStart steps.old }
    ensures { Asks (layer_seen R.Item.kind R.Item.item_of X.held layer.now) (X.held layer.now.indexes) (Q.asks question.now) (ask_result_of result)
        steps.old steps.new }
{
    let (given, asked) = ask_layer::<R, X, Q, L>(layer, alloc, question, steps)?;
    Ok((Answered::new(given), asked))
}
