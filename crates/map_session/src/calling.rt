//! The call of the layers for each command, and what it is replied.
ghost use Rattle.std.specs.Prelude.{◌≡◌, ◌+◌, ◌<◌, ◌≤◌, ◌^◌, true, Some, Ok};
ghost use Rattle.query_laws.specs.StepLedger.{lap_begun};
ghost use Rattle.map_model.specs.Command as commands;
ghost use Rattle.map_model.specs.Cost.{Untold};
ghost use Rattle.map_model.specs.Index.{fits};
ghost use Rattle.map_model.specs.Line.{IsShape};
ghost use Rattle.map_model.specs.Shape as shapes;
ghost use Rattle.map_model.specs.Version.{Two};
ghost use Rattle.map_model.specs.Output.{AnswersTo};
ghost use Rattle.map_shapes.specs.IndexSet.{index_set_of, index_of};
ghost use Rattle.map_shapes.specs.Kind.{kind_of};
ghost use Rattle.map_shapes.specs.Shape.{model_shape};
ghost use Rattle.map_shapes.specs.Version.{version_of};
ghost use Rattle.answer_text.specs.Reply.{cost_of};
ghost use Rattle.map_questions.specs.Any.{question_of};
ghost use Rattle.map_layers.specs.Layers.{map_of};
ghost use Rattle.map_session.specs.Work.{work_of, IsCounted, TellsEveryPart};
ghost use Rattle.map_session.specs.Session.{given_by};

use crate::replying;
use answer_text::Reply;
use map_layers::{Layers, OverPoints, OverSegments};
use map_questions::AnyQuestion;
use map_shapes::{IndexSet, Kind, Name, PointIndex, Shape, Version};
use query_laws::step_ledger::Steps;
use std::sync::ledger::Ledger;

/// Chooses the version of the lines that follow.
pub fn choose<P: OverPoints, S: OverSegments>(layers: &mut Layers<P, S>, version: Version) -> Reply
    ensures answered { AnswersTo (map_of layers.old) (Ok (Some (commands.Livemap (version_of version)))) (given_by (Some result) (map_of layers.new)) }
    ensures cost { cost_of result ≡ Untold }
    ensures updates { layers.new.updates ≡ layers.old.updates }
{
    replying::chosen(layers.choose_version(version))
}

/// Makes an empty layer.
pub fn make<P: OverPoints, S: OverSegments>(
    layers: &mut Layers<P, S>,
    name: &Name,
    kind: Kind,
    indexes: IndexSet,
) -> Reply
    requires fits { fits (kind_of kind) (index_set_of indexes) ≡ true }
    ensures answered { AnswersTo (map_of layers.old) (Ok (Some (commands.MakeLayer name.now (kind_of kind) (index_set_of indexes))))
        (given_by (Some result) (map_of layers.new)) }
    ensures cost { cost_of result ≡ Untold }
    ensures updates { layers.new.updates ≡ layers.old.updates }
{
    replying::made(layers.create(name, kind, indexes))
}

/// Makes a further index of the layer of a name.
pub fn index<P: OverPoints, S: OverSegments>(
    layers: &mut Layers<P, S>,
    name: &Name,
    index: PointIndex,
) -> Reply
    ensures answered { AnswersTo (map_of layers.old) (Ok (Some (commands.MakeIndex name.now (index_of index)))) (given_by (Some result) (map_of layers.new)) }
    ensures cost { cost_of result ≡ Untold }
    ensures updates { layers.new.updates ≡ layers.old.updates }
{
    replying::indexed(layers.add_index(name, index))
}

/// Adds an item to the layer of a name.
pub fn add<P: OverPoints, S: OverSegments, L: Ledger>(
    layers: &mut Layers<P, S>,
    name: &Name,
    id: u64,
    shape: Shape,
    steps: &mut Steps<L>,
) -> Reply
    requires few { layers.old.updates < 2 ^ 40 }
    requires lawful { IsShape Two (model_shape shape) }
    ensures answered { AnswersTo (map_of layers.old) (Ok (Some (commands.Add name.now id (model_shape shape)))) (given_by (Some result) (map_of layers.new)) }
    ensures counted { IsCounted (work_of (map_of layers.old) (commands.Add name.now id (model_shape shape))) (cost_of result) steps.old steps.new }
    ensures lap { steps.new.lap_start ≡ (lap_begun steps.old).lap_start }
    ensures updates { layers.new.updates ≡ layers.old.updates + 1 }
{
    replying::updated(layers.add(name, id, shape, steps))
}

/// Moves a point of the layer of a name.
pub fn move_point<P: OverPoints, S: OverSegments, L: Ledger>(
    layers: &mut Layers<P, S>,
    name: &Name,
    id: u64,
    x: u32,
    y: u32,
    w: u32,
    steps: &mut Steps<L>,
) -> Reply
    requires few { layers.old.updates < 2 ^ 40 }
    requires lawful { IsShape Two (shapes.Point x y w) }
    ensures answered { AnswersTo (map_of layers.old) (Ok (Some (commands.Move name.now id x y w))) (given_by (Some result) (map_of layers.new)) }
    ensures counted { IsCounted (work_of (map_of layers.old) (commands.Move name.now id x y w)) (cost_of result) steps.old steps.new }
    ensures lap { steps.new.lap_start ≡ (lap_begun steps.old).lap_start }
    ensures updates { layers.new.updates ≡ layers.old.updates + 1 }
{
    replying::updated(layers.move_point(name, id, x, y, w, steps))
}

/// Drops an item from the layer of a name.
pub fn remove<P: OverPoints, S: OverSegments, L: Ledger>(
    layers: &mut Layers<P, S>,
    name: &Name,
    id: u64,
    steps: &mut Steps<L>,
) -> Reply
    requires few { layers.old.updates < 2 ^ 40 }
    ensures answered { AnswersTo (map_of layers.old) (Ok (Some (commands.Drop name.now id))) (given_by (Some result) (map_of layers.new)) }
    ensures counted { IsCounted (work_of (map_of layers.old) (commands.Drop name.now id)) (cost_of result) steps.old steps.new }
    ensures lap { steps.new.lap_start ≡ (lap_begun steps.old).lap_start }
    ensures updates { layers.new.updates ≡ layers.old.updates + 1 }
{
    replying::updated(layers.remove(name, id, steps))
}

/// Puts a question to the layer of a name.
pub fn answer<P: OverPoints, S: OverSegments, L: Ledger>(
    layers: &Layers<P, S>,
    name: &Name,
    question: &AnyQuestion,
    steps: &mut Steps<L>,
) -> Reply
    ensures answered { AnswersTo (map_of layers.now) (Ok (Some (commands.Ask name.now (question_of question.now)))) (given_by (Some result) (map_of layers.now)) }
    ensures counted { IsCounted (work_of (map_of layers.now) (commands.Ask name.now (question_of question.now))) (cost_of result) steps.old steps.new }
    ensures parts { TellsEveryPart layers.now (Ok (Some (commands.Ask name.now (question_of question.now)))) (cost_of result) }
    ensures lap { steps.new.lap_start ≡ (lap_begun steps.old).lap_start }
{
    match layers.ask(name, question, steps) {
        Ok((given, asked)) => Reply::Answered {
            answer: given.into_answer(),
            asked,
        },
        Err(fault) => Reply::Refused {
            cause: replying::refusal_of_question(fault),
        },
    }
}

/// Tells the shape of an item of the layer of a name.
pub fn get<P: OverPoints, S: OverSegments>(layers: &Layers<P, S>, name: &Name, id: u64) -> Reply
    ensures answered { AnswersTo (map_of layers.now) (Ok (Some (commands.Get name.now id))) (given_by (Some result) (map_of layers.now)) }
    ensures cost { cost_of result ≡ Untold }
{
    replying::got(layers.get(name, id))
}

/// Tells how many items the layer of a name has.
pub fn size<P: OverPoints, S: OverSegments>(layers: &Layers<P, S>, name: &Name) -> Reply
    ensures answered { AnswersTo (map_of layers.now) (Ok (Some (commands.Size name.now))) (given_by (Some result) (map_of layers.now)) }
    ensures cost { cost_of result ≡ Untold }
{
    replying::sized(layers.size(name))
}

/// Tells the last `k` identifiers of the layer of a name.
pub fn latest<P: OverPoints, S: OverSegments>(layers: &Layers<P, S>, name: &Name, k: usize) -> Reply
    requires { k ≤ 64 }
    ensures answered { AnswersTo (map_of layers.now) (Ok (Some (commands.Recent name.now k))) (given_by (Some result) (map_of layers.now)) }
    ensures cost { cost_of result ≡ Untold }
{
    replying::recent(layers.recent(name, k))
}
