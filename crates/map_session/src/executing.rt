//! One command on the layers.
ghost use Rattle.std.specs.Prelude.{◌≡◌, ◌+◌, ◌<◌, ◌^◌, Some, Ok};
ghost use Rattle.map_model.specs.Index.{one_if};
ghost use Rattle.map_model.specs.Line.{IsCommand};
ghost use Rattle.map_model.specs.Output.{AnswersTo};
ghost use Rattle.script_lang.specs.Command.{command_of};
ghost use Rattle.answer_text.specs.Reply.{cost_of};
ghost use Rattle.map_layers.specs.Layers.{map_of};
ghost use Rattle.map_session.specs.Work.{work_said, is_update_said, lap_said, IsCounted, TellsEveryPart};
ghost use Rattle.map_session.specs.Session.{given_by};

use crate::calling;
use answer_text::Reply;
use map_layers::{Layers, OverPoints, OverSegments};
use map_shapes::Shape;
use query_laws::step_ledger::Steps;
use script_lang::Command;
use std::sync::ledger::Ledger;

/// Executes a command that a line of the map's version can say.
pub fn execute<P: OverPoints, S: OverSegments, L: Ledger>(
    layers: &mut Layers<P, S>,
    command: &Command,
    steps: &mut Steps<L>,
) -> Reply
    requires few { layers.old.updates < 2 ^ 40 }
    requires lawful { IsCommand (map_of layers.old).version (command_of command.now) }
    ensures answered { AnswersTo (map_of layers.old) (Ok (Some (command_of command.now))) (given_by (Some result) (map_of layers.new)) }
    ensures counted { IsCounted (work_said (map_of layers.old) (Ok (Some (command_of command.now)))) (cost_of result) steps.old steps.new }
    ensures parts { TellsEveryPart layers.old (Ok (Some (command_of command.now))) (cost_of result) }
    ensures lap { steps.new.lap_start ≡ lap_said (Ok (Some (command_of command.now))) steps.old }
    ensures updates { layers.new.updates ≡ layers.old.updates + one_if (is_update_said (Ok (Some (command_of command.now)))) }
{
    match *command {
        Command::Livemap { version } => calling::choose(layers, version),
        Command::Layer {
            name,
            kind,
            indexes,
        } => calling::make(layers, &name, kind, indexes),
        Command::Index { name, index } => calling::index(layers, &name, index),
        Command::Add { name, id, x, y, w } => {
            calling::add(layers, &name, id, Shape::Point { x, y, w }, steps)
        }
        Command::Seg {
            name,
            id,
            lo,
            hi,
            y,
        } => calling::add(layers, &name, id, Shape::Segment { lo, hi, y }, steps),
        Command::Move { name, id, x, y, w } => {
            calling::move_point(layers, &name, id, x, y, w, steps)
        }
        Command::Drop { name, id } => calling::remove(layers, &name, id, steps),
        Command::Ask { name, question } => calling::answer(layers, &name, &question, steps),
        Command::Get { name, id } => calling::get(layers, &name, id),
        Command::Size { name } => calling::size(layers, &name),
        Command::Recent { name, k } => calling::latest(layers, &name, k as usize),
    }
}
