// The command that the words of a line make.
ghost use Rattle.std.specs.Prelude.{◌≡◌, ◌≤◌, slice_index};
ghost use Rattle.map_model.specs.Command as commands;
ghost use Rattle.map_model.specs.Form as model;
ghost use Rattle.map_model.specs.Grammar as grammar;
ghost use Rattle.map_model.specs.Line.{InLimits};
ghost use Rattle.map_model.specs.Version.{Two};
ghost use Rattle.map_model.specs.Shape as shapes;
ghost use Rattle.map_questions.specs.Any.{question_of};
ghost use Rattle.map_shapes.specs.Rect.{rect_of};
ghost use Rattle.script_lang.specs.Form.{verb_of, verb_of_question, order_of};
ghost use Rattle.script_lang.specs.Command.{command_of, values_of};

use crate::Command;
use crate::coordinates::Coordinates;
use crate::form::{Order, Question, Verb};
use crate::indexes::Ending;
use crate::numbers::Numbers;
use map_questions::{
    Above, AnyQuestion, CrossCount, CrossIn, Near, NearK, PointQuestion, SegmentQuestion, Stab,
    StabCount, Top,
};
use map_shapes::{CountIn, ListIn, Name, Rect, SumIn};

impl Order {
    /// Whether the coordinates are in this order.
    pub fn holds(self, places: &Coordinates) -> bool
        ensures { result ≡ model.is_ordered (order_of self) places.now }
    {
        match self {
            Order::Free => true,
            Order::Ends => places.get(0) <= places.get(1),
            Order::Heights => places.get(1) <= places.get(2),
            Order::Corners => places.get(0) <= places.get(2) && places.get(1) <= places.get(3),
        }
    }
}

/// What the words of a line say, but for its command word.
#[derive(Drop)]
pub struct Values<'a> {
    pub name: Name,
    pub numbers: &'a Numbers,
    pub ending: Ending,
}

/// The command of a verb. Whatever the version is, its numbers are within the limits of version 2.
#[tactic(auto, unfolding(map_model::specs::Grammar::command_of))]
pub fn make_command(verb: Verb, values: &Values) -> Command
    requires { InLimits Two (grammar.command_of (verb_of verb) (values_of values.now)) }
    ensures { command_of result ≡ grammar.command_of (verb_of verb) (values_of values.now) }
{
    let name = values.name;
    let id = values.numbers.id;
    match verb {
        Verb::Livemap => Command::Livemap {
            version: values.numbers.version,
        },
        Verb::Layer => Command::Layer {
            name,
            kind: values.ending.kind,
            indexes: values.ending.indexes,
        },
        Verb::Index => Command::Index {
            name,
            index: values.ending.index,
        },
        Verb::Add => make_add(name, values.numbers),
        Verb::Seg => make_seg(name, values.numbers),
        Verb::Move => make_move(name, values.numbers),
        Verb::Drop => Command::Drop { name, id },
        Verb::Ask(question) => Command::Ask {
            name,
            question: make_question(question, values),
        },
        Verb::Get => Command::Get { name, id },
        Verb::Size => Command::Size { name },
        Verb::Recent => Command::Recent {
            name,
            k: values.numbers.amount,
        },
    }
}

/// The command that adds a point.
fn make_add(name: Name, numbers: &Numbers) -> Command
    ensures { command_of result ≡ commands.Add name numbers.now.id (shapes.Point (slice_index numbers.now.places 0) (slice_index numbers.now.places 1) (slice_index numbers.now.places 2)) }
{
    let id = numbers.id;
    let (x, y, w) = first_three(&numbers.places);
    Command::Add { name, id, x, y, w }
}

/// The command that adds a segment.
fn make_seg(name: Name, numbers: &Numbers) -> Command
    ensures { command_of result ≡ commands.Add name numbers.now.id (shapes.Segment (slice_index numbers.now.places 0) (slice_index numbers.now.places 1) (slice_index numbers.now.places 2)) }
{
    let id = numbers.id;
    let (lo, hi, y) = first_three(&numbers.places);
    Command::Seg {
        name,
        id,
        lo,
        hi,
        y,
    }
}

/// The command that moves a point.
fn make_move(name: Name, numbers: &Numbers) -> Command
    ensures { command_of result ≡ commands.Move name numbers.now.id (slice_index numbers.now.places 0) (slice_index numbers.now.places 1) (slice_index numbers.now.places 2) }
{
    let id = numbers.id;
    let (x, y, w) = first_three(&numbers.places);
    Command::Move { name, id, x, y, w }
}

/// The question of a command that asks.
#[tactic(auto, unfolding(map_model::specs::Grammar::command_of))]
fn make_question(question: Question, values: &Values) -> AnyQuestion
    requires { InLimits Two (grammar.command_of (verb_of_question question) (values_of values.now)) }
    ensures { commands.Ask values.now.name (question_of result) ≡ grammar.command_of (verb_of_question question) (values_of values.now) }
{
    let places = &values.numbers.places;
    let k = values.numbers.amount as usize;
    let (x, y, z) = first_three(places);
    match question {
        Question::Count => { AnyQuestion::Points(PointQuestion::CountIn(CountIn(corners(places)))) }
        Question::Sum => AnyQuestion::Points(PointQuestion::SumIn(SumIn(corners(places)))),
        Question::List => AnyQuestion::Points(PointQuestion::ListIn(ListIn(corners(places)))),
        Question::Near => AnyQuestion::Points(PointQuestion::Near(Near { x, y })),
        Question::Nearest => AnyQuestion::Points(PointQuestion::NearK(NearK { k, x, y })),
        Question::Above => {
            AnyQuestion::Points(PointQuestion::Above(Above { x1: x, x2: y, y: z }))
        }
        Question::Top => AnyQuestion::Points(PointQuestion::Top(Top { x1: x, x2: y })),
        Question::Stab => AnyQuestion::Segments(SegmentQuestion::Stab(Stab { x })),
        Question::StabCount => AnyQuestion::Segments(SegmentQuestion::StabCount(StabCount { x })),
        Question::Cross => {
            let (y1, y2) = (y, z);
            AnyQuestion::Segments(SegmentQuestion::CrossIn(CrossIn { x, y1, y2 }))
        }
        Question::CrossCount => {
            let (y1, y2) = (y, z);
            AnyQuestion::Segments(SegmentQuestion::CrossCount(CrossCount { x, y1, y2 }))
        }
    }
}

/// The first three coordinates, and 0 where there are fewer.
fn first_three(places: &Coordinates) -> (u32, u32, u32)
    ensures { result ≡ (slice_index places.now 0, slice_index places.now 1, slice_index places.now 2) }
{
    (places.get(0), places.get(1), places.get(2))
}

/// The rectangle of four coordinates.
fn corners(places: &Coordinates) -> Rect
    requires x_ordered { slice_index places.now 0 ≤ slice_index places.now 2 }
    requires y_ordered { slice_index places.now 1 ≤ slice_index places.now 3 }
    ensures { rect_of result ≡ record {
      x1 = slice_index places.now 0;
      y1 = slice_index places.now 1;
      x2 = slice_index places.now 2;
      y2 = slice_index places.now 3;
    } }
{
    Rect {
        x1: places.get(0),
        y1: places.get(1),
        x2: places.get(2),
        y2: places.get(3),
    }
}
