//! The rounds of a made script.
ghost use Rattle.std.specs.Prelude.{◌≡◌, ◌<◌, ◌≤◌, ◌+◌, ◌^◌};
ghost use Rattle.map_model.specs.Line.{IsCommand};
ghost use Rattle.map_model.specs.Version.{One};
ghost use Rattle.script_lang.specs.Command.{command_of};
ghost use Rattle.workload_gen.specs.Made as made;

use crate::generator::Generator;
use map_questions::{AnyQuestion, Near, PointQuestion, Top};
use map_shapes::{CountIn, IndexSet, Kind, Name, Rect};
use script_lang::Command;
use std::marker::Model;

/// The numbers of a round's first draw.
const KINDS: u32 = 10;

/// Draws per coordinate, so that these are below 2^20.
const COORDINATE: u32 = 4_096;

/// Draws per weight, so that these are below 2^10.
const WEIGHT: u32 = 4_194_304;

/// How much farther the upper end of a span is than its lower end.
const SPAN: u32 = 65_535;

/// What makes the commands of a script, between two rounds.
#[derive(Drop)]
pub(crate) struct Maker {
    /// The layer's.
    name: Name,
    generator: Generator,
    /// The oldest live identifier, where there is one.
    first: u64,
    /// The identifier that comes next; those from `first` on and below it are live.
    next: u64,
}

impl Model for Maker {
    ghost use Rattle.std.specs.Prelude.{◌≡◌, ◌≤◌};
    ghost use Rattle.workload_gen.specs.Made.{Between, made};

    ghost Value = { Between };

    ghost view = { λ maker. record { state = maker.generator; first = maker.first; next = maker.next } };

    ghost invariant = { λ maker. (maker.name ≡ made) × (maker.first ≤ maker.next) };
}

/// The name of the layer of every made script.
pub fn layer_name() -> Name
    ensures { result ≡ made.made }
{
    Name::read(b"made").unwrap()
}

impl Maker {
    /// Before the first round.
    pub(crate) fn new(seed: u64) -> Maker
        ensures { result ≡ made.before_all seed }
    {
        Maker {
            name: layer_name(),
            generator: Generator::new(seed),
            first: 0,
            next: 0,
        }
    }

    /// The command before all rounds.
    pub(crate) fn layer(&self) -> Command
        ensures command { command_of result ≡ made.layer }
        ensures lawful { IsCommand One (command_of result) }
    {
        Command::Layer {
            name: self.name,
            kind: Kind::Points,
            indexes: IndexSet {
                range: true,
                near: true,
                top: true,
                stab: false,
                cross: false,
                batch: false,
            },
        }
    }

    /// The command of a round.
    pub(crate) fn round(&mut self) -> Command
        requires { self.old.next < 2 ^ 32 }
        ensures command { command_of result ≡ (made.round self.old).command }
        ensures after { self.new ≡ (made.round self.old).after }
        ensures lawful { IsCommand One (command_of result) }
    {
        let number = self.generator.draw() % KINDS;
        match number {
            7 => self.count(),
            8 => self.near(),
            9 => self.top(),
            5 if self.has_live() => self.drop_first(),
            6 if self.has_live() => self.drop_last(),
            _ => self.add(),
        }
    }

    /// Whether an identifier is live.
    fn has_live(&self) -> bool
        ensures { result ≡ made.has_live self.now }
    {
        self.first != self.next
    }

    fn add(&mut self) -> Command
        requires { self.old.next < 2 ^ 32 }
        ensures command { command_of result ≡ (made.add_round self.old).command }
        ensures after { self.new ≡ (made.add_round self.old).after }
        ensures lawful { IsCommand One (command_of result) }
    {
        let id = self.next;
        let x = self.coordinate();
        let y = self.coordinate();
        let w = self.generator.draw() / WEIGHT;
        self.next += 1;
        Command::Add {
            name: self.name,
            id,
            x,
            y,
            w,
        }
    }

    fn drop_first(&mut self) -> Command
        requires live { self.old.first < self.old.next }
        requires small { self.old.next < 2 ^ 32 }
        ensures command { command_of result ≡ (made.drop_first self.old).command }
        ensures after { self.new ≡ (made.drop_first self.old).after }
        ensures lawful { IsCommand One (command_of result) }
    {
        let id = self.first;
        self.first += 1;
        Command::Drop {
            name: self.name,
            id,
        }
    }

    fn drop_last(&mut self) -> Command
        requires live { self.old.first < self.old.next }
        requires small { self.old.next < 2 ^ 32 }
        ensures command { command_of result ≡ (made.drop_last self.old).command }
        ensures after { self.new ≡ (made.drop_last self.old).after }
        ensures lawful { IsCommand One (command_of result) }
    {
        self.next -= 1;
        Command::Drop {
            name: self.name,
            id: self.next,
        }
    }

    fn count(&mut self) -> Command
        ensures command { command_of result ≡ (made.count_round self.old).command }
        ensures after { self.new ≡ (made.count_round self.old).after }
        ensures lawful { IsCommand One (command_of result) }
    {
        let x1 = self.coordinate();
        let y1 = self.coordinate();
        let (x2, y2) = (x1 + SPAN, y1 + SPAN);
        let rect = Rect { x1, y1, x2, y2 };
        self.ask(PointQuestion::CountIn(CountIn(rect)))
    }

    fn near(&mut self) -> Command
        ensures command { command_of result ≡ (made.near_round self.old).command }
        ensures after { self.new ≡ (made.near_round self.old).after }
        ensures lawful { IsCommand One (command_of result) }
    {
        let x = self.coordinate();
        let y = self.coordinate();
        self.ask(PointQuestion::Near(Near { x, y }))
    }

    fn top(&mut self) -> Command
        ensures command { command_of result ≡ (made.top_round self.old).command }
        ensures after { self.new ≡ (made.top_round self.old).after }
        ensures lawful { IsCommand One (command_of result) }
    {
        let x1 = self.coordinate();
        let x2 = x1 + SPAN;
        self.ask(PointQuestion::Top(Top { x1, x2 }))
    }

    /// A question to the layer.
    fn ask(&self, question: PointQuestion) -> Command
        requires { made.IsQuestion question }
        ensures command { command_of result ≡ made.asks question }
        ensures lawful { IsCommand One (command_of result) }
    {
        Command::Ask {
            name: self.name,
            question: AnyQuestion::Points(question),
        }
    }

    /// A coordinate below 2^20, by one draw.
    fn coordinate(&mut self) -> u32
        ensures number { result ≡ made.coordinate self.new.state }
        ensures small { result < 2 ^ 20 }
        ensures after { self.new ≡ made.drawn self.old }
    {
        self.generator.draw() / COORDINATE
    }
}
