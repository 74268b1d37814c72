//! The summary of what the commands of a script were answered.
ghost use Rattle.std.specs.Prelude.{◌≡◌, ◌<◌, ◌≤◌, ◌+◌, ◌^◌, ◌++◌, length, OnOk, OnErr, option_map};
ghost use Rattle.map_io.specs.SinkTold.{Delivers, CutOff};
ghost use Rattle.map_questions.specs.Any.{answer_of};
ghost use Rattle.map_shapes.specs.Cost.{spent_of, spent_at_once_of};
ghost use Rattle.workload_gen.specs.Summary as summaries;

use answer_text::{Reply, append};
use arrayvec::ArrayVec;
use itoa::Buffer;
use map_io::{Sink, WriteFault, write_all};
use map_questions::AnyAnswer;
use map_shapes::{Spent, SpentAtOnce, UpdateCost};
use std::marker::Model;

/// No fewer bytes than a summary's lines.
const LONGEST: usize = 512;

/// Lines in place.
type Text = ArrayVec<u8, LONGEST>;

/// What the commands of a script were answered and cost, in the numbers of the summary but that of the live items.
#[derive(Drop)]
pub struct Summary {
    commands: u64,
    refused: u64,
    /// The answers of `count` together.
    counted: u128,
    /// The identifiers that `near` and `top` gave together, modulo 2^64.
    ids: u64,
    parts: u64,
    touches: u128,
    /// Of the accepted update of the most turns, and of several the first.
    largest: Option<Spent>,
}

impl Model for Summary {
    ghost use Rattle.std.specs.Prelude.{◌-◌, ◌*◌, ◌^◌, ◌≤◌, option_map};
    ghost use Rattle.map_shapes.specs.Cost.{spent_of};
    ghost use Rattle.workload_gen.specs.Summary.{Summary};

    ghost Value = { Summary };

    ghost view = { λ s. record {
      commands = s.commands;
      refused = s.refused;
      counted = s.counted;
      ids = s.ids;
      parts = s.parts;
      touches = s.touches;
      largest = option_map spent_of s.largest;
    } };

    // Each sum is of numbers of a type, one a command.
    ghost invariant = { λ s. (s.refused ≤ s.commands)
        × (s.counted ≤ s.commands * (2 ^ 64 - 1))
        × (s.parts ≤ s.commands * (2 ^ 32 - 1))
        × (s.touches ≤ s.commands * (2 ^ 64 - 1)) };
}

impl Summary {
    /// Of no commands.
    pub fn new() -> Summary
        ensures { result ≡ summaries.no_commands }
    {
        Summary {
            commands: 0,
            refused: 0,
            counted: 0,
            ids: 0,
            parts: 0,
            touches: 0,
            largest: None,
        }
    }

    /// Takes in what one more command was answered. Up to 2^32 commands no number wraps but that of the identifiers.
    pub fn take_in(&mut self, reply: &Reply)
        requires { self.old.commands < 2 ^ 32 }
        ensures { self.new ≡ summaries.told_more self.old (summaries.told_of reply.now) }
    {
        self.commands += 1;
        match reply {
            Reply::Updated {
                spent: UpdateCost::Spread(spent),
            } => self.largest = Some(larger(self.largest, *spent)),
            Reply::Updated {
                spent: UpdateCost::AtOnce(spent),
            } => self.largest = Some(larger(self.largest, of_joining(*spent))),
            Reply::Answered { answer, asked } => {
                self.counted += u128::from(count_in(answer));
                self.ids = self.ids.wrapping_add(id_in(answer));
                self.parts += u64::from(asked.parts);
                self.touches += u128::from(asked.touches);
            }
            Reply::Refused { .. } => self.refused += 1,
            Reply::Made | Reply::Got { .. } | Reply::Size { .. } | Reply::Recent { .. } => {}
        }
    }

    /// Writes the eight lines, as one piece. It takes no memory.
    pub fn write<K: Sink>(&self, live: u64, sink: &mut K) -> Result<(), WriteFault>
        ensures delivered { OnOk result (Delivers (K.told sink.old) (K.told sink.new) (summaries.summary_text self.now live) 1) }
        ensures cut_off { OnErr result (CutOff (K.told sink.old) (K.told sink.new) (summaries.summary_text self.now live) 0) }
    {
        let text = self.text(live);
        write_all(sink, text.as_slice())
    }

    fn text(&self, live: u64) -> Text
        ensures { result.items ≡ summaries.summary_text self.now live }
    {
        let mut text = Text::new();
        put_line(&mut text, b"commands", u128::from(self.commands));
        put_line(&mut text, b"refused", u128::from(self.refused));
        put_line(&mut text, b"live", u128::from(live));
        put_line(&mut text, b"counted", self.counted);
        put_line(&mut text, b"ids", u128::from(self.ids));
        put_line(&mut text, b"parts", u128::from(self.parts));
        put_line(&mut text, b"touches", self.touches);
        put_largest(&mut text, self.largest);
        text
    }
}

/// What an answer adds to what was counted.
fn count_in(answer: &AnyAnswer) -> u64
    ensures { result ≡ summaries.count_in (answer_of answer.now) }
{
    match answer {
        AnyAnswer::Counted(n) => *n,
        _ => 0,
    }
}

/// The one identifier that an answer gives, or 0.
fn id_in(answer: &AnyAnswer) -> u64
    ensures { result ≡ summaries.id_in (answer_of answer.now) }
{
    match answer {
        AnyAnswer::NearestOne(Some(found)) => found.id(),
        AnyAnswer::Highest(Some(peak)) => peak.id,
        _ => 0,
    }
}

/// An update where parts are joined at once, with the bound of the turns of all such updates.
fn of_joining(spent: SpentAtOnce) -> Spent
    ensures { spent_of result ≡ summaries.of_joining (spent_at_once_of spent) }
{
    Spent {
        turns: spent.turns,
        turn_bound: spent.turn_bound,
        marks: spent.marks,
        mark_bound: spent.mark_bound,
    }
}

/// The update of the most turns, and of several the first.
fn larger(most: Option<Spent>, spent: Spent) -> Spent
    ensures { spent_of result ≡ summaries.larger (option_map spent_of most) (spent_of spent) }
{
    match most {
        Some(most) if most.turns >= spent.turns => most,
        _ => spent,
    }
}

/// Puts a word of at most 8 bytes and a number, in a line of at most 50 bytes.
fn put_line(text: &mut Text, word: &[u8], n: u128)
    requires short { length word.now ≤ 8 }
    requires room { length text.old.items ≤ 350 }
    ensures line { text.new.items ≡ text.old.items ++ summaries.number_line word.now n }
    ensures small { length text.new.items ≤ length text.old.items + 50 }
{
    append(text, word);
    append(text, b" ");
    append(text, Buffer::new().format(n).as_bytes());
    append(text, b"\n");
}

/// Puts the last line, of at most 90 bytes.
fn put_largest(text: &mut Text, largest: Option<Spent>)
    requires { length text.old.items ≤ 350 }
    ensures { text.new.items ≡ text.old.items ++ summaries.largest_line (option_map spent_of largest) }
{
    let turns = largest.map_or(0, |spent| spent.turns);
    let bound = largest.map_or(0, |spent| spent.turn_bound);
    append(text, b"largest ");
    append(text, Buffer::new().format(turns).as_bytes());
    append(text, b"/");
    append(text, Buffer::new().format(bound).as_bytes());
    append(text, b"\n");
}
