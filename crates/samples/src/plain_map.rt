//! Seeded scripts, and what plain lists answer.
ghost use Rattle.std.specs.Prelude.{◌<◌, length};

use crate::questions::{drawn_question, write_question};
use crate::seeded::Seeded;
use crate::spread::Spread;
use map_shapes::{Point, Segment, Shape};
use std::alloc::{AllocError, Global};
use workload_gen::Generator;

/// What points and segments are asked.
const OF_POINTS: [&str; 7] = ["count", "sum", "list", "near", "nearest", "above", "top"];

const OF_SEGMENTS: [&str; 2] = ["stab", "stabcount"];

/// The classes of questions, among them how many points are wanted.
const CLASSES: [u32; 4] = [1, 2, 10, 64];

/// Items have so many stamps, each of which comes again and again.
const STAMPS: u32 = 256;

/// Lines of a script of version 1 and their answers, each with its line feed.
#[derive(Drop)]
pub struct Exchange {
    pub text: String,
    pub answers: String,
}

/// A map of a layer of points with all their indexes and one of segments, each no more than a list.
#[derive(Drop)]
pub struct PlainMap {
    points: PlainLayer<Point>,
    segments: PlainLayer<Segment>,
}

impl PlainMap {
    /// Layers without items.
    pub fn new(alloc: Global) -> PlainMap {
        PlainMap {
            points: PlainLayer::new(alloc, "a"),
            segments: PlainLayer::new(alloc, "b"),
        }
    }

    /// The lines that make the layers.
    pub fn made(alloc: Global) -> Result<Exchange, AllocError> {
        let text = "layer a points range near top\nlayer b segments stab\n";
        Ok(Exchange {
            text: String::from_str(alloc, text)?,
            answers: String::from_str(alloc, "ok\nok\n")?,
        })
    }

    /// The next drawn line: every other one, on average, is for the points.
    pub fn draw(&mut self, generator: &mut Generator) -> Result<Exchange, AllocError> {
        match generator.below(2) {
            0 => self.points.draw(generator, &OF_POINTS),
            _ => self.segments.draw(generator, &OF_SEGMENTS),
        }
    }
}

/// A layer that is no more than a list of its items, each behind those that were added before it.
#[derive(Drop)]
struct PlainLayer<I: Seeded> {
    name: &'static str,
    items: Vec<I>,
}

impl<I: Seeded> PlainLayer<I> {
    fn new(alloc: Global, name: &'static str) -> PlainLayer<I> {
        let items = Vec::new(alloc);
        PlainLayer { name, items }
    }

    /// A drawn line: of eight three add, three drop, and two ask by one of some words.
    fn draw(&mut self, generator: &mut Generator, words: &[&str]) -> Result<Exchange, AllocError>
        requires { 0 < length words.now }
    {
        let alloc = *self.items.allocator();
        let mut said = Exchange {
            text: String::new(alloc),
            answers: String::new(alloc),
        };
        let stamp = u64::from(generator.below(STAMPS));
        match generator.below(8) {
            0..=2 => self.add(I::drawn(generator, Spread::Dense, stamp), &mut said)?,
            3..=5 => self.drop(stamp.reverse_bits(), &mut said)?,
            _ => self.ask(generator, words, &mut said)?,
        }
        Ok(said)
    }

    fn add(&mut self, item: I, said: &mut Exchange) -> Result<(), AllocError> {
        let (name, id) = (self.name, item.id());
        match item.shape() {
            Shape::Point { x, y, w } => writeln!(said.text, "add {name} {id} {x} {y} {w}")?,
            Shape::Segment { lo, hi, y } => writeln!(said.text, "seg {name} {id} {lo} {hi} {y}")?,
        }
        if self.items.iter().any(|other| other.id() == id) {
            return writeln!(said.answers, "no duplicate {id}");
        }
        self.items.push(item)?;
        said.answers.push_str("ok\n")
    }

    fn ask(
        &self,
        generator: &mut Generator,
        words: &[&str],
        said: &mut Exchange,
    ) -> Result<(), AllocError>
        requires { 0 < length words.now }
    {
        let drawn = generator.draw() as usize;
        let (word, class) = (words[drawn % words.len()], CLASSES[drawn / 8 % 4]);
        let question = drawn_question(word, class, drawn / 32 % 32, Spread::Dense, generator);
        write!(said.text, "{word} {}", self.name)?;
        write_question(&question, &mut said.text)?;
        let numbers = I::scan(*self.items.allocator(), &question, &self.items)?;
        said.answers.push_str(word)?;
        if numbers.is_empty() {
            said.answers.push_str(" none")?;
        }
        for number in numbers {
            write!(said.answers, " {number}")?;
        }
        said.answers.push_str("\n")
    }

    fn drop(&mut self, id: u64, said: &mut Exchange) -> Result<(), AllocError> {
        writeln!(said.text, "drop {} {id}", self.name)?;
        match self.items.iter().position(|item| item.id() == id) {
            Some(place) => self.items.remove(place),
            None => return writeln!(said.answers, "no unknown {id}"),
        };
        said.answers.push_str("ok\n")
    }
}
