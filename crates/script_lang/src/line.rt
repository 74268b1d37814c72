// The line that a command is written as.
ghost use Rattle.std.specs.Prelude.{◌≡◌, [], ◌∷◌, ◌++◌, IfOk, OnOk, Ok, Some, map, codes, decimal, if◌then◌else◌};
ghost use Rattle.map_model.specs.Grammar.{parse};
ghost use Rattle.map_model.specs.Line.{IsCommand, spaced_words, command_line, kind_word, index_words, index_word, question_words, rect_words, point_words, version_word};
ghost use Rattle.map_model.specs.Version.{coordinate_text};
ghost use Rattle.map_questions.specs.Any.{point_question_of, question_of};
ghost use Rattle.map_shapes.specs.Kind.{kind_of};
ghost use Rattle.map_shapes.specs.IndexSet.{index_set_of, index_of};
ghost use Rattle.map_shapes.specs.Rect.{rect_of};
ghost use Rattle.map_shapes.specs.Version.{version_of};
ghost use Rattle.script_lang.specs.Command.{command_of};
ghost use Rattle.script_lang.specs.Written.{number_text};

use crate::Command;
use crate::indexes::{BATCH, CROSS, NEAR, POINTS, RANGE, SEGMENTS, STAB, TOP};
use itoa::Buffer;
use map_questions::{AnyQuestion, PointQuestion, SegmentQuestion};
use map_shapes::{IndexSet, Kind, Name, PointIndex, Rect, Version};
use std::alloc::{AllocError, Global};

/// A number of a line.
#[derive(Clone, Copy)]
enum Number {
    /// One without a sign.
    Plain(u64),
    /// A coordinate.
    Signed(i64),
}

impl Command {
    /// The line of a version that it is written as: one space between words, numbers without leading zeros, and indexes in the order
    /// `range near top stab cross batch`.
    ///
    /// Where the command is one that a line of the version can say, its line is read as that command.
    pub fn line(&self, version: Version, alloc: Global) -> Result<Vec<u8>, AllocError>
        ensures line { IfOk result (λ line. line.items ≡ command_line (version_of version) (command_of self.now)) }
        ensures read { IsCommand (version_of version) (command_of self.now) → IfOk result (λ line. parse (version_of version) line.items ≡ Ok (Some (command_of self.now))) }
    {
        let mut line = Vec::new(alloc);
        self.write_line(version, &mut line)?;
        Ok(line)
    }

    /// Puts the same line in the place of what is in `line`.
    pub fn write_line(&self, version: Version, line: &mut Vec<u8>) -> Result<(), AllocError>
        ensures { OnOk result (line.new.items ≡ command_line (version_of version) (command_of self.now)) }
    {
        line.clear();
        match *self {
            Command::Livemap { version: chosen } => write_livemap(chosen, line),
            Command::Layer {
                name,
                kind,
                indexes,
            } => write_layer(name, kind, indexes, line),
            Command::Index { name, index } => write_index(name, index, line),
            Command::Add { name, id, x, y, w } => {
                write_numbers(b"add", name, &point(version, id, x, y, w), line)
            }
            Command::Seg {
                name,
                id,
                lo,
                hi,
                y,
            } => write_numbers(b"seg", name, &segment(version, id, lo, hi, y), line),
            Command::Move { name, id, x, y, w } => {
                write_numbers(b"move", name, &point(version, id, x, y, w), line)
            }
            Command::Drop { name, id } => write_number(b"drop", name, id, line),
            Command::Ask { name, question } => write_question(version, name, question, line),
            Command::Get { name, id } => write_number(b"get", name, id, line),
            Command::Size { name } => write_numbers(b"size", name, &[], line),
            Command::Recent { name, k } => write_number(b"recent", name, u64::from(k), line),
        }
    }
}

/// The line that chooses a version.
fn write_livemap(chosen: Version, line: &mut Vec<u8>) -> Result<(), AllocError>
    requires { line.old.items ≡ [] }
    ensures { OnOk result (line.new.items ≡ spaced_words (codes "livemap" ∷ version_word (version_of chosen) ∷ [])) }
{
    line.extend_from_slice(b"livemap")?;
    append_word(version_word(chosen), line)
}

fn version_word(version: Version) -> &'static [u8]
    ensures { result.now ≡ version_word (version_of version) }
{
    match version {
        Version::One => b"1",
        Version::Two => b"2",
    }
}

/// The line of a question.
fn write_question(
    version: Version,
    name: Name,
    question: AnyQuestion,
    line: &mut Vec<u8>,
) -> Result<(), AllocError>
    requires { line.old.items ≡ [] }
    ensures { OnOk result (line.new.items ≡ spaced_words (question_words (version_of version) name (question_of question))) }
{
    match question {
        AnyQuestion::Points(question) => write_point_question(version, name, question, line),
        AnyQuestion::Segments(SegmentQuestion::Stab(q)) => {
            write_numbers(b"stab", name, &[place(version, q.x)], line)
        }
        AnyQuestion::Segments(SegmentQuestion::StabCount(q)) => {
            write_numbers(b"stabcount", name, &[place(version, q.x)], line)
        }
        AnyQuestion::Segments(SegmentQuestion::CrossIn(q)) => {
            write_numbers(b"cross", name, &span(version, q.x, q.y1, q.y2), line)
        }
        AnyQuestion::Segments(SegmentQuestion::CrossCount(q)) => {
            write_numbers(b"crosscount", name, &span(version, q.x, q.y1, q.y2), line)
        }
    }
}

fn write_point_question(
    version: Version,
    name: Name,
    question: PointQuestion,
    line: &mut Vec<u8>,
) -> Result<(), AllocError>
    requires { line.old.items ≡ [] }
    ensures { OnOk result (line.new.items ≡ spaced_words (question_words (version_of version) name (point_question_of question))) }
{
    match question {
        PointQuestion::CountIn(q) => write_numbers(b"count", name, &corners(version, q.0), line),
        PointQuestion::SumIn(q) => write_numbers(b"sum", name, &corners(version, q.0), line),
        PointQuestion::ListIn(q) => write_numbers(b"list", name, &corners(version, q.0), line),
        PointQuestion::Near(q) => {
            write_numbers(
                b"near",
                name,
                &[place(version, q.x), place(version, q.y)],
                line,
            )
        }
        PointQuestion::NearK(q) => {
            let k = Number::Plain(q.k as u64);
            write_numbers(
                b"nearest",
                name,
                &[k, place(version, q.x), place(version, q.y)],
                line,
            )
        }
        PointQuestion::Above(q) => {
            let (x1, x2) = (place(version, q.x1), place(version, q.x2));
            write_numbers(b"above", name, &[x1, x2, place(version, q.y)], line)
        }
        PointQuestion::Top(q) => {
            write_numbers(
                b"top",
                name,
                &[place(version, q.x1), place(version, q.x2)],
                line,
            )
        }
    }
}

/// A kept coordinate as it is written.
fn place(version: Version, kept: u32) -> Number
    ensures { number_text result ≡ coordinate_text (version_of version) kept }
{
    Number::Signed(version.coordinate(kept))
}

/// An identifier and the numbers of a point.
fn point(version: Version, id: u64, x: u32, y: u32, w: u32) -> [Number; 4]
    ensures { map number_text result ≡ point_words (version_of version) id x y w }
{
    let w = Number::Plain(u64::from(w));
    [Number::Plain(id), place(version, x), place(version, y), w]
}

/// An identifier and the numbers of a segment.
fn segment(version: Version, id: u64, lo: u32, hi: u32, y: u32) -> [Number; 4]
    ensures { map number_text result ≡ decimal id ∷ coordinate_text (version_of version) lo ∷ coordinate_text (version_of version) hi ∷ coordinate_text (version_of version) y ∷ [] }
{
    let (lo, hi) = (place(version, lo), place(version, hi));
    [Number::Plain(id), lo, hi, place(version, y)]
}

/// A place and a span of heights.
fn span(version: Version, x: u32, y1: u32, y2: u32) -> [Number; 3]
    ensures { map number_text result ≡ coordinate_text (version_of version) x ∷ coordinate_text (version_of version) y1 ∷ coordinate_text (version_of version) y2 ∷ [] }
{
    let (y1, y2) = (place(version, y1), place(version, y2));
    [place(version, x), y1, y2]
}

/// The corners of a rectangle, in the order of a line.
fn corners(version: Version, rect: Rect) -> [Number; 4]
    ensures { map number_text result ≡ rect_words (version_of version) (rect_of rect) }
{
    let (x1, y1) = (place(version, rect.x1), place(version, rect.y1));
    let (x2, y2) = (place(version, rect.x2), place(version, rect.y2));
    [x1, y1, x2, y2]
}

/// A command word, a name, and a number without a sign.
fn write_number(word: &[u8], name: Name, number: u64, line: &mut Vec<u8>) -> Result<(), AllocError>
    requires { line.old.items ≡ [] }
    ensures { OnOk result (line.new.items ≡ spaced_words (word.now ∷ name ∷ decimal number ∷ [])) }
{
    write_numbers(word, name, &[Number::Plain(number)], line)
}

/// A command word, a name, and numbers.
#[tactic(auto, using(crate::proofs::SpacedWords::more_numbers))]
fn write_numbers(
    word: &[u8],
    name: Name,
    numbers: &[Number],
    line: &mut Vec<u8>,
) -> Result<(), AllocError>
    requires { line.old.items ≡ [] }
    ensures { OnOk result (line.new.items ≡ spaced_words (word.now ∷ name ∷ map number_text numbers.now)) }
{
    line.extend_from_slice(word)?;
    append_word(name.as_bytes(), line)?;
    for number in numbers {
        append_number(*number, line)?;
    }
    Ok(())
}

/// The line of a layer: a kind and indexes stand behind its name.
#[tactic(auto, using(crate::proofs::SpacedWords::layer_line))]
fn write_layer(
    name: Name,
    kind: Kind,
    indexes: IndexSet,
    line: &mut Vec<u8>,
) -> Result<(), AllocError>
    requires { line.old.items ≡ [] }
    ensures { OnOk result (line.new.items ≡ spaced_words (codes "layer" ∷ name ∷ kind_word (kind_of kind) ∷ index_words (index_set_of indexes))) }
{
    write_numbers(b"layer", name, &[], line)?;
    append_word(kind_word(kind), line)?;
    append_word_if(indexes.range, RANGE, line)?;
    append_word_if(indexes.near, NEAR, line)?;
    append_word_if(indexes.top, TOP, line)?;
    append_word_if(indexes.stab, STAB, line)?;
    append_word_if(indexes.cross, CROSS, line)?;
    append_word_if(indexes.batch, BATCH, line)
}

/// The line that gives a layer in use an index.
fn write_index(name: Name, index: PointIndex, line: &mut Vec<u8>) -> Result<(), AllocError>
    requires { line.old.items ≡ [] }
    ensures { OnOk result (line.new.items ≡ spaced_words (codes "index" ∷ name ∷ index_word (index_of index) ∷ [])) }
{
    line.extend_from_slice(b"index")?;
    append_word(name.as_bytes(), line)?;
    append_word(index_word(index), line)
}

fn index_word(index: PointIndex) -> &'static [u8]
    ensures { result.now ≡ index_word (index_of index) }
{
    match index {
        PointIndex::Range => RANGE,
        PointIndex::Near => NEAR,
        PointIndex::Top => TOP,
    }
}

fn kind_word(kind: Kind) -> &'static [u8]
    ensures { result.now ≡ kind_word (kind_of kind) }
{
    match kind {
        Kind::Points => POINTS,
        Kind::Segments => SEGMENTS,
    }
}

fn append_word_if(is_said: bool, word: &[u8], line: &mut Vec<u8>) -> Result<(), AllocError>
    ensures { OnOk result (line.new.items ≡ line.old.items ++ (if is_said then 32 ∷ word.now else [])) }
{
    if is_said {
        append_word(word, line)?;
    }
    Ok(())
}

/// Appends a space and a number.
fn append_number(number: Number, line: &mut Vec<u8>) -> Result<(), AllocError>
    ensures { OnOk result (line.new.items ≡ line.old.items ++ 32 ∷ number_text number) }
{
    let mut digits = Buffer::new();
    match number {
        Number::Plain(n) => append_word(digits.format(n).as_bytes(), line),
        Number::Signed(n) => append_word(digits.format(n).as_bytes(), line),
    }
}

/// Appends a space and a word.
fn append_word(word: &[u8], line: &mut Vec<u8>) -> Result<(), AllocError>
    ensures { OnOk result (line.new.items ≡ line.old.items ++ 32 ∷ word.now) }
{
    line.push(b' ')?;
    line.extend_from_slice(word)
}
