// A line, step by step.
ghost use Rattle.std.specs.Prelude.{◌≡◌, ◌≤◌, length};
ghost use Rattle.std.specs.List.{list_all};
ghost use Rattle.map_model.specs.Grammar as grammar;
ghost use Rattle.script_lang.specs.Command.{parsed};
ghost use Rattle.script_lang.specs.Form.{tail_of};
ghost use Rattle.map_model.specs.Words.{words, longest_line};
ghost use Rattle.map_shapes.specs.Version.{version_of};
ghost use Rattle.script_lang.specs.Read.{has_end, parse_printable};

use crate::form::Tail;
use crate::indexes::read_ending;
use crate::making::{Values, make_command};
use crate::reading::read_line;
use crate::words::count_words;
use crate::{Command, LineFault};
use map_shapes::{Name, Version};

/// The longest line, in bytes.
const LONGEST_LINE: usize = 256;

/// So many bytes at the front of a line are enough: one more than the longest line with a carriage return.
pub const LONGEST_FRONT: usize = LONGEST_LINE + 2;

/// What a line of a version says that comes without its line feed: `None` where it says nothing, and else a command or the first
/// fault that holds.
///
/// It takes no memory. A pass finds the words, and another reads each of them; a third looks for bytes that aren't printable where
/// they say a fault.
pub fn parse(line: &[u8], version: Version) -> Result<Option<Command>, LineFault>
    ensures { parsed result ≡ grammar.parse (version_of version) line.now }
{
    let line = without_return(line);
    if line.len() > LONGEST_LINE {
        return Err(LineFault::Line);
    }
    let said = parse_printable(line, version);
    if said.is_err() && !is_printable(line) {
        return Err(LineFault::Line);
    }
    said
}

/// What a line says where all its bytes are printable, as they are wherever it says a command.
fn parse_printable(line: &[u8], version: Version) -> Result<Option<Command>, LineFault>
    requires { length line.now ≤ longest_line }
    ensures { parsed result ≡ parse_printable (version_of version) (words line.now) }
{
    let Some(read) = read_line(line, version)? else {
        return Ok(None);
    };
    let left = count_words(read.rest);
    if !has_end(read.form.tail, left) {
        return Err(LineFault::Fields);
    }
    let Some(name) = Name::read(read.name) else {
        return Err(LineFault::Name);
    };
    if !read.numbers.are_digits {
        return Err(LineFault::Number);
    }
    if !read.numbers.are_in_range {
        return Err(LineFault::Range);
    }
    if !read.form.order.holds(&read.numbers.places) {
        return Err(LineFault::Order);
    }
    let ending = read_ending(read.form.tail, left, read.rest)?;
    let values = Values {
        name,
        numbers: &read.numbers,
        ending,
    };
    Ok(Some(make_command(read.form.verb, &values)))
}

/// The line without one carriage return at its end.
fn without_return(line: &[u8]) -> &[u8]
    ensures { result.now ≡ grammar.without_return line.now }
{
    let len = line.len();
    if len > 0 && line[len - 1] == b'\r' {
        &line[..len - 1]
    } else {
        line
    }
}

/// Whether it has only tabs and bytes from the space to the tilde.
fn is_printable(line: &[u8]) -> bool
    ensures { result ≡ list_all grammar.is_printable line.now }
{
    line.iter()
        .all(|byte| *byte == b'\t' || (b' ' <= *byte && *byte <= b'~'))
}

/// Whether so many words are what follows the numbers.
fn has_end(tail: Tail, left: usize) -> bool
    ensures { result ≡ has_end (tail_of tail) left }
{
    match tail {
        Tail::Bare => left == 0,
        Tail::Indexes => left >= 2,
        Tail::OneIndex => left == 1,
    }
}
