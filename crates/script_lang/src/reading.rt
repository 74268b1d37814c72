// The words of a line, read along the form of its command word.
ghost use Rattle.std.specs.Prelude.{◌≡◌, IfOk, IfSome, option_map};
ghost use Rattle.map_model.specs.Words.{words};
ghost use Rattle.map_shapes.specs.Version.{version_of};
ghost use Rattle.script_lang.specs.Form.{IsRow};
ghost use Rattle.script_lang.specs.Read.{said, split_name, parse_printable};

use crate::LineFault;
use crate::form::{Form, find_form};
use crate::numbers::{Numbers, read_numbers};
use crate::words::split_word;
use map_shapes::Version;

/// A name for the forms that have none.
const NO_NAME: &[u8] = b"-";

/// A line by its form: the name, the numbers, and what stands behind them. Where the form has no name any stands there.
#[derive(Drop)]
pub struct Read<'a> {
    pub form: &'static Form,
    pub name: &'a [u8],
    pub numbers: Numbers,
    pub rest: &'a [u8],
}

/// Reads a line along the form of its command word, whatever other bytes it has: `None` where it says nothing.
pub fn read_line(line: &[u8], version: Version) -> Result<Option<Read<'_>>, LineFault>
    ensures said { said result ≡ parse_printable (version_of version) (words line.now) }
    ensures row { IfOk result (λ found. IfSome found (λ read. IsRow read.form.now)) }
{
    let Some((word, rest)) = split_word(line) else {
        return Ok(None);
    };
    if word.starts_with(b"#") {
        return Ok(None);
    }
    let Some(form) = find_form(word) else {
        return Err(LineFault::Command);
    };
    let Some((name, rest)) = split_name(form.has_name, rest) else {
        return Err(LineFault::Fields);
    };
    let Some((numbers, rest)) = read_numbers(version, form.fields, rest) else {
        return Err(LineFault::Fields);
    };
    Ok(Some(Read {
        form,
        name,
        numbers,
        rest,
    }))
}

/// The name in front of a text and what stands behind it; where no name is wanted, one that says nothing and all of the text.
fn split_name(has_name: bool, text: &[u8]) -> Option<(&[u8], &[u8])>
    ensures { option_map (λ found. (found.0.now, words found.1.now)) result ≡ split_name has_name (words text.now) }
{
    if !has_name {
        return Some((NO_NAME, text));
    }
    split_word(text)
}
