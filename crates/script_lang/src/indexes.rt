// The kind and the indexes behind the numbers of a line.
ghost use Rattle.std.specs.Prelude.{◌≡◌, ◌≤◌, option_map};
ghost use Rattle.map_model.specs.Words.{words};
ghost use Rattle.map_shapes.specs.IndexSet.{index_set_of, index_of};
ghost use Rattle.script_lang.specs.Form.{tail_of};
ghost use Rattle.script_lang.specs.Indexes.{kind_in, no_index, with_index, with_index_words, word_count, layer_of, layer_in, index_among, ending_in, ending_of};

use crate::LineFault;
use crate::form::Tail;
use crate::words::split_word;
use map_shapes::{IndexSet, Kind, PointIndex};

pub const POINTS: &[u8] = b"points";

pub const SEGMENTS: &[u8] = b"segments";

pub const RANGE: &[u8] = b"range";

pub const NEAR: &[u8] = b"near";

pub const TOP: &[u8] = b"top";

pub const STAB: &[u8] = b"stab";

pub const CROSS: &[u8] = b"cross";

pub const BATCH: &[u8] = b"batch";

/// What stands behind the numbers of a line: a kind with indexes, or one index; points, none and any one where nothing does.
#[derive(Clone, Copy)]
pub struct Ending {
    pub kind: Kind,
    pub indexes: IndexSet,
    pub index: PointIndex,
}

/// What the words behind the numbers say, so many as follow them.
pub fn read_ending(tail: Tail, left: usize, text: &[u8]) -> Result<Ending, LineFault>
    ensures { ending_of result ≡ ending_in (tail_of tail) left (words text.now) }
{
    let none = Ending {
        kind: Kind::Points,
        indexes: IndexSet::new(),
        index: PointIndex::Range,
    };
    match tail {
        Tail::Bare => Ok(none),
        Tail::Indexes => {
            let (kind, indexes) = read_layer(text)?;
            if word_count(indexes) + 1 < left || !indexes.fits(kind) {
                return Err(LineFault::Index);
            }
            Ok(Ending {
                kind,
                indexes,
                ..none
            })
        }
        Tail::OneIndex => match read_index(text) {
            Some(index) => Ok(Ending { index, ..none }),
            None => Err(LineFault::Index),
        },
    }
}

/// The index of points that the first word of a text names.
fn read_index(text: &[u8]) -> Option<PointIndex>
    ensures { option_map index_of result ≡ index_among (words text.now) }
{
    let (word, _) = split_word(text)?;
    if word == RANGE {
        Some(PointIndex::Range)
    } else if word == NEAR {
        Some(PointIndex::Near)
    } else if word == TOP {
        Some(PointIndex::Top)
    } else {
        None
    }
}

/// The kind that the first word of a text says, and the indexes among the words behind it: points and no index where there is no word.
fn read_layer(text: &[u8]) -> Result<(Kind, IndexSet), LineFault>
    ensures { layer_of result ≡ layer_in (words text.now) }
{
    let Some((word, rest)) = split_word(text) else {
        return Ok((Kind::Points, IndexSet::new()));
    };
    match read_kind(word) {
        Some(kind) => Ok((kind, read_indexes(rest))),
        None => Err(LineFault::Kind),
    }
}

fn read_kind(word: &[u8]) -> Option<Kind>
    ensures { result ≡ kind_in word.now }
{
    if word == POINTS {
        Some(Kind::Points)
    } else if word == SEGMENTS {
        Some(Kind::Segments)
    } else {
        None
    }
}

/// The indexes among the words of a text.
fn read_indexes(text: &[u8]) -> IndexSet
    ensures { index_set_of result ≡ index_set_of (with_index_words (words text.now) no_index) }
{
    let mut indexes = IndexSet::new();
    let mut rest = text;
    while let Some((word, behind)) = split_word(rest) {
        indexes = with_index(indexes, word);
        rest = behind;
    }
    indexes
}

/// The index of a word beside the others.
fn with_index(indexes: IndexSet, word: &[u8]) -> IndexSet
    ensures { result ≡ with_index indexes word.now }
{
    let mut more = indexes;
    if word == RANGE {
        more.range = true;
    } else if word == NEAR {
        more.near = true;
    } else if word == TOP {
        more.top = true;
    } else if word == STAB {
        more.stab = true;
    } else if word == CROSS {
        more.cross = true;
    } else if word == BATCH {
        more.batch = true;
    }
    more
}

/// How many words a set has.
fn word_count(indexes: IndexSet) -> usize
    ensures count { result ≡ word_count (index_set_of indexes) }
    ensures few { result ≤ 6 }
{
    usize::from(indexes.range)
        + usize::from(indexes.near)
        + usize::from(indexes.top)
        + usize::from(indexes.stab)
        + usize::from(indexes.cross)
        + usize::from(indexes.batch)
}
