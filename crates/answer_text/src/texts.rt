// The texts that replies are made of.
ghost use Rattle.std.specs.Prelude.{◌≡◌, ◌+◌, ◌≤◌, ◌++◌, length, decimal, flat_map};
ghost use Rattle.map_model.specs.Cost.{out_of};
ghost use Rattle.map_model.specs.Reply.{spaced_coordinate};
ghost use Rattle.answer_text.specs.Texts.{refusal_word, answer_word, reply_word, answer_ids, listed_ids, answers_none, has_none, none_text, spaced_number, shape_numbers};
ghost use Rattle.map_shapes.specs.Shape.{model_shape};
ghost use Rattle.map_shapes.specs.Version.{version_of};

use crate::{Refusal, Reply, append};
use arrayvec::ArrayVec;
use itoa::Buffer;
use map_questions::AnyAnswer;
use map_shapes::{Shape, Version};

/// A short text in place.
pub type Text = ArrayVec<u8, 64>;

/// A number of a line.
#[derive(Clone, Copy)]
pub enum Number {
    /// One without a sign.
    Plain(u64),
    /// A squared distance.
    Wide(u128),
    /// A coordinate.
    Signed(i64),
}

/// The word or two that a reply's line begins with.
pub fn reply_word(reply: &Reply) -> &'static [u8]
    ensures word { result.now ≡ reply_word reply.now }
    ensures short { length result.now ≤ 64 }
{
    match reply {
        Reply::Made | Reply::Updated { .. } => b"ok",
        Reply::Answered { answer, .. } => answer_word(answer),
        Reply::Got { .. } => b"get",
        Reply::Size { .. } => b"size",
        Reply::Recent { .. } => b"recent",
        Reply::Refused { cause } => refusal_word(*cause),
    }
}

fn answer_word(answer: &AnyAnswer) -> &'static [u8]
    ensures word { result.now ≡ answer_word answer.now }
    ensures short { length result.now ≤ 64 }
{
    match answer {
        AnyAnswer::Counted(_) => b"count",
        AnyAnswer::Summed(_) => b"sum",
        AnyAnswer::Listed(_) => b"list",
        AnyAnswer::NearestOne(_) => b"near",
        AnyAnswer::NearestOnes(_) => b"nearest",
        AnyAnswer::ListedAbove(_) => b"above",
        AnyAnswer::Highest(_) => b"top",
        AnyAnswer::Stabbed(_) => b"stab",
        AnyAnswer::StabCounted(_) => b"stabcount",
        AnyAnswer::Crossed(_) => b"cross",
        AnyAnswer::CrossCounted(_) => b"crosscount",
    }
}

fn refusal_word(cause: Refusal) -> &'static [u8]
    ensures word { result.now ≡ refusal_word cause }
    ensures short { length result.now ≤ 64 }
{
    match cause {
        Refusal::Line => b"no line",
        Refusal::Command => b"no command",
        Refusal::Fields => b"no fields",
        Refusal::Name => b"no name",
        Refusal::Number => b"no number",
        Refusal::Range => b"no range",
        Refusal::Order => b"no order",
        Refusal::NoLayer => b"no layer",
        Refusal::Kind => b"no kind",
        Refusal::Index => b"no index",
        Refusal::Building { .. } => b"no building",
        Refusal::Taken => b"no taken",
        Refusal::NoRoom => b"no room",
        Refusal::Duplicate { .. } => b"no duplicate",
        Refusal::Unknown { .. } => b"no unknown",
        Refusal::Full => b"no full",
        Refusal::Version => b"no version",
        Refusal::NoMemory => b"no memory",
    }
}

/// The identifiers that a reply lists.
pub fn listed_ids(reply: &Reply) -> &[u64]
    ensures { result.now ≡ listed_ids reply.now }
{
    match reply {
        Reply::Answered { answer, .. } => answer_ids(answer),
        Reply::Recent { ids } => ids.as_slice(),
        Reply::Made
        | Reply::Updated { .. }
        | Reply::Got { .. }
        | Reply::Size { .. }
        | Reply::Refused { .. } => &[],
    }
}

fn answer_ids(answer: &AnyAnswer) -> &[u64]
    ensures { result.now ≡ answer_ids answer.now }
{
    match answer {
        AnyAnswer::Listed(ids)
        | AnyAnswer::ListedAbove(ids)
        | AnyAnswer::Stabbed(ids)
        | AnyAnswer::Crossed(ids) => ids.as_slice(),
        AnyAnswer::Counted(_)
        | AnyAnswer::Summed(_)
        | AnyAnswer::NearestOne(_)
        | AnyAnswer::NearestOnes(_)
        | AnyAnswer::Highest(_)
        | AnyAnswer::StabCounted(_)
        | AnyAnswer::CrossCounted(_) => &[],
    }
}

/// ` none` of a reply that lists nothing or found nothing.
pub fn none_text(reply: &Reply) -> &'static [u8]
    ensures text { result.now ≡ none_text reply.now }
    ensures short { length result.now ≤ 64 }
{
    if has_none(reply) { b" none" } else { b"" }
}

fn has_none(reply: &Reply) -> bool
    ensures { result ≡ has_none reply.now }
{
    match reply {
        Reply::Answered { answer, .. } => answers_none(answer),
        Reply::Recent { ids } => ids.as_slice().is_empty(),
        Reply::Made
        | Reply::Updated { .. }
        | Reply::Got { .. }
        | Reply::Size { .. }
        | Reply::Refused { .. } => false,
    }
}

fn answers_none(answer: &AnyAnswer) -> bool
    ensures { result ≡ answers_none answer.now }
{
    match answer {
        AnyAnswer::Listed(ids)
        | AnyAnswer::ListedAbove(ids)
        | AnyAnswer::Stabbed(ids)
        | AnyAnswer::Crossed(ids) => ids.as_slice().is_empty(),
        AnyAnswer::NearestOne(found) => found.is_none(),
        AnyAnswer::NearestOnes(found) => found.is_empty(),
        AnyAnswer::Highest(peak) => peak.is_none(),
        AnyAnswer::Counted(_)
        | AnyAnswer::Summed(_)
        | AnyAnswer::StabCounted(_)
        | AnyAnswer::CrossCounted(_) => false,
    }
}

/// A kept coordinate, as it is written.
pub fn place(version: Version, kept: u32) -> Number
    ensures { spaced_number result ≡ spaced_coordinate (version_of version) kept }
{
    Number::Signed(version.coordinate(kept))
}

/// The numbers of a shape.
pub fn shape_numbers(version: Version, shape: Shape) -> [Number; 3]
    ensures { flat_map spaced_number result ≡ shape_numbers (version_of version) (model_shape shape) }
{
    match shape {
        Shape::Point { x, y, w } => {
            let w = Number::Plain(u64::from(w));
            [place(version, x), place(version, y), w]
        }
        Shape::Segment { lo, hi, y } => {
            [place(version, lo), place(version, hi), place(version, y)]
        }
    }
}

/// A space and a number.
pub fn spaced(n: Number) -> Text
    ensures { result.items ≡ spaced_number n }
{
    let mut text = Text::new();
    let mut digits = Buffer::new();
    append(&mut text, b" ");
    match n {
        Number::Plain(n) => append(&mut text, digits.format(n).as_bytes()),
        Number::Wide(n) => append(&mut text, digits.format(n).as_bytes()),
        Number::Signed(n) => append(&mut text, digits.format(n).as_bytes()),
    }
    text
}

/// A label of at most 8 bytes, and ` A/B`.
pub fn out_of(label: &[u8], a: u64, b: u64) -> Text
    requires { length label.now ≤ 8 }
    ensures { result.items ≡ label.now ++ out_of a b }
{
    let mut text = Text::new();
    append(&mut text, label);
    append_number(&mut text, b" ", a);
    append_number(&mut text, b"/", b);
    text
}

/// A label of at most 16 bytes, and a number.
pub fn labelled(label: &[u8], n: u64) -> Text
    requires { length label.now ≤ 16 }
    ensures { result.items ≡ label.now ++ decimal n }
{
    let mut text = Text::new();
    append_number(&mut text, label, n);
    text
}

/// Appends a label of at most 16 bytes, and a number.
fn append_number(text: &mut Text, label: &[u8], n: u64)
    requires small { length label.now ≤ 16 }
    requires room { length text.old.items + length label.now + 20 ≤ 64 }
    ensures text { text.new.items ≡ text.old.items ++ (label.now ++ decimal n) }
    ensures room { length text.new.items ≤ length text.old.items + length label.now + 20 }
{
    let mut digits = Buffer::new();
    append(text, label);
    append(text, digits.format(n).as_bytes());
}
