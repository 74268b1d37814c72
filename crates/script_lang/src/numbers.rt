// The numbers of a line.
ghost use Rattle.std.specs.Prelude.{◌≡◌, ℕ, ◌+◌, ◌*◌, ◌≤◌, ◌<◌, ◌∷◌, [], Some, None, IfOk, drop, nat_eq, count_by, option_map, if◌then◌else◌};
ghost use Rattle.std.specs.List.{starts_with};
ghost use Rattle.map_model.specs.Words.{words};
ghost use Rattle.map_shapes.specs.Version.{version_of};
ghost use Rattle.script_lang.specs.Form.{is_place};
ghost use Rattle.script_lang.specs.Numbers.{Takes, HasRoom, version_in, with_number, number_in, digits_below, coordinate_in, field_in, with_word, with_words, no_numbers, digits_in, in_64_bits};

use crate::LineFault;
use crate::coordinates::Coordinates;
use crate::form::Field;
use crate::words::split_word;
use map_shapes::Version;

/// The numbers that a field takes.
#[derive(Clone, Copy, Debug)]
pub struct Limits {
    pub least: u64,
    pub greatest: u64,
}

/// Every number of 64 bits.
const ANY: Limits = Limits {
    least: 0,
    greatest: u64::MAX,
};

/// The numbers of a line, by their fields.
#[derive(Drop)]
pub struct Numbers {
    pub version: Version,
    pub id: u64,
    pub places: Coordinates,
    pub amount: u32,
    /// Whether each word has one or more digits, and nothing else but a `-` where one may stand.
    pub are_digits: bool,
    /// Whether each word of digits is a number within its limits.
    pub are_in_range: bool,
}

impl Numbers {
    fn new() -> Numbers
        ensures { result ≡ no_numbers }
    {
        Numbers {
            version: Version::One,
            id: 0,
            places: Coordinates::new(),
            amount: 0,
            are_digits: true,
            are_in_range: true,
        }
    }

    /// Puts the number that a word writes into its field, or notes why there is none.
    fn read(&mut self, version: Version, field: Field, word: &[u8])
        requires { HasRoom field self.old.places }
        ensures { self.new ≡ with_word (version_of version) self.old field word.now }
    {
        match read_field(version, field, word) {
            Ok(number) => self.put(field, number),
            Err(LineFault::Number) => self.are_digits = false,
            Err(_) => self.are_in_range = false,
        }
    }

    /// Puts a number into the field that takes it.
    fn put(&mut self, field: Field, number: u64)
        requires taken { Takes field number }
        requires room { HasRoom field self.old.places }
        ensures { self.new ≡ with_number field number self.old }
    {
        match field {
            Field::Id => self.id = number,
            Field::Coordinate | Field::Weight => self.places.push(number as u32),
            Field::Amount => self.amount = number as u32,
            Field::VersionNumber => self.version = version_in(number),
        }
    }
}

/// The version of a number.
fn version_in(number: u64) -> Version
    ensures { result ≡ version_in number }
{
    if number == 2 {
        Version::Two
    } else {
        Version::One
    }
}

/// The numbers of the first words of a text, one a field, and what stands behind them: `None` where
/// there are too few words.
pub fn read_numbers<'a>(
    version: Version,
    fields: &[Field],
    text: &'a [u8],
) -> Option<(Numbers, &'a [u8])>
    requires { count_by is_place fields.now ≤ 4 }
    ensures { option_map (λ found. (found.0, words found.1.now)) result ≡ with_words (version_of version) fields.now (words text.now) no_numbers }
{
    let mut numbers = Numbers::new();
    let mut rest = text;
    for field in fields {
        let (word, behind) = split_word(rest)?;
        numbers.read(version, *field, word);
        rest = behind;
    }
    Some((numbers, rest))
}

/// What the number that a word writes in a field is kept as.
fn read_field(version: Version, field: Field, word: &[u8]) -> Result<u64, LineFault>
    ensures value { result ≡ field_in (version_of version) field word.now }
    ensures within { IfOk result (Takes field) }
{
    match field {
        Field::Coordinate => Ok(u64::from(read_coordinate(version, word)?)),
        Field::Id | Field::Weight | Field::Amount | Field::VersionNumber => {
            parse_number(word, field.limits())
        }
    }
}

/// What the coordinate that a word writes is kept as: in version 2 a `-` may stand before its digits.
fn read_coordinate(version: Version, word: &[u8]) -> Result<u32, LineFault>
    ensures { result ≡ coordinate_in (version_of version) word.now }
{
    match digits_below(version, word) {
        Some(digits) => version
            .keep_below(parse_number(digits, ANY)?)
            .ok_or(LineFault::Range),
        None => version
            .keep_above(parse_number(word, ANY)?)
            .ok_or(LineFault::Range),
    }
}

/// The digits of a coordinate below zero, where the version has one.
fn digits_below(version: Version, word: &[u8]) -> Option<&[u8]>
    ensures { option_map (λ digits. digits.now) result ≡ digits_below (version_of version) word.now }
{
    match version {
        Version::One => None,
        Version::Two => behind_minus(word),
    }
}

/// What stands behind a `-`.
fn behind_minus(word: &[u8]) -> Option<&[u8]>
    ensures { option_map (λ digits. digits.now) result ≡ (if starts_with nat_eq word.now (45 ∷ []) then Some (drop 1 word.now) else None) }
{
    if word.starts_with(b"-") {
        Some(&word[1..])
    } else {
        None
    }
}

/// The number that a word writes: one or more digits, with leading zeros or without, within the limits.
///
/// `Number` where it has anything but digits, or nothing. `Range` where the number is below the least one, or past the
/// greatest, however long it is.
pub fn parse_number(word: &[u8], limits: Limits) -> Result<u64, LineFault>
    ensures value { result ≡ number_in limits.least limits.greatest word.now }
    ensures within { IfOk result (λ n. (limits.least ≤ n) × (n ≤ limits.greatest)) }
{
    match read_digits(word)? {
        Some(value) if limits.least <= value && value <= limits.greatest => Ok(value),
        Some(_) => Err(LineFault::Range),
        None => Err(LineFault::Range),
    }
}

/// The number that the digits of a word write, in one pass: `None` where it takes more than 64 bits, and `Number` where the
/// word has anything else, or nothing.
fn read_digits(word: &[u8]) -> Result<Option<u64>, LineFault>
    ensures { result ≡ digits_in word.now }
{
    if word.is_empty() {
        return Err(LineFault::Number);
    }
    let mut value = Some(0);
    for &byte in word {
        if !byte.is_ascii_digit() {
            return Err(LineFault::Number);
        }
        value = with_digit(value, byte - b'0');
    }
    Ok(value)
}

/// A number with one more digit at its end: `None` where it takes more than 64 bits.
fn with_digit(value: Option<u64>, digit: u8) -> Option<u64>
    requires { digit < 10 }
    ensures { (n : ℕ) → value ≡ in_64_bits n → result ≡ in_64_bits (n * 10 + digit) }
{
    value?.checked_mul(10)?.checked_add(u64::from(digit))
}
