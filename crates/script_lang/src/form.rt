// The forms of a line: one table.
ghost use Rattle.std.specs.Prelude.{◌≡◌, IfSome, option_map, map};
ghost use Rattle.std.specs.List.{find};
ghost use Rattle.map_model.specs.Form as model;
ghost use Rattle.script_lang.specs.Form.{verb_of, limits_of_field, IsRow, verb_of_row, has_word, AreRows};

use crate::Limits;

/// What number stands in a word.
#[derive(Clone, Copy)]
pub enum Field {
    /// An identifier.
    Id,
    /// A coordinate.
    Coordinate,
    /// A weight.
    Weight,
    /// How many are asked for.
    Amount,
    /// A version of the script.
    VersionNumber,
}

impl Field {
    /// The numbers that it takes, where they have no `-`.
    pub fn limits(self) -> Limits
        ensures { result ≡ limits_of_field self }
    {
        let (least, greatest) = match self {
            Field::Id => (0, u64::MAX),
            Field::Coordinate | Field::Weight => (0, 2_147_483_647),
            Field::Amount => (1, 64),
            Field::VersionNumber => (1, 2),
        };
        Limits { least, greatest }
    }
}

/// Which coordinates of a line are in order.
#[derive(Clone, Copy)]
pub enum Order {
    /// None.
    Free,
    /// The first is at most the second.
    Ends,
    /// The second is at most the third.
    Heights,
    /// The first is at most the third, and the second at most the fourth.
    Corners,
}

/// What follows the numbers of a line.
#[derive(Clone, Copy)]
pub enum Tail {
    /// Nothing.
    Bare,
    /// A kind and one or more indexes.
    Indexes,
    /// One index.
    OneIndex,
}

/// What a command word stands for.
#[derive(Clone, Copy)]
pub enum Verb {
    Livemap,
    Layer,
    Index,
    Add,
    Seg,
    Move,
    Drop,
    Ask(Question),
    Get,
    Size,
    Recent,
}

/// What is asked of an index.
#[derive(Clone, Copy)]
pub enum Question {
    Count,
    Sum,
    List,
    Near,
    Nearest,
    Above,
    Top,
    Stab,
    StabCount,
    Cross,
    CrossCount,
}

/// A row of the table: a command word, whether a name is behind it, the numbers behind these, what follows them, and which coordinates
/// are in order.
#[derive(Clone, Copy)]
pub struct Form {
    pub word: &'static [u8],
    pub verb: Verb,
    pub has_name: bool,
    pub fields: &'static [Field],
    pub tail: Tail,
    pub order: Order,
}

/// A row of a name and numbers.
macro_rules! row {
    ($word:expr, $verb:expr, [$($field:ident),*], $order:ident) => {
        Form {
            word: $word,
            verb: $verb,
            has_name: true,
            fields: &[$(Field::$field),*],
            tail: Tail::Bare,
            order: Order::$order,
        }
    };
}

static FORMS: [Form; 21] = [
    Form {
        word: b"livemap",
        verb: Verb::Livemap,
        has_name: false,
        fields: &[Field::VersionNumber],
        tail: Tail::Bare,
        order: Order::Free,
    },
    Form {
        word: b"layer",
        verb: Verb::Layer,
        has_name: true,
        fields: &[],
        tail: Tail::Indexes,
        order: Order::Free,
    },
    Form {
        word: b"index",
        verb: Verb::Index,
        has_name: true,
        fields: &[],
        tail: Tail::OneIndex,
        order: Order::Free,
    },
    row!(
        b"add",
        Verb::Add,
        [Id, Coordinate, Coordinate, Weight],
        Free
    ),
    row!(
        b"seg",
        Verb::Seg,
        [Id, Coordinate, Coordinate, Coordinate],
        Ends
    ),
    row!(
        b"move",
        Verb::Move,
        [Id, Coordinate, Coordinate, Weight],
        Free
    ),
    row!(b"drop", Verb::Drop, [Id], Free),
    row!(
        b"count",
        Verb::Ask(Question::Count),
        [Coordinate, Coordinate, Coordinate, Coordinate],
        Corners
    ),
    row!(
        b"sum",
        Verb::Ask(Question::Sum),
        [Coordinate, Coordinate, Coordinate, Coordinate],
        Corners
    ),
    row!(
        b"list",
        Verb::Ask(Question::List),
        [Coordinate, Coordinate, Coordinate, Coordinate],
        Corners
    ),
    row!(
        b"near",
        Verb::Ask(Question::Near),
        [Coordinate, Coordinate],
        Free
    ),
    row!(
        b"nearest",
        Verb::Ask(Question::Nearest),
        [Amount, Coordinate, Coordinate],
        Free
    ),
    row!(
        b"above",
        Verb::Ask(Question::Above),
        [Coordinate, Coordinate, Coordinate],
        Ends
    ),
    row!(
        b"top",
        Verb::Ask(Question::Top),
        [Coordinate, Coordinate],
        Ends
    ),
    row!(b"stab", Verb::Ask(Question::Stab), [Coordinate], Free),
    row!(
        b"stabcount",
        Verb::Ask(Question::StabCount),
        [Coordinate],
        Free
    ),
    row!(
        b"cross",
        Verb::Ask(Question::Cross),
        [Coordinate, Coordinate, Coordinate],
        Heights
    ),
    row!(
        b"crosscount",
        Verb::Ask(Question::CrossCount),
        [Coordinate, Coordinate, Coordinate],
        Heights
    ),
    row!(b"get", Verb::Get, [Id], Free),
    row!(b"size", Verb::Size, [], Free),
    row!(b"recent", Verb::Recent, [Amount], Free),
];

/// The form of a command word.
pub fn find_form(word: &[u8]) -> Option<&'static Form>
    ensures verb { option_map (λ f. verb_of f.now.verb) result ≡ model.verb_of word.now }
    ensures row { IfSome result (λ f. IsRow f.now) }
{
    find_row(rows(), word)
}

#[tactic(auto, unfolding(map_model::specs::Form::form, map_model::specs::Form::verbs))]
fn rows() -> &'static [Form]
    ensures rows { AreRows result.now }
    ensures verbs { map verb_of_row result.now ≡ model.verbs }
{
    &FORMS
}

fn find_row<'a>(rows: &'a [Form], word: &[u8]) -> Option<&'a Form>
    ensures { option_map (λ f. f.now) result ≡ find (has_word word.now) rows.now }
{
    rows.iter().find(|row| row.word == word)
}
