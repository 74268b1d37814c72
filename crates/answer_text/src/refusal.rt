// Why a line is refused.

/// Why a line is refused. Of several causes the first in this order is told.
#[derive(Clone, Copy, Debug, PartialEq, Eq)]
pub enum Refusal {
    /// More than 256 bytes, or a byte that is neither printable nor a tab.
    Line,
    /// No command word.
    Command,
    /// Another number of words than the form has.
    Fields,
    /// Not a name.
    Name,
    /// Not one or more digits, behind a `-` where a coordinate of version 2 stands.
    Number,
    /// A number past its limits.
    Range,
    /// A lower end past its upper end.
    Order,
    /// No layer of this name.
    NoLayer,
    /// No kind, or a layer of the other kind.
    Kind,
    /// No index of the kind, or one that the layer lacks.
    Index,
    /// The index waits for so many items.
    Building { items: u64 },
    /// A layer of this name stands, or the layer has the index.
    Taken,
    /// No further layer has room.
    NoRoom,
    /// The identifier is live.
    Duplicate { id: u64 },
    /// The identifier isn't live.
    Unknown { id: u64 },
    /// No further item has room in the layer.
    Full,
    /// A layer stands, so that the version stays.
    Version,
    /// Memory wasn't given.
    NoMemory,
}
