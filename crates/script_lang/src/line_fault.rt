// What is wrong with a line.

/// What is wrong with a line. Of several things the first in this order is told.
#[derive(Clone, Copy, Debug, PartialEq, Eq)]
pub enum LineFault {
    /// More than 256 bytes, or a byte that is neither printable nor a tab.
    Line,
    /// No command word.
    Command,
    /// Another number of words than the form has.
    Fields,
    /// Not a name.
    Name,
    /// Not one or more digits.
    Number,
    /// A number past its limits.
    Range,
    /// A lower end past its upper end.
    Order,
    /// Neither `points` nor `segments`.
    Kind,
    /// Not an index that the kind takes, or one that stands twice.
    Index,
}
