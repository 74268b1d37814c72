//! Places that are live until they are cleared.

/// A place with its amount, which is a weight in `LiveCounts` and a value in `LiveMax`.
#[derive(Clone, Copy, Debug, PartialEq, Eq)]
pub struct Place {
    pub amount: u32,
    pub live: bool,
}
