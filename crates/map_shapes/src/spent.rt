// What an update cost.

/// The turns and the marks that an update took, each with the most that it may take.
#[derive(Clone, Copy, Debug, PartialEq, Eq)]
pub struct Spent {
    pub turns: u64,
    pub turn_bound: u64,
    pub marks: u64,
    pub mark_bound: u64,
}

/// The turns and the marks that an update took in a layer that joins its parts at once: of turns there is a bound for the sum over all its updates.
#[derive(Clone, Copy, Debug, PartialEq, Eq)]
pub struct SpentAtOnce {
    pub turns: u64,
    /// The turns of all accepted updates so far.
    pub total: u64,
    pub turn_bound: u64,
    pub marks: u64,
    pub mark_bound: u64,
}

/// What an update cost, by how its layer builds its parts.
#[derive(Clone, Copy, Debug, PartialEq, Eq)]
pub enum UpdateCost {
    /// A bounded piece with each update.
    Spread(Spent),
    /// At once.
    AtOnce(SpentAtOnce),
}
