//! Every answer of an index.
use map_shapes::{Found, FoundList, IdList, Peak};

/// The answer to a question about the items of a layer.
#[derive(Drop)]
pub enum AnyAnswer {
    /// How many points are in a rectangle.
    Counted(u64),
    /// Their weights together.
    Summed(u64),
    /// Their identifiers, ascending.
    Listed(IdList),
    /// The point nearest to a place.
    NearestOne(Option<Found>),
    /// The nearest points, the nearest first.
    NearestOnes(FoundList),
    /// The identifiers of the points that are high enough, ascending.
    ListedAbove(IdList),
    /// The highest point.
    Highest(Option<Peak>),
    /// The identifiers of the segments over a place, ascending.
    Stabbed(IdList),
    /// How many segments are over a place.
    StabCounted(u64),
    /// The identifiers of the segments that a vertical one meets, ascending.
    Crossed(IdList),
    /// How many segments it meets.
    CrossCounted(u64),
}
