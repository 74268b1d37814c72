//! The indexes of a map: a range tree, a k-d tree and a priority search tree over points, and an interval tree over segments.
//!
//! A layer has those that were named when it was made. Each question is put to one of them.
#![tactic(auto)]

mod asking;
mod indexes;

pub use indexes::{PointIndexes, SegmentIndexes};
use map_layers::Layers;

/// The layers of a map, over all structures.
pub type MapLayers = Layers<PointIndexes, SegmentIndexes>;
