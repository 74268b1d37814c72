//! The indexes of a layer of points, or of segments.
mod points;
mod segments;

pub use points::PointIndexes;
pub use segments::SegmentIndexes;
