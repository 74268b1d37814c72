// An index of points.

/// An index of points: one that a layer in use may be given.
#[derive(Clone, Copy, Debug, PartialEq, Eq)]
pub enum PointIndex {
    Range,
    Near,
    Top,
}
