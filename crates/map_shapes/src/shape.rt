// A shape without its identifier.

/// A point with a weight, or a segment.
#[derive(Clone, Copy, Debug, PartialEq, Eq)]
pub enum Shape {
    Point { x: u32, y: u32, w: u32 },
    Segment { lo: u32, hi: u32, y: u32 },
}
