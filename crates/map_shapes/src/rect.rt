// A closed rectangle.
ghost use Rattle.std.specs.Prelude.{◌≤◌};

/// A rectangle with its border. No lower end is past its upper end.
#[derive(Clone, Copy, Debug)]
pub struct Rect {
    pub x1: u32,
    pub y1: u32,
    pub x2: u32,
    pub y2: u32,
    pub ghost x_ordered: { x1 ≤ x2 },
    pub ghost y_ordered: { y1 ≤ y2 },
}
