// The highest point of a span.
ghost use Rattle.std.specs.Prelude.{◌≡◌, not};
ghost use Rattle.map_shapes.specs.Found.{higher_le};

/// A point by its y and its identifier.
#[derive(Clone, Copy, Debug, PartialEq, Eq)]
pub struct Peak {
    pub y: u32,
    pub id: u64,
}

impl Peak {
    /// Whether it is higher than the other one, or as high and its identifier is less.
    pub fn before(&self, other: &Peak) -> bool
        ensures { result ≡ not (higher_le other.now self.now) }
    {
        other.y < self.y || (other.y == self.y && self.id < other.id)
    }
}
