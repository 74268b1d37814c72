// The indexes of a layer.
ghost use Rattle.std.specs.Prelude.{◌≡◌};
ghost use Rattle.map_model.specs.Index.{fits, no_indexes};
ghost use Rattle.map_shapes.specs.Kind.{kind_of};
ghost use Rattle.map_shapes.specs.IndexSet.{index_set_of};

use crate::Kind;

/// The indexes of a layer, by the questions that they answer.
#[derive(Clone, Copy, Debug, PartialEq, Eq)]
pub struct IndexSet {
    /// Counts, sums and lists of the points in a rectangle.
    pub range: bool,
    /// The points nearest to a place.
    pub near: bool,
    /// The highest points of a span, and those above a height.
    pub top: bool,
    /// The segments over a place.
    pub stab: bool,
    /// The segments that a vertical one meets.
    pub cross: bool,
    /// Parts are joined at once, level after level, in place of a bounded piece with each update.
    pub batch: bool,
}

impl IndexSet {
    /// No index.
    pub fn new() -> IndexSet
        ensures { index_set_of result ≡ no_indexes }
    {
        IndexSet {
            range: false,
            near: false,
            top: false,
            stab: false,
            cross: false,
            batch: false,
        }
    }

    /// Whether a layer of this kind can have them: points have some of `range`, `near` and `top`, segments `stab`. None can have `cross` or `batch`
    /// yet.
    pub fn fits(&self, kind: Kind) -> bool
        ensures { result ≡ fits (kind_of kind) (index_set_of self.now) }
    {
        let of_points = self.range || self.near || self.top;
        match kind {
            Kind::Points => of_points && !(self.stab || self.cross || self.batch),
            Kind::Segments => !(of_points || self.cross || self.batch) && self.stab,
        }
    }
}
