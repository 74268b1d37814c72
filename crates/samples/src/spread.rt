//! Where seeded items lie, and where they are asked for.
ghost use Rattle.std.specs.Prelude.{◌≤◌, ◌<◌, ◌^◌};

use map_shapes::Rect;
use workload_gen::Generator;

/// Coordinates are below this, as in made scripts.
pub const SIDE: u32 = 1_048_576;

/// Coordinates are below this where many are equal.
const FEW: u32 = 16;

/// Segments are at most so long, and sixteen times as long where they begin in the last sixteenth of the side.
const LENGTH: u32 = 2_000;

/// The last sixteenth of the side begins here.
const LAST: u32 = SIDE / 16 * 15;

/// Where seeded items lie.
#[derive(Clone, Copy, Debug, PartialEq, Eq)]
pub enum Spread {
    /// In a square so small that many have equal coordinates.
    Dense,
    /// Anywhere in a square.
    Square,
    /// In one column: all points have one x, all segments one lower end.
    Column,
    /// In one row: all have one y.
    Row,
    /// Every other one, on average, in a square with one hundredth of the area.
    Cluster,
    /// On the diagonal of a square.
    Diagonal,
    /// Anywhere in a square; but one hundredth of the segments spans it, on average.
    Spanning,
}

impl Spread {
    /// A place where an item may lie: two draws, and one before them that tells whether it is in the cluster.
    pub fn place(self, generator: &mut Generator) -> (u32, u32)
        ensures x { result.0 < 2 ^ 20 }
        ensures y { result.1 < 2 ^ 20 }
    {
        let (width, height) = match self {
            Spread::Dense => (FEW, FEW),
            Spread::Column => (1, SIDE),
            Spread::Row => (SIDE, 1),
            Spread::Cluster if generator.below(2) == 0 => (SIDE / 10, SIDE / 10),
            _ => (SIDE, SIDE),
        };
        let x = generator.below(width);
        let y = generator.below(height);
        match self {
            Spread::Diagonal => (x, x),
            _ => (x, y),
        }
    }

    /// A square whose lower corner is a place where an item may lie, with so many thousandths of the side. Where items lie densely its
    /// extent is drawn; but the first square has all of them, the second none, and the third is one wide.
    pub fn square(self, generator: &mut Generator, thousandths: u32, number: usize) -> Rect {
        let (x, y) = self.place(generator);
        let (x1, y1, extent) = match (self, number) {
            (Spread::Dense, 0) => (0, 0, FEW),
            (Spread::Dense, 1) => (FEW, FEW, y),
            (Spread::Dense, 2) => (x, y, 0),
            (Spread::Dense, _) => (x, y, generator.below(FEW)),
            _ => (x, y, (SIDE / 1_000).saturating_mul(thousandths).min(SIDE)),
        };
        let (x2, y2) = (x1 + extent, y1 + extent);
        Rect { x1, y1, x2, y2 }
    }

    /// A length that a segment which begins at `x` may have.
    pub fn length(self, generator: &mut Generator, x: u32) -> u32
        ensures { result < 2 ^ 20 }
    {
        generator.below(match self {
            Spread::Dense => FEW,
            _ if x < LAST => LENGTH,
            _ => 16 * LENGTH,
        })
    }

    /// A height that some `hits` points reach in a strip of 6 % of the side which ends at `x2`, of 65,536. In a row all reach it.
    pub fn height(self, x2: u32, hits: u32) -> u32
        ensures { result < 2 ^ 31 }
    {
        let (top, each) = match self {
            Spread::Dense => (FEW, 1),
            Spread::Column => (SIDE, 16),
            Spread::Row => (0, 0),
            Spread::Diagonal => (x2.min(SIDE), 16),
            _ => (SIDE, 267),
        };
        top.saturating_sub(each * hits.min(SIDE))
    }

    /// A place under some `hits` segments of 65,536, which are few or 1,000, beside those that span the square. Where items lie densely
    /// these are the places from 0 to 16, one after the other.
    pub fn stabbed(self, generator: &mut Generator, hits: u32, number: usize) -> u32
        ensures { result < 2 ^ 31 }
    {
        match self {
            Spread::Dense => (number % 17) as u32,
            Spread::Column => (LENGTH - 1).saturating_sub(hits / 33),
            _ if hits < 1_000 => generator.below(LAST),
            _ => SIDE - 1 - generator.below(SIDE - LAST - 16 * LENGTH),
        }
    }
}
