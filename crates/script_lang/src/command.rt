// What a line asks for.
use map_questions::AnyQuestion;
use map_shapes::{IndexSet, Kind, Name, PointIndex, Version};

/// What a line asks for. Coordinates are as the version of the line keeps them ([`Version`]), and weights are at most 2,147,483,647;
/// no lower end is past its upper end; `k` is from 1 to 64; and the indexes of a layer fit its kind.
#[derive(Clone, Copy, Debug)]
pub enum Command {
    /// `livemap VERSION`
    Livemap {
        version: Version,
    },
    /// `layer NAME KIND INDEX` with one or more indexes
    Layer {
        name: Name,
        kind: Kind,
        indexes: IndexSet,
    },
    /// `index NAME INDEX`
    Index {
        name: Name,
        index: PointIndex,
    },
    /// `add NAME ID X Y W`
    Add {
        name: Name,
        id: u64,
        x: u32,
        y: u32,
        w: u32,
    },
    /// `seg NAME ID LO HI Y`
    Seg {
        name: Name,
        id: u64,
        lo: u32,
        hi: u32,
        y: u32,
    },
    /// `move NAME ID X Y W`
    Move {
        name: Name,
        id: u64,
        x: u32,
        y: u32,
        w: u32,
    },
    /// `drop NAME ID`
    Drop {
        name: Name,
        id: u64,
    },
    /// `count`, `sum` or `list NAME X1 Y1 X2 Y2`, `near NAME X Y`, `nearest NAME K X Y`, `above NAME X1 X2 Y`,
    /// `top NAME X1 X2`, `stab` or `stabcount NAME X`, `cross` or `crosscount NAME X Y1 Y2`
    Ask {
        name: Name,
        question: AnyQuestion,
    },
    /// `get NAME ID`
    Get {
        name: Name,
        id: u64,
    },
    /// `size NAME`
    Size {
        name: Name,
    },
    /// `recent NAME K`
    Recent {
        name: Name,
        k: u32,
    },
}
