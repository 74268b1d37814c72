//! Where the next place goes.
ghost use Rattle.std.specs.Prelude.{◌≡◌, ◌+◌, ◌-◌, ◌*◌, ◌^◌, ◌<◌, ◌≤◌, if◌then◌else◌, ℕ};
ghost use Rattle.row_blocks.specs.Blocks.{start_of};
ghost use Rattle.rank_rows.specs.Cursors.{target_of, next_of};

use crate::word::WIDTH;
use row_blocks::{block_len, block_start};

/// The row and the place in it that come next; and of the places that the block has before it, how many go into the second half and
/// what they weigh.
#[derive(Clone, Copy)]
pub(crate) struct Cursor {
    pub(crate) row: u32,
    pub(crate) at: usize,
    pub(crate) ones: usize,
    pub(crate) weight: u64,
}

impl Cursor {
    /// The first place of the first row.
    #[inline]
    pub(crate) fn first() -> Cursor
        ensures { result ≡ record { row = 0; at = 0; ones = 0; weight = 0 } }
    {
        Cursor {
            row: 0,
            at: 0,
            ones: 0,
            weight: 0,
        }
    }

    /// Where the place stands in the next row.
    #[inline]
    pub(crate) fn target(self, second: bool, height: u32) -> usize
        requires low { height ≤ 32 }
        requires high { 0 < height }
        requires few { self.ones ≤ self.at }
        requires small { self.at ≤ 2 ^ 40 }
        ensures { result ≡ target_of height second self }
    {
        if second {
            block_start(self.at, height) + block_len(height - 1) + self.ones
        } else {
            self.at - self.ones
        }
    }

    /// The next place, in rows of so many words.
    #[inline]
    pub(crate) fn next(self, second: bool, weight: u32, height: u32, stride: usize) -> Cursor
        requires low { height ≤ 32 }
        requires rows { self.row ≤ 32 }
        requires few { self.ones ≤ self.at }
        requires small { self.at < 2 ^ 40 }
        requires light { self.weight + weight < 2 ^ 64 }
        requires stride { stride ≤ 2 ^ 26 }
        ensures { result ≡ next_of second weight height stride self }
    {
        let at = self.at + 1;
        if at == stride * WIDTH {
            return Cursor {
                row: self.row + 1,
                ..Cursor::first()
            };
        }
        if block_start(at, height) == at {
            return Cursor {
                row: self.row,
                at,
                ..Cursor::first()
            };
        }
        Cursor {
            row: self.row,
            at,
            ones: self.ones + second as usize,
            weight: self.weight + weight as u64,
        }
    }
}
