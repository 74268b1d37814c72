//! The ledger of steps: what work is counted, and the only calls that count it.
//!
//! Four things are counted. A turn is one unit of building work. A mark is one attempt to mark an item of a part as dead.
//! A touch is one read or write of one entry of a [`Row`]. A part is consulted where a question is put to it.
//!
//! Time, bytes, the copying and freeing of vectors, the work of std's maps, and reads of anything but a `Row` are not. What a
//! turn or a mark stands for is the word of the code that counts it.
//!
//! Only the calls here raise a count of a [`Steps`]. Anyone may make another one, whose counts tell nothing of the first. A lap
//! hides nothing: how often one was begun is counted, and the most turns, marks and consulted parts of one are kept. So whoever holds the `Steps`
//! of many updates sees the dearest of them, without a look between two.
//!
//! A count is kept as the amount before the lap and that in it. A lap that ends is compared with the most as the next begins, so a turn
//! or a mark costs nothing more. No call lowers a count, a [`Steps`] is no copy of another, and one that is made anew has another
//! ledger: so no edit takes a count back.
ghost use Rattle.std.specs.Prelude.{◌≡◌, ℕ};
ghost use Rattle.query_laws.specs.StepLedger.{nothing_counted, lap_begun, one_turn, one_mark, one_touch, one_consulted, lap_of, most_lap_turns, most_lap_marks, most_lap_consulted};

mod meter;
mod rows;

use meter::Meter;
pub use rows::Row;
use std::alloc::{AllocError, AllocFailed};
use std::marker::Model;
use std::sync::ledger::{Blank, Book, Ledger};
use thiserror::Error;

/// Memory was wanted and not given. `?` makes it of each error that std's collections give for that.
#[derive(Clone, Copy, Debug, Error, PartialEq, Eq)]
#[error("no memory")]
pub struct NoMemory;

impl From<AllocError> for NoMemory {
    fn from(_refused: AllocError) -> NoMemory {
        NoMemory
    }
}

impl<T: Drop> From<AllocFailed<T>> for NoMemory {
    fn from(_refused: AllocFailed<T>) -> NoMemory {
        NoMemory
    }
}

/// Into how many shares the ledger of one [`Steps`] is cut: three for each of the four counts.
pub const SHARES: u64 = 12;

/// A blank ledger for one [`Steps`]. It takes no bytes.
///
/// `Steps` has its ledger as a parameter, which stands for a name that only proofs see. So the function that makes a
/// `Steps` is generic in the ledger and is handed a blank:
///
/// ```text
/// fn largest_counted<L: Ledger>(row: &Row<u32>, blank: Blank) -> u32
///     requires name { blank.name ≡ L.name }
///     requires parts { blank.parts ≡ L.parts }
///     requires shares { blank.parts ≡ SHARES }
/// {
///     let mut steps = Steps::<L>::new(blank);
///     // calls that count, and readings of the laps
/// }
/// ```
///
/// A caller that counts nothing passes `Brand` of `std::marker` for the ledger and a blank of its own, as
/// `largest_counted::<Brand>(&row, blank())`. In its `Invariants.antt` it picks the name of that blank:
/// `ghosts-largest_counted a = record { name = a.blank.name; parts = a.blank.parts }`, with `g` before `a` where the caller
/// has bounds, and in a test.
pub fn blank() -> Blank
    ensures { result.parts ≡ SHARES }
{
    Blank::new(SHARES)
}

/// What was counted so far, and in the lap, with how often a lap was begun and the most turns, marks and consulted parts of one of them.
///
/// Contracts see the four counts as whole numbers without limit, and what they were as the lap began. At run time there
/// are only u64, which stay at their greatest value: the lap of each count, and four that change only as a lap begins.
#[derive(Drop)]
pub struct Steps<L: Ledger> {
    book: Book<L>,
    turns: Meter<L>,
    marks: Meter<L>,
    touches: Meter<L>,
    consulted: Meter<L>,
    laps: u64,
    most_turns: u64,
    most_marks: u64,
    most_consulted: u64,
}

impl<L: Ledger> Model for Steps<L> {
    ghost use Rattle.std.specs.Prelude.{◌+◌};
    ghost use Rattle.query_laws.specs.StepLedger.{Counts};

    ghost Value = { Counts };

    ghost view = { λ s. record {
      turns = s.turns.0 + s.turns.1;
      marks = s.marks.0 + s.marks.1;
      touches = s.touches.0 + s.touches.1;
      consulted = s.consulted.0 + s.consulted.1;
      lap_start = record {
        turns = s.turns.0;
        marks = s.marks.0;
        touches = s.touches.0;
        consulted = s.consulted.0;
        laps = s.laps;
        most_turns = s.most_turns;
        most_marks = s.most_marks;
        most_consulted = s.most_consulted;
      };
    } };
}

impl<L: Ledger> Steps<L> {
    /// Steps at zero, in a lap that begins there. [`blank`] makes what it takes.
    pub fn new(blank: Blank) -> Steps<L>
        requires name { blank.name ≡ L.name }
        requires parts { blank.parts ≡ L.parts }
        requires shares { blank.parts ≡ SHARES }
        ensures { result ≡ nothing_counted }
    {
        let (book, mut all) = blank.open::<L>();
        let turns = Meter::new(&mut all);
        let marks = Meter::new(&mut all);
        let touches = Meter::new(&mut all);
        let consulted = Meter::new(&mut all);
        Steps {
            book,
            turns,
            marks,
            touches,
            consulted,
            laps: 0,
            most_turns: 0,
            most_marks: 0,
            most_consulted: 0,
        }
    }

    /// Counts one turn.
    #[inline]
    pub fn turn(&mut self)
        ensures { self.new ≡ one_turn self.old }
    {
        self.turns.count_one(&mut self.book);
    }

    /// Counts one mark.
    #[inline]
    pub fn mark(&mut self)
        ensures { self.new ≡ one_mark self.old }
    {
        self.marks.count_one(&mut self.book);
    }

    /// Counts one touch. The calls of [`Row`] do it themselves.
    #[inline]
    pub fn touch(&mut self)
        ensures { self.new ≡ one_touch self.old }
    {
        self.touches.count_one(&mut self.book);
    }

    /// Counts one part that a question is put to.
    #[inline]
    pub fn consult(&mut self)
        ensures { self.new ≡ one_consulted self.old }
    {
        self.consulted.count_one(&mut self.book);
    }

    /// Begins a lap: the four laps are zero, and the counts stay.
    #[inline]
    pub fn start_lap(&mut self)
        ensures { self.new ≡ lap_begun self.old }
    {
        self.laps = self.laps.saturating_add(1);
        self.most_turns = self.most_lap_turns();
        self.most_marks = self.most_lap_marks();
        self.most_consulted = self.most_lap_consulted();
        self.turns.start_lap();
        self.marks.start_lap();
        self.touches.start_lap();
        self.consulted.start_lap();
    }

    /// The turns since the lap began, or 2^64 - 1 where there were more.
    #[inline]
    pub fn lap_turns(&self) -> u64
        ensures { result ≡ lap_of self.now.lap_start.turns self.now.turns }
    {
        self.turns.lap()
    }

    /// The marks since the lap began, or 2^64 - 1 where there were more.
    #[inline]
    pub fn lap_marks(&self) -> u64
        ensures { result ≡ lap_of self.now.lap_start.marks self.now.marks }
    {
        self.marks.lap()
    }

    /// The touches since the lap began, or 2^64 - 1 where there were more.
    #[inline]
    pub fn lap_touches(&self) -> u64
        ensures { result ≡ lap_of self.now.lap_start.touches self.now.touches }
    {
        self.touches.lap()
    }

    /// The parts that were consulted since the lap began, or 2^64 - 1 where there were more.
    #[inline]
    pub fn lap_consulted(&self) -> u64
        ensures { result ≡ lap_of self.now.lap_start.consulted self.now.consulted }
    {
        self.consulted.lap()
    }

    /// How often a lap was begun, or 2^64 - 1 where it was more often.
    #[inline]
    pub fn laps(&self) -> u64
        ensures { result ≡ self.now.lap_start.laps }
    {
        self.laps
    }

    /// The most turns of one lap so far, the running one too, or 2^64 - 1 where there were more.
    #[inline]
    pub fn most_lap_turns(&self) -> u64
        ensures { result ≡ most_lap_turns self.now }
    {
        self.most_turns.max(self.turns.lap())
    }

    /// The most marks of one lap so far, the running one too, or 2^64 - 1 where there were more.
    #[inline]
    pub fn most_lap_marks(&self) -> u64
        ensures { result ≡ most_lap_marks self.now }
    {
        self.most_marks.max(self.marks.lap())
    }

    /// The most parts that were consulted in one lap so far, the running one too, or 2^64 - 1 where there were more.
    #[inline]
    pub fn most_lap_consulted(&self) -> u64
        ensures { result ≡ most_lap_consulted self.now }
    {
        self.most_consulted.max(self.consulted.lap())
    }
}
