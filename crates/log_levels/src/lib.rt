//! The levels of a stack of parts, and what a tick does to them (Bentley and Saxe 1980; in this form Overmars and van Leeuwen 1981).
//!
//! Level i has four slots: three for complete parts of at most `2^i` items, and one for a part under construction, which is made of the
//! two oldest complete parts of the level below in `2^i` ticks. While it is made those two answer; it doesn't.
//!
//! ```text
//!                 complete, oldest first      under construction
//!
//! level i + 1    [  D  ] [     ] [     ]     [ A and B, after r of 2^(i+1) ticks ]
//!                                                ^     ^
//!                    .---------------------------'     |
//!                    |      .--------------------------'
//! level i        [  A  ] [  B  ] [  C  ]     [ two parts of level i - 1, after p of 2^i ticks ]
//! ```
//!
//! With c complete parts at level i, and with r and p as drawn, 0 where no construction runs, between two ticks
//!
//! ```text
//! c <= 1:         no construction runs into level i + 1
//! c is 2 or 3:    (c - 2) * 2^i + p + 1 <= r < 2^(i+1)
//! ```
//!
//! This is `IsBelow 1` of `specs/Neighbours.antt`, and all that ties a level to the next one. So no part arrives at a full level: it would
//! come in the tick after `p = 2^i - 1`, and with `c = 3` then r would be at least `2^(i+1)`.
//!
//! A tick goes up the levels. At level 0 a part of one item arrives, or an item is marked as dead. A level k that is visited finds the one
//! below after its tick, and itself before it: the inequality without the `+ 1` (`IsBelow 0`). Three things may happen (`IsVisited`):
//!
//! - Fewer than two parts stand below: nothing runs.
//! - The construction, begun here where none ran, takes a tick: r is one more, and the `+ 1` holds again.
//! - That was its last tick, so it is published. Its part arrives here, where the clock is back at 0, and its two sources are retired below,
//!   where at most one part is left. If two parts stood here, the construction above them has done at least `2^k` ticks, since the clock here
//!   was at `2^k - 1`: that is the inequality without the `+ 1` for three parts.
//!
//! The memory of all parts and constructions is lent by a store (`part_store`), which a call is passed beside the steps, and goes back to it:
//!
//! ```text
//!                         level i + 1                               the store
//!
//!  a construction begins:   under construction into i + 1    <---   a builder and tables of level i + 1
//!  it ends:                 its part is complete             --->   the tables
//!                           A and B of level i are retired   --->   two builders of level i
//!
//!  an item comes:           a part of level 0                <---   a builder of level 0
//! ```
//!
//! So a tick takes and frees no memory. How much of each level the next two ticks may want is told by the clocks (`wanted_at` of
//! `specs/Trades.antt`); of a stack it is one room a level and two builders of level 0 at most. Clauses say what more is lent, so they hold for
//! whatever else the store has lent. The levels are a crate of their own, so that a wrong tick breaks a public contract.
#![tactic(auto)]

mod asking;
mod level;
mod marking;
mod visiting;

pub use asking::ask_levels;
pub use level::Level;
pub use marking::take_out;
pub use visiting::take_in;
