//! Global rebuilding: a stack of the items of a chain is made anew while it answers, before too much of it is dead (Overmars 1983).
//!
//! The main stack answers. While a rebuild runs there is a shadow beside it, a second stack, which gets the items of the chain from the
//! first one on, four before each update, up to a cursor.
//!
//! ```text
//! chain     a   b   c   d   e   f   g   h      the main stack has all n items
//!           '-----------'   ^
//!           in the shadow   cursor             w = 4 are still to be handed over
//! ```
//!
//! With D and D' for the dead weight of the main stack and of the shadow (the inserts since each was made, less its live items), between
//! any two calls
//!
//! ```text
//! no rebuild runs:    2D <= n + 16
//! one runs:           2D + w <= 2n + 19    and    3D' + w <= n
//! ```
//!
//! (`IsQuiet` and `IsInTime 0` of `specs/Index.antt`, both in `IsIndex`, the type's invariant.) How far the two sides lie apart, before and
//! after:
//!
//! | | `2n + 19 - 2D - w` | `n - 3D' - w` | `n + 16 - 2D` |
//! |---|---|---|---|
//! | an item is handed over | + 1 | + 1 | |
//! | an item is added | + 1 | 0 | + 1 |
//! | one that was handed over is dropped | - 4 | - 4 | - 3 |
//! | another one is dropped | - 3 | 0 | - 3 |
//! | one that was handed over is moved | - 3 | - 4 | - 2 |
//! | another one is moved | - 2 | 0 | - 2 |
//!
//! - A preparation hands four items over: both inequalities of a rebuild then hold with 4 to spare (`IsPrepared`), and the update takes 4 at
//!   most. Where fewer are left, the rebuild ends. After a refused preparation both hold still, however often it is refused.
//! - A rebuild starts where a drop or a move breaks the inequality of a quiet index. It is then broken by 3 at most, and with `w = n` and `D' = 0`
//!   those of a rebuild hold: 19 is 16 and 3.
//! - Once all are handed over (`w = 0`) the shadow becomes the main stack, and `3D' <= n` is more than a quiet index wants.
//!
//! So D is at most `n + 9`, and the main stack weighs at most `2n + 9`, the shadow at most `4n / 3`: n alone bounds the work of an update.
//! For each g with `2n + 10` below `2^(g+1)`, n being the live items before, preparation and commit together take at most
//! `6 * (q(0) + .. + q(g))` turns, q being the quota of a level, and `18 * g + 6` marks, a move one quota of each level and `2 * g` marks more. A
//! question is put to at most `3 * (g + 1)` parts.
//!
//! A caller keeps the chain, and one relation to it, with a number that it counts itself, above every stamp in the index: `IsIndexOf`.
//!
//! All memory is lent by one store. A stack that is put out of use gives back a part a preparation, of its highest level first, and its
//! successor's successor is made of it: in a layer of steady size the third rebuild takes next to none. Of each level the store
//! keeps, and the two stacks have, ten builders together at most (`OwnsMemory`). Memory is freed by preparations alone, in each one part at
//! most: a builder that would be the eleventh, or else one of the highest level that is kept, where `2^k` is above `2n + 10`, as no stack
//! comes to such a level, and where more is kept than the next two ticks may take. So a layer that shrank frees a part an update, until
//! only levels of its size are left. A commit neither takes nor frees any.
//!
//! The index keeps no number above its stamps: the relation to the chain has one, which the owner of the chain counts anyway. How many
//! items are left to walk by is the difference of two live counts, and no field. Stacks out of use stand in a list, since a small index
//! may be rebuilt again before all of one is given up.
#![tactic(auto)]

mod index;

pub use index::Index;
