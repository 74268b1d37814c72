//! A layer of items of one kind, with the indexes over them, of which each may be there or not, and which may be of several structures. A layer
//! in use may be given an index more, which is late: it is handed four items an update, and refuses questions until it has all.
//!
//! One index is a [`LayerIndex`], and two together are [`Indexes`] again, so what holds of several is proved once. An update is prepared
//! in all of them before it is done in one: where memory is refused to the last, none has lost an item. A [`KindLayer`] has the items by
//! identifier beside them.
//!
//! A call costs at most the sum of the shares of the indexes that are there, each by its own slope and base, also where the last was
//! refused memory. With n items before and h the greatest number with `2^h <= 2n + 10`, an add or a drop, done or refused memory, takes in an
//! index of slope S and base A at most `3Sh^2 + (3S + 6A + 24)h + 3A + 12` turns and `18h + 6` marks. A move, which is a drop and an add under
//! one preparation, takes at most seven sixths of these turns, and `20h + 6` marks. Each touches 16 entries a turn and `16 * (h + 2)^2` a mark
//! at most. An update that is refused for another cause takes nothing. A question is put to each complete part of one index, of which no level
//! has more than three.
//!
//! A late index is in these sums, though it takes fewer turns. It goes on as an index at the start of the commit for which its last items were
//! handed over, once all memory for the update is there; or after a drop of the last item that it waited for. So a refused update changes for no
//! index how many items it waits for.
//!
//! Several indexes are pairs of indexes, and no struct with a field for each: a further one adds no proof. A layer of one kind is a crate of
//! its own, since its calls decide on the order of refusals, and that memory is taken before anything changes.
#![tactic(auto)]

mod bounds;
mod faults;
mod indexes;
mod kind_layer;

pub use bounds::Bounds;
pub use faults::{AskFault, Standing, UpdateFault};
pub use indexes::{Has, Indexes, LayerIndex, MayBeLate};
pub use kind_layer::{KindLayer, add_index, ask_layer};
