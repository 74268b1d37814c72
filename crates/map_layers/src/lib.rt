//! The layers of a map, as the script's commands ask for them: items by identifier, and indexes over them that are made anew while they
//! answer.
//!
//! Each call that stands for a command makes one step of the machine of the definitions, or is refused memory that the command may lack,
//! and the map stays (`IsAnswered`). The layers lie in place, eight of them, so neither `create` nor `choose_version` takes memory. They are
//! generic in their indexes, and seen without them (`LayerState`): a proof above never opens an index. All may have as many items as the map
//! says.
//!
//! A question begins one lap, and counts no turn and no mark in it. Over P parts, of a layer of n items and h its greatest level, with k
//! identifiers in the answer:
//!
//! | question | touches at most |
//! |---|---|
//! | `CountIn`, `SumIn` | `16 * P * (h + 2)^2` |
//! | `ListIn` | the same, and `8 * (h + 2) * k` |
//! | `Near`, `NearK` | `16 * (2n + 9 + P)` |
//! | `Top`, `Above` | `16 * P * (h + 2)`, and `16 * k` for an `Above` |
//! | `StabCount`, `Stab` | `16 * P * (h + 2)`, and `16 * (h + 2) * k` for a `Stab` |
#![tactic(auto)]

mod answered;
mod faults;
mod layer;
mod layers;
mod named;

pub use answered::Answered;
pub use faults::{AskFault, CreateFault, HasLayers, IndexFault, UpdateFault};
pub use layer::Layer;
pub use layers::Layers;
pub use named::{AnsweringIndexes, NamedIndexes, OverPoints, OverSegments};
