//! The shapes of a map, the names of its layers, the questions about points in a rectangle, and what replies tell.
//!
//! A [`Segment`] and a [`Rect`] have their order as ghost fields, and a [`Point`] the range of its weight: no other value can be made.
//! A coordinate is any u32, as a [`Version`] keeps it. Points and segments are items in two orders. [`CountIn`] and [`SumIn`] are
//! tallied by a `Total`, which stays at 2^64 - 1 and never refuses, and [`ListIn`] by an [`IdTally`], which refuses where memory
//! isn't given.
#![tactic(auto)]

mod count_in;
mod found;
mod found_list;
mod id_list;
mod id_tally;
mod index_set;
mod kind;
mod list_in;
mod name;
mod peak;
mod point;
mod point_index;
mod point_item;
mod question_cost;
mod recent;
mod rect;
mod segment;
mod segment_item;
mod shape;
mod shaped;
mod spent;
mod sum_in;
mod version;

pub use count_in::CountIn;
pub use found::Found;
pub use found_list::FoundList;
pub use id_list::IdList;
pub use id_tally::IdTally;
pub use index_set::IndexSet;
pub use kind::Kind;
pub use list_in::ListIn;
pub use name::Name;
pub use peak::Peak;
pub use point::Point;
pub use point_index::PointIndex;
pub use query_laws::Total;
pub use question_cost::QuestionCost;
pub use recent::Recent;
pub use rect::Rect;
pub use segment::Segment;
pub use shape::Shape;
pub use shaped::Shaped;
pub use spent::{Spent, SpentAtOnce, UpdateCost};
pub use sum_in::SumIn;
pub use version::{Version, coordinates_are_kept};
