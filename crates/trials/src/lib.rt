//! What parts, stacks and indexes of any kind cost, and their answers beside plain lists; and sessions beside plain lists.
#![tactic(auto)]

mod bench;
mod indexed;
mod marked;
mod script;
mod session;
mod stacked;
mod trial;
mod tried;

pub use bench::Bench;
use map_indexes::{PointIndexes, SegmentIndexes};
use map_session::Session;
pub use script::measure_script;
pub use session::{check_examples, check_made_script, tell_script_difference};
pub use trial::{Layer, Plan, tell_differences, try_layer};
pub use tried::Kind;

/// As many items as a layer of a session may have.
const MOST_ITEMS: usize = 65_536;

/// A session over all structures.
type MapSession = Session<PointIndexes, SegmentIndexes>;
