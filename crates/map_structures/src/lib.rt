//! What the map wants of a structure of parts, beside that it is one, and of the questions that it answers.
//!
//! A [`MapStructure`] has a slope of at most 20 and a base of at most 60, and a mark of it touches at most `16 * (h + 2)^2` entries in a part
//! of at most `2^h` items. A [`MapQuestion`] is answered as the definitions' scan of all items answers it, and says how often it touches a
//! part: so often, and so often more for each item that is hit and for each item at all. Beside [`Reach`], by which
//! structures search, there are only laws, no calls. The flat structure is one of the map's.
#![tactic(auto)]

mod map_question;
mod map_structure;
mod reach;

pub use map_question::MapQuestion;
pub use map_structure::{MapRows, MapStructure};
pub use reach::Reach;
