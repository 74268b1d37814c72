//! The questions for near points, for high points, and for segments that a place or a vertical segment meets; and those for rectangles beside
//! them, as one type.
//!
//! `specs/Questions.antt` says what each one asks, in the definitions' words, and `specs/Scans.antt` that its answer is
//! that of the definitions' scan. A question has its ranges and orders as ghost fields: no other value can be made.
//!
//! [`Near`], [`NearK`] and [`Top`] are one law, that of the first few of a list by a total order (`specs/FirstFewLaws.antt`). Their
//! tallies never refuse. `offer` joins one point: one that doesn't come before `worst`, or `best`, changes nothing, so a part may
//! leave out all points that can't. Nothing says how many comparisons an offer takes. Of the others [`Above`], [`Stab`] and [`CrossIn`]
//! list identifiers, and are refused where memory isn't given.
#![tactic(auto)]

mod above;
mod any_answer;
mod any_question;
mod cross_count;
mod cross_in;
mod kind_question;
mod near;
mod near_k;
mod near_k_tally;
mod near_tally;
mod one_question;
mod stab;
mod stab_count;
mod top;
mod top_tally;

pub use above::Above;
pub use any_answer::AnyAnswer;
pub use any_question::{AnyQuestion, PointQuestion, SegmentQuestion};
pub use cross_count::CrossCount;
pub use cross_in::CrossIn;
pub use kind_question::KindQuestion;
pub use near::Near;
pub use near_k::NearK;
pub use near_k_tally::NearKTally;
pub use near_tally::NearTally;
pub use one_question::OneQuestion;
pub use stab::Stab;
pub use stab_count::StabCount;
pub use top::Top;
pub use top_tally::TopTally;
