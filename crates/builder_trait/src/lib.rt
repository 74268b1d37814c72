//! What a structure of parts promises: parts, the builders that make them step by step, and the questions put to them.
//!
//! A part is a static structure, made once from its items; afterwards an item of it can only be marked as dead (weak
//! deletion, Overmars 1983). Its builder takes the items in both orders, is sealed, and then takes turns until the part is
//! done, so that the work can be spread over many updates (Overmars and van Leeuwen 1981). A part answers decomposable
//! questions (Bentley and Saxe 1980) over its live items.
//!
//! A structure gives its rows ([`Rows`]), which stand beside items of the flat structure, with a law from each of their states to the
//! next: [`RowsPart`] and [`RowsBuilder`] are made of both. Rows read the items and never change them, take a mark after the items
//! did, and their turns count with one for each item.
//!
//! A put takes a turn and at most 8 touches, a turn at most 16 touches; at level i the turns after the seal are at most half of
//! `2^i * (SLOPE * i + BASE)`. The touches of a mark and of a question are each structure's own; a question to a part that has items takes one
//! at least. A mark of an item that is older than all items of a part, or younger, touches nothing, whatever the structure.
//!
//! [`Builder::seal`] asks only that as many items were put in the second order as in the first: different items of a list, as many as
//! it has, are all of them. A part keeps the least and the greatest stamp of its items, since a drop asks part after part until one has
//! the item: parts hold items of neighbouring ages, so most that haven't got it are told without a search. Relations of constructions,
//! levels and stacks take a structure as one record (`PartProfile`), which [`Profiled`] tells of every builder.
#![tactic(auto)]

mod asking;
mod at_once;
mod builder;
pub mod flat;
mod part;
mod profiled;
mod rows;
mod search;
mod stamps;

pub use asking::{Asking, Given};
pub use at_once::part_of_one;
pub use builder::Builder;
pub use part::{Answers, Part};
pub use profiled::Profiled;
pub use rows::{AnsweringRows, Rows, RowsBuilder, RowsPart};
pub use search::{EntryTest, partition_point};
