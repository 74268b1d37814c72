//! Tests of what the program is made of, but for its indexes: counted steps, coordinates, lists, lines, replies, and streams of std.
#![tactic(auto)]

#[cfg(test)]
mod coordinates;
#[cfg(test)]
mod lines;
#[cfg(test)]
mod lists;
#[cfg(test)]
mod replies;
#[cfg(test)]
mod steps;
#[cfg(test)]
mod streams;
