//! Where bytes come from and where they go.
//!
//! [`Source`] and [`Sink`] are a reader and a writer that count how often the outside failed. A
//! call that fails counts one fault, and one that succeeds none, so a caller that hands a fault on can
//! say in its contract how many there were. [`MemSource`] and [`MemSink`] work over memory and fail
//! at the calls that they are told to, and [`StdSource`] and [`StdSink`] adapt a reader and a writer
//! of std: these tell no bytes and no calls.
//!
//! A piece is a call of a sink that took all that it was handed. [`write_all`] makes at most one, so
//! bytes that are handed in one by one are as many pieces; a call that takes fewer isn't counted. Likewise a source tells how many calls
//! filled what they were handed.
//!
//! A fault is any error of std, an interrupted call too, and no call is tried again: so a count that rises shows each one.
#![tactic(auto)]

mod mem_sink;
mod mem_source;
mod plan;
mod sink;
mod source;
mod standard;

pub use mem_sink::MemSink;
pub use mem_source::MemSource;
pub use sink::{Sink, WriteFault, write_all};
pub use source::{Failed, Source};
pub use standard::{StdSink, StdSource};
