//! Livemap: a live map index. It reads a script from its standard input and writes the answer to each line.
//!
//! `main` has no contract. It joins the arguments, the standard streams and [`end`], whose contract has the words, the run and the
//! status.
#![tactic(auto)]

use map_io::{StdSink, StdSource};
use program_run::{arguments, end};
use query_laws::step_ledger::blank;
use std::marker::Brand;
use std::process::ExitCode;

fn main(rt: HostRuntime) -> ExitCode {
    let mut source = StdSource::new(rt.stdin());
    let mut sink = StdSink::new(rt.stdout());
    end::<_, _, Brand>(rt.alloc(), arguments(&rt), &mut source, &mut sink, blank())
}
