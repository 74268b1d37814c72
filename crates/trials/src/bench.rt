//! What all trials work with: the clock, the ledger of steps, and the report.
ghost use Rattle.std.specs.Prelude.{◌≡◌};

use query_laws::step_ledger::{SHARES, Steps};
use samples::{Costs, Outcome};
use std::alloc::{AllocError, Global};
use std::sync::ledger::{Blank, Ledger};
use std::time::Instant;
use std::{io, mem};

/// What all trials work with. It reads the clock where times are wanted, and never otherwise.
#[derive(Drop)]
pub struct Bench<'a, L: Ledger> {
    pub rt: &'a HostRuntime,
    pub alloc: Global,
    pub is_timed: bool,
    pub steps: Steps<L>,
    /// What is told, line by line.
    pub report: String,
    /// How many answers, touches of these and refusals of memory trials saw since it was told last, each modulo 2^64.
    pub answers: u64,
    pub touches: u64,
    pub refused: u64,
}

impl<'a, L: Ledger> Bench<'a, L> {
    pub fn new(rt: &'a HostRuntime, alloc: Global, is_timed: bool, blank: Blank) -> Bench<'a, L>
        requires name { blank.name ≡ L.name }
        requires parts { blank.parts ≡ L.parts }
        requires shares { blank.parts ≡ SHARES }
    {
        Bench {
            rt,
            alloc,
            is_timed,
            steps: Steps::new(blank),
            report: String::new(alloc),
            answers: 0,
            touches: 0,
            refused: 0,
        }
    }

    /// Begins a lap of the steps, for a call. Gives the time where times are wanted.
    pub fn begin(&mut self) -> io::Result<Option<Instant>> {
        self.steps.start_lap();
        if !self.is_timed {
            return Ok(None);
        }
        Ok(Some(Instant::now(self.rt)?))
    }

    /// The nanoseconds since a call began, or 2^64 - 1 where they are more, and 0 where times aren't wanted.
    pub fn since(&self, begun: Option<Instant>) -> io::Result<u64> {
        let Some(begun) = begun else {
            return Ok(0);
        };
        let nanoseconds = begun.elapsed(self.rt)?.as_nanos();
        Ok(u64::try_from(nanoseconds).unwrap_or(u64::MAX))
    }

    /// Takes in what a call cost, which began then with a lap of the steps.
    pub fn take_in(&self, begun: Option<Instant>, costs: &mut Costs) -> Outcome {
        let steps = &self.steps;
        let (turns, marks, touches) = (steps.lap_turns(), steps.lap_marks(), steps.lap_touches());
        Ok(costs.push([turns, marks, touches, self.since(begun)?])?)
    }

    /// Tells what was seen, and begins anew.
    pub fn tell_seen(&mut self, words: &str) -> Result<(), AllocError> {
        let (answers, touches) = (mem::take(&mut self.answers), mem::take(&mut self.touches));
        let refused = mem::take(&mut self.refused);
        writeln!(
            self.report,
            "{words} answers {answers} touches {touches} refused {refused}"
        )
    }
}
