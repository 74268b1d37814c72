//! What calls cost, and what is told of it.
ghost use Rattle.std.specs.Prelude.{◌<◌};

use std::alloc::{AllocError, Global};

/// What is told of calls.
const NAMES: [&str; 5] = ["turns", "marks", "touches", "nanoseconds", "by scan"];

/// The turns, the marks, the touches and the nanoseconds of some calls, and the nanoseconds of a plain scan for some of them.
#[derive(Drop)]
pub struct Costs {
    columns: [Vec<u64>; 5],
}

impl Costs {
    pub fn new(alloc: Global) -> Costs {
        let columns = NAMES.map(|_| Vec::new(alloc));
        Costs { columns }
    }

    /// Takes in one more call, by its turns, marks, touches and nanoseconds.
    pub fn push(&mut self, call: [u64; 4]) -> Result<(), AllocError> {
        for (column, number) in self.columns.iter_mut().zip(call) {
            column.push(number)?;
        }
        Ok(())
    }

    /// Takes in the nanoseconds of one more scan.
    pub fn push_scan(&mut self, nanoseconds: u64) -> Result<(), AllocError> {
        Ok(self.columns[4].push(nanoseconds)?)
    }

    /// Tells a line after some words: how many calls there were, if any, and of each number that wasn't always zero its mean rounded
    /// down, the least that 50 % and 99.9 % of the calls don't exceed, and the greatest.
    pub fn tell(&mut self, words: &str, report: &mut String) -> Result<(), AllocError> {
        let count = self.columns[0].len();
        if count == 0 {
            return Ok(());
        }
        write!(report, "{words} count {count}")?;
        for (name, column) in NAMES.iter().zip(&mut self.columns) {
            column.sort_unstable();
            tell_sorted(name, column, report)?;
        }
        report.push_str("\n")
    }
}

fn tell_sorted(name: &str, numbers: &[u64], told: &mut String) -> Result<(), AllocError> {
    let (count, max) = (numbers.len(), numbers.last().copied().unwrap_or(0));
    if max == 0 {
        return Ok(());
    }
    let total = numbers.iter().fold(0u64, |sum, n| sum.saturating_add(*n));
    let mean = total / count as u64;
    let p50 = numbers[count - 1 - count / 2];
    let p99 = numbers[count - 1 - count / 1000];
    write!(told, " {name} mean {mean} p50 {p50} p99.9 {p99} max {max}")
}
