//! Times of a script's commands.
ghost use Rattle.map_io.specs.SinkTold.{told_by_faults};

use crate::bench::Bench;
use crate::{MOST_ITEMS, MapSession};
use map_io::{Failed, Sink};
use map_session::LineStart;
use samples::{Costs, Failure, Outcome};
use script_lang::split_word;
use std::fs;
use std::io::Read;
use std::sync::ledger::Ledger;

/// What lines are told of by: the command words in alphabetical order, and all updates together.
const WORDS: &str =
    "above add count cross crosscount drop get index layer list livemap move near nearest recent seg size stab stabcount sum top update";

/// The most bytes that a file is asked for at once, as the program asks its input.
const PIECE: usize = 4_096;

/// Takes all bytes and keeps none of them. It never fails.
#[derive(Drop)]
struct NullSink;

impl Sink for NullSink {
    ghost told = { λ _. told_by_faults 0 };

    fn write(&mut self, piece: &[u8]) -> Result<usize, Failed> {
        Ok(piece.len())
    }
}

/// A session, the line that is begun, and for each word what its lines cost.
#[derive(Drop)]
struct ScriptRun {
    session: MapSession,
    begun: LineStart,
    table: Vec<(&'static str, Costs)>,
}

/// Runs the script of a file by a session of its own, and tells what the lines cost: those of each command word that it has, and
/// all updates together.
///
/// Lines that are refused count too, by their first words. Neither the text nor the answers are kept. A line's cost has no part of the
/// reads.
pub fn measure_script<L: Ledger>(bench: &mut Bench<L>, path: &str) -> Outcome {
    let alloc = bench.alloc;
    let words = WORDS.split_ascii_whitespace();
    let mut run = ScriptRun {
        session: MapSession::new(alloc, false, MOST_ITEMS),
        begun: LineStart::new(),
        table: words.map(|word| (word, Costs::new(alloc))).collect(alloc)?,
    };
    run.read(&mut fs::open(bench.rt, path)?, bench)?;
    for (word, costs) in &mut run.table {
        costs.tell(word, &mut bench.report)?;
    }
    Ok(())
}

impl ScriptRun {
    /// Reads a script up to its end, and runs its lines.
    fn read<F: Read, L: Ledger>(&mut self, file: &mut F, bench: &mut Bench<L>) -> Outcome {
        let mut room = [0u8; PIECE];
        for _ in 0..u64::MAX {
            let given = file.read(&mut room)?;
            if given == 0 {
                break;
            }
            self.take(&room[..given], bench)?;
        }
        if !self.begun.is_empty() {
            self.end_line(bench)?;
        }
        Ok(())
    }

    /// Takes the next bytes of the script, and runs the lines that end in them.
    fn take<L: Ledger>(&mut self, piece: &[u8], bench: &mut Bench<L>) -> Outcome {
        for (number, part) in piece.split(|byte| *byte == b'\n').enumerate() {
            // A line feed stands before each part but the first.
            if number > 0 {
                self.end_line(bench)?;
            }
            self.begun.push(part);
        }
        Ok(())
    }

    /// Runs the line that is begun, and takes in what it cost where it is told of. `Unfit` where the session has had 2^40.
    fn end_line<L: Ledger>(&mut self, bench: &mut Bench<L>) -> Outcome {
        if self.session.lines() >= 1 << 40 {
            return Err(Failure::Unfit);
        }
        let line = self.begun.as_slice();
        let begun = bench.begin()?;
        self.session.line(line, &mut NullSink, &mut bench.steps)?;
        if let Some((first, _)) = split_word(line) {
            let is_update = matches!(first, b"add" | b"seg" | b"move" | b"drop");
            for (word, costs) in &mut self.table {
                if word.as_bytes() == first || (is_update && *word == "update") {
                    bench.take_in(begun, costs)?;
                }
            }
        }
        self.begun.clear();
        Ok(())
    }
}
