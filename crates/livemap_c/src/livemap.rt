//! A map with the text of its last answer.
ghost use Rattle.std.specs.Prelude.{◌≡◌, ◌+◌, ◌<◌, ◌≤◌, ◌^◌, length, OnOk, OnErr};
ghost use Rattle.query_laws.specs.StepLedger.{Counts};
ghost use Rattle.map_model.specs.State.{empty_map};
ghost use Rattle.map_model.specs.Text.{lines};
ghost use Rattle.map_session.specs.Answering.{Runs, IsStopped};
ghost use Rattle.livemap_c.specs.Calls.{IsFresh, KeepsLine, TakesLine, SaysLine, start_of, end_of, KeepsScript, TakesScript, SaysScript, CopiesText};

use crate::status::Status;
use crate::text::Text;
use map_indexes::{PointIndexes, SegmentIndexes};
use map_io::WriteFault;
use map_session::{LineStart, Session, answer_begun, answer_piece};
use query_laws::step_ledger::{SHARES, Steps, blank};
use std::alloc::Global;
use std::marker::Brand;
use std::sync::ledger::{Blank, Ledger};

/// As many items as a layer of a map that C makes may have.
const MOST_ITEMS: usize = 65_536;

/// How many lines wear a map out: 2^40, at 1,000 a second after 34 years.
const MOST_LINES: u64 = 1_099_511_627_776;

/// A session over all structures.
type MapSession = Session<PointIndexes, SegmentIndexes>;

/// A session over all structures of the map, and the text of its last answer, line feeds too.
#[derive(Drop)]
pub struct Livemap {
    pub session: MapSession,
    pub text: Text,
}

impl Livemap {
    /// A map without layers, each of which may have so many items. It takes no memory; what it is told later takes its own from `alloc`.
    pub fn new(alloc: Global, most_items: usize) -> Livemap
        requires { most_items ≤ 2 ^ 24 }
        ensures { IsFresh most_items result }
    {
        let text = Text {
            bytes: Vec::new(alloc),
            faults: 0,
        };
        Livemap {
            session: MapSession::new(alloc, false, most_items),
            text,
        }
    }

    /// A map without layers, each of which may have 65,536 items, as those of the program.
    pub fn largest(alloc: Global) -> Livemap
        ensures { IsFresh empty_map.most_items result }
    {
        Livemap::new(alloc, MOST_ITEMS)
    }

    /// Frees what the map owns.
    pub fn release(self) {
        drop(self);
    }

    /// Executes a line that comes without its line feed, keeps the text of its answer, and says what became of it.
    pub fn line(&mut self, line: &[u8]) -> u32
        ensures { SaysLine self.old self.new line.now result }
    {
        self.answer_line(line).code()
    }

    fn answer_line(&mut self, line: &[u8]) -> Status
        ensures { TakesLine self.old self.new line.now result }
    {
        if self.session.lines() >= MOST_LINES {
            return Status::WornOut;
        }
        execute_line::<Brand>(self, line, blank())
    }

    /// Executes the lines of a script, keeps the text of their answers, and says what became of them. Where memory lacks for the text it
    /// stops.
    pub fn script(&mut self, script: &[u8]) -> u32
        ensures { SaysScript self.old self.new script.now result }
    {
        self.answer_script(script).code()
    }

    fn answer_script(&mut self, script: &[u8]) -> Status
        ensures { TakesScript self.old self.new script.now result }
    {
        if MOST_LINES.saturating_sub(self.session.lines()) <= script.len() as u64 {
            return Status::WornOut;
        }
        execute_script::<Brand>(self, script, blank())
    }

    /// Copies the text of the last answer to `out`, as far as it fits, and says how long it is.
    pub fn copy_text(&mut self, out: &mut [u8]) -> usize
        ensures { CopiesText self.old self.new out.old out.new result }
    {
        let n = self.text.bytes.len().min(out.len());
        out[..n].copy_from_slice(&self.text.bytes[..n]);
        self.text.bytes.len()
    }
}

/// Between two calls a map may go to another thread: its type is `Send`.
pub fn may_change_thread(map: &Livemap) {
    is_sent(map);
}

fn is_sent<T: Send>(_value: &T) {}

/// Executes a line whose steps are counted from nothing.
fn execute_line<L: Ledger>(map: &mut Livemap, line: &[u8], blank: Blank) -> Status
    requires name { blank.name ≡ L.name }
    requires parts { blank.parts ≡ L.parts }
    requires shares { blank.parts ≡ SHARES }
    requires few { map.old.session.lines < 2 ^ 40 }
    ensures { KeepsLine map.old map.new line.now result }
{
    let mut steps = Steps::<L>::new(blank);
    map.text.bytes.clear();
    match map.session.line(line, &mut map.text, &mut steps) {
        Ok(done) => Status::from(done),
        Err(WriteFault) => Status::NoMemory,
    }
}

/// Executes the lines of a script whose steps are counted from nothing.
fn execute_script<L: Ledger>(map: &mut Livemap, script: &[u8], blank: Blank) -> Status
    requires name { blank.name ≡ L.name }
    requires parts { blank.parts ≡ L.parts }
    requires shares { blank.parts ≡ SHARES }
    requires few { map.old.session.lines + length script.now < 2 ^ 40 }
    ensures { KeepsScript map.old map.new script.now result }
{
    let refused = map.session.refused();
    match write_answers::<L>(map, script, blank) {
        Ok(()) if map.session.refused() == refused => Status::Answered,
        Ok(()) => Status::Refused,
        Err(WriteFault) => Status::NoMemory,
    }
}

/// Answers the lines of a script into the text, from nothing.
fn write_answers<L: Ledger>(
    map: &mut Livemap,
    script: &[u8],
    blank: Blank,
) -> Result<(), WriteFault>
    requires name { blank.name ≡ L.name }
    requires parts { blank.parts ≡ L.parts }
    requires shares { blank.parts ≡ SHARES }
    requires few { map.old.session.lines + length script.now < 2 ^ 40 }
    ensures answered { OnOk result ((counts : Counts) × Runs (start_of map.old) (lines script.now) (end_of map.new counts)) }
    ensures stopped { OnErr result ((counts : Counts) × IsStopped (start_of map.old) (lines script.now) (end_of map.new counts)) }
{
    let mut steps = Steps::<L>::new(blank);
    let mut begun = LineStart::new();
    map.text.bytes.clear();
    answer_piece(
        &mut map.session,
        &mut begun,
        script,
        &mut map.text,
        &mut steps,
    )?;
    answer_begun(&mut map.session, &begun, &mut map.text, &mut steps)?;
    Ok(())
}
