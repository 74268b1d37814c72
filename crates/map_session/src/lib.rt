//! A session: one command or line of a script after another, on layers of its own.
//!
//! A command and a line do what `Executes` says: one of the definitions' answers to what is said, and at most the work that it may
//! take on the map before it. Over a text the lines were answered, one after another (`Runs`), or writing stopped inside an answer
//! (`IsStopped`). What all lines come to together are laws of that: [`lines_sum_up`], [`answers_are_outputs`] and [`ledger_adds_up`].
//! Laws of whatever was executed one after another, commands too (`ExecutesAll`), are [`work_sums_up`] and [`laps_are_bounded`].
//! Touches of updates aren't told by replies.
//!
//! The bounds of a run's updates stand in the relation of its output (`OutputWithin`): each is that of the map before its update, which
//! is named nowhere else. A run over commands is told by the list of what each was answered (`Obeys`), so a summary of the list can't
//! tell numbers of other replies.
//!
//! A line is parsed to a command in the version of the map before it, the command is executed, and its reply is written as a line of text
//! of that version. [`answer_piece`] cuts a text that comes in pieces at its line feeds, and gives each line to a session; [`answer_begun`]
//! gives it the last one.
#![tactic(auto)]

ghost use Rattle.std.specs.Prelude.{ℕ, List};
ghost use Rattle.std.specs.Io.KnownBytes.{Appends};
ghost use Rattle.query_laws.specs.StepLedger.{Counts};
ghost use Rattle.map_model.specs.Command.{Command};
ghost use Rattle.map_model.specs.Grammar.{Parsed};
ghost use Rattle.map_model.specs.Output.{Told, Output, Interrupted};
ghost use Rattle.map_session.specs.Session.{SessionState, map_in, Obeys};
ghost use Rattle.map_session.specs.Answering.{Moment, Runs, SumsUp, IsStopped};
ghost use Rattle.map_session.specs.Executing.{ExecutesAll, AreCounted};
ghost use Rattle.map_session.specs.Laps.{AreLaps};
ghost use Rattle.map_session.specs.Ledger.{told_in, lacking_in, told_to, lacking_to, AddsUp};

mod answering;
mod calling;
mod executing;
mod line_start;
mod replying;
mod session;

pub use answering::{answer_begun, answer_piece, split_line};
pub use line_start::LineStart;
pub use map_layers::{OverPoints, OverSegments};
pub use session::{Done, Session};

/// What lines that a session answered took, wrote and led to adds up over them.
pub fn lines_sum_up()
    ensures { (start now : Moment) (script : List (List ℕ)) (runs : Runs start script now) → SumsUp start script now runs }
{}

/// What a session answers is an output of the definitions, and where writing stopped a part of one.
pub fn answers_are_outputs()
    ensures answered { (start now : Moment) (script : List (List ℕ)) → Runs start script now → (bytes : List ℕ) × Appends start.told.written now.told.written bytes
        × Output start.session.ledger (map_in start.session) script bytes (map_in now.session) }
    ensures stopped { (start now : Moment) (script : List (List ℕ)) → IsStopped start script now → (bytes : List ℕ) × Appends start.told.written now.told.written bytes
        × Interrupted start.session.ledger (map_in start.session) script bytes (map_in now.session) }
{}

/// What was executed took at most what all of it may, each line or command on the map before it: lines that were answered (`of_lines`),
/// lines up to the one in whose answer writing stopped (`of_stopped`), and commands (`of_commands`).
pub fn work_sums_up()
    ensures { (old : SessionState) (before : Counts) (script : List Parsed) (new : SessionState) (after : Counts)
        (all : ExecutesAll old before script new after) → AreCounted old before script new after all }
{}

/// In what was executed each update and each question is one lap of the steps, and none took more turns or marks than the dearest of
/// them may.
pub fn laps_are_bounded()
    ensures { (old : SessionState) (before : Counts) (script : List Parsed) (new : SessionState) (after : Counts)
        (all : ExecutesAll old before script new after) → AreLaps old before script new after all }
{}

/// What the replies to lines, or to commands, tell adds up to what was counted, and where memory was never lacking so do turns and
/// marks exactly.
pub fn ledger_adds_up()
    ensures lines { (start : Moment) (script : List (List ℕ)) (now : Moment) (runs : Runs start script now)
        → AddsUp (told_in start script now runs) (lacking_in start script now runs) start.counts now.counts }
    ensures commands { (old : SessionState) (before : Counts) (commands : List Command) (told : List Told) (new : SessionState) (after : Counts)
        (obeys : Obeys old before commands told new after) → AddsUp (told_to told) (lacking_to old before commands told new after obeys) before after }
{}
