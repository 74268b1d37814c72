//! A session: one command or line of a script after another, on layers of its own.
use crate::executing::execute;
use crate::replying::faulty;
use answer_text::{Reply, write_reply};
use map_io::{Sink, WriteFault};
use map_layers::{Layers, OverPoints, OverSegments};
use map_shapes::Version;
use query_laws::step_ledger::Steps;
use script_lang::{Command, LineFault, parse};
use std::alloc::Global;
use std::marker::Model;
use std::sync::ledger::Ledger;

/// What became of a line whose answer was written.
#[derive(Clone, Copy, Debug, PartialEq, Eq)]
pub enum Done {
    /// The line says nothing, and has no answer.
    Silent,
    /// The line's command was answered.
    Answered,
    /// The line was refused.
    Refused,
}

/// The layers of a map over these indexes, and how many commands and lines made them.
///
/// It holds no other copy of the shapes.
#[derive(Drop)]
pub struct Session<P: OverPoints, S: OverSegments> {
    layers: Layers<P, S>,
    ledger: bool,
    lines: u64,
    refused: u64,
}

impl<P: OverPoints, S: OverSegments> Model for Session<P, S> {
    ghost use Rattle.std.specs.Prelude.{◌≤◌};
    ghost use Rattle.map_session.specs.Session.{SessionState};

    ghost Value = { SessionState };

    ghost view = { λ s. record { layers = s.layers; ledger = s.ledger; lines = s.lines; refused = s.refused } };

    ghost invariant = { λ s. (s.refused ≤ s.lines) × (s.layers.updates ≤ s.lines) };
}

impl<P: OverPoints, S: OverSegments> Session<P, S> {
    ghost use Rattle.std.specs.Prelude.{◌≡◌, ◌↔◌, ◌+◌, ◌<◌, ◌≤◌, ◌^◌, IfOk, OnErr, Ok, None, Some};
    ghost use Rattle.map_model.specs.Index.{one_if};
    ghost use Rattle.map_model.specs.Line.{IsCommand};
    ghost use Rattle.map_model.specs.Grammar.{parse};
    ghost use Rattle.map_model.specs.Reply.{is_refusal};
    ghost use Rattle.map_model.specs.Output.{Given, AnswersTo, written_for};
    ghost use Rattle.map_shapes.specs.Version.{version_of};
    ghost use Rattle.script_lang.specs.Command.{command_of, parsed};
    ghost use Rattle.answer_text.specs.Reply.{reply_of, cost_of};
    ghost use Rattle.answer_text.specs.Pieces.{DeliversLines, CutOffInPieces};
    ghost use Rattle.map_session.specs.Work.{work_said, is_update_said, lap_said, IsCounted, TellsEveryPart};
    ghost use Rattle.map_session.specs.Session.{new_session, map_in, given_by, Executes, ExecutesLine, done_of};

    /// A session of version 1 without layers, each of which may have `most_items` items. Its written replies tell what they cost, or don't. It
    /// takes no memory; updates take theirs from `alloc`.
    pub fn new(alloc: Global, ledger: bool, most_items: usize) -> Session<P, S>
        requires { most_items ≤ 2 ^ 24 }
        ensures { result ≡ new_session ledger most_items }
    {
        Session {
            layers: Layers::new(alloc, most_items),
            ledger,
            lines: 0,
            refused: 0,
        }
    }

    /// The commands and lines so far.
    pub fn lines(&self) -> u64
        ensures { result ≡ self.now.lines }
    {
        self.lines
    }

    /// Those of them that were refused.
    pub fn refused(&self) -> u64
        ensures { result ≡ self.now.refused }
    {
        self.refused
    }

    /// The layers.
    pub fn layers(&self) -> &Layers<P, S>
        ensures { result.now ≡ self.now.layers }
    {
        &self.layers
    }

    /// The version of the next line: at first version 1, then that of the last `livemap` that was accepted. Each is refused once a layer
    /// stands, so all layers of a session keep coordinates of one version.
    pub fn version(&self) -> Version
        ensures { version_of result ≡ (map_in self.now).version }
    {
        self.layers.version()
    }

    /// Executes a command that a line of the session's version can say.
    ///
    /// An update costs at most the bounds of its layer, whether memory is refused or not; a question takes no turn and no mark. A move is one
    /// update, and one lap. A choice of version is no update and begins no lap; where it is refused, version and layers stay.
    pub fn command<L: Ledger>(&mut self, command: &Command, steps: &mut Steps<L>) -> Reply
        requires few { self.old.lines < 2 ^ 40 }
        requires lawful { IsCommand (map_in self.old).version (command_of command.now) }
        ensures answered { AnswersTo (map_in self.old) (Ok (Some (command_of command.now))) (given_by (Some result) (map_in self.new)) }
        ensures counted { IsCounted (work_said (map_in self.old) (Ok (Some (command_of command.now)))) (cost_of result) steps.old steps.new }
        ensures parts { TellsEveryPart self.old.layers (Ok (Some (command_of command.now))) (cost_of result) }
        ensures lap { steps.new.lap_start ≡ lap_said (Ok (Some (command_of command.now))) steps.old }
        ensures updates { self.new.layers.updates ≡ self.old.layers.updates + one_if (is_update_said (Ok (Some (command_of command.now)))) }
        ensures lines { self.new.lines ≡ self.old.lines + 1 }
        ensures refused { self.new.refused ≡ self.old.refused + one_if (is_refusal (reply_of result)) }
        ensures ledger { self.new.ledger ≡ self.old.ledger }
    {
        let reply = execute(&mut self.layers, command, steps);
        self.lines += 1;
        self.refused += u64::from(reply.refused());
        reply
    }

    /// Executes a line that comes without its line feed, and writes its answer.
    ///
    /// It is read and answered in the version that the session has before it: the line after an accepted `livemap 2` is the first of version 2.
    ///
    /// `WriteFault` comes only where the sink failed in this call. The line was executed then, and counts, and the session
    /// can be used again. Of a sink that tells its bytes, a proper prefix of the answer was written; one that doesn't, as
    /// `StdSink`, may have written all of it before its flush failed.
    pub fn line<K: Sink, L: Ledger>(
        &mut self,
        line: &[u8],
        sink: &mut K,
        steps: &mut Steps<L>,
    ) -> Result<Done, WriteFault>
        requires { self.old.lines < 2 ^ 40 }

        ensures done { IfOk result (λ done. (given : Given) × ExecutesLine self.old steps.old line.now given self.new steps.new
            × (done ≡ done_of given.told) × DeliversLines (K.told sink.old) (K.told sink.new) (written_for (map_in self.old).version self.old.ledger given.told) 1) }
        ensures fault { OnErr result ((given : Given) × ExecutesLine self.old steps.old line.now given self.new steps.new
            × CutOffInPieces (K.told sink.old) (K.told sink.new) (written_for (map_in self.old).version self.old.ledger given.told)) }

        ensures counted { self.new.lines ≡ self.old.lines + 1 }

        // A line that says nothing is silent, and no other one is.
        ensures silent { (result ≡ Ok Done.Silent) ↔ (parse (map_in self.old).version line.now ≡ Ok None) }
    {
        let version = self.version();
        let Some(reply) = self.answer(line, steps) else {
            return Ok(Done::Silent);
        };
        write_reply(&reply, self.ledger, version, sink)?;
        if reply.refused() {
            Ok(Done::Refused)
        } else {
            Ok(Done::Answered)
        }
    }

    /// What a line says in the version of the session.
    fn read(&self, line: &[u8]) -> Result<Option<Command>, LineFault>
        ensures { parsed result ≡ parse (map_in self.now).version line.now }
    {
        parse(line, self.version())
    }

    /// Executes a line, and gives its reply: `None` where the line says nothing.
    fn answer<L: Ledger>(&mut self, line: &[u8], steps: &mut Steps<L>) -> Option<Reply>
        requires { self.old.lines < 2 ^ 40 }
        ensures executed { ExecutesLine self.old steps.old line.now (given_by result (map_in self.new)) self.new steps.new }
        ensures silent { (result ≡ None) ↔ (parse (map_in self.old).version line.now ≡ Ok None) }
    {
        match self.read(line) {
            Ok(Some(command)) => Some(self.command(&command, steps)),
            Ok(None) => {
                self.lines += 1;
                None
            }
            Err(fault) => {
                self.lines += 1;
                self.refused += 1;
                Some(faulty(fault))
            }
        }
    }
}
