// Executing a made script.
ghost use Rattle.std.specs.Prelude.{◌≡◌, ◌≢◌, ◌+◌, ◌<◌, ◌^◌, ℕ, List, Some, Ok};
ghost use Rattle.map_io.specs.Calls.{counted};
ghost use Rattle.map_model.specs.Line.{IsCommand};
ghost use Rattle.map_model.specs.Output.{Told};
ghost use Rattle.map_model.specs.Version.{One};
ghost use Rattle.map_session.specs.Session.{map_in, Executes, Obeys};
ghost use Rattle.map_session.specs.Answering.{moment};
ghost use Rattle.script_lang.specs.Command.{command_of};
ghost use Rattle.workload_gen.specs.Made.{made_script};
ghost use Rattle.workload_gen.specs.Summary.{summary_of, told_more};
ghost use Rattle.program_run.specs.Made.{live_made, AnswersMade};

use crate::{MapSession, Status};
use map_io::{Sink, WriteFault};
use query_laws::step_ledger::Steps;
use script_lang::Command;
use std::sync::ledger::Ledger;
use workload_gen::{Summary, Workload, layer_name};

/// Executes the script of a seed in a new session, and writes the summary of its answers.
pub fn answer_made<K: Sink, L: Ledger>(
    session: &mut MapSession,
    seed: u64,
    size: u32,
    sink: &mut K,
    steps: &mut Steps<L>,
) -> Status
    requires lines { session.old.lines ≡ 0 }
    requires version { (map_in session.old).version ≡ One }
    ensures ended { AnswersMade seed size (moment session.old (K.told sink.old) steps.old) result (moment session.new (K.told sink.new) steps.new) }
    ensures failed { result ≡ Status.WriteFault → (K.told sink.new).faults ≡ counted (K.told sink.old).faults }
    ensures succeeded { result ≢ Status.WriteFault → (K.told sink.new).faults ≡ (K.told sink.old).faults }
    ensures read_nothing { result ≢ Status.ReadFault }
{
    let summary = execute_made(session, seed, size, steps);
    match summary.write(live_items(session), sink) {
        Ok(()) if session.refused() == 0 => Status::Clean,
        Ok(()) => Status::Refusals,
        Err(WriteFault) => Status::WriteFault,
    }
}

/// Executes the script of a seed, and sums up its answers.
fn execute_made<L: Ledger>(
    session: &mut MapSession,
    seed: u64,
    size: u32,
    steps: &mut Steps<L>,
) -> Summary
    requires lines { session.old.lines ≡ 0 }
    requires version { (map_in session.old).version ≡ One }
    ensures { (told : List Told) × Obeys session.old steps.old (made_script seed size) told session.new steps.new × (result ≡ summary_of told) }
{
    let mut summary = Summary::new();
    let mut workload = Workload::new(seed, size);
    while let Some(command) = workload.next() {
        obey(session, &command, &mut summary, steps);
    }
    summary
}

/// Executes a command, and takes its answer in.
fn obey<L: Ledger>(
    session: &mut MapSession,
    command: &Command,
    summary: &mut Summary,
    steps: &mut Steps<L>,
)
    requires few { session.old.lines < 2 ^ 32 }
    requires lawful { IsCommand (map_in session.old).version (command_of command.now) }
    requires same { summary.old.commands ≡ session.old.lines }
    ensures executed { (told : Told) × Executes session.old steps.old (Ok (Some (command_of command.now)))
        (record { told = Some told; state = map_in session.new }) session.new steps.new × (summary.new ≡ told_more summary.old told) }
    ensures lines { session.new.lines ≡ session.old.lines + 1 }
{
    let reply = session.command(command, steps);
    summary.take_in(&reply);
}

/// How many items the layer of made scripts has.
fn live_items(session: &MapSession) -> u64
    ensures { result ≡ live_made (map_in session.now) }
{
    session.layers().size(&layer_name()).unwrap_or(0)
}
