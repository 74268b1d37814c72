//! Measures the parts of Livemap and checks them against plain lists, over seeded items and scripts.
#![tactic(auto)]

mod words;

ghost use Rattle.std.specs.Prelude.{◌≡◌};

use crate::words::{Job, KINDS, LAYERS, Work, command, job_of};
use interval_tree::StabRows;
use kd_tree::KdRows;
use priority_tree::TopRows;
use query_laws::step_ledger::{SHARES, blank};
use range_tree::RangeRows;
use samples::{Failure, Outcome, PlainMap, Spread};
use std::env;
use std::marker::Brand;
use std::process::ExitCode;
use std::sync::ledger::{Blank, Ledger};
use trials::{
    Bench, Layer, Plan, check_examples, check_made_script, measure_script, tell_differences,
    tell_script_difference, try_layer,
};

/// The exit status where a comparison differs. Other failures have 1, and wrong words 2.
const DIFFERS: u8 = 3;

fn main(rt: HostRuntime) -> anyhow::Result<ExitCode> {
    let words: Vec<String> = env::args(&rt)?.collect(rt.alloc())?;
    let words: Vec<&str> = words.iter().map(String::as_str).collect(rt.alloc())?;
    end(&rt, &words)
}

/// Does what the words ask for, and gives what the program ends with.
fn end(rt: &HostRuntime, words: &[&str]) -> anyhow::Result<ExitCode> {
    let matches = match command(rt.alloc())?.try_get_matches_from(words) {
        Ok(matches) => matches,
        Err(error) => {
            error.print(rt)?;
            return Ok(ExitCode::from(error.exit_code() as u8));
        }
    };
    let Some(job) = job_of(&matches) else {
        return Ok(ExitCode::SUCCESS);
    };
    match run::<Brand>(rt, &job, blank()) {
        Ok(()) => Ok(ExitCode::SUCCESS),
        Err(Failure::Differs(text)) => {
            eprintln!(rt; "{text}")?;
            Ok(ExitCode::from(DIFFERS))
        }
        Err(failure) => Err(failure.into()),
    }
}

/// Does what the words ask for, and prints what it tells, up to a failure too.
fn run<L: Ledger>(rt: &HostRuntime, job: &Job, blank: Blank) -> Outcome
    requires name { blank.name ≡ L.name }
    requires parts { blank.parts ≡ L.parts }
    requires shares { blank.parts ≡ SHARES }
{
    let mut bench = Bench::<L>::new(rt, rt.alloc(), job.is_timed, blank);
    let done = run_job(&mut bench, job);
    print!(rt; "{}", bench.report.as_str())?;
    done
}

fn run_job<L: Ledger>(bench: &mut Bench<L>, job: &Job) -> Outcome {
    let Job { seed, size, .. } = *job;
    match job.work {
        Work::Layer(layer, kind, spread) => {
            try_kind(bench, kind, layer, Plan { seed, spread, size })
        }
        Work::Script(path) => measure_script(bench, path),
        Work::Check(examples) => {
            let spread = Spread::Dense;
            check_kinds(bench, Plan { seed, spread, size })?;
            tell_differences::<RangeRows, L>(bench, Plan { seed, spread, size })?;
            let mut map = PlainMap::new(bench.alloc);
            check_made_script(bench, &mut map, seed, 2_000)?;
            tell_script_difference(bench, &mut map)?;
            examples.map_or(Ok(()), |folder| check_examples(bench, folder))
        }
    }
}

/// Tries each layer of each kind by a plan.
fn check_kinds<L: Ledger>(bench: &mut Bench<L>, plan: Plan) -> Outcome {
    for kind in KINDS {
        for (_, layer) in LAYERS {
            try_kind(bench, kind, layer, plan)?;
        }
    }
    Ok(())
}

/// Tries a layer of the kind with a word by a plan.
fn try_kind<L: Ledger>(bench: &mut Bench<L>, kind: &str, layer: Layer, plan: Plan) -> Outcome {
    match kind {
        "range" => try_layer::<RangeRows, L>(bench, layer, plan),
        "near" => try_layer::<KdRows, L>(bench, layer, plan),
        "top" => try_layer::<TopRows, L>(bench, layer, plan),
        _ => try_layer::<StabRows, L>(bench, layer, plan),
    }
}
