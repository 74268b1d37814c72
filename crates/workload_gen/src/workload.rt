//! A made script, command by command.
ghost use Rattle.std.specs.Prelude.{◌≡◌};
ghost use Rattle.workload_gen.specs.Made.{made_script};

use crate::maker::Maker;
use script_lang::Command;
use std::marker::Model;

/// The commands of a made script that are to come. It takes no memory.
#[derive(Drop)]
pub struct Workload {
    maker: Maker,
    /// How many rounds are to come.
    rounds: u32,
    /// Whether the command before all rounds was given.
    is_begun: bool,
}

impl Model for Workload {
    ghost use Rattle.std.specs.Prelude.{List, ◌+◌, ◌≤◌, ◌^◌};
    ghost use Rattle.map_model.specs.Command.{Command};
    ghost use Rattle.workload_gen.specs.Made.{to_come};

    ghost Value = { List Command };

    ghost view = { λ w. to_come w.is_begun w.rounds w.maker };

    ghost invariant = { λ w. w.maker.next + w.rounds ≤ 2 ^ 32 };
}

impl Workload {
    /// The script of a seed, with so many rounds after its first command.
    pub fn new(seed: u64, size: u32) -> Workload
        ensures { result ≡ made_script seed size }
    {
        Workload {
            maker: Maker::new(seed),
            rounds: size,
            is_begun: false,
        }
    }
}

impl Iterator for Workload {
    ghost use Rattle.std.specs.Iterator.{at_most};
    ghost use Rattle.std.specs.Prelude.{length};
    ghost use Rattle.workload_gen.specs.Made.{GivesCommand};

    type Item = Command;

    ghost remaining = { λ w. at_most (length w) };

    ghost next_gives = { GivesCommand };

    fn next(&mut self) -> Option<Command> {
        if !self.is_begun {
            self.is_begun = true;
            return Some(self.maker.layer());
        }
        self.rounds = self.rounds.checked_sub(1)?;
        Some(self.maker.round())
    }
}
