//! The numbers of the structure, and the questions of the map that it answers.
ghost use Rattle.std.specs.Prelude.{false};
ghost use Rattle.std.proofs.Common.{refl, arith};
ghost use Rattle.map_questions.specs.Scans.{near-scan, near_k-scan};
ghost use Rattle.kd_tree.specs.Costs.{question_touches, question_touches-few, most_touches, asked, asked_all};

use crate::rows::KdRows;
use builder_trait::AnsweringRows;
use builder_trait::flat::FlatPart;
use map_questions::{Near, NearK, NearKTally, NearTally};
use map_shapes::Point;
use map_structures::{MapQuestion, MapRows};
use query_laws::NoMemory;
use query_laws::step_ledger::Steps;
use std::sync::ledger::Ledger;

impl MapRows for KdRows {
    ghost few = { (Prim.omega arith, Prim.omega arith) };

    ghost few_touches = { λ h. Prim.grind arith };
}

impl AnsweringRows<Near> for KdRows {
    ghost use Rattle.std.specs.Prelude.{◌+◌, ◌*◌, length};

    ghost ask_touches = { λ q part. 16 * (length part.items + 1) };

    fn ask<L: Ledger>(
        &self,
        points: &FlatPart<Point>,
        question: &Near,
        tally: &mut NearTally,
        steps: &mut Steps<L>,
    ) -> Result<(), NoMemory> {
        self.walk(points, question, tally, steps);
        Ok(())
    }
}

impl AnsweringRows<NearK> for KdRows {
    ghost use Rattle.std.specs.Prelude.{◌+◌, ◌*◌, length};

    ghost ask_touches = { λ q part. 16 * (length part.items + 1) };

    fn ask<L: Ledger>(
        &self,
        points: &FlatPart<Point>,
        question: &NearK,
        tally: &mut NearKTally,
        steps: &mut Steps<L>,
    ) -> Result<(), NoMemory> {
        let near = Near {
            x: question.x,
            y: question.y,
        };
        self.walk(points, &near, tally, steps);
        Ok(())
    }
}

impl MapQuestion<KdRows> for Near {
    ghost hits = { λ q p. false };

    ghost touches = { question_touches };

    ghost most_touches = { λ g parts n answer. most_touches parts n };

    ghost asks_kind = { λ q. refl };

    ghost refuses = { λ q. refl };

    ghost scans = { λ q xs few. near-scan q.x q.y xs };

    ghost part_touches = { λ q g p small few. asked p };

    ghost all_touches = { λ q g parts xs. asked_all parts xs };

    ghost few = { question_touches-few };
}

impl MapQuestion<KdRows> for NearK {
    ghost hits = { λ q p. false };

    ghost touches = { question_touches };

    ghost most_touches = { λ g parts n answer. most_touches parts n };

    ghost asks_kind = { λ q. refl };

    ghost refuses = { λ q. refl };

    ghost scans = { λ q xs few. near_k-scan q.k q.x q.y xs };

    ghost part_touches = { λ q g p small few. asked p };

    ghost all_touches = { λ q g parts xs. asked_all parts xs };

    ghost few = { question_touches-few };
}
