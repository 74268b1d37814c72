//! The numbers of the structure, and the questions of the map that it answers.
ghost use Rattle.std.specs.Prelude.{false, length};
ghost use Rattle.std.proofs.Common.{refl, arith};
ghost use Rattle.map_questions.specs.Scans.{stab-scan, stab_count-scan};
ghost use Rattle.interval_tree.specs.Queries.{is_over};
ghost use Rattle.interval_tree.specs.Costs.{walk_touches-few, question_touches, question_touches-few};
ghost use Rattle.interval_tree.specs.QuestionLaws.{count-touches, stab-touches, most_touches, counting, listing};

use crate::rows::StabRows;
use map_questions::{Stab, StabCount};
use map_structures::{MapQuestion, MapRows};

impl MapRows for StabRows {
    ghost few = { (Prim.omega arith, Prim.omega arith) };

    ghost few_touches = { walk_touches-few };
}

impl MapQuestion<StabRows> for Stab {
    ghost hits = { λ q. is_over q.x };

    ghost touches = { question_touches };

    ghost most_touches = { λ g parts n ids. most_touches g parts (length ids) };

    ghost asks_kind = { λ q. refl };

    ghost refuses = { λ q. refl };

    ghost scans = { λ q xs few. stab-scan q.x xs };

    ghost part_touches = { λ q g p small few. stab-touches q.x g p small few };

    ghost all_touches = { λ q g parts xs. listing g parts q.x xs };

    ghost few = { question_touches-few };
}

impl MapQuestion<StabRows> for StabCount {
    ghost hits = { λ q s. false };

    ghost touches = { question_touches };

    ghost most_touches = { λ g parts n answer. most_touches g parts 0 };

    ghost asks_kind = { λ q. refl };

    ghost refuses = { λ q. refl };

    ghost scans = { λ q xs few. stab_count-scan q.x xs (Prim.omega (arith, few)) };

    ghost part_touches = { λ q g p small few. count-touches g p small few };

    ghost all_touches = { λ q g parts xs. counting g parts xs };

    ghost few = { question_touches-few };
}
