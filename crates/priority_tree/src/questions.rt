//! The numbers of the structure, and the questions of the map that it answers.
ghost use Rattle.std.specs.Prelude.{false, length};
ghost use Rattle.std.proofs.Common.{refl, arith};
ghost use Rattle.map_model.specs.Shape.{is_above};
ghost use Rattle.map_shapes.specs.Point.{shape_of};
ghost use Rattle.map_questions.specs.Scans.{above-scan, top-scan};
ghost use Rattle.priority_tree.specs.Costs.{question_touches, question_touches-few};
ghost use Rattle.priority_tree.specs.QuestionLaws.{top-touches, above-touches, most_touches, highest, listing};

use crate::rows::TopRows;
use map_questions::{Above, Top};
use map_structures::{MapQuestion, MapRows};

impl MapRows for TopRows {
    ghost few = { (Prim.omega arith, Prim.omega arith) };

    ghost few_touches = { λ h. Prim.grind arith };
}

impl MapQuestion<TopRows> for Top {
    ghost hits = { λ q p. false };

    ghost touches = { question_touches };

    ghost most_touches = { λ g parts n answer. most_touches g parts 0 };

    ghost asks_kind = { λ q. refl };

    ghost refuses = { λ q. refl };

    ghost scans = { λ q xs few. top-scan q.x1 q.x2 xs };

    ghost part_touches = { λ q g p small few. top-touches g p small few };

    ghost all_touches = { λ q g parts xs. highest g parts xs };

    ghost few = { question_touches-few };
}

impl MapQuestion<TopRows> for Above {
    ghost hits = { λ q p. is_above q.x1 q.x2 q.y (shape_of p) };

    ghost touches = { question_touches };

    ghost most_touches = { λ g parts n ids. most_touches g parts (length ids) };

    ghost asks_kind = { λ q. refl };

    ghost refuses = { λ q. refl };

    ghost scans = { λ q xs few. above-scan q.x1 q.x2 q.y xs };

    ghost part_touches = { λ q g p small few. above-touches q.x1 q.x2 q.y g p small few };

    ghost all_touches = { λ q g parts xs. listing g parts q.x1 q.x2 q.y xs };

    ghost few = { question_touches-few };
}
