//! The numbers of the structure, and the questions of the map that it answers.
ghost use Rattle.std.specs.Prelude.{false, length};
ghost use Rattle.std.proofs.Common.{refl, ap, arith};
ghost use Rattle.map_model.specs.Answer as answers;
ghost use Rattle.map_shapes.specs.Questions.{is_in};
ghost use Rattle.range_tree.specs.declared.measure.Measure.TheVariants.{Count, Weight};
ghost use Rattle.range_tree.specs.Costs.{question_touches, question_touches-few};
ghost use Rattle.range_tree.specs.QuestionLaws.{count_in-scan, weight_in-scan, ids_in-scan, measure-touches, list-touches, most_touches, counting, listing};

use crate::boxed::RangeRows;
use map_shapes::{CountIn, ListIn, SumIn};
use map_structures::{MapQuestion, MapRows};

impl MapRows for RangeRows {
    ghost few = { (Prim.omega arith, Prim.omega arith) };

    ghost few_touches = { λ h. Prim.omega arith };
}

impl MapQuestion<RangeRows> for CountIn {
    ghost hits = { λ q p. false };

    ghost touches = { question_touches };

    ghost most_touches = { λ g parts n answer. most_touches g parts 0 };

    ghost asks_kind = { λ q. refl };

    ghost refuses = { λ q. refl };

    ghost scans = { λ q xs few. ap answers.Counted (count_in-scan q.0 xs few) };

    ghost part_touches = { λ q g p small few. measure-touches Count (λ p. false) g p small few };

    ghost all_touches = { λ q g parts xs. counting g parts xs };

    ghost few = { question_touches-few };
}

impl MapQuestion<RangeRows> for SumIn {
    ghost hits = { λ q p. false };

    ghost touches = { question_touches };

    ghost most_touches = { λ g parts n answer. most_touches g parts 0 };

    ghost asks_kind = { λ q. refl };

    ghost refuses = { λ q. refl };

    ghost scans = { λ q xs few. ap answers.Summed (weight_in-scan q.0 xs few) };

    ghost part_touches = { λ q g p small few. measure-touches Weight (λ p. false) g p small few };

    ghost all_touches = { λ q g parts xs. counting g parts xs };

    ghost few = { question_touches-few };
}

impl MapQuestion<RangeRows> for ListIn {
    ghost hits = { λ q. is_in q.0 };

    ghost touches = { question_touches };

    ghost most_touches = { λ g parts n ids. most_touches g parts (length ids) };

    ghost asks_kind = { λ q. refl };

    ghost refuses = { λ q. refl };

    ghost scans = { λ q xs few. ap answers.Listed (ids_in-scan q.0 xs) };

    ghost part_touches = { λ q g p small few. list-touches q.0 g p small few };

    ghost all_touches = { λ q g parts xs. listing g parts q.0 xs };

    ghost few = { question_touches-few };
}
