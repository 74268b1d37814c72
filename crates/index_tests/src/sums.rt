//! The sum of their first numbers as a question to flat parts.
ghost use Rattle.std.specs.Prelude.{◌≡◌, ◌+◌, ◌*◌, ◌<◌, ◌^◌, false, refl, length, sum_by};
ghost use Rattle.query_laws.specs.StepLedger.{Spends};
ghost use Rattle.query_laws.specs.Orders.{before_in};
ghost use Rattle.query_laws.specs.OrderLaws.{IsStrictTotalOrder-before_in};
ghost use Rattle.query_laws.specs.Sums.{capped_sum, capped_add, FitsU64, IsDecomposable-capped_sum};
ghost use Rattle.builder_trait.specs.Rebuilding.{live_before};

use crate::item::Pair;
use builder_trait::flat::FlatPart;
use builder_trait::{Answers, Part};
use query_laws::step_ledger::Steps;
use query_laws::{Item, NoMemory, Order, Question, Total};
use std::alloc::Global;
use std::sync::ledger::Ledger;

/// The sum of `x`.
#[derive(Clone, Copy)]
pub struct SumOfX;

impl Question for SumOfX {
    type Item = Pair;

    type Answer = u64;

    type Tally = Total;

    ghost value = { λ q. capped_sum (λ pair. pair.x) };

    ghost join = { λ q. capped_add };

    ghost unit = { λ q. 0 };

    ghost lawful = { λ q. FitsU64 };

    ghost owns = { λ q total. FitsU64 total };

    ghost refusable = { false };

    fn tally(&self, _alloc: Global) -> Total {
        Total::new()
    }

    ghost decomposable = { λ q. IsDecomposable-capped_sum (λ pair. pair.x) };

    ghost owned_lawful = { λ q t owned. owned };
}

/// The `x` of the point at a place, or 0 where it is dead.
fn live_x<L: Ledger>(part: &FlatPart<Pair>, k: usize, steps: &mut Steps<L>) -> u64
    requires { k < length part.now.items }
    ensures added { sum_by (λ pair. pair.x) (live_before (k + 1) part.now)
        ≡ sum_by (λ pair. pair.x) (live_before k part.now) + result }
    ensures read { steps.old.touches < steps.new.touches }
    ensures cost { Spends steps.old steps.new 0 0 4 }
{
    if !part.alive(k, steps) {
        return 0;
    }
    part.item(Order::First, k, steps).x as u64
}

impl Answers<SumOfX> for FlatPart<Pair> {
    ghost ask_touches = { λ q part. 4 * length part.items };

    fn ask<L: Ledger>(
        &self,
        _question: &SumOfX,
        tally: &mut Total,
        steps: &mut Steps<L>,
    ) -> Result<(), NoMemory> {
        for k in 0..self.len() {
            tally.add(live_x(self, k, steps));
        }
        Ok(())
    }
}
