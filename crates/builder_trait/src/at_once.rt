//! A whole job in one call, by any structure of parts.
ghost use Rattle.std.specs.Prelude.{◌≡◌, ◌+◌, ◌-◌, ◌*◌, [], ◌∷◌, true};
ghost use Rattle.query_laws.specs.StepLedger.{Spends};
ghost use Rattle.builder_trait.specs.Builders.{begun, IsQuota};

use crate::builder::Builder;
use query_laws::Order;
use query_laws::step_ledger::Steps;
use std::sync::ledger::Ledger;

/// A part of one live item, by a builder to which nothing was put: two puts, and then as many turns as the builder has left
/// after the seal.
pub fn part_of_one<B: Builder, L: Ledger>(
    builder: B,
    item: B::Item,
    steps: &mut Steps<L>,
) -> B::Part
    requires { B.progress builder ≡ begun (B.progress builder).at_level }
    ensures whole { B.Part.Part.contents result ≡ record {
      items = item ∷ [];
      flags = true ∷ [];
      reordered = item ∷ [];
      places = 0 ∷ [];
      at_level = (B.progress builder).at_level;
    } }
    ensures quota { IsQuota B.SLOPE B.BASE (B.progress builder).at_level 1 (steps.new.turns - steps.old.turns - 2) }
    ensures cost { let left = steps.new.turns - steps.old.turns - 2 in Spends steps.old steps.new (2 + left) 0 (16 + 16 * left) }
{
    let mut builder = builder;
    builder.put(Order::First, item, 0, steps);
    builder.put(Order::Second, item, 0, steps);
    builder.seal();
    let left = builder.left();
    builder.turns(left, steps);
    builder.finish()
}
