//! The new part: first its builder, then the part itself.
ghost use Rattle.std.specs.Prelude.{◌≡◌, ◌==◌, ℕ, ◌-◌, ◌*◌, ◌^◌, ◌≤◌, false, true, length};
ghost use Rattle.query_laws.specs.StepLedger.{Spends};
ghost use Rattle.builder_trait.specs.Parts.{OwnsStamp, without, marked, live_of};
ghost use Rattle.builder_trait.specs.Builders.{IsQuota, begun, all_live};
ghost use Rattle.ordered_merge.specs.Merging.{Merges, HasRead};
ghost use Rattle.partial_build.specs.NewPart.{put_of, IsAllLive};

use builder_trait::{Builder, Part, Profiled};
use ordered_merge::Merge;
use query_laws::Item;
use query_laws::step_ledger::Steps;
use std::marker::Model;
use std::sync::ledger::Ledger;

/// A part that is under construction, or built.
#[derive(Drop)]
pub(crate) struct NewPart<B: Builder> {
    builder: Option<B>,
    part: Option<B::Part>,
}

impl<B: Builder> Model for NewPart<B> {
    ghost use Rattle.std.specs.Prelude.{◌≡◌, true, not};
    ghost use Rattle.std.specs.Option.{option_map_or, is_some};
    ghost use Rattle.builder_trait.specs.Builders.{all_live};
    ghost use Rattle.partial_build.specs.NewPart.{Growth, no_contents};

    ghost Value = { Growth B.Item };

    ghost view = { λ n. record {
      contents = option_map_or B.Part.Part.contents n.part (option_map_or (λ b. all_live (B.progress b)) n.builder no_contents);
      is_sealed = option_map_or (λ b. (B.progress b).is_sealed) n.builder true;
      left = option_map_or (λ b. (B.progress b).left) n.builder 0;
      is_built = is_some n.part;
    } };

    ghost invariant = { λ n. is_some n.builder ≡ not (is_some n.part) };
}

impl<B: Builder> NewPart<B> {
    /// A part by a builder, as far as that has come.
    pub(crate) fn new(builder: B) -> NewPart<B>
        ensures { result ≡ record {
          contents = all_live (B.progress builder);
          is_sealed = (B.progress builder).is_sealed;
          left = (B.progress builder).left;
          is_built = false;
        } }
    {
        NewPart {
            builder: Some(builder),
            part: None,
        }
    }

    /// Takes turns of a merge into the builder.
    pub(crate) fn read<L: Ledger>(
        &mut self,
        merge: &mut Merge<B>,
        count: u64,
        a: &B::Part,
        b: &B::Part,
        steps: &mut Steps<L>,
    )
        requires growing { self.old.is_built ≡ false }
        requires open { self.old.is_sealed ≡ false }
        requires enough { count ≤ merge.old.left }
        requires merges { Merges ⟦<B as Profiled>⟧.profile merge.old (B.Part.Part.contents a.now) (B.Part.Part.contents b.now)
            (put_of self.old.contents) }
        ensures merges { Merges ⟦<B as Profiled>⟧.profile merge.new (B.Part.Part.contents a.now) (B.Part.Part.contents b.now)
            (put_of self.new.contents) }
        ensures read { HasRead count merge.old merge.new (B.Part.Part.contents a.now) (B.Part.Part.contents b.now)
            (put_of self.old.contents) (put_of self.new.contents) }
        ensures live { IsAllLive self.new.contents }
        ensures growing { self.new.is_built ≡ false }
        ensures open { self.new.is_sealed ≡ false }
        ensures cost { Spends steps.old steps.new count 0 (16 * count) }
    {
        match &mut self.builder {
            Some(builder) => merge.turns(count, a, b, builder, steps),
            None => unreachable!(),
        }
    }

    /// Ends the puts; and makes the part, where no turn is left.
    pub(crate) fn seal(&mut self)
        requires growing { self.old.is_built ≡ false }
        requires open { self.old.is_sealed ≡ false }
        requires complete { length self.old.contents.reordered ≡ length self.old.contents.items }
        ensures closed { self.new ≡ record self.old { is_sealed = true; left = self.new.left; is_built = self.new.left == 0 } }
        ensures quota { IsQuota B.SLOPE B.BASE self.old.contents.at_level (length self.old.contents.items) self.new.left }
    {
        match &mut self.builder {
            Some(builder) => builder.seal(),
            None => unreachable!(),
        }
        self.settle();
    }

    /// Takes turns of the builder, which is sealed; and makes the part, where no turn is left.
    pub(crate) fn turns<L: Ledger>(&mut self, count: u64, steps: &mut Steps<L>)
        requires growing { self.old.is_built ≡ false }
        requires closed { self.old.is_sealed ≡ true }
        requires enough { count ≤ self.old.left }
        ensures done { self.new ≡ record self.old { left = self.old.left - count; is_built = (self.old.left - count) == 0 } }
        ensures cost { Spends steps.old steps.new count 0 (16 * count) }
    {
        match &mut self.builder {
            Some(builder) => builder.turns(count, steps),
            None => unreachable!(),
        }
        self.settle();
    }

    /// How many turns the builder has left: none before the seal, and none once the part is built.
    pub(crate) fn left(&self) -> u64
        ensures { result ≡ self.now.left }
    {
        match &self.builder {
            Some(builder) => builder.left(),
            None => 0,
        }
    }

    /// Makes the part, where the builder has no turn left.
    fn settle(&mut self)
        requires growing { self.old.is_built ≡ false }
        requires closed { self.old.is_sealed ≡ true }
        ensures { self.new ≡ record self.old { is_built = self.old.left == 0 } }
    {
        if self.left() > 0 {
            return;
        }
        if let Some(builder) = self.builder.take() {
            self.part = Some(builder.finish());
        }
    }

    /// Whether the part is built.
    pub(crate) fn is_built(&self) -> bool
        ensures { result ≡ self.now.is_built }
    {
        self.part.is_some()
    }

    /// Marks an item of the part, which is built, as dead: one mark.
    pub(crate) fn mark<L: Ledger>(&mut self, item: &B::Item, steps: &mut Steps<L>)
        requires built { self.old.is_built ≡ true }
        requires owner { OwnsStamp B.Item.stamp item.now self.old.contents.items }
        ensures marked { self.new ≡ record self.old { contents = marked B.Item.stamp (B.Item.stamp item.now) self.old.contents } }
        ensures live { live_of self.new.contents ≡ without B.Item.stamp (B.Item.stamp item.now) (live_of self.old.contents) }
        ensures cost { (h : ℕ) → length self.old.contents.items ≤ 2 ^ h → Spends steps.old steps.new 0 1 (B.Part.Part.mark_touches h) }
    {
        match &mut self.part {
            Some(part) => {
                part.mark(item, steps);
            }
            None => unreachable!(),
        }
    }

    /// The part, once it is built.
    pub(crate) fn into_part(self) -> B::Part
        requires { self.is_built ≡ true }
        ensures whole { B.Part.Part.contents result ≡ self.contents }
        ensures live { live_of (B.Part.Part.contents result) ≡ live_of self.contents }
    {
        let NewPart { builder: _, part } = self;
        match part {
            Some(part) => part,
            None => unreachable!(),
        }
    }

    /// A builder to which nothing was put, on the memory of the part, whether it is built or not.
    pub(crate) fn into_builder(self) -> B
        ensures { B.progress result ≡ begun self.contents.at_level }
    {
        let NewPart { builder, part } = self;
        if let Some(part) = part {
            return B::recycle(part);
        }
        match builder {
            Some(builder) => builder.restart(),
            None => unreachable!(),
        }
    }
}
