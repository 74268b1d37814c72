//! A stack of items.
use crate::bench::Bench;
use crate::tried::Tried;
use builder_trait::{Answers, Asking, Builder, Part};
use log_method::Stack;
use part_store::Store;
use query_laws::step_ledger::Steps;
use query_laws::{Item, NoMemory, Question};
use samples::{Failure, Outcome};
use std::alloc::Global;
use std::marker::Model;
use std::sync::ledger::Ledger;

/// The most inserts.
const MOST: u64 = 1 << 30;

/// A stack, a store for it, and the items that are live in it, in order of insert.
#[derive(Drop)]
pub struct Stacked<B: Builder> {
    stack: Stack<B>,
    store: Store<B>,
    items: Vec<B::Item>,
}

impl<B: Builder> Model for Stacked<B> {
    ghost use Rattle.std.specs.Prelude.{List};
    ghost use Rattle.log_levels.specs.Trades.{AreLent};
    ghost use Rattle.trials.specs.Stacks.{IsStackOf};

    ghost Value = { List B.Item };

    ghost view = { λ s. s.items.items };

    ghost invariant = { λ s. IsStackOf B.Part.Part.contents B.Item.stamp s.stack.levels s.items.items × AreLent s.stack.levels s.store };
}

impl<B: Builder> Tried<B> for Stacked<B> {
    const WORD: &'static str = "stack";

    const UPDATES: (&'static str, usize) = ("update", 0);

    const DELETES: u32 = 3;

    fn new(alloc: Global, most: usize) -> Result<Stacked<B>, NoMemory> {
        Ok(Stacked {
            stack: Stack::new(alloc),
            store: Store::new(alloc),
            items: Vec::with_capacity(alloc, most)?,
        })
    }

    fn insert<L: Ledger>(&mut self, item: B::Item, steps: &mut Steps<L>) -> Outcome {
        if item.stamp() != self.stack.weight() || item.stamp() >= MOST {
            return Err(Failure::Unfit);
        }
        self.items.reserve(1)?;
        self.stack.prepare(&mut self.store)?;
        self.stack.insert(item, &mut self.store, steps);
        self.items.push_reserved(item);
        Ok(())
    }

    fn delete<L: Ledger>(&mut self, pick: usize, steps: &mut Steps<L>) -> Outcome<Option<B::Item>> {
        if self.stack.weight() >= MOST || self.items.is_empty() {
            return Ok(None);
        }
        self.stack.prepare(&mut self.store)?;
        let item = self.items[pick % self.items.len()];
        self.stack.delete(&item, &mut self.store, steps);
        self.items.retain(|other| other.stamp() != item.stamp());
        Ok(Some(item))
    }

    fn answer<Q: Question<Item = B::Item>, L: Ledger>(
        &self,
        question: &Q,
        bench: &mut Bench<L>,
    ) -> Outcome<Q::Answer>
    where
        B::Part: Answers<Q>,
    {
        let mut asking = Asking::<B::Part, Q>::new(bench.alloc, question);
        self.stack.ask::<Q, L>(&mut asking, &mut bench.steps)?;
        Ok(asking.finish()?.into_answer())
    }
}
