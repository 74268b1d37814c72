//! An index of items, beside their chain.
ghost use Rattle.std.specs.Prelude.{◌≡◌, ◌<◌, ◌≤◌};

use crate::bench::Bench;
use crate::tried::Tried;
use builder_trait::{Answers, Asking, Builder, Part};
use global_rebuild::Index;
use id_chain::{Chain, Handle};
use query_laws::step_ledger::Steps;
use query_laws::{Item, NoMemory, Question};
use samples::{Failure, Outcome};
use std::alloc::Global;
use std::marker::Model;
use std::sync::ledger::Ledger;

/// The most items, and the most inserts.
const MOST: usize = 1 << 28;

/// A chain, the index of its items, their handles, and a number above all stamps so far.
#[derive(Drop)]
pub struct Indexed<B: Builder> {
    chain: Chain<B::Item>,
    index: Index<B>,
    handles: Vec<Handle>,
    stamps: u64,
}

impl<B: Builder> Model for Indexed<B> {
    ghost use Rattle.std.specs.Prelude.{List};
    ghost use Rattle.id_chain.specs.Chain.{Entry};
    ghost use Rattle.global_rebuild.specs.Index.{IsIndexOf};

    ghost Value = { List (Entry B.Item) };

    ghost view = { λ c. c.chain.entries };

    ghost invariant = { λ c. IsIndexOf B.Part.Part.contents B.Item.stamp c.index c.chain.entries c.stamps };
}

impl<B: Builder> Tried<B> for Indexed<B> {
    const WORD: &'static str = "index";

    const UPDATES: (&'static str, usize) = ("update", 180_000);

    const DELETES: u32 = 4;

    fn new(alloc: Global, most: usize) -> Result<Indexed<B>, NoMemory> {
        let mut chain = Chain::new(alloc);
        chain.reserve(most)?;
        Ok(Indexed {
            chain,
            index: Index::new(alloc),
            handles: Vec::with_capacity(alloc, most)?,
            stamps: 0,
        })
    }

    fn insert<L: Ledger>(&mut self, item: B::Item, steps: &mut Steps<L>) -> Outcome {
        let stamp = item.stamp();
        if self.chain.len() >= MOST || stamp != self.stamps || stamp >= MOST as u64 {
            return Err(Failure::Unfit);
        }
        self.handles.reserve(1)?;
        self.chain.reserve(1)?;
        self.index.prepare(&self.chain, steps)?;
        let handle = self.chain.append(item);

        // It says that the handles differ.
        self.chain.len();
        self.index.commit_insert(&self.chain, handle, steps);
        self.handles.push_reserved(handle);
        self.stamps += 1;
        Ok(())
    }

    /// The last handle comes to the place of the item's, except at the front.
    fn delete<L: Ledger>(&mut self, pick: usize, steps: &mut Steps<L>) -> Outcome<Option<B::Item>> {
        self.index.prepare(&self.chain, steps)?;
        if self.handles.is_empty() {
            return Ok(None);
        }
        let handle = match pick % self.handles.len() {
            0 => self.handles.remove(0),
            place => self.handles.swap_remove(place),
        };
        if !self.chain.has(handle) {
            return Ok(None);
        }
        self.index.commit_delete(&self.chain, handle, steps);
        Ok(Some(self.chain.unlink(handle)))
    }

    fn answer<Q: Question<Item = B::Item>, L: Ledger>(
        &self,
        question: &Q,
        bench: &mut Bench<L>,
    ) -> Outcome<Q::Answer>
    where
        B::Part: Answers<Q>,
    {
        let mut asking = Asking::<B::Part, Q>::new(bench.alloc, question);
        self.index.ask::<Q, L>(&mut asking, &mut bench.steps)?;
        Ok(asking.finish()?.into_answer())
    }
}
