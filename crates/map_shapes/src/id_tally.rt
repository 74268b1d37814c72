//! The tally of a question for identifiers.
ghost use Rattle.std.specs.Prelude.{◌≡◌, [], ◌∷◌, ◌++◌, true, OnOk, OnErr, IsOkAnd};
ghost use Rattle.std.specs.List.Sorted.{IsNonDecreasing, IsPermutation};
ghost use Rattle.map_shapes.specs.Ascending.{sorted_ids, sorted_union};

use crate::IdList;
use query_laws::{NoMemory, Tally};
use std::alloc::Global;
use std::marker::Model;

/// Identifiers pushed in any order, which are put in ascending order once they are all there. Contracts see them in the
/// order in which they were pushed.
#[derive(Drop)]
pub struct IdTally {
    ids: Vec<u64>,
}

impl Model for IdTally {
    ghost use Rattle.std.specs.Prelude.{List, ℕ};

    ghost Value = { List ℕ };

    ghost view = { λ t. t.ids.items };
}

impl IdTally {
    /// Nothing yet. The identifiers take their memory from `alloc`, this call none.
    pub fn new(alloc: Global) -> IdTally
        ensures { result ≡ [] }
    {
        IdTally {
            ids: Vec::new(alloc),
        }
    }

    /// Takes in an identifier. Where its memory isn't given, nothing changes.
    pub fn push(&mut self, id: u64) -> Result<(), NoMemory>
        ensures pushed { OnOk result (self.new ≡ self.old ++ id ∷ []) }

        // The answer so far is joined with that over the one identifier.
        ensures joined { OnOk result (sorted_ids self.new ≡ sorted_union (sorted_ids self.old) (id ∷ [])) }
        ensures refused { OnErr result (self.new ≡ self.old) }
    {
        self.ids.push(id)?;
        Ok(())
    }
}

impl Tally for IdTally {
    type Answer = IdList;

    ghost so_far = { sorted_ids };

    ghost can_refuse = { λ _. true };

    fn can_refuse(&self) -> bool {
        true
    }

    fn finish(self) -> Result<IdList, NoMemory>
        ensures answer { IsOkAnd result (λ ids. ids ≡ sorted_ids self) }

        // The same identifiers, each as often, and none less than the one before it.
        ensures ascending { IsOkAnd result IsNonDecreasing }
        ensures same_ids { IsOkAnd result (IsPermutation self) }
    {
        let mut ids = self.ids;
        ids.sort_unstable();
        Ok(IdList::from(ids))
    }
}
