//! The indexes of a layer.
mod asking;
mod has;

ghost use Rattle.std.specs.Prelude.{◌≡◌, ℕ, ◌+◌, ◌*◌, ◌^◌, ◌<◌, ◌≤◌, ◌++◌, ◌∷◌, [], true, false, List, Some, IsTrue, OnOk, if◌then◌else◌, length};
ghost use Rattle.id_chain.specs.Chain.{Entry, HandlesDiffer, is_linked, item_at, without_handle};
ghost use Rattle.id_chain.specs.StampsRise.{StampsRise};
ghost use Rattle.chain_walk.specs.Walk.{renewed};
ghost use Rattle.late_index.specs.Late.{IsLateOf};
ghost use Rattle.map_model.specs.Cost.{turns_up_to};
ghost use Rattle.layer_kinds.specs.Shares.{Rates, Waits, count_of, ready_count, all_after, share, CostsShares, prepare_turns, prepare_marks, insert_turns, insert_marks, delete_turns, delete_marks, move_turns, move_marks};
ghost use Rattle.layer_kinds.specs.Indexing.{Absent, Whole, rates_of, waits_of, is_there, no_items, begun, adopted, adopted_at, wait_by, IsOf, IsReady};
ghost use Rattle.layer_kinds.specs.Places.{placed};
ghost use Rattle.layer_kinds.specs.Committing.{IsGoing, IsOver, IsExact, Commits};
ghost use Rattle.layer_kinds.specs.Memory.{Memory, memories_of, Each, IsReadied, KeepsAll};

use crate::bounds::turns_up_to;
use builder_trait::{Builder, Part};
use global_rebuild::Index;
pub use has::{Has, MayBeLate};
use id_chain::{Chain, Handle};
use late_index::Late;
use map_shapes::Shaped;
use map_structures::MapStructure;
use query_laws::NoMemory;
use query_laws::step_ledger::Steps;
use std::alloc::Global;
use std::marker::Model;
use std::mem;
use std::sync::ledger::Ledger;

/// Indexes over the items of one layer, of which each may be there or not, and may be late.
pub trait Indexes: Drop + Sized {
    type Item: Shaped;

    /// Which are there, each by its rate.
    ghost rates: { Self → Rates };

    /// For how many items each of them waits.
    ghost waits: { Self → Waits };

    /// Each is the index of these entries, and every stamp in it, dead items' included, is below a number.
    ghost are_of: { Self → List (Entry Self.Item) → ℕ → Type 0 };

    /// The next update of each is prepared, of these entries.
    ghost are_ready: { Self → List (Entry Self.Item) → Type 0 };

    /// The memory of each that is there.
    ghost memory: { Self → List Memory };

    /// How many there are, late ones too.
    fn count(&self) -> u64
        requires few { length (rates self.now) ≤ 16 }
        ensures { result ≡ count_of (rates self.now) };

    /// The most turns of so many ticks in each, late ones too, at all levels up to one.
    fn turns_up_to(&self, ticks: u64, level: u32) -> u64
        requires few { length (rates self.now) ≤ 16 }
        requires few_ticks { ticks ≤ 7 }
        requires few_levels { level ≤ 25 }
        ensures value { result ≡ share (λ rate. turns_up_to ticks rate level) (rates self.now) }
        ensures low { result ≤ 2 ^ 16 * length (rates self.now) };

    /// Readies the next update. A late index is handed items, four of those that wait or all, unless a refused update had it handed them.
    ///
    /// `NoMemory` where memory for it isn't given to one of them. They are then the indexes of the same items.
    fn prepare<L: Ledger>(
        &mut self,
        chain: &Chain<Self::Item>,
        steps: &mut Steps<L>,
    ) -> Result<(), NoMemory>
        requires of { (stamps : ℕ) × are_of self.old chain.now.entries stamps }
        ensures of { (stamps : ℕ) → are_of self.old chain.now.entries stamps → are_of self.new chain.now.entries stamps }
        ensures there { rates self.new ≡ rates self.old }

        // Refused or not, no fewer items wait, and no index is ready that wasn't.
        ensures waits { waits self.new ≡ waits self.old }
        ensures ready { OnOk result (are_ready self.new chain.now.entries) }

        // Refused or not, each gives up a part at most; no rebuild begins, and none is given up.
        ensures kept { Each IsReadied (memory self.old) (memory self.new) }
        ensures cost { CostsShares prepare_turns prepare_marks (2 * length chain.now.entries + 10) (rates self.old) steps.old steps.new };

    /// Takes in the last item of a chain.
    fn insert<L: Ledger>(&mut self, chain: &Chain<Self::Item>, handle: Handle, steps: &mut Steps<L>)
        requires last { (front : List (Entry Self.Item)) × (item : Self.Item) × (chain.now.entries ≡ front ++ record { handle = handle; item = item } ∷ [])
            × are_of self.old front (Self.Item.stamp item) × are_ready self.old front }
        requires differ { HandlesDiffer chain.now.entries }
        requires few { length chain.now.entries < 2 ^ 29 }
        ensures of { (front : List (Entry Self.Item)) (item : Self.Item) → chain.now.entries ≡ front ++ record { handle = handle; item = item } ∷ []
            → are_of self.new chain.now.entries (Self.Item.stamp item + 1) }
        ensures there { rates self.new ≡ rates self.old }
        ensures waits { (front : List (Entry Self.Item)) (item : Self.Item) → chain.now.entries ≡ front ++ record { handle = handle; item = item } ∷ []
            → waits self.new ≡ all_after (wait_by true handle front) (waits self.old) }
        ensures held { Each KeepsAll (memory self.old) (memory self.new) }
        ensures some_turns { steps.old.turns + 3 * ready_count (waits self.old) ≤ steps.new.turns }
        ensures cost { CostsShares insert_turns insert_marks (2 * length chain.now.entries + 8) (rates self.old) steps.old steps.new };

    /// Lets go of a linked item, which is unlinked next.
    fn delete<L: Ledger>(&mut self, chain: &Chain<Self::Item>, handle: Handle, steps: &mut Steps<L>)
        requires ready { are_ready self.old chain.now.entries }
        requires of { (stamps : ℕ) × are_of self.old chain.now.entries stamps }
        requires linked { IsTrue (is_linked handle chain.now.entries) }
        ensures of { (stamps : ℕ) → are_of self.old chain.now.entries stamps → are_of self.new (without_handle handle chain.now.entries) stamps }
        ensures there { rates self.new ≡ rates self.old }
        ensures waits { waits self.new ≡ all_after (wait_by false handle chain.now.entries) (waits self.old) }
        ensures held { Each KeepsAll (memory self.old) (memory self.new) }
        ensures cost { CostsShares delete_turns delete_marks (2 * length chain.now.entries + 10) (rates self.old) steps.old steps.new };

    /// Puts another item in the place of a linked one, which is renewed next: it goes to the end of the chain, under the same handle.
    fn relocate<L: Ledger>(
        &mut self,
        chain: &Chain<Self::Item>,
        handle: Handle,
        item: Self::Item,
        steps: &mut Steps<L>,
    )
        requires ready { are_ready self.old chain.now.entries }
        requires of { are_of self.old chain.now.entries (Self.Item.stamp item) }
        requires linked { IsTrue (is_linked handle chain.now.entries) }
        ensures of { are_of self.new (renewed handle item chain.now.entries) (Self.Item.stamp item + 1) }
        ensures there { rates self.new ≡ rates self.old }
        ensures waits { waits self.new ≡ all_after (wait_by true handle chain.now.entries) (waits self.old) }
        ensures held { Each KeepsAll (memory self.old) (memory self.new) }
        ensures some_turns { steps.old.turns + 3 * ready_count (waits self.old) ≤ steps.new.turns }
        ensures cost { CostsShares move_turns move_marks (2 * length chain.now.entries + 10) (rates self.old) steps.old steps.new };
}

/// One index of a layer, where it was named, or made late.
#[derive(Drop)]
pub struct LayerIndex<B: MapStructure> {
    alloc: Global,
    place: Place<B>,
}

/// Whether it is there, and late.
#[derive(Drop)]
enum Place<B: MapStructure> {
    Absent,
    Whole(Index<B>),
    Late(Late<B>),
}

impl<B: MapStructure> Model for LayerIndex<B> {
    ghost use Rattle.layer_kinds.specs.Indexing.{Placed};
    ghost use Rattle.layer_kinds.specs.Places.{placed};

    ghost Value = { Placed B.Part B.Item };

    ghost view = { λ l. placed l.place };
}

impl<B: MapStructure> LayerIndex<B> {
    /// An index without items, where it is wanted. It takes no memory.
    pub fn new(alloc: Global, wanted: bool) -> LayerIndex<B>
        ensures made { result ≡ (if wanted then Whole no_items else Absent) }
        ensures of { IsOf B.Part.Part.contents B.Item.stamp result [] 0 }
    {
        let place = if wanted {
            Place::Whole(Index::new(alloc))
        } else {
            Place::Absent
        };
        LayerIndex { alloc, place }
    }

    /// An index that is made late, of the items of a chain: it waits for all of them, and where there are none it is ready. It takes no memory.
    pub fn begin(alloc: Global, chain: &Chain<B::Item>) -> LayerIndex<B>
        requires few { length chain.now.entries < 2 ^ 29 }
        ensures begun { result ≡ begun chain.now.entries }
        ensures of { (stamps : ℕ) → StampsRise B.Item.stamp 0 chain.now.entries stamps
            → IsOf B.Part.Part.contents B.Item.stamp result chain.now.entries stamps }
    {
        let place = if chain.is_empty() {
            Place::Whole(Index::new(alloc))
        } else {
            Place::Late(Late::start(alloc, chain))
        };
        LayerIndex { alloc, place }
    }

    /// Whether it is there, late or not.
    pub fn is_there(&self) -> bool
        ensures { result ≡ is_there self.now }
    {
        match &self.place {
            Place::Absent => false,
            Place::Whole(_) | Place::Late(_) => true,
        }
    }

    /// A late index that was handed all items goes on as an index.
    fn adopt(&mut self)
        requires of { (es : List (Entry B.Item)) × (stamps : ℕ) × IsOver B.Part.Part.contents B.Item.stamp self.old es stamps }
        ensures { self.new ≡ adopted self.old }
    {
        self.place = match mem::replace(&mut self.place, Place::Absent) {
            Place::Absent => Place::Absent,
            Place::Whole(index) => Place::Whole(index),
            Place::Late(late) => go_on(self.alloc, late),
        };
    }

    /// Takes in the last item of a chain, once a late index that was handed all items has gone on.
    fn take_in<L: Ledger>(&mut self, chain: &Chain<B::Item>, handle: Handle, steps: &mut Steps<L>)
        requires going { IsGoing self.old }
        requires last { (front : List (Entry B.Item)) × (item : B.Item) × (chain.now.entries ≡ front ++ record { handle = handle; item = item } ∷ [])
            × IsOver B.Part.Part.contents B.Item.stamp self.old front (B.Item.stamp item) × IsReady B.Part.Part.contents self.old front }
        requires differ { HandlesDiffer chain.now.entries }
        requires few { length chain.now.entries < 2 ^ 29 }
        ensures of { (item : B.Item) → item_at handle chain.now.entries ≡ Some item
            → IsOf B.Part.Part.contents B.Item.stamp self.new chain.now.entries (B.Item.stamp item + 1) }
        ensures commits { (front : List (Entry B.Item)) (item : B.Item) → chain.now.entries ≡ front ++ record { handle = handle; item = item } ∷ []
            → Commits B.Part.Part.contents (record { slope = B.SLOPE; base = B.BASE }) (wait_by true handle front) insert_turns insert_marks
            (2 * length chain.now.entries + 8) self.old self.new steps.old steps.new }
        ensures some_turns { steps.old.turns + 3 * ready_count (waits_of self.old) ≤ steps.new.turns }
    {
        match &mut self.place {
            Place::Absent => {}
            Place::Whole(index) => index.commit_insert(chain, handle, steps),
            Place::Late(late) => late.commit_insert(),
        }
    }

    /// Lets go of a linked item, which is unlinked next, once a late index that was handed all items has gone on. One may have no more to come then.
    fn let_go<L: Ledger>(&mut self, chain: &Chain<B::Item>, handle: Handle, steps: &mut Steps<L>)
        requires going { IsGoing self.old }
        requires ready { IsReady B.Part.Part.contents self.old chain.now.entries }
        requires of { (stamps : ℕ) × IsOver B.Part.Part.contents B.Item.stamp self.old chain.now.entries stamps }
        requires linked { IsTrue (is_linked handle chain.now.entries) }
        ensures of { (stamps : ℕ) → IsOver B.Part.Part.contents B.Item.stamp self.old chain.now.entries stamps
            → IsOver B.Part.Part.contents B.Item.stamp self.new (without_handle handle chain.now.entries) stamps }
        ensures exact { IsExact B.Part.Part.contents self.new (without_handle handle chain.now.entries) }
        ensures commits { Commits B.Part.Part.contents (record { slope = B.SLOPE; base = B.BASE }) (wait_by false handle chain.now.entries) delete_turns delete_marks
            (2 * length chain.now.entries + 10) self.old self.new steps.old steps.new }
    {
        match &mut self.place {
            Place::Absent => {}
            Place::Whole(index) => index.commit_delete(chain, handle, steps),
            Place::Late(late) => late.commit_delete(chain, handle, steps),
        }
    }

    /// Puts another item in the place of a linked one, which is renewed next, once a late index that was handed all items has gone on.
    fn put_anew<L: Ledger>(
        &mut self,
        chain: &Chain<B::Item>,
        handle: Handle,
        item: B::Item,
        steps: &mut Steps<L>,
    )
        requires going { IsGoing self.old }
        requires ready { IsReady B.Part.Part.contents self.old chain.now.entries }
        requires of { IsOver B.Part.Part.contents B.Item.stamp self.old chain.now.entries (B.Item.stamp item) }
        requires linked { IsTrue (is_linked handle chain.now.entries) }
        ensures of { IsOf B.Part.Part.contents B.Item.stamp self.new (renewed handle item chain.now.entries) (B.Item.stamp item + 1) }
        ensures commits { Commits B.Part.Part.contents (record { slope = B.SLOPE; base = B.BASE }) (wait_by true handle chain.now.entries) move_turns move_marks
            (2 * length chain.now.entries + 10) self.old self.new steps.old steps.new }
        ensures some_turns { steps.old.turns + 3 * ready_count (waits_of self.old) ≤ steps.new.turns }
    {
        match &mut self.place {
            Place::Absent => {}
            Place::Whole(index) => index.commit_move(chain, handle, item, steps),
            Place::Late(late) => late.commit_move(chain, handle, steps),
        }
    }
}

/// What a late index goes on as: past the last item as an index.
fn go_on<B: MapStructure>(alloc: Global, late: Late<B>) -> Place<B>
    requires of { (es : List (Entry B.Item)) × (stamps : ℕ) × IsLateOf B.Part.Part.contents B.Item.stamp late es stamps }
    ensures { placed result ≡ adopted_at late late.walk.cursor }
{
    if !late.has_ended() {
        return Place::Late(late);
    }
    let (stack, store) = late.into_stack();
    Place::Whole(Index::adopt(alloc, stack, store))
}

impl<B: MapStructure> Indexes for LayerIndex<B>
where
    B::Item: Shaped,
{
    type Item = B::Item;

    ghost rates = { λ s. rates_of (record { slope = B.SLOPE; base = B.BASE }) s };

    ghost waits = { λ s. waits_of s };

    ghost are_of = { λ s es stamps. IsOf B.Part.Part.contents B.Item.stamp s es stamps };

    ghost are_ready = { λ s es. IsReady B.Part.Part.contents s es };

    ghost memory = { λ s. memories_of B.Part.Part.contents s };

    fn count(&self) -> u64 {
        u64::from(self.is_there())
    }

    fn turns_up_to(&self, ticks: u64, level: u32) -> u64 {
        if self.is_there() {
            turns_up_to(ticks, B::SLOPE, B::BASE, level)
        } else {
            0
        }
    }

    fn prepare<L: Ledger>(
        &mut self,
        chain: &Chain<B::Item>,
        steps: &mut Steps<L>,
    ) -> Result<(), NoMemory> {
        match &mut self.place {
            Place::Absent => Ok(()),
            Place::Whole(index) => index.prepare(chain, steps),
            Place::Late(late) => late.prepare(chain, steps),
        }
    }

    fn insert<L: Ledger>(&mut self, chain: &Chain<B::Item>, handle: Handle, steps: &mut Steps<L>) {
        self.adopt();
        self.take_in(chain, handle, steps);
    }

    fn delete<L: Ledger>(&mut self, chain: &Chain<B::Item>, handle: Handle, steps: &mut Steps<L>) {
        self.adopt();
        self.let_go(chain, handle, steps);
        self.adopt();
    }

    fn relocate<L: Ledger>(
        &mut self,
        chain: &Chain<B::Item>,
        handle: Handle,
        item: B::Item,
        steps: &mut Steps<L>,
    ) {
        self.adopt();
        self.put_anew(chain, handle, item, steps);
    }
}

impl<A: Indexes, B: Indexes<Item = A::Item>> Indexes for (A, B) {
    type Item = A::Item;

    ghost rates = { λ s. A.rates s.0 ++ B.rates s.1 };

    ghost waits = { λ s. A.waits s.0 ++ B.waits s.1 };

    ghost are_of = { λ s es stamps. A.are_of s.0 es stamps × B.are_of s.1 es stamps };

    ghost are_ready = { λ s es. A.are_ready s.0 es × B.are_ready s.1 es };

    ghost memory = { λ s. A.memory s.0 ++ B.memory s.1 };

    fn count(&self) -> u64 {
        self.0.count() + self.1.count()
    }

    fn turns_up_to(&self, ticks: u64, level: u32) -> u64 {
        self.0.turns_up_to(ticks, level) + self.1.turns_up_to(ticks, level)
    }

    #[tactic(auto, using(crate::proofs::Shared::costs_then))]
    fn prepare<L: Ledger>(
        &mut self,
        chain: &Chain<A::Item>,
        steps: &mut Steps<L>,
    ) -> Result<(), NoMemory> {
        self.0.prepare(chain, steps)?;
        self.1.prepare(chain, steps)
    }

    #[tactic(auto, using(crate::proofs::Shared::costs_then))]
    fn insert<L: Ledger>(&mut self, chain: &Chain<A::Item>, handle: Handle, steps: &mut Steps<L>) {
        self.0.insert(chain, handle, steps);
        self.1.insert(chain, handle, steps);
    }

    #[tactic(auto, using(crate::proofs::Shared::costs_then))]
    fn delete<L: Ledger>(&mut self, chain: &Chain<A::Item>, handle: Handle, steps: &mut Steps<L>) {
        self.0.delete(chain, handle, steps);
        self.1.delete(chain, handle, steps);
    }

    #[tactic(auto, using(crate::proofs::Shared::costs_then))]
    fn relocate<L: Ledger>(
        &mut self,
        chain: &Chain<A::Item>,
        handle: Handle,
        item: A::Item,
        steps: &mut Steps<L>,
    ) {
        self.0.relocate(chain, handle, item, steps);
        self.1.relocate(chain, handle, item, steps);
    }
}
