//! Updates of a layer whose commits get no memory, and late ones whose preparations get none either.
//!
//! By itself the test shows little: `tools/refusals` runs it over an allocator that refuses all memory between two marks.
ghost use Rattle.std.specs.Prelude.{◌≡◌, ◌+◌, ◌<◌, ◌≤◌, ◌^◌};

use builder_trait::flat::FlatBuilder;
use id_chain::{Chain, Handle};
use layer_kinds::{Indexes, KindLayer, LayerIndex, UpdateFault};
use map_shapes::{Name, Point, Spent};
use query_laws::NoMemory;
use query_laws::step_ledger::{SHARES, Steps, blank};
use std::alloc::Global;
use std::marker::Brand;
use std::sync::ledger::{Blank, Ledger};

/// The marks: memory of a size that nothing else asks for. From the first on all other memory is refused, up to the second.
const REFUSE: usize = 4099;

const GIVE: usize = 4111;

/// Asks for memory, and gives it back.
fn ask_for(alloc: Global, size: usize) {
    let _ = Vec::<u8>::with_capacity(alloc, size);
}

/// Indexes that get no memory for their commits, and for so many preparations alone.
#[derive(Drop)]
struct Unfed<X: Indexes> {
    alloc: Global,
    indexes: X,
    fed: u64,
}

impl<X: Indexes> Indexes for Unfed<X> {
    type Item = X::Item;

    ghost rates = { λ s. X.rates s.indexes };

    ghost waits = { λ s. X.waits s.indexes };

    ghost are_of = { λ s es stamps. X.are_of s.indexes es stamps };

    ghost are_ready = { λ s es. X.are_ready s.indexes es };

    ghost memory = { λ s. X.memory s.indexes };

    fn count(&self) -> u64 {
        self.indexes.count()
    }

    fn turns_up_to(&self, ticks: u64, level: u32) -> u64 {
        self.indexes.turns_up_to(ticks, level)
    }

    fn prepare<L: Ledger>(
        &mut self,
        chain: &Chain<X::Item>,
        steps: &mut Steps<L>,
    ) -> Result<(), NoMemory> {
        if self.fed == 0 {
            ask_for(self.alloc, REFUSE);
        }
        self.fed = self.fed.saturating_sub(1);
        let prepared = self.indexes.prepare(chain, steps);
        ask_for(self.alloc, GIVE);
        prepared
    }

    fn insert<L: Ledger>(&mut self, chain: &Chain<X::Item>, handle: Handle, steps: &mut Steps<L>) {
        ask_for(self.alloc, REFUSE);
        self.indexes.insert(chain, handle, steps);
        ask_for(self.alloc, GIVE);
    }

    fn delete<L: Ledger>(&mut self, chain: &Chain<X::Item>, handle: Handle, steps: &mut Steps<L>) {
        ask_for(self.alloc, REFUSE);
        self.indexes.delete(chain, handle, steps);
        ask_for(self.alloc, GIVE);
    }

    fn relocate<L: Ledger>(
        &mut self,
        chain: &Chain<X::Item>,
        handle: Handle,
        item: X::Item,
        steps: &mut Steps<L>,
    ) {
        ask_for(self.alloc, REFUSE);
        self.indexes.relocate(chain, handle, item, steps);
        ask_for(self.alloc, GIVE);
    }
}

/// Adds a point of a weight, or moves it where it is live; or drops one where the weight is 0.
fn change<X: Indexes<Item = Point>, L: Ledger>(
    layer: &mut KindLayer<X>,
    id: u64,
    w: u16,
    blank: Blank,
) -> Result<Spent, UpdateFault>
    requires few { layer.old.adds < 2 ^ 62 }
    requires name { blank.name ≡ L.name }
    requires parts { blank.parts ≡ L.parts }
    requires shares { blank.parts ≡ SHARES }
    ensures adds { layer.new.adds ≤ layer.old.adds + 1 }
{
    let mut steps = Steps::<L>::new(blank);
    if w == 0 {
        return layer.remove(id, &mut steps);
    }
    let point = Point {
        id,
        x: 1,
        y: 2,
        w: u32::from(w),
        stamp: 0,
    };
    if layer.get(id).is_some() {
        return layer.relocate(point, &mut steps);
    }
    layer.add(point, &mut steps)
}

/// Adds so many points, and where more than some are kept moves the newest and drops the oldest. Gives how many there are then.
fn updated<X: Indexes<Item = Point>>(
    layer: KindLayer<X>,
    adds: u32,
    kept: u32,
) -> Result<usize, UpdateFault>
    requires { layer.adds ≡ 0 }
{
    let mut layer = layer;
    let kept = u64::from(kept);
    for id in 0..u64::from(adds) {
        change::<X, Brand>(&mut layer, id, 1, blank())?;
        if id >= kept {
            change::<X, Brand>(&mut layer, id, 2, blank())?;
            change::<X, Brand>(&mut layer, id - kept, 0, blank())?;
        }
    }
    Ok(layer.len())
}

/// Adds, moves and drops with many rebuilds, where no commit gets memory. And a fill whose last 120 preparations get none either: they make do with
/// what constructions left that came round, since no room of a larger level is due meanwhile.
#[test]
fn what_is_prepared_is_enough(rt: HostRuntime) {
    let alloc = rt.alloc();
    let name = Name::read(b"shops").expect(&rt, "a name");
    for (adds, kept, fed) in [(200, 8, u64::MAX), (560, 560, 440)] {
        let indexes = Unfed {
            alloc,
            indexes: LayerIndex::<FlatBuilder<Point>>::new(alloc, true),
            fed,
        };
        let layer = KindLayer::new(alloc, name, 560, indexes);
        assert_eq!(rt; updated(layer, adds, kept).ok(), Some(kept as usize));
    }
}
