//! The indexes of points.
ghost use Rattle.std.specs.Prelude.{◌≡◌};
ghost use Rattle.std.proofs.Common.{refl};

use crate::asking::ask_of;
use id_chain::{Chain, Handle};
use kd_tree::{KdBuilder, KdRows};
use layer_kinds::{AskFault, Has, Indexes, KindLayer, LayerIndex, MayBeLate, Standing, add_index};
use map_layers::{Answered, AnsweringIndexes, NamedIndexes, OverPoints};
use map_questions::{Above, Near, NearK, PointQuestion, Top};
use map_shapes::{CountIn, IndexSet, ListIn, Point, PointIndex, QuestionCost, Shape, SumIn};
use priority_tree::{TopBuilder, TopRows};
use query_laws::NoMemory;
use query_laws::step_ledger::Steps;
use range_tree::{RangeBuilder, RangeRows};
use std::alloc::Global;
use std::sync::ledger::Ledger;

/// The index of points for rectangles, that for near points, and that for high ones.
#[derive(Drop)]
pub struct PointIndexes {
    indexes: OfPoints,
}

type OfPoints = (
    LayerIndex<RangeBuilder>,
    (LayerIndex<KdBuilder>, LayerIndex<TopBuilder>),
);

impl Indexes for PointIndexes {
    type Item = Point;

    ghost rates = { λ s. ⟦<OfPoints as Indexes>⟧.rates s.indexes };

    ghost waits = { λ s. ⟦<OfPoints as Indexes>⟧.waits s.indexes };

    ghost are_of = { λ s es stamps. ⟦<OfPoints as Indexes>⟧.are_of s.indexes es stamps };

    ghost are_ready = { λ s es. ⟦<OfPoints as Indexes>⟧.are_ready s.indexes es };

    ghost memory = { λ s. ⟦<OfPoints as Indexes>⟧.memory s.indexes };

    fn count(&self) -> u64 {
        self.indexes.count()
    }

    fn turns_up_to(&self, ticks: u64, level: u32) -> u64 {
        self.indexes.turns_up_to(ticks, level)
    }

    fn prepare<L: Ledger>(
        &mut self,
        chain: &Chain<Point>,
        steps: &mut Steps<L>,
    ) -> Result<(), NoMemory> {
        self.indexes.prepare(chain, steps)
    }

    fn insert<L: Ledger>(&mut self, chain: &Chain<Point>, handle: Handle, steps: &mut Steps<L>) {
        self.indexes.insert(chain, handle, steps);
    }

    fn delete<L: Ledger>(&mut self, chain: &Chain<Point>, handle: Handle, steps: &mut Steps<L>) {
        self.indexes.delete(chain, handle, steps);
    }

    fn relocate<L: Ledger>(
        &mut self,
        chain: &Chain<Point>,
        handle: Handle,
        item: Point,
        steps: &mut Steps<L>,
    ) {
        self.indexes.relocate(chain, handle, item, steps);
    }
}

impl Has<RangeRows> for PointIndexes {
    ghost index = { λ s. s.indexes.0 };

    fn index(&self) -> &LayerIndex<RangeBuilder> {
        &self.indexes.0
    }

    ghost is_of = { λ s es stamps of. of.0 };
}

impl MayBeLate<RangeRows> for PointIndexes {
    ghost use Rattle.map_indexes.specs.IndexesLaws.{points-as_many};

    ghost with_index = { λ place s. record s { indexes = (place, s.indexes.1) } };

    fn begin(&mut self, alloc: Global, chain: &Chain<Point>) {
        self.indexes.0 = LayerIndex::begin(alloc, chain);
    }

    ghost are_with = { λ place s es stamps of is. (is, of.1) };

    ghost as_many = { λ place s. points-as_many _ _ _ place s.indexes.0 s.indexes.1.0 s.indexes.1.0 s.indexes.1.1 s.indexes.1.1 };
}

impl Has<KdRows> for PointIndexes {
    ghost index = { λ s. s.indexes.1.0 };

    fn index(&self) -> &LayerIndex<KdBuilder> {
        &self.indexes.1.0
    }

    ghost is_of = { λ s es stamps of. of.1.0 };
}

impl MayBeLate<KdRows> for PointIndexes {
    ghost use Rattle.map_indexes.specs.IndexesLaws.{points-as_many};

    ghost with_index = { λ place s. record s { indexes = (s.indexes.0, (place, s.indexes.1.1)) } };

    fn begin(&mut self, alloc: Global, chain: &Chain<Point>) {
        self.indexes.1.0 = LayerIndex::begin(alloc, chain);
    }

    ghost are_with = { λ place s es stamps of is. (of.0, (is, of.1.1)) };

    ghost as_many = { λ place s. points-as_many _ _ _ s.indexes.0 s.indexes.0 place s.indexes.1.0 s.indexes.1.1 s.indexes.1.1 };
}

impl Has<TopRows> for PointIndexes {
    ghost index = { λ s. s.indexes.1.1 };

    fn index(&self) -> &LayerIndex<TopBuilder> {
        &self.indexes.1.1
    }

    ghost is_of = { λ s es stamps of. of.1.1 };
}

impl MayBeLate<TopRows> for PointIndexes {
    ghost use Rattle.map_indexes.specs.IndexesLaws.{points-as_many};

    ghost with_index = { λ place s. record s { indexes = (s.indexes.0, (s.indexes.1.0, place)) } };

    fn begin(&mut self, alloc: Global, chain: &Chain<Point>) {
        self.indexes.1.1 = LayerIndex::begin(alloc, chain);
    }

    ghost are_with = { λ place s es stamps of is. (of.0, (of.1.0, is)) };

    ghost as_many = { λ place s. points-as_many _ _ _ s.indexes.0 s.indexes.0 s.indexes.1.0 s.indexes.1.0 place s.indexes.1.1 };
}

impl NamedIndexes for PointIndexes {
    ghost use Rattle.map_indexes.specs.Held.{points_held};
    ghost use Rattle.map_indexes.specs.IndexesLaws.{points-by_rates, points-sums, points-by_waits, points-ready, points-few};

    ghost held = { λ s. points_held s.indexes.0 s.indexes.1.0 s.indexes.1.1 };

    fn of_set(alloc: Global, indexes: IndexSet) -> PointIndexes {
        let near = LayerIndex::new(alloc, indexes.near);
        let top = LayerIndex::new(alloc, indexes.top);
        PointIndexes {
            indexes: (LayerIndex::new(alloc, indexes.range), (near, top)),
        }
    }

    fn item(id: u64, shape: Shape) -> Option<Point> {
        match shape {
            Shape::Point { x, y, w } => Some(Point {
                id,
                x,
                y,
                w,
                stamp: 0,
            }),
            Shape::Segment { .. } => None,
        }
    }

    ghost by_rates = { λ s t same. points-by_rates _ _ _ s.indexes.0 t.indexes.0 s.indexes.1.0 t.indexes.1.0 s.indexes.1.1 t.indexes.1.1 same };

    ghost sums = { λ s f. points-sums f _ _ _ s.indexes.0 s.indexes.1.0 s.indexes.1.1 };

    ghost by_waits = { λ s t after zero same. points-by_waits s.indexes.0 t.indexes.0 s.indexes.1.0 t.indexes.1.0 s.indexes.1.1 t.indexes.1.1 after zero same };

    ghost ready = { λ s. points-ready s.indexes.0 s.indexes.1.0 s.indexes.1.1 };

    ghost few = { λ s. points-few _ _ _ s.indexes.0 s.indexes.1.0 s.indexes.1.1 };
}

impl OverPoints for PointIndexes {
    fn add_index(
        layer: &mut KindLayer<PointIndexes>,
        alloc: Global,
        index: PointIndex,
    ) -> Result<(), Standing> {
        match index {
            PointIndex::Range => add_index::<RangeRows, PointIndexes>(layer, alloc),
            PointIndex::Near => add_index::<KdRows, PointIndexes>(layer, alloc),
            PointIndex::Top => add_index::<TopRows, PointIndexes>(layer, alloc),
        }
    }

    ghost points = { refl };
}

impl AnsweringIndexes<PointQuestion> for PointIndexes {
    fn ask<L: Ledger>(
        layer: &KindLayer<PointIndexes>,
        alloc: Global,
        question: &PointQuestion,
        steps: &mut Steps<L>,
    ) -> Result<(Answered, QuestionCost), AskFault> {
        match question {
            PointQuestion::CountIn(count) => {
                ask_of::<RangeRows, PointIndexes, CountIn, L>(layer, alloc, count, steps)
            }
            PointQuestion::SumIn(sum) => {
                ask_of::<RangeRows, PointIndexes, SumIn, L>(layer, alloc, sum, steps)
            }
            PointQuestion::ListIn(list) => {
                ask_of::<RangeRows, PointIndexes, ListIn, L>(layer, alloc, list, steps)
            }
            PointQuestion::Near(near) => {
                ask_of::<KdRows, PointIndexes, Near, L>(layer, alloc, near, steps)
            }
            PointQuestion::NearK(near) => {
                ask_of::<KdRows, PointIndexes, NearK, L>(layer, alloc, near, steps)
            }
            PointQuestion::Above(above) => {
                ask_of::<TopRows, PointIndexes, Above, L>(layer, alloc, above, steps)
            }
            PointQuestion::Top(top) => {
                ask_of::<TopRows, PointIndexes, Top, L>(layer, alloc, top, steps)
            }
        }
    }
}
