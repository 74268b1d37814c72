//! The index of segments.
ghost use Rattle.std.specs.Prelude.{◌≡◌};
ghost use Rattle.std.proofs.Common.{refl};
ghost use Rattle.layer_kinds.specs.Indexing.{wait_in};

use crate::asking::ask_of;
use id_chain::{Chain, Handle};
use interval_tree::{StabBuilder, StabRows};
use layer_kinds::{AskFault, Has, Indexes, KindLayer, LayerIndex};
use map_layers::{Answered, AnsweringIndexes, NamedIndexes, OverSegments};
use map_questions::{SegmentQuestion, Stab, StabCount};
use map_shapes::{IndexSet, QuestionCost, Segment, Shape};
use query_laws::NoMemory;
use query_laws::step_ledger::Steps;
use std::alloc::Global;
use std::sync::ledger::Ledger;

/// The index of segments, for those over a place.
#[derive(Drop)]
pub struct SegmentIndexes {
    index: LayerIndex<StabBuilder>,
    // It isn't made late.
    ghost ready: { wait_in index ≡ 0 },
}

impl Indexes for SegmentIndexes {
    type Item = Segment;

    ghost rates = { λ s. ⟦<LayerIndex<StabBuilder> as Indexes>⟧.rates s.index };

    ghost waits = { λ s. ⟦<LayerIndex<StabBuilder> as Indexes>⟧.waits s.index };

    ghost are_of = { λ s es stamps. ⟦<LayerIndex<StabBuilder> as Indexes>⟧.are_of s.index es stamps };

    ghost are_ready = { λ s es. ⟦<LayerIndex<StabBuilder> as Indexes>⟧.are_ready s.index es };

    ghost memory = { λ s. ⟦<LayerIndex<StabBuilder> as Indexes>⟧.memory s.index };

    fn count(&self) -> u64 {
        self.index.count()
    }

    fn turns_up_to(&self, ticks: u64, level: u32) -> u64 {
        self.index.turns_up_to(ticks, level)
    }

    fn prepare<L: Ledger>(
        &mut self,
        chain: &Chain<Segment>,
        steps: &mut Steps<L>,
    ) -> Result<(), NoMemory> {
        self.index.prepare(chain, steps)
    }

    fn insert<L: Ledger>(&mut self, chain: &Chain<Segment>, handle: Handle, steps: &mut Steps<L>) {
        self.index.insert(chain, handle, steps);
    }

    fn delete<L: Ledger>(&mut self, chain: &Chain<Segment>, handle: Handle, steps: &mut Steps<L>) {
        self.index.delete(chain, handle, steps);
    }

    fn relocate<L: Ledger>(
        &mut self,
        chain: &Chain<Segment>,
        handle: Handle,
        item: Segment,
        steps: &mut Steps<L>,
    ) {
        self.index.relocate(chain, handle, item, steps);
    }
}

impl Has<StabRows> for SegmentIndexes {
    ghost index = { λ s. s.index };

    fn index(&self) -> &LayerIndex<StabBuilder> {
        &self.index
    }

    ghost is_of = { λ s es stamps of. of };
}

impl NamedIndexes for SegmentIndexes {
    ghost use Rattle.map_indexes.specs.Held.{segments_held};
    ghost use Rattle.map_indexes.specs.IndexesLaws.{segments-by_rates, segments-sums, segments-by_waits, segments-ready, segments-few};

    ghost held = { λ s. segments_held s.index };

    fn of_set(alloc: Global, indexes: IndexSet) -> SegmentIndexes {
        SegmentIndexes {
            index: LayerIndex::new(alloc, indexes.stab),
        }
    }

    fn item(id: u64, shape: Shape) -> Option<Segment> {
        match shape {
            Shape::Segment { lo, hi, y } => Some(Segment {
                id,
                lo,
                hi,
                y,
                stamp: 0,
            }),
            Shape::Point { .. } => None,
        }
    }

    ghost by_rates = { λ s t same. segments-by_rates _ s.index t.index same };

    ghost sums = { λ s f. segments-sums f _ s.index };

    ghost by_waits = { λ s t after zero same. segments-by_waits after zero };

    ghost ready = { λ s. segments-ready s.index s.ready };

    ghost few = { λ s. segments-few _ s.index };
}

impl OverSegments for SegmentIndexes {
    ghost segments = { refl };
}

impl AnsweringIndexes<SegmentQuestion> for SegmentIndexes {
    fn ask<L: Ledger>(
        layer: &KindLayer<SegmentIndexes>,
        alloc: Global,
        question: &SegmentQuestion,
        steps: &mut Steps<L>,
    ) -> Result<(Answered, QuestionCost), AskFault> {
        match question {
            SegmentQuestion::Stab(stab) => {
                ask_of::<StabRows, SegmentIndexes, Stab, L>(layer, alloc, stab, steps)
            }
            SegmentQuestion::StabCount(stab) => {
                ask_of::<StabRows, SegmentIndexes, StabCount, L>(layer, alloc, stab, steps)
            }
            SegmentQuestion::CrossIn(_) | SegmentQuestion::CrossCount(_) => Err(AskFault::NoIndex),
        }
    }
}
