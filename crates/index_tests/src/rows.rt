//! What parts, merges, constructions and stacks tell, in one run over flat parts.
//!
//! The turns, marks and weights are those of worked examples. What stores keep was worked out by a model of the clocks: of the seven parts
//! that a retired stack gives up two are under construction.
ghost use Rattle.std.specs.Prelude.{◌≡◌};

use crate::constructions::built;
use crate::counters::{counted, shrunk};
use crate::item::Pair;
use crate::merges::{MergeFindings, merged};
use crate::pairs::marked;
use crate::stacks::{deleted, prepared_thrice, retired, traced};
use crate::sums::SumOfX;
use builder_trait::flat::FlatBuilder;
use builder_trait::{Answers, Builder};
use query_laws::NoMemory;
use query_laws::step_ledger::{SHARES, Steps, blank};
use std::alloc::Global;
use std::marker::Brand;
use std::sync::ledger::{Blank, Ledger};
use std::test::Fail;

#[derive(Drop)]
struct Findings {
    marked: ([u64; 3], [bool; 2], [usize; 3]),
    merged: MergeFindings,
    built: ([u64; 4], [usize; 4], [u64; 6]),
    traced: (Vec<(u32, u64)>, u64, u32, u128),
    deleted: (u64, u64, u32, u32),
    prepared: [(u64, [usize; 4]); 3],
    retired: (usize, [usize; 4], usize, Option<u32>),
    counted: (Vec<(u32, u64)>, u64, u32, u128),
    shrunk: ([u64; 3], [u64; 3], [u32; 2]),
}

fn seen<B: Builder<Item = Pair>, L: Ledger>(
    alloc: Global,
    blank: Blank,
) -> Result<Findings, NoMemory>
where
    B::Part: Answers<SumOfX>,
    requires name { blank.name ≡ L.name }
    requires parts { blank.parts ≡ L.parts }
    requires shares { blank.parts ≡ SHARES }
{
    let mut steps = Steps::<L>::new(blank);
    let first = Pair::new(1, 1, 0);
    let second = Pair::new(2, 2, 2);
    let third = Pair::new(3, 3, 1);
    let fourth = Pair::new(4, 4, 3);
    Ok(Findings {
        marked: marked::<B, L>(alloc, first, third, &mut steps)?,
        merged: merged::<B, L>(alloc, first, second, third, fourth, &mut steps)?,
        built: built::<B, L>(alloc, first, second, third, fourth, &mut steps)?,
        traced: traced::<B, L>(alloc, &mut steps)?,
        deleted: deleted::<B, L>(alloc, &mut steps)?,
        prepared: prepared_thrice::<B, L>(alloc, &mut steps)?,
        retired: retired::<B, L>(alloc, &mut steps)?,
        counted: counted::<B, L>(alloc, &mut steps)?,
        shrunk: shrunk::<B, L>(alloc, &mut steps)?,
    })
}

/// The parts of a stack, and its weight, after each of its inserts.
const TRACED: [(u32, u64); 12] = [
    (1, 1),
    (2, 2),
    (2, 3),
    (3, 4),
    (3, 5),
    (4, 6),
    (4, 7),
    (4, 8),
    (4, 9),
    (5, 10),
    (5, 11),
    (5, 12),
];

/// The parts of a binary counter, and the turns of all its inserts, after each.
const COUNTED: [(u32, u64); 11] = [
    (1, 3),
    (1, 12),
    (2, 15),
    (1, 36),
    (2, 39),
    (2, 48),
    (3, 51),
    (1, 96),
    (2, 99),
    (2, 108),
    (3, 111),
];

#[test]
fn rows_are_as_worked(rt: HostRuntime) -> Result<(), Fail> {
    let seen = seen::<FlatBuilder<Pair>, Brand>(rt.alloc(), blank())?;
    assert_eq!(rt; seen.marked, ([2, 6, 2], [true, false], [1, 1, 1]));
    let MergeFindings {
        left,
        passed,
        done,
        turns,
        ref stamps,
    } = seen.merged;
    assert_eq!(rt; (left, done, turns), ([8, 6, 0], true, 8));
    assert_eq!(rt; passed, [true, true, false, false]);
    assert_eq!(rt; stamps.as_slice(), [0, 2, 1, 0, 2, 1].as_slice());
    assert_eq!(rt;
        seen.built,
        ([12, 6, 6, 0], [0, 0, 1, 0], [4, 3, 18, 2, 12, 12])
    );
    let (ref trace, sum, consulted, live) = seen.traced;
    assert_eq!(rt; trace.as_slice(), TRACED.as_slice());
    assert_eq!(rt; (sum, consulted, live), (12, 5, 12));
    assert_eq!(rt; seen.deleted, (5, 4, 3, 3));
    let [five, six, nine] = seen.prepared;
    assert_eq!(rt; five, (8, [3, 1, 1, 0]));
    assert_eq!(rt; six, (16, [2, 1, 1, 1]));
    assert_eq!(rt; nine, (8, [3, 2, 1, 1]));
    assert_eq!(rt; seen.retired, (7, [4, 4, 3, 1], 1, Some(3)));
    let (ref trace, sum, consulted, live) = seen.counted;
    assert_eq!(rt; trace.as_slice(), COUNTED.as_slice());
    assert_eq!(rt; (sum, consulted, live), (11, 3, 11));
    assert_eq!(rt; seen.shrunk, ([0, 1, 20], [35, 4, 3], [1, 0]));
    Ok(())
}
