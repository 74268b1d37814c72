//! Four places with weights, of which the second is cleared.
ghost use Rattle.std.specs.Prelude.{◌≡◌, ◌^◌, ◌≤◌, false, IfOk, length, map};
ghost use Rattle.weak_delete.specs.Places.{IsBuilt, live_place, nothing_put};

use query_laws::NoMemory;
use query_laws::step_ledger::{SHARES, Steps, blank};
use std::alloc::Global;
use std::marker::Brand;
use std::sync::ledger::{Blank, Ledger};
use std::test::Fail;
use weak_delete::LiveCounts;

/// Puts places of these weights.
fn put_weights<L: Ledger>(counts: &mut LiveCounts, weights: &[u32], steps: &mut Steps<L>)
    requires { counts.old ≡ nothing_put (length weights.now) }
    ensures open { counts.new.sealed ≡ false }
    ensures places { counts.new.places ≡ map live_place weights.now }
{
    for weight in weights {
        counts.put(*weight, steps);
    }
}

/// Seals live places and takes all turns.
fn turn_counts<L: Ledger>(counts: &mut LiveCounts, steps: &mut Steps<L>)
    requires { counts.old.sealed ≡ false }
    ensures built { IsBuilt counts.new }
    ensures places { counts.new.places ≡ counts.old.places }
{
    counts.seal();
    while counts.left() > 0 {
        counts.turn(steps);
    }
}

/// Live places of these weights, with all turns taken.
fn counts_of<L: Ledger>(
    alloc: Global,
    weights: &[u32],
    steps: &mut Steps<L>,
) -> Result<LiveCounts, NoMemory>
    requires { length weights.now ≤ 2 ^ 31 }
    ensures built { IfOk result (λ counts. IsBuilt counts) }
    ensures places { IfOk result (λ counts. counts.places ≡ map live_place weights.now) }
{
    let mut counts = LiveCounts::room(alloc, weights.len())?;
    put_weights(&mut counts, weights, steps);
    turn_counts(&mut counts, steps);
    Ok(counts)
}

/// How many places below the fifth and below the third are live; what they weigh, all and below the third; the live places with one and with three
/// live ones below them; and the turns that it took to build.
fn counted<L: Ledger>(
    alloc: Global,
    blank: Blank,
) -> Result<([u64; 2], [u64; 2], [Option<usize>; 2], u64), NoMemory>
    requires name { blank.name ≡ L.name }
    requires parts { blank.parts ≡ L.parts }
    requires shares { blank.parts ≡ SHARES }
{
    let mut steps = Steps::<L>::new(blank);
    let mut counts = counts_of(alloc, &[5, 6, 7, 8], &mut steps)?;
    let turns = steps.lap_turns();
    counts.clear(1, &mut steps);
    Ok((
        [counts.prefix(4, &mut steps), counts.prefix(2, &mut steps)],
        [
            counts.sum_prefix(4, &mut steps),
            counts.sum_prefix(2, &mut steps),
        ],
        [
            counts.kth_live(1, &mut steps),
            counts.kth_live(3, &mut steps),
        ],
        turns,
    ))
}

#[test]
fn counts_what_is_live(rt: HostRuntime) -> Result<(), Fail> {
    let (counts, weights, places, turns) = counted::<Brand>(rt.alloc(), blank())?;
    assert_eq!(rt; counts, [3, 1]);
    assert_eq!(rt; weights, [20, 5]);
    assert_eq!(rt; places, [Some(2), None]);
    assert_eq!(rt; turns, 8);
    Ok(())
}
