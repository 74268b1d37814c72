//! A row, laps, what follows from the laws of a question, and the words of a refusal.
ghost use Rattle.std.specs.Prelude.{◌≡◌};

use map_shapes::CountIn;
use query_laws::step_ledger::{Row, SHARES, Steps, blank};
use query_laws::{NoMemory, derived_laws};
use std::alloc::Global;
use std::marker::Brand;
use std::sync::ledger::{Blank, Ledger};
use std::test::Fail;

/// What a row of two holds after a write and a change in place, and how many fit; the lap; and how often one was begun and the most turns and marks
/// of one, after laps of 2 turns and 1 mark and in a second one of 1 turn.
fn row_and_laps<L: Ledger>(alloc: Global, blank: Blank) -> Result<([u64; 4], [u64; 6]), NoMemory>
    requires name { blank.name ≡ L.name }
    requires parts { blank.parts ≡ L.parts }
    requires shares { blank.parts ≡ SHARES }
{
    let mut steps = Steps::<L>::new(blank);
    let mut row = Row::room(alloc, 2)?;
    row.push(5u64, &mut steps);
    row.push(6, &mut steps);
    row.set(1, 60, &mut steps);
    *row.entry_mut(0, &mut steps) |= 2;
    let (first, second) = (row.at(0, &mut steps), row.at(1, &mut steps));
    steps.turn();
    steps.turn();
    steps.mark();
    let touches = steps.lap_touches();
    steps.start_lap();
    steps.turn();
    let laps = [
        touches,
        steps.lap_turns(),
        steps.lap_marks(),
        steps.laps(),
        steps.most_lap_turns(),
        steps.most_lap_marks(),
    ];
    Ok(([first, second, row.len() as u64, row.cap() as u64], laps))
}

#[test]
fn steps_are_counted(rt: HostRuntime) -> Result<(), Fail> {
    derived_laws::<CountIn>();
    let (row, laps) = row_and_laps::<Brand>(rt.alloc(), blank())?;
    assert_eq!(rt; row, [7, 60, 2, 2]);
    assert_eq!(rt; laps, [7, 1, 0, 1, 2, 1]);
    let text = NoMemory.to_string(rt.alloc())?;
    assert_eq!(rt; text.as_str(), "no memory");
    Ok(())
}
