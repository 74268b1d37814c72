//! The bounds that the ledger tells, which follow the live count.
use crate::over_memory::{WHOLE, run_words};
use crate::patterns::are_answers;
use program_run::Status;
use std::alloc::{AllocError, Global};
use std::test::Fail;

/// The word of updates, of the points from one number to another, and their bounds of turns and of marks.
type Stretch = (&'static str, u64, u64, u64, u64);

/// Updates, and the answer to a count of points then. The last ones fill a layer: the bounds rise twice for its last seven items.
const STRETCHES: [(&[Stretch], &str); 4] = [
    (
        &[
            ("add", 1, 3, 480, 60),
            ("add", 4, 11, 672, 78),
            ("add", 12, 20, 888, 96),
            ("drop", 1, 10, 888, 96),
            ("drop", 11, 14, 672, 78),
            ("add", 21, 23, 672, 78),
        ],
        "count 9 parts 5/15 touches 1..9999\n",
    ),
    (
        &[
            ("add", 1, 3, 480, 60),
            ("add", 4, 11, 672, 78),
            ("add", 12, 12, 888, 96),
        ],
        "count 12 parts 5/18 touches 1..9999\n",
    ),
    (
        &[
            ("add", 1, 2, 480, 60),
            ("move", 1, 2, 560, 66),
            ("add", 3, 3, 480, 60),
            ("move", 1, 3, 784, 86),
            ("add", 4, 10, 672, 78),
            ("move", 1, 10, 784, 86),
            ("add", 11, 11, 672, 78),
            ("move", 5, 8, 1_036, 106),
            ("drop", 1, 1, 888, 96),
            ("move", 2, 11, 784, 86),
        ],
        "count 10 parts 1..15/15 touches 1..9999\n",
    ),
    (
        &[
            ("add", 1, 3, 480, 60),
            ("add", 4, 11, 672, 78),
            ("add", 12, 27, 888, 96),
            ("add", 28, 59, 1_128, 114),
            ("add", 60, 123, 1_392, 132),
            ("add", 124, 251, 1_680, 150),
            ("add", 252, 507, 1_992, 168),
            ("add", 508, 1_019, 2_328, 186),
            ("add", 1_020, 2_043, 2_688, 204),
            ("add", 2_044, 4_091, 3_072, 222),
            ("add", 4_092, 8_187, 3_480, 240),
            ("add", 8_188, 16_379, 3_912, 258),
            ("add", 16_380, 32_763, 4_368, 276),
            ("add", 32_764, 65_530, 4_848, 294),
            ("move", 1, 1, 5_656, 326),
            ("add", 65_531, 65_531, 4_848, 294),
            ("move", 2, 2, 6_244, 346),
            ("add", 65_532, 65_536, 5_352, 312),
            ("move", 1, 16, 6_244, 346),
            ("drop", 17, 17, 5_352, 312),
        ],
        "count 98 parts 1..54/54 touches 1..311904\n",
    ),
];

/// The most bytes of answers.
const ROOM: usize = 4_194_304;

/// Ends a script with the lines of some updates, and the answers with theirs.
fn push_stretch(
    script: &mut String,
    answers: &mut String,
    stretch: Stretch,
) -> Result<(), AllocError> {
    let (word, first, last, turns, marks) = stretch;
    for id in first..=last {
        let least = if word == "drop" {
            writeln!(script, "drop a {id}")?;
            0
        } else {
            writeln!(script, "{word} a {id} {id} {id} 1")?;
            3
        };
        writeln!(
            answers,
            "ok turns {least}..{turns}/{turns} marks 0..{marks}/{marks}"
        )?;
    }
    Ok(())
}

/// A script of some updates and a count of all points, and its answers.
fn script_of(
    alloc: Global,
    stretches: &[Stretch],
    counted: &str,
) -> Result<(String, String), AllocError> {
    let mut script = String::from_str(alloc, "layer a points range\n")?;
    let mut answers = String::from_str(alloc, "ok\n")?;
    for &stretch in stretches {
        push_stretch(&mut script, &mut answers, stretch)?;
    }
    script.push_str("count a 0 0 99 99\n")?;
    answers.push_str(counted)?;
    Ok((script, answers))
}

#[test]
fn bounds_follow_the_live_count(rt: HostRuntime) -> Result<(), Fail> {
    for (stretches, counted) in STRETCHES {
        let (script, wanted) = script_of(rt.alloc(), stretches, counted)?;
        let script = script.as_bytes();
        let ran = run_words(rt.alloc(), &["--ledger"], script, WHOLE, WHOLE, ROOM)?;
        assert_eq!(rt; ran.status, Status::Clean);
        assert!(rt; are_answers(&ran.written, wanted.as_str()), "{counted}");
    }
    Ok(())
}
