//! The largest numbers of a reply, and the pieces in which a sink is handed one.
ghost use Rattle.std.specs.Prelude.{◌<◌};

use answer_text::{Refusal, Reply, write_reply};
use map_io::{MemSink, WriteFault};
use map_questions::AnyAnswer;
use map_shapes::{
    Found, FoundList, IdList, Peak, QuestionCost, Shape, Spent, SpentAtOnce, UpdateCost, Version,
};
use std::alloc::{AllocError, Global};
use std::test::Fail;

const LARGEST: &str =
    "ok turns 18446744073709551615/18446744073709551615 marks 0/18446744073709551615\n";

/// Shapes as they are kept, each with its line of a version.
const SHAPES: [(Version, Shape, &str); 5] = [
    (
        Version::Two,
        Shape::Point {
            x: 0,
            y: 2_147_483_647,
            w: 2_147_483_647,
        },
        "get -2147483648 -1 2147483647\n",
    ),
    (
        Version::Two,
        Shape::Point {
            x: 2_147_483_648,
            y: 4_294_967_295,
            w: 0,
        },
        "get 0 2147483647 0\n",
    ),
    (
        Version::Two,
        Shape::Segment {
            lo: 2_147_483_643,
            hi: 2_147_483_649,
            y: 0,
        },
        "get -5 1 -2147483648\n",
    ),
    (
        Version::One,
        Shape::Point {
            x: 0,
            y: 2_147_483_647,
            w: 7,
        },
        "get 0 2147483647 7\n",
    ),
    (
        Version::One,
        Shape::Segment { lo: 1, hi: 2, y: 0 },
        "get 1 2 0\n",
    ),
];

/// An answer with a cost.
fn answered(answer: AnyAnswer) -> Reply {
    let asked = QuestionCost {
        parts: 5,
        part_bound: 15,
        touches: 99,
    };
    Reply::Answered { answer, asked }
}

/// `list` with 7 so many times, and then one of two digits: 8 bytes with its line feed, and 2 for each 7.
fn list_of(alloc: Global, sevens: usize) -> Result<Reply, AllocError> {
    let mut ids = vec![in alloc; 7u64; sevens]?;
    ids.push(10)?;
    Ok(answered(AnyAnswer::Listed(IdList::from(ids))))
}

/// Answers with distances or heights, each with its line of version 2.
fn told() -> [(Reply, &'static str); 4] {
    let farthest = Found::new(3, u32::MAX, u32::MAX);
    let mut found = FoundList::new();
    found.push(Found::new(u64::MAX, 4_294_967_295, 92_682));
    found.push(farthest);
    let highest = Peak {
        y: 2_147_483_647,
        id: 0,
    };
    [
        (
            answered(AnyAnswer::NearestOne(Some(farthest))),
            "near 3 36893488130239234050\n",
        ),
        (
            answered(AnyAnswer::NearestOnes(found)),
            "nearest 18446744073709551615 18446744073709570149 3 36893488130239234050\n",
        ),
        (answered(AnyAnswer::Highest(Some(highest))), "top 0 -1\n"),
        (answered(AnyAnswer::CrossCounted(7)), "crosscount 7\n"),
    ]
}

/// How a reply's line ends with the ledger or without it, and what is written, where one call fails.
fn written_before(
    alloc: Global,
    reply: &Reply,
    ledger: bool,
    version: Version,
    call: u64,
) -> Result<(Result<(), WriteFault>, Vec<u8>), AllocError>
    requires { 0 < call }
{
    let failing = vec![in alloc; call]?;
    let mut sink = MemSink::new(vec![in alloc; 0u8; 300]?, 300, failing);
    let ended = write_reply(reply, ledger, version, &mut sink);
    Ok((ended, Vec::from_slice(alloc, sink.written())?))
}

#[test]
fn replies_are_written(rt: HostRuntime) -> Result<(), Fail> {
    let spent = Spent {
        turns: u64::MAX,
        turn_bound: u64::MAX,
        marks: 0,
        mark_bound: u64::MAX,
    };
    let spent = UpdateCost::Spread(spent);
    let updated = Reply::Updated { spent };
    let (_, line) = written_before(rt.alloc(), &updated, true, Version::One, 3)?;
    assert_eq!(rt; line.as_slice(), LARGEST.as_bytes());
    let spent = UpdateCost::AtOnce(SpentAtOnce {
        turns: 0,
        total: 15,
        turn_bound: 120,
        marks: 1,
        mark_bound: 3,
    });
    let updated = Reply::Updated { spent };
    let (_, line) = written_before(rt.alloc(), &updated, true, Version::One, 3)?;
    assert_eq!(rt;
        line.as_slice(),
        b"ok turns 0 total 15/120 marks 1/3\n".as_slice()
    );
    let cause = Refusal::Building { items: 65_536 };
    let refused = Reply::Refused { cause };
    let (_, line) = written_before(rt.alloc(), &refused, true, Version::One, 2)?;
    assert_eq!(rt; line.as_slice(), b"no building 65536\n".as_slice());
    let cause = Refusal::NoMemory;
    let refused = Reply::Refused { cause };
    let (_, line) = written_before(rt.alloc(), &refused, true, Version::Two, 2)?;
    assert_eq!(rt; line.as_slice(), b"no memory\n".as_slice());
    Ok(())
}

#[test]
fn numbers_of_a_version_are_written(rt: HostRuntime) -> Result<(), Fail> {
    for (version, shape, wanted) in SHAPES {
        let (_, line) = written_before(rt.alloc(), &Reply::Got { shape }, true, version, 3)?;
        assert_eq!(rt; line.as_slice(), wanted.as_bytes());
    }
    for (reply, wanted) in told() {
        let (_, line) = written_before(rt.alloc(), &reply, false, Version::Two, 3)?;
        assert_eq!(rt; line.as_slice(), wanted.as_bytes());
    }
    Ok(())
}

/// A line of at most 64 bytes is one call, and a longer one fills each piece but the last.
#[test]
fn pieces_have_64_bytes(rt: HostRuntime) -> Result<(), Fail> {
    for (sevens, call, wanted) in [
        (28, 1, (false, 0)),
        (28, 2, (true, 64)),
        (29, 2, (false, 64)),
        (29, 3, (true, 66)),
        (100, 4, (false, 192)),
        (100, 5, (true, 208)),
    ] {
        let reply = list_of(rt.alloc(), sevens)?;
        let (ended, line) = written_before(rt.alloc(), &reply, false, Version::One, call)?;
        assert_eq!(rt;
            (ended.is_ok(), line.len()),
            wanted,
            "{sevens} in call {call}"
        );
    }
    Ok(())
}
