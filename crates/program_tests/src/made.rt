//! The first commands of made scripts, by another program that was written from the definition.
use map_shapes::Version;
use std::alloc::Global;
use std::test::Fail;
use workload_gen::Workload;

/// Seeds, rounds, and the lines. With the seeds 5 and 7 the first round would drop, where nothing is there yet.
const SCRIPTS: [(u64, u32, &str); 3] = [
    (
        0,
        12,
        "layer made points range near top\nadd made 0 106638 634727 410\nadd made 1 588103 82953 364\ntop made 468270 533805\ndrop made 1\nadd made 1 51002 102033 934\nadd made 2 538154 1022051 218\ncount made 716715 785526 782250 851061\ndrop made 0\ncount made 508254 475256 573789 540791\nadd made 3 455798 79393 616\nadd made 4 55827 692040 183\nnear made 762012 727047\n",
    ),
    (
        5,
        1,
        "layer made points range near top\nadd made 0 147054 860360 316\n",
    ),
    (
        7,
        1,
        "layer made points range near top\nadd made 0 1002081 950613 279\n",
    ),
];

/// The lines of a made script.
fn made_lines(alloc: Global, seed: u64, rounds: u32) -> Result<Vec<u8>, Fail> {
    let mut script = Vec::new(alloc);
    for command in Workload::new(seed, rounds) {
        script.extend_from_slice(&command.line(Version::One, alloc)?)?;
        script.push(b'\n')?;
    }
    Ok(script)
}

#[test]
fn scripts_are_made(rt: HostRuntime) -> Result<(), Fail> {
    for (seed, rounds, wanted) in SCRIPTS {
        let script = made_lines(rt.alloc(), seed, rounds)?;
        assert!(rt; script.as_slice() == wanted.as_bytes(), "{seed}");
    }
    Ok(())
}
