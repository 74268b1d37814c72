//! A line of each form, and lines that are wrong in each way.
use map_shapes::Version;
use script_lang::{Limits, LineFault, parse, parse_number};
use std::alloc::{AllocError, Global};
use std::test::Fail;

/// Lines, each with the plain line of its command, nothing where it says nothing, or its first fault.
const LINES: [(&[u8], Result<&str, LineFault>); 54] = [
    (
        b"layer shops points top near range",
        Ok("layer shops points range near top"),
    ),
    (b"layer s segments stab", Ok("layer s segments stab")),
    (
        b"add abcdefghijklmnop 18446744073709551615 2147483647 0 7",
        Ok("add abcdefghijklmnop 18446744073709551615 2147483647 0 7"),
    ),
    (b"seg a 7 1 2 3", Ok("seg a 7 1 2 3")),
    (b"move a 7 1 2 3", Ok("move a 7 1 2 3")),
    (b"\tdrop  a 007\r", Ok("drop a 7")),
    (b"count a 1 2 3 4", Ok("count a 1 2 3 4")),
    (b"sum a 1 2 3 4", Ok("sum a 1 2 3 4")),
    (b"list a 1 2 3 4", Ok("list a 1 2 3 4")),
    (b"near a 1 2", Ok("near a 1 2")),
    (b"nearest a 64 1 2", Ok("nearest a 64 1 2")),
    (b"above a 1 2 3", Ok("above a 1 2 3")),
    (b"top a 1 2", Ok("top a 1 2")),
    (b"stab a 1", Ok("stab a 1")),
    (b"stabcount a 1", Ok("stabcount a 1")),
    (
        b"get a 0000000000018446744073709551615",
        Ok("get a 18446744073709551615"),
    ),
    (b"\tsize a-_Z9\t\r", Ok("size a-_Z9")),
    (b"recent a 1", Ok("recent a 1")),
    (b"livemap 2", Ok("livemap 2")),
    (b"", Ok("")),
    (b" ", Ok("")),
    (b" \t  ", Ok("")),
    (b"\r", Ok("")),
    (b"#\xff", Ok("")),
    (b"\t#\xff add", Ok("")),
    (b"\0", Err(LineFault::Line)),
    (b"size a\r\r", Err(LineFault::Line)),
    (b"size a\x7f", Err(LineFault::Line)),
    (b"fly \xff", Err(LineFault::Line)),
    (b"Size a", Err(LineFault::Command)),
    (b"fly a!", Err(LineFault::Command)),
    (b"size", Err(LineFault::Fields)),
    (b"size a! a", Err(LineFault::Fields)),
    (b"size a a", Err(LineFault::Fields)),
    (b"layer q points", Err(LineFault::Fields)),
    (b"size abcdefghijklmnopq", Err(LineFault::Name)),
    (b"get a! +1", Err(LineFault::Name)),
    (b"get a +1", Err(LineFault::Number)),
    (b"get a -1", Err(LineFault::Number)),
    (b"near a 1 -0", Err(LineFault::Number)),
    (b"move a 1 2 3", Err(LineFault::Fields)),
    (b"move a 1 2147483648 0 0", Err(LineFault::Range)),
    (
        b"add a 1 99999999999999999999999999 x 0",
        Err(LineFault::Number),
    ),
    (b"get a 18446744073709551616", Err(LineFault::Range)),
    (b"nearest a 65 0 0", Err(LineFault::Range)),
    (b"recent a 0", Err(LineFault::Range)),
    (b"count a 5 9 4 4294967296", Err(LineFault::Range)),
    (b"count a 5 9 4 8", Err(LineFault::Order)),
    (b"seg s 4 9 8 0", Err(LineFault::Order)),
    (b"layer q lines lines", Err(LineFault::Kind)),
    (b"layer q points stab", Err(LineFault::Index)),
    (b"layer b segments range", Err(LineFault::Index)),
    (b"layer q points range range", Err(LineFault::Index)),
    (b"top a 9 0", Err(LineFault::Order)),
];

/// Lines of an index more, of crossings, and of indexes that no layer may have, in the same way.
const FURTHER: [(&[u8], Result<&str, LineFault>); 19] = [
    (b"index a top", Ok("index a top")),
    (b"\tindex  a near\r", Ok("index a near")),
    (b"index a range", Ok("index a range")),
    (b"index a", Err(LineFault::Fields)),
    (b"index a near top", Err(LineFault::Fields)),
    (b"index a! near", Err(LineFault::Name)),
    (b"index a stab", Err(LineFault::Index)),
    (b"index a batch", Err(LineFault::Index)),
    (b"cross a 1 2 2", Ok("cross a 1 2 2")),
    (b"crosscount a 1 2 3", Ok("crosscount a 1 2 3")),
    (b"cross a 4 9", Err(LineFault::Fields)),
    (b"cross a 4 -9 3", Err(LineFault::Number)),
    (b"cross a 2147483648 9 3", Err(LineFault::Range)),
    (b"cross a 4 9 3", Err(LineFault::Order)),
    (b"crosscount a 0 1 0", Err(LineFault::Order)),
    (b"layer a points batch range", Err(LineFault::Index)),
    (b"layer q points range cross", Err(LineFault::Index)),
    (b"layer s segments cross stab", Err(LineFault::Index)),
    (b"layer q segments stab batch", Err(LineFault::Index)),
];

/// Lines of version 2, in the same way.
const SIGNED: [(&[u8], Result<&str, LineFault>); 27] = [
    (b"livemap 02", Ok("livemap 2")),
    (b"livemap", Err(LineFault::Fields)),
    (b"livemap a 1", Err(LineFault::Fields)),
    (b"livemap -2", Err(LineFault::Number)),
    (b"livemap 0", Err(LineFault::Range)),
    (b"livemap 3", Err(LineFault::Range)),
    (
        b"move a 7 -2147483648 2147483647 9",
        Ok("move a 7 -2147483648 2147483647 9"),
    ),
    (b"add a 7 -0 -007 9", Ok("add a 7 0 -7 9")),
    (b"seg a 7 -3 -2 -1", Ok("seg a 7 -3 -2 -1")),
    (b"count a -5 -6 -4 0", Ok("count a -5 -6 -4 0")),
    (b"stab a -1", Ok("stab a -1")),
    (b"cross a -1 -3 -2", Ok("cross a -1 -3 -2")),
    (b"cross a -1 -2 -3", Err(LineFault::Order)),
    (b"count a -4 0 -5 1", Err(LineFault::Order)),
    (b"seg a 7 0 -1 0", Err(LineFault::Order)),
    (b"move a 7 0 0 -1", Err(LineFault::Number)),
    (b"move a -7 0 0 1", Err(LineFault::Number)),
    (b"get a -1", Err(LineFault::Number)),
    (b"nearest a -1 0 0", Err(LineFault::Number)),
    (b"near a - 0", Err(LineFault::Number)),
    (b"near a --1 0", Err(LineFault::Number)),
    (b"near a +1 0", Err(LineFault::Number)),
    (b"near a 1- 0", Err(LineFault::Number)),
    (b"near a -2147483649 0", Err(LineFault::Range)),
    (b"near a 2147483648 0", Err(LineFault::Range)),
    (
        b"near a 0 -99999999999999999999999999",
        Err(LineFault::Range),
    ),
    (b"move a 7 0 0 2147483648", Err(LineFault::Range)),
];

/// The plain line of a line's command, nothing where it says nothing, or its first fault.
fn said(
    alloc: Global,
    line: &[u8],
    version: Version,
) -> Result<Result<Vec<u8>, LineFault>, AllocError> {
    match parse(line, version) {
        Ok(Some(command)) => Ok(Ok(command.line(version, alloc)?)),
        Ok(None) => Ok(Ok(Vec::new(alloc))),
        Err(fault) => Ok(Err(fault)),
    }
}

/// Whether a line of a version is read as that.
fn is_read_as(
    alloc: Global,
    line: &[u8],
    version: Version,
    wanted: Result<&str, LineFault>,
) -> Result<bool, AllocError> {
    Ok(match (said(alloc, line, version)?, wanted) {
        (Ok(plain), Ok(wanted)) => plain.as_slice() == wanted.as_bytes(),
        (Err(fault), Err(wanted)) => fault == wanted,
        _ => false,
    })
}

#[test]
fn lines_are_read_and_written(rt: HostRuntime) -> Result<(), Fail> {
    for (line, wanted) in LINES {
        assert!(rt;
            is_read_as(rt.alloc(), line, Version::One, wanted)?,
            "{line:?}"
        );
    }
    let (least, greatest) = (1, 64);
    assert_eq!(rt; parse_number(b"064", Limits { least, greatest }), Ok(64));
    Ok(())
}

#[test]
fn further_lines_are_read_and_written(rt: HostRuntime) -> Result<(), Fail> {
    for (line, wanted) in FURTHER {
        assert!(rt;
            is_read_as(rt.alloc(), line, Version::One, wanted)?,
            "{line:?}"
        );
    }
    Ok(())
}

#[test]
fn signed_lines_are_read_and_written(rt: HostRuntime) -> Result<(), Fail> {
    for (line, wanted) in SIGNED {
        assert!(rt;
            is_read_as(rt.alloc(), line, Version::Two, wanted)?,
            "{line:?}"
        );
    }
    Ok(())
}
