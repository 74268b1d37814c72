//! The longest lines and the longest script.
use crate::over_memory::{Plan, WHOLE, run_words};
use program_run::Status;
use std::alloc::{AllocError, Global};
use std::test::Fail;

/// A line of `len` bytes that is nothing, but for its length: `#` and then `x`.
fn comment(alloc: Global, len: usize) -> Result<Vec<u8>, AllocError> {
    let mut line = vec![in alloc; b'x'; len]?;
    if let Some(first) = line.first_mut() {
        *first = b'#';
    }
    Ok(line)
}

/// Lengths of lines, the places of a carriage return in them, and whether the line is too long.
const LONG: [(usize, usize, bool); 13] = [
    (256, 256, false),
    (257, 257, true),
    (255, 254, false),
    (256, 255, false),
    (256, 254, false),
    (257, 256, false),
    (257, 255, true),
    (258, 257, true),
    (258, 256, true),
    (259, 258, true),
    (260, 256, true),
    (300, 256, true),
    (300, 299, true),
];

/// A piece ends at each of these places about the end of a line.
const CUTS: [usize; 6] = [254, 255, 256, 257, 258, 259];

#[test]
fn lines_have_256_bytes(rt: HostRuntime) -> Result<(), Fail> {
    for (len, place, is_refused) in LONG {
        let mut script = comment(rt.alloc(), len)?;
        if let Some(byte) = script.get_mut(place) {
            *byte = b'\r';
        }
        script.extend_from_slice(b"\nsize a\n")?;
        let wanted = if is_refused {
            b"no line\nno layer\n".as_slice()
        } else {
            b"no layer\n".as_slice()
        };
        for piece in CUTS {
            let reads = Plan { piece, failing: 0 };
            let ran = run_words(rt.alloc(), &[], &script, reads, WHOLE, 64)?;
            assert_eq!(rt; ran.written.as_slice(), wanted, "{len} bytes in {piece}");
        }
    }
    Ok(())
}

/// A question, and a comment that no line feed ends: so many bytes together.
fn question_and_comment(alloc: Global, len: usize) -> Result<Vec<u8>, AllocError> {
    let mut script = Vec::with_capacity(alloc, len)?;
    script.extend_from_slice(b"size a\n")?;
    let left = len.saturating_sub(script.len());
    script.extend_from_slice(&comment(alloc, left)?)?;
    Ok(script)
}

/// A script of the greatest length, whose last line is longer than a line can be; and one of a byte more, of which only the lines that a line
/// feed ended are answered.
#[test]
fn scripts_have_64_mebibytes(rt: HostRuntime) -> Result<(), Fail> {
    for (len, wanted, status) in [
        (
            67_108_864,
            b"no layer\nno line\n".as_slice(),
            Status::Refusals,
        ),
        (67_108_865, b"no layer\n", Status::TooLong),
    ] {
        let script = question_and_comment(rt.alloc(), len)?;
        let ran = run_words(rt.alloc(), &[], &script, WHOLE, WHOLE, 64)?;
        assert_eq!(rt; (ran.status, ran.written.as_slice()), (status, wanted));
    }
    assert_eq!(rt; Status::TooLong.code(), 5);
    Ok(())
}
