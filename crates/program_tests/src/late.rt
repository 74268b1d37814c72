//! Indexes that are made late.
use crate::over_memory::{WHOLE, run_words};
use crate::scripts::{LEDGER, Row, is_answered};
use program_run::Status;
use std::alloc::{AllocError, Global};
use std::test::Fail;

const ROWS: [Row; 9] = [
    // Four items an update, with one that is dropped and one that comes.
    (
        &[],
        b"layer a points range\nadd a 1 1 1 1\nadd a 2 2 2 1\nadd a 3 3 3 1\nadd a 4 4 4 1\nadd a 5 5 5 1\nadd a 6 6 6 1\nadd a 7 7 7 1\nadd a 8 8 8 1\nadd a 9 9 9 1\nadd a 10 10 10 1\nindex a near\nnear a 0 0\ndrop a 1\nnear a 0 0\nadd a 11 11 11 1\nnear a 0 0\nadd a 12 12 12 1\nnear a 0 0\nindex a near\n",
        "ok\nok\nok\nok\nok\nok\nok\nok\nok\nok\nok\nok\nno building 10\nok\nno building 6\nok\nno building 3\nok\nnear 2 8\nno taken\n",
        true,
    ),
    // Ready at once where there is no item.
    (
        &[],
        b"layer a points range\nindex a top\ntop a 0 9\nindex a stab\nindex b near\n",
        "ok\nok\ntop none\nno index\nno layer\n",
        true,
    ),
    // A dropped item that it wasn't handed isn't waited for; a moved one is, as the last.
    (
        &[],
        b"layer a points near\nadd a 1 1 1 1\nadd a 2 2 2 1\nadd a 3 3 3 1\nadd a 4 4 4 1\nadd a 5 5 5 1\nadd a 6 6 6 1\nindex a top\ndrop a 6\ntop a 0 9\nmove a 1 9 9 1\ntop a 0 9\n",
        "ok\nok\nok\nok\nok\nok\nok\nok\nok\nno building 1\nok\ntop 1 9\n",
        true,
    ),
    // All that it waits for is dropped, and then all items; and once more of a layer without any.
    (
        &[],
        b"layer a points range\nadd a 1 1 1 1\nadd a 2 2 2 1\nadd a 3 3 3 1\nadd a 4 4 4 1\nadd a 5 5 5 1\nindex a top\ndrop a 5\ntop a 0 9\ndrop a 1\ndrop a 2\ndrop a 3\ndrop a 4\ntop a 0 9\nindex a near\nnear a 0 0\nadd a 1 1 1 1\nnear a 0 0\n",
        "ok\nok\nok\nok\nok\nok\nok\nok\ntop 4 4\nok\nok\nok\nok\ntop none\nok\nnear none\nok\nnear 1 2\n",
        false,
    ),
    // Moves while it is built: of an item that it has, of one that it hasn't, and of the last. A refused update is none.
    (
        &[],
        b"layer a points near\nadd a 1 1 1 1\nadd a 2 2 2 1\nadd a 3 3 3 1\nadd a 4 4 4 1\nadd a 5 5 5 1\nadd a 6 6 6 1\nadd a 7 7 7 1\nadd a 8 8 8 1\nadd a 9 9 9 1\nadd a 10 10 10 1\nadd a 11 11 11 1\nadd a 12 12 12 1\nindex a range\nmove a 1 20 20 2\ncount a 0 0 99 99\nmove a 1 21 21 3\nsum a 0 0 99 99\nadd a 1 0 0 0\ndrop a 99\nlist a 0 0 99 99\nmove a 12 30 30 5\nsum a 0 0 99 99\nadd a 13 40 40 7\nsum a 0 0 99 99\ncount a 0 0 12 12\nlist a 13 13 99 99\n",
        "ok\nok\nok\nok\nok\nok\nok\nok\nok\nok\nok\nok\nok\nok\nok\nno building 9\nok\nno building 5\nno duplicate 1\nno unknown 99\nno building 5\nok\nno building 2\nok\nsum 25\ncount 10\nlist 1 12 13\n",
        true,
    ),
    // Two late ones beside one that was there.
    (
        &[],
        b"layer a points near\nadd a 1 1 1 1\nadd a 2 2 2 1\nadd a 3 3 3 1\nindex a range\nindex a top\ncount a 0 0 9 9\ntop a 0 9\nnear a 0 0\nadd a 4 4 4 4\ncount a 0 0 9 9\nsum a 0 0 9 9\nlist a 0 0 9 9\ntop a 0 9\nabove a 0 9 3\ndrop a 4\nsum a 0 0 9 9\ntop a 0 9\n",
        "ok\nok\nok\nok\nok\nok\nno building 3\nno building 3\nnear 1 2\nok\ncount 4\nsum 7\nlist 1 2 3 4\ntop 4 4\nabove 3 4\nok\nsum 3\ntop 3 3\n",
        true,
    ),
    // Two wait for different numbers, beside moves, and the last items that they wait for are dropped. Other questions are answered meanwhile.
    (
        &[],
        b"layer a points range\nadd a 1 1 1 1\nadd a 2 2 2 1\nadd a 3 3 3 1\nadd a 4 4 4 1\nadd a 5 5 5 1\nadd a 6 6 6 1\nadd a 7 7 7 1\nadd a 8 8 8 1\nadd a 9 9 9 1\nadd a 10 10 10 1\nindex a near\nmove a 1 20 20 5\nindex a top\nnear a 0 0\ntop a 0 99\nsize a\nget a 1\nrecent a 2\ncount a 0 0 9 9\nmove a 10 30 30 7\nnear a 0 0\ntop a 0 99\ndrop a 10\nnear a 30 30\ntop a 0 99\ndrop a 1\ntop a 0 99\nnear a 30 30\n",
        "ok\nok\nok\nok\nok\nok\nok\nok\nok\nok\nok\nok\nok\nok\nno building 7\nno building 10\nsize 10\nget 20 20 5\nrecent 1 10\ncount 8\nok\nno building 3\nno building 6\nok\nnear 1 200\nno building 1\nok\ntop 9 9\nnear 9 882\n",
        true,
    ),
    // The first fault of each line.
    (
        &[],
        b"layer a points range\nlayer s segments stab\nindex\nindex a\nindex a near top\nindex a! near\nindex b stab\nindex b cross\nindex b top\nindex s range\nindex s stab\nindex a range\nindex a near\nindex a near\n",
        "ok\nok\nno fields\nno fields\nno fields\nno name\nno index\nno index\nno layer\nno kind\nno index\nno taken\nok\nno taken\n",
        true,
    ),
    // Bounds are of both indexes from the line on.
    (
        LEDGER,
        b"layer a points range\nadd a 1 1 1 1\nadd a 2 2 2 1\nadd a 3 3 3 1\nadd a 4 4 4 1\nadd a 5 5 5 1\nindex a near\ndrop a 1\nnear a 0 0\nadd a 6 6 6 1\nnear a 0 0\nmove a 6 1 1 1\n",
        "ok\nok turns 3..480/480 marks 0..60/60\nok turns 3..480/480 marks 0..60/60\nok turns 3..480/480 marks 0..60/60\nok turns 3..672/672 marks 0..78/78\nok turns 3..672/672 marks 0..78/78\nok\nok turns 0..1344/1344 marks 1..156/156\nno building 1\nok turns 6..1344/1344 marks 0..156/156\nnear 2 8 parts 1..15/15 touches 1..9999\nok turns 6..1568/1568 marks 1..172/172\n",
        true,
    ),
];

/// A thousand points, an index made late, and as many adds as it takes until it answers, with its answers before and after; and all answers.
fn catching_up(alloc: Global) -> Result<(String, String), AllocError> {
    let mut script = String::from_str(alloc, "layer a points range\n")?;
    let mut answers = String::from_str(alloc, "ok\n")?;
    for id in 0..1_000u32 {
        writeln!(script, "add a {id} {id} 0 1")?;
        answers.push_str("ok\n")?;
    }
    script.push_str("index a near\n")?;
    answers.push_str("ok\n")?;
    for added in 0..333u32 {
        writeln!(script, "near a 0 0\nadd a {} 0 {added} 1", 1_000 + added)?;
        writeln!(answers, "no building {}\nok", 1_000 - 3 * added)?;
    }
    script.push_str("near a 0 0\nnearest a 3 5 0\ncount a 0 0 0 332\n")?;
    answers.push_str("near 0 0\nnearest 5 0 4 1 6 1\ncount 334\n")?;
    Ok((script, answers))
}

#[test]
fn late_indexes_catch_up(rt: HostRuntime) -> Result<(), Fail> {
    for row in &ROWS {
        assert!(rt; is_answered(rt.alloc(), row)?, "{:?}", row.1);
    }
    let (script, wanted) = catching_up(rt.alloc())?;
    let ran = run_words(rt.alloc(), &[], script.as_bytes(), WHOLE, WHOLE, 65_536)?;
    assert_eq!(rt; ran.status, Status::Refusals);
    assert!(rt; ran.written.as_slice() == wanted.as_bytes());
    Ok(())
}
