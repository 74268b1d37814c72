//! Scripts and their answers, at once and in pieces.
use crate::over_memory::{Plan, WHOLE, run_words};
use crate::patterns::are_answers;
use program_run::Status;
use std::alloc::{AllocError, Global};
use std::test::Fail;

/// Two points at opposite corners, counted and weighed.
const CORNERS: &[u8] =
    b"layer a points range\nadd a 1 0 0 2147483647\nadd a 2 2147483647 2147483647 2147483647\ncount a 0 0 2147483647 2147483647\nsum a 0 0 2147483647 2147483647\n";

const CORNERS_ANSWERED: &str = "ok\nok\nok\ncount 2\nsum 4294967294\n";

/// An identifier twice, one that isn't there, and five updates.
const IDENTIFIERS: &[u8] =
    b"layer a points range\nadd a 7 1 1 1\nadd a 7 2 2 2\ndrop a 8\nmove a 8 1 1 1\nmove a 7 2 3 4\nget a 7\nget a 8\nsize a\n";

pub const LEDGER: &[&str] = &["--ledger"];

/// Words, a script, its answers, in which `A..B` stands for a number from A to B, and whether a line is refused.
pub type Row = (&'static [&'static str], &'static [u8], &'static str, bool);

const ROWS: [Row; 33] = [
    (&[], b"", "", false),
    (
        &[],
        b"layer a points range\ncount a 0 0 9 9\n",
        "ok\ncount 0\n",
        false,
    ),
    (&[], CORNERS, CORNERS_ANSWERED, false),
    (
        &[],
        IDENTIFIERS,
        "ok\nok\nno duplicate 7\nno unknown 8\nno unknown 8\nok\nget 2 3 4\nno unknown 8\nsize 1\n",
        true,
    ),
    // An item is dropped and added again while the part that it is in is a source.
    (
        &[],
        b"layer a points range\nadd a 7 5 5 1\nadd a 1 1 1 1\nadd a 2 2 2 1\nadd a 3 3 3 1\nadd a 4 4 4 1\ndrop a 7\nadd a 7 5 5 1\nadd a 5 20 20 1\nadd a 6 20 20 1\nadd a 8 20 20 1\nadd a 9 20 20 1\nadd a 10 20 20 1\nadd a 11 20 20 1\nadd a 12 20 20 1\nlist a 0 0 99 99\nsum a 0 0 99 99\n",
        "ok\nok\nok\nok\nok\nok\nok\nok\nok\nok\nok\nok\nok\nok\nok\nlist 1 2 3 4 5 6 7 8 9 10 11 12\nsum 12\n",
        false,
    ),
    (
        &[],
        b"layer a points range\nadd a 1 1 1 1\nadd a 2 2 2 1\nadd a 3 3 3 1\nadd a 4 4 4 1\nadd a 5 5 5 1\ndrop a 1\nadd a 6 6 6 1\nadd a 7 7 7 1\nadd a 8 8 8 1\nlist a 0 0 9 9\n",
        "ok\nok\nok\nok\nok\nok\nok\nok\nok\nok\nlist 2 3 4 5 6 7 8\n",
        false,
    ),
    // Lines that say nothing, and the first fault of each other one, over one empty layer. The long ones have 250 and 251 spaces.
    (
        &[],
        b"layer a points range\n \n#\xff\n\0\n\tsize a\t\r\nsize a\r\r\nsize a\x7f\nsize a                                                                                                                                                                                                                                                          \r\nsize a                                                                                                                                                                                                                                                           \nSize a\nsize\nsize a a\nsize abcdefghijklmnopq\nget a +1\nget a -1\nget a 18446744073709551616\nget a 0000000000018446744073709551615\nadd a 1 99999999999999999999999999 x 0\ncount a 5 9 4 4294967296\ncount a 5 9 4 8\nlayer b segments range\ncount zz 5 0 4 9\nadd a 1 2147483648 0 0\nlayer q lines range\nlayer q points stab\nlayer q points range range\nlayer q points\ncount a 1 2 3\nfly a\nsize a!\nsize q\nsize a\n",
        "ok\nno line\nsize 0\nno line\nno line\nsize 0\nno line\nno command\nno fields\nno fields\nno name\nno number\nno number\nno range\nno unknown 18446744073709551615\nno number\nno range\nno order\nno index\nno order\nno range\nno kind\nno index\nno index\nno fields\nno fields\nno command\nno name\nno layer\nsize 0\n",
        true,
    ),
    (&[], b"   \nlayer a points range", "ok\n", false),
    // Carriage returns, tabs, and no last line feed.
    (
        &[],
        b"layer\ta\tpoints\trange\r\nadd\ta\t1\t0\t0\t2147483647\r\nadd\ta\t2\t2147483647\t2147483647\t2147483647\r\ncount\ta\t0\t0\t2147483647\t2147483647\r\nsum\ta\t0\t0\t2147483647\t2147483647\r",
        CORNERS_ANSWERED,
        false,
    ),
    // The newest first, of a layer of each kind: after a drop of the newest, and of one that was dropped and came again.
    (
        &[],
        b"layer a points range\nlayer s segments stab\nrecent a 3\nadd a 5 0 0 0\nadd a 9 1 0 0\nadd a 7 2 0 0\nrecent a 64\nrecent a 2\ndrop a 7\nrecent a 2\ndrop a 5\nadd a 5 0 0 0\nrecent a 1\nseg s 4 0 9 0\nrecent s 2\nrecent a 0\nrecent a 65\nrecent b 1\n",
        "ok\nok\nrecent none\nok\nok\nok\nrecent 7 9 5\nrecent 7 9\nok\nrecent 9 5\nok\nok\nrecent 5\nok\nrecent 4\nno range\nno range\nno layer\n",
        true,
    ),
    // Near points, segments over a place, high points.
    (
        &[],
        b"layer a points near\nadd a 9 0 1 0\nadd a 4 1 0 0\nnear a 0 0\nnearest a 2 0 0\n",
        "ok\nok\nok\nnear 4 1\nnearest 4 1 9 1\n",
        false,
    ),
    (
        &[],
        b"layer a points near\nnear a 0 0\nadd a 1 0 0 0\nnear a 2147483647 2147483647\n",
        "ok\nnear none\nok\nnear 1 9223372028264841218\n",
        false,
    ),
    (
        &[],
        b"layer a points near\ncount a 0 0 1 1\nnearest a 3 0 0\nstab a 5\nnearest a 0 0 0\nnearest a 65 0 0\nnear b 0 0\n",
        "ok\nno index\nnearest none\nno kind\nno range\nno range\nno layer\n",
        true,
    ),
    (
        &[],
        b"layer s segments stab\nseg s 2 2 5 0\nseg s 1 5 5 3\nseg s 3 6 9 1\nstab s 5\nstabcount s 5\nstab s 10\nget s 1\nseg s 4 9 8 0\n",
        "ok\nok\nok\nok\nstab 1 2\nstabcount 2\nstab none\nget 5 5 3\nno order\n",
        true,
    ),
    (
        &[],
        b"layer s segments stab\nlayer p points range near\nadd s 1 0 0 0\nseg p 1 0 0 0\ncount s 0 0 9 9\nnear s 0 0\nstab p 0\nstabcount q 0\nlayer t segments range\nseg s 1 0 2147483647 0\nseg s 1 0 0 0\ndrop s 2\n",
        "ok\nok\nno kind\nno kind\nno kind\nno kind\nno kind\nno layer\nno index\nok\nno duplicate 1\nno unknown 2\n",
        true,
    ),
    (
        &[],
        b"layer a points top\nadd a 8 3 7 0\nadd a 2 9 7 0\nadd a 5 4 1 0\ntop a 0 9\nabove a 0 9 7\nabove a 0 9 8\ntop a 5 8\n",
        "ok\nok\nok\nok\ntop 2 7\nabove 2 8\nabove none\ntop none\n",
        false,
    ),
    // Two points of one place and height, and then each highest one is dropped.
    (
        &[],
        b"layer a points top\nadd a 8 3 7 0\nadd a 2 3 7 0\nadd a 5 4 1 0\ntop a 0 9\ndrop a 2\ntop a 0 9\ndrop a 8\ntop a 0 9\ndrop a 5\ntop a 0 9\ntop a 9 0\n",
        "ok\nok\nok\nok\ntop 2 7\nok\ntop 8 7\nok\ntop 5 1\nok\ntop none\nno order\n",
        true,
    ),
    // Eight layers of both kinds, and no ninth.
    (
        &[],
        b"layer l1 points range\nlayer l2 points range\nlayer l3 points range\nlayer l4 points range\nlayer l5 points range\nlayer l6 points range\nlayer l7 points range\nlayer l8 segments stab\nlayer l9 points near\nlayer l1 points range\nstab l1 5\nnear l1 0 0\ncount l9 0 0 1 1\ncount l8 0 0 1 1\nadd l8 1 0 0 0\n",
        "ok\nok\nok\nok\nok\nok\nok\nok\nno room\nno taken\nno kind\nno index\nno layer\nno kind\nno kind\n",
        true,
    ),
    // Sets of indexes of points: a question to each index, of a layer that has it or not.
    (
        &[],
        b"layer a points near top\nlayer b points range top\nlayer c points range near\nadd a 1 1 1 1\nadd b 1 1 1 1\nadd c 1 1 1 1\ncount a 0 0 9 9\nnear a 0 0\ntop a 0 9\ncount b 0 0 9 9\nnear b 0 0\ntop b 0 9\ncount c 0 0 9 9\nnear c 0 0\ntop c 0 9\n",
        "ok\nok\nok\nok\nok\nok\nno index\nnear 1 2\ntop 1 1\ncount 1\nno index\ntop 1 1\ncount 1\nnear 1 2\nno index\n",
        true,
    ),
    // Line feeds that come as the first byte of a piece, and as its last.
    (&[], b"size a\n\n\n#\nsize b", "no layer\nno layer\n", true),
    (
        LEDGER,
        b"layer a points range\ncount a 0 0 9 9\nadd a 1 0 0 1\ncount a 0 0 9 9\nlayer b points range near top\nadd b 1 0 0 1\nsize b",
        "ok\ncount 0 parts 0/12 touches 0\nok turns 3..8/480 marks 0/60\ncount 1 parts 1/12 touches 1..64\nok\nok turns 9..24/1440 marks 0/180\nsize 1\n",
        false,
    ),
    (
        LEDGER,
        b"layer b points range near\nadd b 1 5 5 2\nnear b 0 0\ncount b 0 0 9 9",
        "ok\nok turns 6..16/960 marks 0/120\nnear 1 50 parts 1/12 touches 1..32\ncount 1 parts 1/12 touches 1..32\n",
        false,
    ),
    (
        LEDGER,
        b"layer s segments stab\nseg s 7 1 2 5\nstab s 2\nstabcount s 3\ndrop s 7\nstabcount s 2",
        "ok\nok turns 3..8/480 marks 0/60\nstab 7 parts 1/12 touches 1..64\nstabcount 0 parts 1/12 touches 1..32\nok turns 0/480 marks 1/60\nstabcount 0 parts 0..12/12 touches 0..384\n",
        false,
    ),
    // A refused line and one that says nothing tell nothing.
    (
        LEDGER,
        b"layer a points range\nadd a 1 1 1 1\nadd a 1 1 1 1\ndrop a 2\n# a remark\ncount b 0 0 1 1\ncount a 0 0 1 1",
        "ok\nok turns 3..8/480 marks 0/60\nno duplicate 1\nno unknown 2\nno layer\ncount 1 parts 1/12 touches 1..64\n",
        true,
    ),
    (
        LEDGER,
        b"layer a points range\nadd a 1 1 1 1\nget a 1\nsize a\nrecent a 1",
        "ok\nok turns 3..8/480 marks 0/60\nget 1 1 1\nsize 1\nrecent 1\n",
        false,
    ),
    // Version 2: the corners, and what is a number of it.
    (
        &[],
        b"livemap 2\nlayer a points range near top\nadd a 1 -2147483648 -2147483648 5\nnear a 2147483647 2147483647\ncount a -2147483648 -2147483648 -1 -1\nget a 1\ntop a -2147483648 0\nadd a 2 -0 -5 1\nget a 2\nadd a 3 0 0 -1\nadd a 3 -2147483649 0 0\nlivemap 1\n",
        "ok\nok\nok\nnear 1 36893488130239234050\ncount 1\nget -2147483648 -2147483648 5\ntop 1 -2147483648\nok\nget 0 -5 1\nno number\nno range\nno version\n",
        true,
    ),
    (
        &[],
        b"livemap 02\nlayer a points range near top\nadd a 1 - 0 0\nadd a 1 --1 0 0\nadd a 1 +1 0 0\nadd a -1 0 0 0\nadd a 1 2147483648 0 0\nadd a 1 0 -99999999999999999999 0\nadd a 1 -99999999999999999999 x 0\nadd a 1 0 0 2147483648\ncount a 5 0 -5 0\ntop a -5 -0006\nnearest a -1 0 0\nnear a 0 1-\nadd a 1 -000000000000000000007 -8 2147483647\nget a 1\n",
        "ok\nok\nno number\nno number\nno number\nno number\nno range\nno range\nno number\nno range\nno order\nno order\nno number\nno number\nok\nget -7 -8 2147483647\n",
        true,
    ),
    (
        &[],
        b"livemap 2\nlayer a points range near top\nlayer s segments stab\nadd a 1 -3 -4 6\nadd a 2 3 4 7\nadd a 3 -3 9 8\nsum a -9 -9 -1 -1\nlist a -3 -4 3 4\nnear a -1 -1\nnearest a 2 -3 -4\nabove a -3 -1 -4\ntop a -9 9\nmove a 3 -5 -6 0\ntop a -9 -1\nget a 3\nseg s 1 -5 -1 -9\nseg s 2 -1 3 0\nseg s 3 3 -3 0\nstab s -1\nstab s -6\nstabcount s 0\nget s 1\n",
        "ok\nok\nok\nok\nok\nok\nsum 6\nlist 1 2\nnear 1 13\nnearest 1 0 2 100\nabove 1 3\ntop 3 9\nok\ntop 1 -4\nget -5 -6 0\nok\nok\nno order\nstab 1 2\nstab none\nstabcount 1\nget -5 -1 -9\n",
        true,
    ),
    // One that was dropped stands at the highest place that there is.
    (
        &[],
        b"livemap 2\nlayer a points range\nadd a 1 5 2147483647 1\nadd a 2 6 2147483647 1\ndrop a 2\ncount a 0 0 9 2147483647\nsum a 0 0 9 2147483647\nlist a 0 0 9 2147483647\n",
        "ok\nok\nok\nok\nok\ncount 1\nsum 1\nlist 1\n",
        false,
    ),
    // A version is chosen again while no layer stands, and stays when one does.
    (
        &[],
        b"livemap\nlivemap x\nlivemap 3\nlivemap 0\nlivemap -1\nlivemap 1 1\nlivemap 2\nlivemap 1\nlayer a points range\nadd a 1 -1 0 0\nlivemap 2\nadd a 1 -1 0 0\nlivemap 1\nadd a 1 1 0 0\nget a 1\n",
        "no fields\nno number\nno range\nno range\nno number\nno fields\nok\nok\nok\nno number\nno version\nno number\nno version\nok\nget 1 0 0\n",
        true,
    ),
    // A move: the point has left its old place, and is the newest.
    (
        &[],
        b"layer a points range near top\nlayer s segments stab\nadd a 1 1 1 1\nadd a 2 2 2 2\nadd a 3 3 3 3\nmove a 1 7 7 9\nrecent a 3\ncount a 0 0 6 6\nlist a 5 5 7 7\nsum a 0 0 9 9\nnear a 1 1\nnearest a 3 7 7\ntop a 0 6\ntop a 0 9\nabove a 0 9 3\nget a 1\nsize a\nmove a 1 7 7 9\nmove a 3 0 0 0\nrecent a 64\ndrop a 1\nmove a 1 0 0 0\nlist a 0 0 9 9\nseg s 4 0 9 0\nmove s 4 0 0 0\nmove s 5 0 0 0\nmove b 4 0 0 0\nmove a 1 2 3\nmove a 1 x 0 0\nmove a 1 0 -1 0\nmove a 1 0 2147483648 0\nmove a! 1 0 0 0\n",
        "ok\nok\nok\nok\nok\nok\nrecent 1 3 2\ncount 2\nlist 1\nsum 14\nnear 2 2\nnearest 1 0 3 32 2 50\ntop 3 3\ntop 1 7\nabove 1 3\nget 7 7 9\nsize 3\nok\nok\nrecent 3 1 2\nok\nno unknown 1\nlist 2 3\nok\nno kind\nno kind\nno layer\nno fields\nno number\nno number\nno range\nno name\n",
        true,
    ),
    (
        LEDGER,
        b"layer a points range\nadd a 1 1 1 1\nadd a 2 2 2 2\nmove a 1 5 5 9\nrecent a 2\nget a 1\nmove a 3 0 0 0\ncount a 0 0 9 9\n",
        "ok\nok turns 3..8/480 marks 0/60\nok turns 3..28/480 marks 0/60\nok turns 3..8/560 marks 2..3/66\nrecent 1 2\nget 5 5 9\nno unknown 3\ncount 2 parts 2/12 touches 2..800\n",
        true,
    ),
    (
        LEDGER,
        b"livemap 2\nlayer a points range near top\nadd a 1 -1 -1 1\nadd a 2 -2 -2 2\nmove a 1 -5 -5 9\nnear a -5 -5\ntop a -9 9\nget a 1\nlivemap 2\n",
        "ok\nok\nok turns 9..24/1440 marks 0/180\nok turns 9..84/1440 marks 0/180\nok turns 9..24/1680 marks 6..9/198\nnear 1 0 parts 2/12 touches 2..240\ntop 2 -2 parts 2/12 touches 2..160\nget -5 -5 9\nno version\n",
        true,
    ),
];

/// How many bytes a source gives, and a sink takes, at once.
const PIECES: [usize; 4] = [1, 6, 7, 4096];

/// Whether a script is answered so, in pieces of each length.
pub fn is_answered(alloc: Global, row: &Row) -> Result<bool, Fail> {
    let (words, script, wanted, is_refused) = *row;
    let status = if is_refused {
        Status::Refusals
    } else {
        Status::Clean
    };
    for piece in PIECES {
        let plan = Plan { piece, failing: 0 };
        let ran = run_words(alloc, words, script, plan, plan, 1024)?;
        if ran.status != status || !are_answers(&ran.written, wanted) {
            return Ok(false);
        }
    }
    Ok(true)
}

#[test]
fn scripts_are_answered(rt: HostRuntime) -> Result<(), Fail> {
    for row in &ROWS {
        assert!(rt; is_answered(rt.alloc(), row)?, "{:?}", row.1);
    }
    let ran = run_words(rt.alloc(), &[], IDENTIFIERS, WHOLE, WHOLE, 512)?;
    assert_eq!(rt; ran.updates, 5);
    Ok(())
}

/// Adds of points, each from its identifier on, to a layer that takes no more until one is dropped; and the answers.
fn filling(alloc: Global) -> Result<(String, String), AllocError> {
    let mut script = String::from_str(alloc, "layer a points near\n")?;
    let mut answers = String::from_str(alloc, "ok\n")?;
    for id in 0..65_536u32 {
        writeln!(script, "add a {id} {id} 0 0")?;
        answers.push_str("ok\n")?;
    }
    script.push_str("add a 65536 0 0 0\nadd a 1 0 0 0\ndrop a 0\nadd a 65536 0 0 0\nsize a\n")?;
    answers.push_str("no full\nno duplicate 1\nok\nok\nsize 65536\n")?;
    Ok((script, answers))
}

#[test]
fn a_full_layer_takes_no_more(rt: HostRuntime) -> Result<(), Fail> {
    let (script, wanted) = filling(rt.alloc())?;
    let ran = run_words(rt.alloc(), &[], script.as_bytes(), WHOLE, WHOLE, 262_144)?;
    assert_eq!(rt; ran.status, Status::Refusals);
    assert!(rt; ran.written.as_slice() == wanted.as_bytes());
    Ok(())
}
