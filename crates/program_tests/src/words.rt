//! The words after the program's name, and what they ask for.
use crate::over_memory::{Plan, WHOLE, exit_of, owned_words, run_words};
use crate::patterns::are_answers;
use program_run::Status;
use program_words::{Job, WordsFault, read_words};
use query_laws::step_ledger::blank;
use std::marker::Brand;
use std::process::ExitCode;
use std::test::Fail;

const TABLE: [(&[&str], Result<Job, WordsFault>); 24] = [
    (&[], Ok(Job::Script { ledger: false })),
    (&["--ledger"], Ok(Job::Script { ledger: true })),
    (
        &["--make", "0", "--size", "1"],
        Ok(Job::Made { seed: 0, size: 1 }),
    ),
    (
        &["--make", "18446744073709551615"],
        Ok(Job::Made {
            seed: u64::MAX,
            size: 1_000,
        }),
    ),
    (
        &["--make", "1"],
        Ok(Job::Made {
            seed: 1,
            size: 1_000,
        }),
    ),
    (
        &["--size", "65536", "--make", "7"],
        Ok(Job::Made {
            seed: 7,
            size: 65_536,
        }),
    ),
    (
        &["--ledger", "--make", "3"],
        Ok(Job::Made {
            seed: 3,
            size: 1_000,
        }),
    ),
    (
        &["--size=2", "--make=+007"],
        Ok(Job::Made { seed: 7, size: 2 }),
    ),
    (&["--"], Ok(Job::Script { ledger: false })),
    (&["--size", "5"], Err(WordsFault::Usage)),
    (&["--make"], Err(WordsFault::Usage)),
    (&["--make", "-1"], Err(WordsFault::Usage)),
    (&["--make", "18446744073709551616"], Err(WordsFault::Usage)),
    (&["--make", "1", "--size", "0"], Err(WordsFault::Usage)),
    (&["--make", "1", "--size", "65537"], Err(WordsFault::Usage)),
    (&["--size", "5", "--ledger"], Err(WordsFault::Usage)),
    (&["--ledger", "--ledger"], Err(WordsFault::Usage)),
    (&["--make", "1", "--make", "2"], Err(WordsFault::Usage)),
    (&["x"], Err(WordsFault::Usage)),
    (&[""], Err(WordsFault::Usage)),
    (&["--make", ""], Err(WordsFault::Usage)),
    (&["--", "x"], Err(WordsFault::Usage)),
    (&["--help"], Err(WordsFault::Usage)),
    (&["--le"], Err(WordsFault::Usage)),
];

#[test]
fn words_ask_for_jobs(rt: HostRuntime) -> Result<(), Fail> {
    for (words, wanted) in TABLE {
        let owned = owned_words(rt.alloc(), words)?;
        assert_eq!(rt; read_words(rt.alloc(), &owned), wanted, "{words:?}");
    }
    Ok(())
}

const USAGE: &str = "usage: livemap [--ledger] [--make SEED] [--size N]\n";

/// Some 300 questions ask at least one part each, and each part that is asked has a row that is read.
const THOUSAND: &str =
    "commands 1001\nrefused 0\nlive 290\ncounted 54\nids 24190\nparts 300..9999\ntouches 9999..99999\nlargest 9..9999/1440..9999\n";

/// Words by which nothing is read, the room of the sink, what is written, and the status.
const UNREAD: [(&[&str], usize, &str, Status); 8] = [
    (
        &["--make", "0", "--size", "1"],
        512,
        "commands 2\nrefused 0\nlive 1\ncounted 0\nids 0\nparts 0\ntouches 0\nlargest 9..24/1440\n",
        Status::Clean,
    ),
    (
        &["--make", "1", "--size", "1000"],
        512,
        THOUSAND,
        Status::Clean,
    ),
    (&["--make", "1"], 512, THOUSAND, Status::Clean),
    (&["--ledger", "--make", "1"], 512, THOUSAND, Status::Clean),
    (&["--size", "5"], 512, USAGE, Status::Usage),
    (&["--help"], 512, USAGE, Status::Usage),
    // No room for the line: a front of it is written.
    (&["x"], 5, "usage", Status::WriteFault),
    (&["--make", "7"], 5, "comma", Status::WriteFault),
];

#[test]
fn nothing_is_read(rt: HostRuntime) -> Result<(), Fail> {
    for (words, room, wanted, status) in UNREAD {
        let writes = Plan {
            piece: 1,
            failing: 0,
        };
        let ran = run_words(rt.alloc(), words, b"size a\n", WHOLE, writes, room)?;
        assert_eq!(rt; ran.status, status, "{words:?}");
        assert!(rt; are_answers(&ran.written, wanted), "{words:?}");
        assert_eq!(rt; ran.left, 7, "{words:?}");
    }
    Ok(())
}

/// The program's name and words, a script, and what the program ends with.
const ENDS: [(&[&str], &[u8], u8); 4] = [
    (&[], b"size a\n", 1),
    (&["livemap"], b"layer a points range\n", 0),
    (&["livemap", "--ledger"], b"size a\n", 1),
    (&["livemap", "x"], b"", 2),
];

#[test]
fn the_program_ends_with_a_status(rt: HostRuntime) -> Result<(), Fail> {
    for (arguments, script, status) in ENDS {
        let exit = exit_of::<Brand>(rt.alloc(), arguments, script, blank())?;
        assert_eq!(rt; exit, ExitCode::from(status), "{arguments:?}");
    }
    Ok(())
}
