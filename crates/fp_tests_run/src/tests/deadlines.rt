//! Searches whose time is over.

use crate::runs::{check_on, run_by, run_on};
use fp_tests_examples::{PAIR, TRIO};
use std::alloc::Global;
use std::test::Fail;

// Words, and the milliseconds that looks at the clock and glances show before one fails.
type Late = (&'static str, &'static [u64]);

// The time is over at the first look, later, or since the clock fails.
const LATE: [Late; 5] = [
    ("plan --seconds 1", &[1000, 1000, 1000, 1000, 1000, 1000]),
    ("plan --seconds 1 --spans", &[1000]),
    ("plan --seconds 2", &[0, 0, 1999, 2000]),
    ("plan --seconds=3 --rounds 0", &[]),
    ("plan --seconds 86400 --spans", &[5]),
];

// The text of a plan of `TRIO` whose time is over, where it is one.
fn late_plan(alloc: Global, late: Late) -> Result<Option<Vec<u8>>, Fail> {
    let (status, text) = run_by(alloc, late.0, TRIO, late.1)?;
    let first = text.split(|&byte| byte == b'\n').next().unwrap_or(&[]);
    let timed = first.starts_with(b"answer,unfinished,180,") && first.ends_with(b",time");
    Ok(if status == 10 && timed {
        Some(text)
    } else {
        None
    })
}

#[test]
fn a_time_that_is_over_ends_a_search(rt: HostRuntime) -> Result<(), Fail> {
    for late in LATE {
        let Some(text) = late_plan(rt.alloc(), late)? else {
            assert!(rt; false, "{}", late.0);
            return Ok(());
        };
        let (status, verdict) = check_on(rt.alloc(), TRIO, &text)?;
        assert_eq!(rt; status, 0);
        assert_eq!(rt; verdict.as_slice(), b"accepted,unfinished\n".as_slice());
    }
    Ok(())
}

#[test]
fn without_seconds_no_clock_is_looked_at(rt: HostRuntime) -> Result<(), Fail> {
    let plain = run_on(rt.alloc(), "plan", TRIO)?;
    assert_eq!(rt; run_by(rt.alloc(), "plan", TRIO, &[])?, plain);
    assert_eq!(rt;
        run_on(rt.alloc(), "plan --seconds 1", PAIR)?,
        run_on(rt.alloc(), "plan", PAIR)?
    );
    Ok(())
}
