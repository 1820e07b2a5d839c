//! What `improve` prints of the plans that certificates tell.

use crate::runs::{check_on, noted_by, run_by, run_on};
use fp_tests_examples::{LINE, LINE_PROOF, LINE_TABLE, PAIR, TRIO, TRIO_PROOF};
use std::test::Fail;

// The words, the instance, the certificate, the status' number, and how what is printed begins.
type Row = (&'static str, &'static str, &'static str, u8, &'static str);

// The two shipments of `PAIR`, each in a truck of its own, and both in one.
const APART: &str =
    "answer,direct,209\nleg,S1,A,B,0,5\nleg,S2,A,B,3,8\ntruck,A,B,0,1,4\ntruck,A,B,3,1,5\nend\n";

const TOGETHER: &str = "answer,direct,109\nleg,S1,A,B,4,9\nleg,S2,A,B,4,9\ntruck,A,B,4,1,9\nend\n";

// The three shipments of `TRIO` by the way over C.
const OVER_C: &str =
    "answer,direct,180\nleg,S1,A,C,0,4\nleg,S2,A,C,0,4\nleg,S3,A,C,0,4\nleg,S1,C,B,4,8\nleg,S2,C,B,4,8\nleg,S3,C,B,4,8\ntruck,A,C,0,3,15\ntruck,C,B,4,3,15\nend\n";

// Of `LINE`: a truck that leaves before its second shipment can.
const JOINED: &str =
    "answer,direct,200\nleg,S1,A,B,0,4\nleg,S1,B,C,4,9\nleg,S2,B,C,4,9\ntruck,A,B,0,1,4\ntruck,B,C,4,1,8\nend\n";

/// The instance weighs less than 2^127 at the usual scale, and more at 1,000,000,000.
pub const HEAVY: &str =
    "terminal,A\nterminal,B\narc,A,B,5,10,100,1000000000000\nshipment,S1,A,B,10000000000000,0,10\n";

pub const HEAVY_PLAN: &str =
    "answer,direct,10000000000100000000000000\nleg,S1,A,B,0,5\ntruck,A,B,0,1000000000000,10000000000000\nend\n";

const ROWS: [Row; 18] = [
    // From an optimal answer, from one with a scale of its own, and from plans as made by hand.
    ("improve", LINE, LINE_PROOF, 0, "answer,optimal,300\n"),
    ("improve", LINE, LINE_TABLE, 0, "answer,optimal,300\n"),
    ("improve", TRIO, TRIO_PROOF, 0, "answer,optimal,180\n"),
    ("improve", PAIR, APART, 0, "answer,optimal,109\n"),
    ("improve", PAIR, TOGETHER, 0, "answer,optimal,109\n"),
    ("improve --spans", TRIO, OVER_C, 0, "answer,optimal,180\n"),
    (
        "improve --notes --scale=7 --rounds 9 --spans",
        PAIR,
        APART,
        0,
        "answer,optimal,109\n",
    ),
    // The plan in hand stays where nothing may be spent.
    (
        "improve --branches 0",
        TRIO,
        OVER_C,
        10,
        "answer,unfinished,180,150,branches\nleg,S1,A,C,0,4\n",
    ),
    // An instance without shipments.
    (
        "improve",
        "terminal,A\n",
        "answer,direct,0\nend\n",
        0,
        "answer,optimal,0\n",
    ),
    // A plan that isn't one, another cost, other trucks, and an answer without a plan.
    ("improve", LINE, JOINED, 12, "rejected,1\n"),
    (
        "improve --spans",
        PAIR,
        "answer,direct,108\nleg,S1,A,B,4,9\nleg,S2,A,B,4,9\ntruck,A,B,4,1,9\nend\n",
        12,
        "rejected,2\n",
    ),
    (
        "improve",
        PAIR,
        "answer,direct,109\nleg,S1,A,B,4,9\nleg,S2,A,B,4,9\ntruck,A,B,4,2,9\nend\n",
        12,
        "rejected,3\n",
    ),
    (
        "improve",
        PAIR,
        "answer,infeasible,S1,5\nend\n",
        12,
        "rejected,1\n",
    ),
    // A certificate that ends too soon, and none.
    ("improve", PAIR, "answer,direct,109\n", 21, "refused,7,26\n"),
    ("improve", PAIR, "", 21, "refused,6,26\n"),
    // A scale that doesn't fit, after the faults of all records.
    (
        "improve --scale 1000000000",
        HEAVY,
        HEAVY_PLAN,
        21,
        "refused,0,12\n",
    ),
    (
        "improve --scale 1000000000",
        HEAVY,
        "answer,direct,1\n",
        21,
        "refused,6,26\n",
    ),
    (
        "improve --scale 1000000000",
        HEAVY,
        "answer,infeasible,S1,5\nend\n",
        21,
        "refused,0,12\n",
    ),
];

#[test]
fn a_search_goes_on_from_a_plan(rt: HostRuntime) -> Result<(), Fail> {
    for (line, instance, certificate, code, front) in ROWS {
        let input = format!(in rt.alloc(); "{instance}{certificate}")?;
        let (status, text) = run_on(rt.alloc(), line, &input)?;
        assert_eq!(rt; status, code, "{line} {input}");
        assert!(rt; text.starts_with(front.as_bytes()), "{line} {input}");
    }
    Ok(())
}

#[test]
fn an_improved_answer_is_accepted(rt: HostRuntime) -> Result<(), Fail> {
    let input = format!(in rt.alloc(); "{PAIR}{APART}")?;
    let (_, text) = run_on(rt.alloc(), "improve --scale 7", &input)?;
    let (status, verdict) = check_on(rt.alloc(), PAIR, &text)?;
    assert_eq!(rt; status, 0);
    assert_eq!(rt; verdict.as_slice(), b"accepted,optimal\n".as_slice());
    Ok(())
}

#[test]
fn the_plan_in_hand_is_shown_when_the_time_is_over(rt: HostRuntime) -> Result<(), Fail> {
    let input = format!(in rt.alloc(); "{TRIO}{OVER_C}")?;
    let (status, text) = run_by(rt.alloc(), "improve --seconds 1", &input, &[1000])?;
    assert_eq!(rt; status, 10);
    assert!(rt; text.starts_with(b"answer,unfinished,180,"));
    Ok(())
}

#[test]
fn the_plan_in_hand_is_noted_first(rt: HostRuntime) -> Result<(), Fail> {
    let input = format!(in rt.alloc(); "{TRIO}{OVER_C}")?;
    let (status, text, notes) = noted_by(rt.alloc(), "improve --notes", &input, &[])?;
    assert_eq!(rt; run_on(rt.alloc(), "improve", &input)?, (status, text));
    assert!(rt; notes.starts_with(OVER_C.as_bytes()));
    Ok(())
}
