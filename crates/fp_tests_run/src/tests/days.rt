//! What `replan` prints of a day that is under way, and what `check` says of it.

use crate::runs::{check_on, run_on};
use fp_tests_examples::LINE;
use std::test::Fail;

/// A hub B with a hold of 10 between A and C. P1 goes over it, P3 goes to it, and P4 leaves it.
pub const HUB: &str =
    "terminal,A\nterminal,B,10\nterminal,C\narc,A,B,100,10,100,0\narc,B,C,120,10,100,0\narc,B,A,100,10,100,0\nshipment,P1,A,C,4,0,600\nshipment,P3,A,B,4,0,600\nshipment,P4,B,C,4,0,520\n";

// What is left of it at 300, when P1 waits at B.
const WAITING: &str =
    "terminal,A\nterminal,B,10\nterminal,C\narc,A,B,100,10,100,0\narc,B,C,120,10,100,0\narc,B,A,100,10,100,0\nshipment,P1,B,C,4,300,600\nshipment,P3,A,B,4,300,600\nshipment,P4,B,C,4,300,520\n";

// The records after the instance, the status' number, and the text with which the answer begins.
type Row = (&'static str, u8, &'static str);

const ROWS: [Row; 16] = [
    // P1 waits at B, and it is 300: its next leg leaves at 300 or later.
    (
        "kept,P1,A,B,0\nnow,300\n",
        0,
        "answer,optimal,200\nleg,P1,B,C,300,420\nleg,P3,A,B,300,400\nleg,P4,B,C,300,420\n",
    ),
    (
        "now,300\nkept,P1,A,B,0\n",
        0,
        "answer,optimal,200\nleg,P1,B,C,300,420\nleg,P3,A,B,300,400\nleg,P4,B,C,300,420\n",
    ),
    // P1 is late by 180: the truck of P4 waits for it, and where it can't, goes without it.
    (
        "kept,P1,A,B,0,280\n",
        0,
        "answer,optimal,200\nleg,P3,A,B,0,100\nleg,P1,B,C,290,410\nleg,P4,B,C,290,410\n",
    ),
    ("kept,P1,A,B,100,400\n", 0, "answer,optimal,300\n"),
    // P1 is early: its next leg may leave sooner than the arc's time says.
    (
        "kept,P1,A,B,0,50\nkept,P1,B,C,60\n",
        0,
        "answer,optimal,200\nleg,P3,A,B,0,100\nleg,P1,B,C,60,180\nleg,P4,B,C,60,180\n",
    ),
    (
        "kept,P1,A,B,0\nkept,P1,B,C,60\n",
        11,
        "answer,stuck,P1\nend\n",
    ),
    // A present before a kept leg's departure: the leg is a promise like any other.
    (
        "now,100\nkept,P1,A,B,200\n",
        0,
        "answer,optimal,200\nleg,P1,A,B,200,300\nleg,P3,A,B,200,300\n",
    ),
    // A delivered shipment isn't in what is left; delivered late, no plan goes on.
    (
        "kept,P3,A,B,0\nnow,100\n",
        0,
        "answer,optimal,200\nleg,P1,A,B,100,200\nleg,P1,B,C,210,330\nleg,P4,B,C,210,330\n",
    ),
    ("kept,P3,A,B,0,700\n", 11, "answer,stuck,P3\nend\n"),
    // It is too late for P4, and then for P1, which is named first.
    ("now,401\nkept,P1,A,B,0\n", 11, "answer,stuck,P4\nend\n"),
    ("now,450\n", 11, "answer,stuck,P1\nend\n"),
    // Faults: the present twice, an arrival before its departure, and what kept records have.
    ("now,300\nnow,300\n", 21, "refused,11,38\n"),
    ("kept,P1,A,B,50,49\n", 21, "refused,10,39\n"),
    ("now\n", 21, "refused,10,32\n"),
    ("now,100001\n", 21, "refused,10,35\n"),
    ("kept,P1,A,B,0,1x\n", 21, "refused,10,33\n"),
];

#[test]
fn a_day_goes_on(rt: HostRuntime) -> Result<(), Fail> {
    let alloc = rt.alloc();
    for (records, want, front) in ROWS {
        let input = format!(in alloc; "{HUB}{records}")?;
        let (status, text) = run_on(alloc, "replan", input.as_str())?;
        assert_eq!(rt; status, want, "{records}");
        assert!(rt; text.starts_with(front.as_bytes()), "{records}");
    }
    Ok(())
}

// What is left of a day, written as an instance of its own, costs the same.
#[test]
fn what_is_left_costs_as_an_instance(rt: HostRuntime) -> Result<(), Fail> {
    let alloc = rt.alloc();
    let input = format!(in alloc; "{HUB}kept,P1,A,B,0\nnow,300\n")?;
    let (status, text) = run_on(alloc, "replan", input.as_str())?;
    let (own_status, own_text) = run_on(alloc, "plan", WAITING)?;
    assert_eq!(rt; status, own_status);
    assert!(rt; text.starts_with(b"answer,optimal,200\n"));
    assert!(rt; own_text.starts_with(b"answer,optimal,200\n"));
    Ok(())
}

// An instance, records after it with which `replan` answers, and changed ones; the text of `check` with the
// first, and that with the changed ones.
type Change = (
    &'static str,
    &'static str,
    &'static str,
    &'static str,
    &'static str,
);

const CHANGES: [Change; 7] = [
    (
        HUB,
        "kept,P1,A,B,0\nnow,300\n",
        "kept,P1,A,B,0\nnow,310\n",
        "accepted,optimal\n",
        "rejected,1\n",
    ),
    (
        HUB,
        "kept,P1,A,B,0,280\n",
        "kept,P1,A,B,0,281\n",
        "accepted,optimal\n",
        "rejected,1\n",
    ),
    (
        HUB,
        "kept,P3,A,B,0\nnow,100\n",
        "kept,P3,A,B,0\nnow,101\n",
        "accepted,optimal\n",
        "rejected,1\n",
    ),
    (
        LINE,
        "kept,S2,B,C,2\n",
        "kept,S2,B,C,1\n",
        "accepted,optimal\n",
        "rejected,1\n",
    ),
    (
        HUB,
        "now,450\n",
        "now,300\n",
        "accepted,stuck\n",
        "rejected,8\n",
    ),
    (
        HUB,
        "now,401\nkept,P1,A,B,0\n",
        "now,450\n",
        "accepted,stuck\n",
        "rejected,8\n",
    ),
    (
        LINE,
        "kept,S2,B,C,4\n",
        "kept,S2,B,C,2\n",
        "accepted,stuck\n",
        "rejected,8\n",
    ),
];

#[test]
fn answers_are_checked_with_their_records(rt: HostRuntime) -> Result<(), Fail> {
    let alloc = rt.alloc();
    for (instance, records, changed, want, other) in CHANGES {
        let input = format!(in alloc; "{instance}{records}")?;
        let (_, answer) = run_on(alloc, "replan", input.as_str())?;
        let (status, text) = check_on(alloc, input.as_str(), &answer)?;
        assert_eq!(rt; text.as_slice(), want.as_bytes(), "{records}");
        assert_eq!(rt; status, 0, "{records}");
        let other_input = format!(in alloc; "{instance}{changed}")?;
        let (status, text) = check_on(alloc, other_input.as_str(), &answer)?;
        assert_eq!(rt; text.as_slice(), other.as_bytes(), "{changed}");
        assert_eq!(rt; status, 12, "{changed}");
    }
    Ok(())
}

// Answers after `HUB` and a day that has a plan, and after one that has none.
const ANSWERS: [(&str, &str, u8, &str); 7] = [
    ("now,300\n", "answer,stuck,P9\nend\n", 21, "refused,11,25\n"),
    ("now,300\n", "answer,stuck\nend\n", 21, "refused,11,22\n"),
    ("now,300\n", "answer,stuck,P1\n", 21, "refused,12,26\n"),
    (
        "now,300\n",
        "answer,stuck,P1\nend\nend\n",
        21,
        "refused,13,27\n",
    ),
    ("now,300\n", "answer,best,1\nend\n", 21, "refused,11,21\n"),
    ("now,450\n", "answer,direct,0\nend\n", 12, "rejected,1\n"),
    (
        "now,300,1\n",
        "answer,stuck,P1\nend\n",
        21,
        "refused,10,32\n",
    ),
];

#[test]
fn answers_have_faults(rt: HostRuntime) -> Result<(), Fail> {
    let alloc = rt.alloc();
    for (records, answer, want, front) in ANSWERS {
        let input = format!(in alloc; "{HUB}{records}")?;
        let (status, text) = check_on(alloc, input.as_str(), answer.as_bytes())?;
        assert_eq!(rt; status, want, "{records}{answer}");
        assert_eq!(rt; text.as_slice(), front.as_bytes(), "{records}{answer}");
    }
    Ok(())
}
