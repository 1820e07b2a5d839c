//! Certificates with tables by moments: those that `check` accepts, those that it rejects, each by its first
//! part that fails, and those that it refuses, each by its ordinal and code.

use fp_tests_run::{Checked, wrong_row};
use std::test::Fail;

// S1 goes from A by B to C, S2 from A to B, where it can leave from 6 to 9. Where S1 leaves A at 5 or before,
// it can go on from B straight to C for 10, else only by D for 80. So either two trucks leave A, or S1 goes by
// D: 130 or 140.
const LATE_WAY: &str =
    "terminal,A\nterminal,B\nterminal,C\nterminal,D\narc,A,B,5,10,60,0\narc,B,C,9,10,10,0\narc,B,D,1,10,40,0\narc,D,C,1,10,40,0\nshipment,S1,A,C,5,0,19\nshipment,S2,A,B,5,6,14\n";

// Before 6 and from 6 on: first the shipments can't leave A together, so a span over the day pays without a
// charge, in two groups; then they can, and S1 has no moment left for the arc from B to C, whose class is
// allowed by the instance's windows.
const PARTED: &str =
    "answer,optimal,130\nleg,S1,A,B,0,5\nleg,S1,B,C,5,14\nleg,S2,A,B,6,11\ntruck,A,B,0,1,5\ntruck,B,C,5,1,5\ntruck,A,B,6,1,5\ntable,1,moments\nspan,A,B,0,100001,60000000,0\nweight,S1,60000000\nweight,S2,60000000\ngroup,6\nspan,B,C,0,100001,10000000,0\nweight,S1,10000000\ntable,2,moments\nspan,A,B,0,100001,60000000,60000000\nweight,S1,60000000\nweight,S2,60000000\nspan,B,D,0,100001,40000000,0\nweight,S1,40000000\nspan,D,C,0,100001,40000000,0\nweight,S1,40000000\nsplit,time,S1,A,6\nleaf,1,0,plain\nleaf,2,0,plain\nend\n";

const BY_MOMENTS: [Checked; 16] = [
    (LATE_WAY, PARTED, "", "", 0, "accepted,optimal\n"),
    // Without the word all charges are tested by the instance's windows, and leaves are valued by them.
    (
        LATE_WAY,
        PARTED,
        "table,1,moments",
        "table,1",
        12,
        "rejected,5\n",
    ),
    (
        LATE_WAY,
        PARTED,
        "table,2,moments",
        "table,2",
        12,
        "rejected,7\n",
    ),
    // From 6 on both can leave at 6, so the span without a charge doesn't pay there.
    (
        LATE_WAY,
        PARTED,
        "leaf,2,0,plain",
        "leaf,1,0,plain",
        12,
        "rejected,7\n",
    ),
    // Before 7 they meet at 6.
    (
        LATE_WAY,
        PARTED,
        "split,time,S1,A,6",
        "split,time,S1,A,7",
        12,
        "rejected,7\n",
    ),
    // Before 1 and from 1 on: S1 may still leave before 6 at the second leaf.
    (
        LATE_WAY,
        PARTED,
        "split,time,S1,A,6",
        "split,time,S1,A,1",
        12,
        "rejected,7\n",
    ),
    // The windows are those of the sides by which the leaf is valued.
    (
        LATE_WAY,
        PARTED,
        "leaf,1,0,plain",
        "leaf,1,0,plain,1",
        0,
        "accepted,optimal\n",
    ),
    (
        LATE_WAY,
        PARTED,
        "leaf,1,0,plain",
        "leaf,1,0,plain,0",
        12,
        "rejected,7\n",
    ),
    // Alone a weight above the money needs a charge.
    (
        LATE_WAY,
        PARTED,
        "0\nweight,S1,60000000\nweight,S2,60000000\ngroup",
        "0\nweight,S1,60000001\nweight,S2,60000000\ngroup",
        12,
        "rejected,7\n",
    ),
    (
        LATE_WAY,
        PARTED,
        "60000000,0\nweight,S1,60000000",
        "60000000,1\nweight,S1,60000001",
        0,
        "accepted,optimal\n",
    ),
    // No class from B to C is left from 6 on, so a span there isn't charged.
    (
        LATE_WAY,
        PARTED,
        "span,B,D",
        "span,B,C,0,100001,10000000,0\nweight,S1,10000001\nspan,B,D",
        0,
        "accepted,optimal\n",
    ),
    // What part 5 asks of order and money it asks of these tables too.
    (
        LATE_WAY,
        PARTED,
        "0,100001,60000000,0",
        "0,100001,60000001,0",
        12,
        "rejected,5\n",
    ),
    (
        LATE_WAY,
        PARTED,
        "60000000,60000000\nweight,S1,60000000\nweight,S2,60000000",
        "60000000,60000000\nweight,S2,60000000\nweight,S1,60000000",
        12,
        "rejected,5\n",
    ),
    (
        LATE_WAY,
        PARTED,
        "table,1,moments",
        "table,1,moment",
        21,
        "refused,18,23\n",
    ),
    (
        LATE_WAY,
        PARTED,
        "table,1,moments",
        "table,1,moments,1",
        21,
        "refused,18,22\n",
    ),
    (
        LATE_WAY,
        PARTED,
        "table,2,moments",
        "table,3,moments",
        21,
        "refused,25,24\n",
    ),
];

#[test]
fn verdicts_by_moments(rt: HostRuntime) -> Result<(), Fail> {
    let alloc = rt.alloc();
    assert_eq!(rt; wrong_row(alloc, &BY_MOMENTS)?, None);
    Ok(())
}
