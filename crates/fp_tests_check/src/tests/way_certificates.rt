//! Certificates with splits by ways: those that `check` accepts, those that it rejects, each by its first part that
//! fails, and those that it refuses, each by its ordinal and code.

use fp_tests_run::{Checked, wrong_row};
use std::test::Fail;

// One shipment from A to D: by C for 170, by B for 200.
const DIAMOND: &str =
    "terminal,A\nterminal,B\nterminal,C\nterminal,D\narc,A,B,5,10,100,0\narc,A,C,5,10,80,0\narc,B,D,5,10,100,0\narc,C,D,5,10,90,0\nshipment,S1,A,D,6,0,99\n";

// Without the arc from B to D it goes by C, whose trucks are paid whole; with it, of its walks by what its size
// costs the one by B for 120 is left, and the one by C for 102 isn't.
const BY_WAY: &str =
    "answer,unfinished,170,120,branches\nleg,S1,A,C,0,5\nleg,S1,C,D,5,10\ntruck,A,C,0,1,6\ntruck,C,D,5,1,6\nsplit,way,S1,B,D\nsplit,arc,S1,A,B\nleaf,linear,0,forced\nleaf,linear,0,plain\nleaf,linear,0,plain\nend\n";

// One shipment from A to D: by Z for 200, by X and Y for 300. The arc from X to Y has no rival on the way by Z.
const BYPASS: &str =
    "terminal,A\nterminal,X\nterminal,Y\nterminal,Z\nterminal,D\narc,A,X,5,10,100,0\narc,X,Y,5,10,100,0\narc,Y,D,5,10,100,0\narc,A,Z,5,10,100,0\narc,Z,D,5,10,100,0\nshipment,S1,A,D,6,0,99\n";

// Without the arc from X to Y spans over the way by Z are worth its trucks. With it, a walk beside whose table spans stand
// goes by it, for 60 + 100 + 60, and the one by Z, for 120 by what its size costs, doesn't count.
const BY_SPANS: &str =
    "answer,optimal,200\nleg,S1,A,Z,0,5\nleg,S1,Z,D,5,10\ntruck,A,Z,0,1,6\ntruck,Z,D,5,1,6\ntable,1\nspan,A,Z,0,100,100000000,0\nweight,S1,100000000\nspan,Z,D,0,100,100000000,0\nweight,S1,100000000\ntable,2\nspan,X,Y,0,100,100000000,0\nweight,S1,100000000\nsplit,way,S1,X,Y\nleaf,1,0,plain\nleaf,2,0,plain\nend\n";

const WALKS: [Checked; 5] = [
    (BYPASS, BY_SPANS, "", "", 0, "accepted,optimal\n"),
    // Without spans, or where the shipment needn't come to X, the walk by Z counts.
    (
        BYPASS,
        BY_SPANS,
        "leaf,2",
        "leaf,linear",
        12,
        "rejected,7\n",
    ),
    (
        BYPASS,
        BY_SPANS,
        "split,way",
        "split,arc",
        12,
        "rejected,7\n",
    ),
    // No walk goes by both arcs, so a leaf with both is empty; not without spans, where the one by Z is left.
    (
        BYPASS,
        BY_SPANS,
        "leaf,2,0,plain\n",
        "split,way,S1,A,Z\nleaf,2,0,plain\nleaf,2,0,plain\n",
        0,
        "accepted,optimal\n",
    ),
    (
        BYPASS,
        BY_SPANS,
        "leaf,2,0,plain\n",
        "split,way,S1,A,Z\nleaf,2,0,plain\nleaf,linear,0,plain\n",
        12,
        "rejected,7\n",
    ),
];

const TESTED: [Checked; 6] = [
    (DIAMOND, BY_WAY, "", "", 0, "accepted,unfinished\n"),
    (DIAMOND, BY_WAY, "170,120", "170,121", 12, "rejected,7\n"),
    // By the arc alone the shipment needn't come to B.
    (
        DIAMOND,
        BY_WAY,
        "split,way",
        "split,arc",
        12,
        "rejected,7\n",
    ),
    (
        DIAMOND,
        BY_WAY,
        "split,arc",
        "split,way",
        0,
        "accepted,unfinished\n",
    ),
    (
        DIAMOND,
        BY_WAY,
        "split,way,S1,B,D",
        "split,way,S1,C,D",
        12,
        "rejected,7\n",
    ),
    // The tree isn't whole without the leaf of the second side.
    (
        DIAMOND,
        BY_WAY,
        "leaf,linear,0,plain\nleaf,linear,0,plain\n",
        "leaf,linear,0,plain\n",
        12,
        "rejected,6\n",
    ),
];

const REFUSED: [Checked; 4] = [
    (
        DIAMOND,
        BY_WAY,
        "split,way",
        "split,ways",
        21,
        "refused,15,21\n",
    ),
    (
        DIAMOND,
        BY_WAY,
        "split,way,S1,B,D",
        "split,way,S1,B",
        21,
        "refused,15,22\n",
    ),
    (
        DIAMOND,
        BY_WAY,
        "split,way,S1,B,D",
        "split,way,S2,B,D",
        21,
        "refused,15,25\n",
    ),
    (
        DIAMOND,
        BY_WAY,
        "split,way,S1,B,D",
        "split,way,S1,A,D",
        21,
        "refused,15,25\n",
    ),
];

#[test]
fn verdicts_by_ways(rt: HostRuntime) -> Result<(), Fail> {
    let alloc = rt.alloc();
    assert_eq!(rt; wrong_row(alloc, &TESTED)?, None);
    assert_eq!(rt; wrong_row(alloc, &WALKS)?, None);
    assert_eq!(rt; wrong_row(alloc, &REFUSED)?, None);
    Ok(())
}
