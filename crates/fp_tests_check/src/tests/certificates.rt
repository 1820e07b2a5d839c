//! Certificates that `check` accepts, and those that it rejects, each by its first part that fails.

use fp_tests_examples::{
    DETOUR, LARGE_LOADS, LARGE_LOADS_PROOF, LINE, LINE_PROOF, LINE_TABLE, ONE_ARC, TRIO, TRIO_PROOF,
};
use fp_tests_run::{Checked, wrong_row};
use std::test::Fail;

// The shipment comes at 5 or later.
const LATE: &str = "terminal,A\nterminal,B\narc,A,B,5,10,100,1\nshipment,S1,A,B,4,0,4\n";

const NO_ROUTE: &str = "terminal,A\nterminal,B\narc,A,B,5,10,100,1\nshipment,S1,B,A,4,0,10\n";

const ONE_ARC_PLAN: &str = "answer,direct,104\nleg,S1,A,B,0,5\ntruck,A,B,0,1,4\nend\n";

// In the first leaf the shipment has no way left.
const ONE_ARC_SPLIT: &str =
    "answer,optimal,104\nleg,S1,A,B,0,5\ntruck,A,B,0,1,4\nsplit,arc,S1,A,B\nleaf,linear,0,plain\nleaf,linear,0,forced\nend\n";

// Each truck of the detour costs 60, and the arc's 100; a shipment of the size 4 pays 40 of it by
// linear prices.
const DETOUR_BY_ARC: &str =
    "answer,optimal,100\nleg,S1,A,B,0,5\ntruck,A,B,0,1,4\nleaf,even,0,plain\nend\n";

// By linear prices each of the three pays 50, and 150 is the best that prices at the root can do.
const TRIO_ROOT: &str =
    "answer,unfinished,180,150,branches\nleg,S1,A,B,0,5\nleg,S2,A,B,0,5\nleg,S3,A,B,0,5\ntruck,A,B,0,3,15\nleaf,linear,0,plain\nend\n";

// A chain of splits by times at one terminal, on first sides and on second ones. The shipment leaves
// before 2, from 2 to 3, never, and at 4 or later.
const ONE_ARC_CHAIN: &str =
    "answer,optimal,104\nleg,S1,A,B,0,5\ntruck,A,B,0,1,4\nsplit,time,S1,A,4\nsplit,time,S1,A,2\nleaf,linear,0,forced\nleaf,linear,0,forced\nsplit,time,S1,A,3\nleaf,linear,0,plain\nleaf,linear,0,forced\nend\n";

const ACCEPTED: [Checked; 18] = [
    (ONE_ARC, ONE_ARC_PLAN, "", "", 0, "accepted,direct\n"),
    (ONE_ARC, ONE_ARC_SPLIT, "", "", 0, "accepted,optimal\n"),
    (ONE_ARC, ONE_ARC_CHAIN, "", "", 0, "accepted,optimal\n"),
    (
        "terminal,A\nterminal,B\narc,A,B,5,10,100,1\n",
        "answer,optimal,0\nleaf,linear,0,forced\nend\n",
        "",
        "",
        0,
        "accepted,optimal\n",
    ),
    (LINE, LINE_PROOF, "", "", 0, "accepted,optimal\n"),
    (
        LINE,
        LINE_PROOF,
        "optimal,300",
        "unfinished,300,300,rounds",
        0,
        "accepted,unfinished\n",
    ),
    (
        LINE,
        LINE_PROOF,
        "300\n",
        "300\nscale,1\n",
        0,
        "accepted,optimal\n",
    ),
    // Eight points of a round.
    (
        LINE,
        LINE_PROOF,
        "point,B,4,1",
        "point,B,4,1\npoint,C,1,1\npoint,C,2,1\npoint,C,3,1\npoint,C,4,1\npoint,C,5,1\npoint,C,6,1\npoint,C,7,1",
        0,
        "accepted,optimal\n",
    ),
    (LINE, LINE_TABLE, "", "", 0, "accepted,optimal\n"),
    (LINE, LINE_TABLE, "plain", "forced", 0, "accepted,optimal\n"),
    (DETOUR, DETOUR_BY_ARC, "", "", 0, "accepted,optimal\n"),
    (
        DETOUR,
        DETOUR_BY_ARC,
        "plain",
        "forced",
        0,
        "accepted,optimal\n",
    ),
    (TRIO, TRIO_PROOF, "", "", 0, "accepted,optimal\n"),
    (TRIO, TRIO_ROOT, "", "", 0, "accepted,unfinished\n"),
    (
        TRIO,
        TRIO_ROOT,
        "plain",
        "plain,0",
        0,
        "accepted,unfinished\n",
    ),
    (
        LARGE_LOADS,
        LARGE_LOADS_PROOF,
        "",
        "",
        0,
        "accepted,optimal\n",
    ),
    (
        LATE,
        "answer,infeasible,S1,5\nend\n",
        "",
        "",
        0,
        "accepted,infeasible\n",
    ),
    (
        NO_ROUTE,
        "answer,infeasible,S1,none\nend\n",
        "",
        "",
        0,
        "accepted,infeasible\n",
    ),
];

const REJECTED: [Checked; 36] = [
    // The second leaf of the chain isn't empty, nor is the last: plain prices aren't enough there.
    (
        ONE_ARC,
        ONE_ARC_CHAIN,
        "forced\nleaf,linear,0,forced\n",
        "forced\nleaf,linear,0,plain\n",
        12,
        "rejected,7\n",
    ),
    (
        ONE_ARC,
        ONE_ARC_CHAIN,
        "plain\nleaf,linear,0,forced\n",
        "plain\nleaf,linear,0,plain\n",
        12,
        "rejected,7\n",
    ),
    // A leg that takes less than its arc does, two legs in the wrong order, and a shipment that
    // waits beyond its due time.
    (LINE, LINE_PROOF, "B,C,0,5", "B,C,1,5", 12, "rejected,1\n"),
    (
        LINE,
        LINE_PROOF,
        "leg,S1,A,B,0,4\nleg,S2,B,C,0,5",
        "leg,S2,B,C,0,5\nleg,S1,A,B,0,4",
        12,
        "rejected,1\n",
    ),
    (
        LINE,
        LINE_PROOF,
        "leg,S2,B,C,0,5\nleg,S1,B,C,4,9",
        "leg,S1,B,C,4,9\nleg,S2,B,C,4,9",
        12,
        "rejected,1\n",
    ),
    (LINE, LINE_PROOF, "leg,S2,B,C,0,5\n", "", 12, "rejected,1\n"),
    (LINE, LINE_PROOF, "300", "301", 12, "rejected,2\n"),
    (ONE_ARC, ONE_ARC_PLAN, "104", "103", 12, "rejected,2\n"),
    // Another number of trucks, another departure, and a line that is missing.
    (
        LINE,
        LINE_PROOF,
        "A,B,0,1,4",
        "A,B,0,2,4",
        12,
        "rejected,3\n",
    ),
    (LINE, LINE_PROOF, "B,C,0,5", "B,C,1,6", 12, "rejected,3\n"),
    (
        ONE_ARC,
        ONE_ARC_PLAN,
        "truck,A,B,0,1,4\n",
        "",
        12,
        "rejected,3\n",
    ),
    // A point twice, an initial one, a round that falls, and nine points of a round.
    (
        LINE,
        LINE_PROOF,
        "point,B,4,1",
        "point,B,4,1\npoint,B,4,1",
        12,
        "rejected,4\n",
    ),
    (LINE, LINE_PROOF, "B,4,1\n", "C,8,1\n", 12, "rejected,4\n"),
    (
        LINE,
        LINE_PROOF,
        "point,B,4,1",
        "point,B,4,2\npoint,B,5,1",
        12,
        "rejected,4\n",
    ),
    (
        LINE,
        LINE_PROOF,
        "point,B,4,1",
        "point,B,4,1\npoint,C,1,1\npoint,C,2,1\npoint,C,3,1\npoint,C,4,1\npoint,C,5,1\npoint,C,6,1\npoint,C,7,1\npoint,C,10,1",
        12,
        "rejected,4\n",
    ),
    // More than a truck costs, by weights and by sizes, and a share twice.
    (LINE, LINE_TABLE, "S1,700", "S1,701", 12, "rejected,5\n"),
    (
        LINE,
        LINE_TABLE,
        "A,B,0,0\nweight,S1,700",
        "A,B,0,71",
        12,
        "rejected,5\n",
    ),
    (
        LINE,
        LINE_TABLE,
        "share,B,C,0,0",
        "share,A,B,0,0\nshare,B,C,0,0",
        12,
        "rejected,5\n",
    ),
    // A leaf too many, none, and a split with one leaf.
    (
        LINE,
        LINE_PROOF,
        "leaf,linear,1,forced",
        "leaf,linear,1,forced\nleaf,linear,1,forced",
        12,
        "rejected,6\n",
    ),
    (
        LINE,
        LINE_PROOF,
        "leaf,linear,1,forced\n",
        "",
        12,
        "rejected,6\n",
    ),
    (
        ONE_ARC,
        ONE_ARC_SPLIT,
        "leaf,linear,0,plain\n",
        "",
        12,
        "rejected,6\n",
    ),
    // Before the point's round, without it, and with a point that forces nothing.
    (LINE, LINE_PROOF, "linear,1", "linear,0", 12, "rejected,7\n"),
    (LINE, LINE_PROOF, "point,B,4,1\n", "", 12, "rejected,7\n"),
    (
        LINE,
        LINE_PROOF,
        "point,B,4",
        "point,B,3",
        12,
        "rejected,7\n",
    ),
    (
        LINE,
        LINE_PROOF,
        "point,B,4",
        "point,A,4",
        12,
        "rejected,7\n",
    ),
    (
        LINE,
        LINE_PROOF,
        "optimal,300",
        "unfinished,300,301,rounds",
        12,
        "rejected,7\n",
    ),
    // A price by size pays for what is carried alone.
    (
        LINE,
        LINE_TABLE,
        "A,B,0,0\nweight,S1,700",
        "A,B,0,70",
        12,
        "rejected,7\n",
    ),
    (DETOUR, DETOUR_BY_ARC, "even", "linear", 12, "rejected,7\n"),
    (TRIO, TRIO_ROOT, "150", "151", 12, "rejected,7\n"),
    // The last leaf is worth less under the first of its sides alone.
    (
        TRIO,
        TRIO_PROOF,
        "forced\nend",
        "forced,1\nend",
        12,
        "rejected,7\n",
    ),
    (
        TRIO,
        TRIO_PROOF,
        "split,arc,S3,A,B\nleaf,linear,0,forced\nleaf,linear,0,forced\nend",
        "leaf,linear,0,plain\nend",
        12,
        "rejected,7\n",
    ),
    // Without the split S1 goes with S2 or with S3, and pays nothing.
    (
        LARGE_LOADS,
        LARGE_LOADS_PROOF,
        "split,time,S1,A,10\nleaf,linear,0,forced\n",
        "",
        12,
        "rejected,7\n",
    ),
    (
        LARGE_LOADS,
        LARGE_LOADS_PROOF,
        "A,10\nleaf",
        "A,11\nleaf",
        12,
        "rejected,7\n",
    ),
    // The fastest time is in time, and another time than the fastest.
    (
        LINE,
        "answer,infeasible,S1,9\nend\n",
        "",
        "",
        12,
        "rejected,8\n",
    ),
    (
        LATE,
        "answer,infeasible,S1,5\nend\n",
        "S1,5",
        "S1,6",
        12,
        "rejected,8\n",
    ),
    (
        NO_ROUTE,
        "answer,infeasible,S1,none\nend\n",
        "none",
        "5",
        12,
        "rejected,8\n",
    ),
];

#[test]
fn verdicts(rt: HostRuntime) -> Result<(), Fail> {
    let alloc = rt.alloc();
    assert_eq!(rt; wrong_row(alloc, &ACCEPTED)?, None);
    assert_eq!(rt; wrong_row(alloc, &REJECTED)?, None);
    Ok(())
}
