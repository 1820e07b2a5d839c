//! Certificates with narrowings: those that `check` accepts, those that it rejects, each by its first part that
//! fails, and those that it refuses, each by its ordinal and code.

use fp_tests_run::{Checked, wrong_row};
use std::test::Fail;

// One shipment from A to D, of half a truck: by C for 85 + 90 = 175, by B for 170 + 175 = 345. By what its size costs
// that is 87.5 and 172.5.
const UNEVEN: &str =
    "terminal,A\nterminal,B\nterminal,C\nterminal,D\narc,A,B,5,10,170,0\narc,A,C,5,10,85,0\narc,B,D,5,10,175,0\narc,C,D,5,10,90,0\nshipment,S1,A,D,5,0,99\n";

// Made to go by B the shipment costs 172.5, which is 173 in whole units, so both arcs by B are barred. Then the way by C is
// forced, and its trucks are paid whole: 175.
const BARRED: &str =
    "answer,unfinished,175,173,branches\nleg,S1,A,C,0,5\nleg,S1,C,D,5,10\ntruck,A,C,0,1,5\ntruck,C,D,5,1,5\nnarrow,linear,0,plain\nleaf,linear,0,forced\nend\n";

// The same with all claimed, and a worth named that is below it.
const NAMED: &str =
    "answer,optimal,175\nleg,S1,A,C,0,5\nleg,S1,C,D,5,10\ntruck,A,C,0,1,5\ntruck,C,D,5,1,5\nnarrow,linear,0,plain,173\nleaf,linear,0,forced\nend\n";

const WORTHS: [Checked; 15] = [
    (UNEVEN, BARRED, "", "", 0, "accepted,unfinished\n"),
    // Not narrowed, the leaf forces nothing, and is worth 87.5.
    (
        UNEVEN,
        BARRED,
        "narrow,linear,0,plain\n",
        "",
        12,
        "rejected,7\n",
    ),
    // Nothing is barred for a claim that is one higher.
    (UNEVEN, BARRED, "175,173", "175,174", 12, "rejected,7\n"),
    // 172.5 is rounded up to 175 by the unit, and is below it without one.
    (
        UNEVEN,
        BARRED,
        "answer,unfinished,175,173,branches",
        "answer,optimal,175\nunit,5",
        0,
        "accepted,optimal\n",
    ),
    (
        UNEVEN,
        BARRED,
        "answer,unfinished,175,173,branches",
        "answer,optimal,175",
        12,
        "rejected,7\n",
    ),
    // Nothing is forced at the root. By even prices the shipment pays whole trucks, so no way is left.
    (
        UNEVEN,
        BARRED,
        "narrow,linear,0,plain",
        "narrow,linear,0,forced",
        0,
        "accepted,unfinished\n",
    ),
    (
        UNEVEN,
        BARRED,
        "narrow,linear",
        "narrow,even",
        0,
        "accepted,unfinished\n",
    ),
    // A worth counts where it is above the claim, and the claim where that is above it.
    (
        UNEVEN,
        BARRED,
        "0,plain",
        "0,plain,0",
        0,
        "accepted,unfinished\n",
    ),
    (
        UNEVEN,
        BARRED,
        "0,plain",
        "0,plain,173",
        0,
        "accepted,unfinished\n",
    ),
    (UNEVEN, BARRED, "0,plain", "0,plain,174", 12, "rejected,7\n"),
    (
        UNEVEN,
        BARRED,
        "0,plain",
        "0,plain,170141183460469231731687303715884105727",
        12,
        "rejected,7\n",
    ),
    (UNEVEN, NAMED, "", "", 12, "rejected,7\n"),
    (
        UNEVEN,
        NAMED,
        "175\nleg",
        "175\nunit,5\nleg",
        0,
        "accepted,optimal\n",
    ),
    // Sixteen times the scale is 2^32 - 16, and then 2^32, where nothing is barred.
    (
        UNEVEN,
        BARRED,
        "branches\n",
        "branches\nscale,268435455\n",
        0,
        "accepted,unfinished\n",
    ),
    (
        UNEVEN,
        BARRED,
        "branches\n",
        "branches\nscale,268435456\n",
        12,
        "rejected,7\n",
    ),
];

// A split that leaves both ways open on both sides, narrowed above it.
const ABOVE: &str =
    "answer,unfinished,175,173,branches\nleg,S1,A,C,0,5\nleg,S1,C,D,5,10\ntruck,A,C,0,1,5\ntruck,C,D,5,1,5\nnarrow,linear,0,plain\nsplit,time,S1,A,3\nleaf,linear,0,forced\nleaf,linear,0,forced\nend\n";

// Without the arc from B to D no walk has the one from A to B, so it is barred whatever is asked. With it, by no rival of
// it, the walk by B is left: 172.5.
const NO_WALK: &str =
    "answer,unfinished,175,173,branches\nleg,S1,A,C,0,5\nleg,S1,C,D,5,10\ntruck,A,C,0,1,5\ntruck,C,D,5,1,5\nsplit,way,S1,B,D\nnarrow,linear,0,plain,1000\nleaf,linear,0,forced\nleaf,linear,0,plain\nend\n";

// Each way is worth 88, so all are barred, and the leaf is empty, though its shares have nothing.
const NO_WAY: &str =
    "answer,unfinished,175,88,branches\nleg,S1,A,C,0,5\nleg,S1,C,D,5,10\ntruck,A,C,0,1,5\ntruck,C,D,5,1,5\ntable,1\nshare,A,B,0,0\nshare,A,C,0,0\nshare,B,D,0,0\nshare,C,D,0,0\nnarrow,linear,0,plain\nleaf,1,0,plain\nend\n";

const PLACES: [Checked; 14] = [
    (UNEVEN, ABOVE, "", "", 0, "accepted,unfinished\n"),
    // A narrowing at the one side doesn't hold at the other.
    (
        UNEVEN,
        ABOVE,
        "narrow,linear,0,plain\nsplit,time,S1,A,3\n",
        "split,time,S1,A,3\nnarrow,linear,0,plain\n",
        12,
        "rejected,7\n",
    ),
    (
        UNEVEN,
        ABOVE,
        "narrow,linear,0,plain\nsplit,time,S1,A,3\nleaf,linear,0,forced\n",
        "split,time,S1,A,3\nleaf,linear,0,forced\nnarrow,linear,0,plain\n",
        12,
        "rejected,7\n",
    ),
    (
        UNEVEN,
        ABOVE,
        "narrow,linear,0,plain\nsplit,time,S1,A,3\nleaf,linear,0,forced\n",
        "split,time,S1,A,3\nnarrow,linear,0,plain\nleaf,linear,0,forced\nnarrow,linear,0,plain\n",
        0,
        "accepted,unfinished\n",
    ),
    // It holds at all leaves below its node, and not beside it.
    (
        UNEVEN,
        ABOVE,
        "narrow,linear,0,plain\nsplit,time,S1,A,3\n",
        "split,time,S1,A,3\nnarrow,linear,0,plain\nsplit,time,S1,A,1\nleaf,linear,0,forced\n",
        12,
        "rejected,7\n",
    ),
    // The bars aren't among the first sides of a leaf.
    (
        UNEVEN,
        ABOVE,
        "forced\nleaf",
        "forced,0\nleaf",
        0,
        "accepted,unfinished\n",
    ),
    (UNEVEN, NO_WALK, "", "", 0, "accepted,unfinished\n"),
    (
        UNEVEN,
        NO_WALK,
        "narrow,linear,0,plain,1000\n",
        "",
        12,
        "rejected,7\n",
    ),
    (UNEVEN, NO_WAY, "", "", 0, "accepted,unfinished\n"),
    (
        UNEVEN,
        NO_WAY,
        "narrow,linear,0,plain\n",
        "",
        12,
        "rejected,7\n",
    ),
    (UNEVEN, NO_WAY, "175,88", "175,89", 12, "rejected,7\n"),
    // A narrowing stands before a node, and is none itself.
    (
        UNEVEN,
        BARRED,
        "leaf,linear,0,forced\n",
        "leaf,linear,0,forced\nnarrow,linear,0,plain\n",
        12,
        "rejected,6\n",
    ),
    (
        UNEVEN,
        BARRED,
        "leaf,linear,0,forced\n",
        "",
        12,
        "rejected,6\n",
    ),
    (
        UNEVEN,
        ABOVE,
        "forced\nleaf,linear,0,forced\n",
        "forced\nnarrow,linear,0,plain\n",
        12,
        "rejected,6\n",
    ),
];

// One shipment from A to D, by C for 175 or by B for 395, and one from E to F, straight for 40 or by G for 100.
const TWO_TRIPS: &str =
    "terminal,A\nterminal,B\nterminal,C\nterminal,D\nterminal,E\nterminal,F\nterminal,G\narc,A,B,5,10,200,0\narc,B,D,5,10,195,0\narc,A,C,5,10,85,0\narc,C,D,5,10,90,0\narc,E,F,5,10,40,0\narc,E,G,5,10,50,0\narc,G,F,5,10,50,0\nshipment,S1,A,D,5,0,99\nshipment,S2,E,F,5,0,99\n";

// By what sizes cost the ways by B are worth 197.5 + 20, and those by G 87.5 + 50. Once those by B are barred, the way by C
// is forced, and those by G are worth 175 + 50, which is above 215 too. Then all is forced: 175 + 40.
const TWICE: &str =
    "answer,optimal,215\nleg,S1,A,C,0,5\nleg,S2,E,F,0,5\nleg,S1,C,D,5,10\ntruck,A,C,0,1,5\ntruck,E,F,0,1,5\ntruck,C,D,5,1,5\nnarrow,linear,0,plain\nnarrow,linear,0,forced\nleaf,linear,0,forced\nend\n";

const AFTER: [Checked; 6] = [
    (TWO_TRIPS, TWICE, "", "", 0, "accepted,optimal\n"),
    // With the first or the second alone the way by G stays: 175 + 20 by the leaf.
    (
        TWO_TRIPS,
        TWICE,
        "narrow,linear,0,forced\n",
        "",
        12,
        "rejected,7\n",
    ),
    (
        TWO_TRIPS,
        TWICE,
        "narrow,linear,0,plain\n",
        "",
        12,
        "rejected,7\n",
    ),
    // So it does where the second forces nothing.
    (
        TWO_TRIPS,
        TWICE,
        "narrow,linear,0,forced\n",
        "narrow,linear,0,plain\n",
        12,
        "rejected,7\n",
    ),
    (
        TWO_TRIPS,
        TWICE,
        "narrow,linear,0,plain\n",
        "narrow,linear,0,forced\n",
        0,
        "accepted,optimal\n",
    ),
    // The second at each side of a split below the first.
    (
        TWO_TRIPS,
        TWICE,
        "narrow,linear,0,forced\nleaf,linear,0,forced\n",
        "split,time,S1,A,3\nnarrow,linear,0,forced\nleaf,linear,0,forced\nnarrow,linear,0,forced\nleaf,linear,0,forced\n",
        0,
        "accepted,optimal\n",
    ),
];

const REFUSED: [Checked; 13] = [
    (UNEVEN, BARRED, "narrow,", "narrows,", 21, "refused,15,21\n"),
    (
        UNEVEN,
        BARRED,
        "linear,0,plain\n",
        "linear,0\n",
        21,
        "refused,15,22\n",
    ),
    (
        UNEVEN,
        BARRED,
        "linear,0,plain\n",
        "linear,0,plain,1,1\n",
        21,
        "refused,15,22\n",
    ),
    (
        UNEVEN,
        BARRED,
        "narrow,linear",
        "narrow,cheap",
        21,
        "refused,15,23\n",
    ),
    (
        UNEVEN,
        BARRED,
        "linear,0,plain",
        "linear,x,plain",
        21,
        "refused,15,23\n",
    ),
    (UNEVEN, BARRED, "0,plain", "0,loose", 21, "refused,15,23\n"),
    (
        UNEVEN,
        BARRED,
        "0,plain",
        "0,plain,all",
        21,
        "refused,15,23\n",
    ),
    (
        UNEVEN,
        BARRED,
        "plain\nleaf",
        "plain\ntable,1\nleaf",
        21,
        "refused,16,24\n",
    ),
    (
        UNEVEN,
        BARRED,
        "answer,unfinished,175,173,branches",
        "answer,direct,175",
        21,
        "refused,15,24\n",
    ),
    (
        UNEVEN,
        BARRED,
        "narrow,linear",
        "narrow,1",
        21,
        "refused,15,28\n",
    ),
    (
        UNEVEN,
        BARRED,
        "narrow,linear",
        "narrow,0",
        21,
        "refused,15,28\n",
    ),
    (
        UNEVEN,
        BARRED,
        "linear,0,plain",
        "linear,4001,plain",
        21,
        "refused,15,28\n",
    ),
    (
        UNEVEN,
        BARRED,
        "0,plain",
        "0,plain,170141183460469231731687303715884105728",
        21,
        "refused,15,28\n",
    ),
];

#[test]
fn verdicts_by_narrowings(rt: HostRuntime) -> Result<(), Fail> {
    let alloc = rt.alloc();
    assert_eq!(rt; wrong_row(alloc, &WORTHS)?, None);
    assert_eq!(rt; wrong_row(alloc, &PLACES)?, None);
    assert_eq!(rt; wrong_row(alloc, &AFTER)?, None);
    assert_eq!(rt; wrong_row(alloc, &REFUSED)?, None);
    Ok(())
}
