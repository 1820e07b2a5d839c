//! Certificates with narrowings by tables: with spans, with gifts and by moments, and over the points of a round.

use fp_tests_run::{Checked, wrong_row};
use std::test::Fail;

// One shipment from A to D: by Z for 200, by X and Y for 300. The arc from X to Y has no rival on the way by Z.
const BYPASS: &str =
    "terminal,A\nterminal,X\nterminal,Y\nterminal,Z\nterminal,D\narc,A,X,5,10,100,0\narc,X,Y,5,10,100,0\narc,Y,D,5,10,100,0\narc,A,Z,5,10,100,0\narc,Z,D,5,10,100,0\nshipment,S1,A,D,6,0,99\n";

// On the second side a walk beside whose table spans stand goes by the arc from X to Y: for 60 + 60 + 60 by the first table.
// Made to go by Z it needn't go by that arc, and pays both trucks there, 200. So both arcs by Z are barred, and the way by X
// and Y is forced, for 300.
const BY_SPANS: &str =
    "answer,optimal,200\nleg,S1,A,Z,0,5\nleg,S1,Z,D,5,10\ntruck,A,Z,0,1,6\ntruck,Z,D,5,1,6\ntable,1\nspan,A,Z,0,100,100000000,0\nweight,S1,100000000\nspan,Z,D,0,100,100000000,0\nweight,S1,100000000\ntable,2\nspan,X,Y,0,100,100000000,0\nweight,S1,100000000\nsplit,way,S1,X,Y\nleaf,1,0,plain\nnarrow,1,0,plain\nleaf,linear,0,forced\nend\n";

// One shipment from A to D, of half a truck: by C for 175, by B for 345.
const UNEVEN: &str =
    "terminal,A\nterminal,B\nterminal,C\nterminal,D\narc,A,B,5,10,170,0\narc,A,C,5,10,85,0\narc,B,D,5,10,175,0\narc,C,D,5,10,90,0\nshipment,S1,A,D,5,0,99\n";

// Where a truck leaves by A to B it is given whole, 170, beside 87.5 by either way. So every way is worth 175 there, and
// nothing is left.
const BY_GIFTS: &str =
    "answer,optimal,175\nleg,S1,A,C,0,5\nleg,S1,C,D,5,10\ntruck,A,C,0,1,5\ntruck,C,D,5,1,5\ntable,1\nspan,A,B,0,100001,0,0\ngift,A,B,0,100001,least,170000000\nsplit,trucks,A,B,0,100001,0\nleaf,linear,0,forced\nnarrow,1,0,plain\nleaf,linear,0,plain\nend\n";

const BESIDE_TABLES: [Checked; 8] = [
    (BYPASS, BY_SPANS, "", "", 0, "accepted,optimal\n"),
    (
        BYPASS,
        BY_SPANS,
        "narrow,1,0,plain\n",
        "",
        12,
        "rejected,7\n",
    ),
    // By the second table the node is worth 220, so its own ways are barred, and the one by Z is forced, for 200. From 221
    // on nothing is: the way by Z is no walk of the node by that table, but what is made to go by a class needn't go by the
    // arc from X to Y, and then it costs 120.
    (
        BYPASS,
        BY_SPANS,
        "narrow,1",
        "narrow,2",
        0,
        "accepted,optimal\n",
    ),
    (
        BYPASS,
        BY_SPANS,
        "narrow,1,0,plain",
        "narrow,2,0,plain,221",
        12,
        "rejected,7\n",
    ),
    (UNEVEN, BY_GIFTS, "", "", 0, "accepted,optimal\n"),
    (
        UNEVEN,
        BY_GIFTS,
        "narrow,1",
        "narrow,linear",
        12,
        "rejected,7\n",
    ),
    // A node without a value bars nothing: where the gift has no side, and where forced classes are paid.
    (
        UNEVEN,
        BY_GIFTS,
        "split,trucks,A,B,0,100001,0\nleaf,linear,0,forced\nnarrow,1,0,plain\n",
        "narrow,1,0,plain\nsplit,trucks,A,B,0,100001,0\nleaf,linear,0,forced\n",
        12,
        "rejected,7\n",
    ),
    (
        UNEVEN,
        BY_GIFTS,
        "narrow,1,0,plain",
        "narrow,1,0,forced",
        12,
        "rejected,7\n",
    ),
];

// S1 goes from A by B to C, S2 from A to B, where it can leave from 6 to 9. Where S1 leaves A at 5 or before,
// it can go on from B straight to C for 10, else only by D for 80. So either two trucks leave A, or S1 goes by
// D: 130 or 140.
const LATE_WAY: &str =
    "terminal,A\nterminal,B\nterminal,C\nterminal,D\narc,A,B,5,10,60,0\narc,B,C,9,10,10,0\narc,B,D,1,10,40,0\narc,D,C,1,10,40,0\nshipment,S1,A,C,5,0,19\nshipment,S2,A,B,5,6,14\n";

// By the second table the root is worth 60 + 60 + 5 - 60, and made to go by D S1 pays 80 in place of 5: 140. So the ways by D
// are barred, and S1 has to leave A at 5 or before. Then the shipments can't leave A together, so a span over the day pays
// without a charge, in two groups: 60 + 60 + 10.
const BY_MOMENTS: &str =
    "answer,optimal,130\nleg,S1,A,B,0,5\nleg,S1,B,C,5,14\nleg,S2,A,B,6,11\ntruck,A,B,0,1,5\ntruck,B,C,5,1,5\ntruck,A,B,6,1,5\ntable,1,moments\nspan,A,B,0,100001,60000000,0\nweight,S1,60000000\nweight,S2,60000000\ngroup,6\nspan,B,C,0,100001,10000000,0\nweight,S1,10000000\ntable,2,moments\nspan,A,B,0,100001,60000000,60000000\nweight,S1,60000000\nweight,S2,60000000\nspan,B,D,0,100001,40000000,0\nweight,S1,40000000\nspan,D,C,0,100001,40000000,0\nweight,S1,40000000\nnarrow,2,0,plain\nleaf,1,0,plain\nend\n";

// By what sizes cost the root is worth 65, and 100 by D. With the point 11 at B S1 goes on by D too where it leaves A at 6
// or later, so that is barred as well, and all is forced: 60 + 60 + 10. Without it S1 may join S2 for nothing: 60 + 5.
const BY_POINTS: &str =
    "answer,unfinished,130,100,branches\nleg,S1,A,B,0,5\nleg,S1,B,C,5,14\nleg,S2,A,B,6,11\ntruck,A,B,0,1,5\ntruck,B,C,5,1,5\ntruck,A,B,6,1,5\npoint,B,11,1\nnarrow,linear,1,plain\nleaf,linear,0,forced\nend\n";

const OVER_TIME: [Checked; 10] = [
    (LATE_WAY, BY_MOMENTS, "", "", 0, "accepted,optimal\n"),
    // Not narrowed, the shipments can leave A together, and the first table gives no value; so by it the root bars nothing.
    (
        LATE_WAY,
        BY_MOMENTS,
        "narrow,2,0,plain\n",
        "",
        12,
        "rejected,7\n",
    ),
    (
        LATE_WAY,
        BY_MOMENTS,
        "narrow,2",
        "narrow,1",
        12,
        "rejected,7\n",
    ),
    // By what sizes cost the ways by D are worth 100.
    (
        LATE_WAY,
        BY_MOMENTS,
        "narrow,2",
        "narrow,linear",
        12,
        "rejected,7\n",
    ),
    // The second table serves the instance's windows as well.
    (
        LATE_WAY,
        BY_MOMENTS,
        "table,2,moments",
        "table,2",
        0,
        "accepted,optimal\n",
    ),
    (
        LATE_WAY,
        BY_MOMENTS,
        "weight,S1,40000000\nspan,D,C",
        "weight,S1,29000001\nspan,D,C",
        0,
        "accepted,optimal\n",
    ),
    (
        LATE_WAY,
        BY_MOMENTS,
        "weight,S1,40000000\nspan,D,C",
        "weight,S1,29000000\nspan,D,C",
        12,
        "rejected,7\n",
    ),
    (LATE_WAY, BY_POINTS, "", "", 0, "accepted,unfinished\n"),
    (
        LATE_WAY,
        BY_POINTS,
        "130,100",
        "130,101",
        12,
        "rejected,7\n",
    ),
    (
        LATE_WAY,
        BY_POINTS,
        "linear,1,plain",
        "linear,0,plain",
        12,
        "rejected,7\n",
    ),
];

#[test]
fn verdicts_by_narrowing_prices(rt: HostRuntime) -> Result<(), Fail> {
    let alloc = rt.alloc();
    assert_eq!(rt; wrong_row(alloc, &BESIDE_TABLES)?, None);
    assert_eq!(rt; wrong_row(alloc, &OVER_TIME)?, None);
    Ok(())
}
