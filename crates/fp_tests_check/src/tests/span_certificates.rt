//! Certificates with spans and with a unit: those that `check` accepts, those that it rejects, each
//! by its first part that fails, and those that it refuses, each by its ordinal and code.

use fp_tests_examples::{ONE_ARC, SLOW_WAY, TRIO};
use fp_tests_run::{Checked, wrong_row};
use std::test::Fail;

// Each of the three pays a whole truck on either way, since no two fit into one.
const TRIO_SPANS: &str =
    "answer,optimal,180\nleg,S1,A,B,0,5\nleg,S2,A,B,0,5\nleg,S3,A,B,0,5\ntruck,A,B,0,3,15\ntable,1\nspan,A,B,0,100001,60000000,0\nweight,S1,60000000\nweight,S2,60000000\nweight,S3,60000000\nspan,A,C,0,100001,30000000,0\nweight,S1,30000000\nweight,S2,30000000\nweight,S3,30000000\nspan,C,B,0,100001,30000000,0\nweight,S1,30000000\nweight,S2,30000000\nweight,S3,30000000\nleaf,1,0,plain\nend\n";

// Two shipments that fill a truck at 60 together. Where each pays it whole, one of them comes back as
// the charge.
const SHARED: &str =
    "terminal,A\nterminal,B\narc,A,B,5,10,60,0\nshipment,S1,A,B,5,0,20\nshipment,S2,A,B,5,0,20\n";

const SHARED_SPAN: &str =
    "answer,optimal,60\nleg,S1,A,B,0,5\nleg,S2,A,B,0,5\ntruck,A,B,0,1,10\ntable,1\nspan,A,B,0,100001,60000000,60000000\nweight,S1,60000000\nweight,S2,60000000\nleaf,1,0,plain\nend\n";

// The shipment may leave at 0 or at 3, in two classes of one span, and pays once.
const LATER: &str =
    "terminal,A\nterminal,B\narc,A,B,5,10,100,0\nshipment,S1,A,B,4,0,20\nshipment,S2,A,B,10,3,8\n";

const LATER_SPAN: &str =
    "answer,optimal,200\nleg,S1,A,B,0,5\nleg,S2,A,B,3,8\ntruck,A,B,0,1,4\ntruck,A,B,3,1,10\ntable,1\nspan,A,B,0,100001,100000000,0\nweight,S1,100000000\nweight,S2,100000000\nleaf,1,0,plain\nend\n";

// Four thirds of a truck at 100, so linear prices reach 133 and a third. Every plan costs a multiple
// of 50.
const THIRDS: &str =
    "terminal,A\nterminal,B\nterminal,C\narc,A,B,5,3,100,0\narc,A,C,4,3,50,0\narc,C,B,4,3,50,0\nshipment,S1,A,B,1,0,20\nshipment,S2,A,B,1,0,20\nshipment,S3,A,B,2,0,20\n";

const THIRDS_UNIT: &str =
    "answer,unfinished,200,150,branches\nunit,50\nleg,S1,A,B,0,5\nleg,S2,A,B,0,5\nleg,S3,A,B,0,5\ntruck,A,B,0,2,4\nleaf,linear,0,plain\nend\n";

const ONE_ARC_PROOF: &str =
    "answer,optimal,104\nunit,4\nleg,S1,A,B,0,5\ntruck,A,B,0,1,4\nleaf,linear,0,forced\nend\n";

// S1 comes to C by B at 20. By the heads of the classes it would be ready there at 10, and go on free
// by the class for which S2 pays; by those for S1 it is ready at 16.
const LATER_HEADS: &str =
    "answer,optimal,122\nleg,S1,A,B,0,10\nleg,S1,B,C,10,20\nleg,S2,C,D,10,20\nleg,S1,C,D,20,30\ntruck,A,B,0,1,5\ntruck,B,C,10,1,5\ntruck,C,D,10,1,5\ntruck,C,D,20,1,5\npoint,C,16,1\ntable,1\nspan,C,D,10,16,60000000,0\nweight,S2,60000000\nspan,C,D,16,100001,60000000,0\nweight,S1,60000000\nleaf,1,1,plain\nend\n";

// The same with the point 20, and with the point 21, where the head for S1 is that of the class.
const LATER_HEADS_AT_20: &str =
    "answer,optimal,122\nleg,S1,A,B,0,10\nleg,S1,B,C,10,20\nleg,S2,C,D,10,20\nleg,S1,C,D,20,30\ntruck,A,B,0,1,5\ntruck,B,C,10,1,5\ntruck,C,D,10,1,5\ntruck,C,D,20,1,5\npoint,C,20,1\ntable,1\nspan,C,D,10,20,60000000,0\nweight,S2,60000000\nspan,C,D,20,100001,60000000,0\nweight,S1,60000000\nleaf,1,1,plain\nend\n";

const SAME_HEADS: &str =
    "answer,optimal,122\nleg,S1,A,B,0,10\nleg,S1,B,C,10,20\nleg,S2,C,D,10,20\nleg,S1,C,D,20,30\ntruck,A,B,0,1,5\ntruck,B,C,10,1,5\ntruck,C,D,10,1,5\ntruck,C,D,20,1,5\npoint,C,21,1\ntable,1\nspan,C,D,10,21,60000000,0\nweight,S2,60000000\nspan,C,D,21,100001,60000000,0\nweight,S1,60000000\nleaf,1,1,plain\nend\n";

// Both may leave C at 20, so a plan costs 62.
const LATE_DUES: &str =
    "terminal,A\nterminal,B\nterminal,C\nterminal,D\narc,A,C,10,5,100,0\narc,A,B,10,5,1,0\narc,B,C,10,5,1,0\narc,C,D,10,10,60,0\nshipment,S1,A,D,5,0,31\nshipment,S2,C,D,5,10,30\n";

const TESTED: [Checked; 35] = [
    (TRIO, TRIO_SPANS, "", "", 0, "accepted,optimal\n"),
    // A weight above the truck's cost wants what it is above as the charge, and that comes off once.
    (
        TRIO,
        TRIO_SPANS,
        "60000000,0\nweight,S1,60000000",
        "60000000,5\nweight,S1,60000005",
        0,
        "accepted,optimal\n",
    ),
    (
        TRIO,
        TRIO_SPANS,
        "60000000,0\nweight,S1,60000000",
        "60000000,4\nweight,S1,60000005",
        12,
        "rejected,5\n",
    ),
    (
        TRIO,
        TRIO_SPANS,
        "60000000,0\nweight,S1",
        "60000000,999999\nweight,S1",
        0,
        "accepted,optimal\n",
    ),
    (
        TRIO,
        TRIO_SPANS,
        "60000000,0\nweight,S1",
        "60000000,1000000\nweight,S1",
        12,
        "rejected,7\n",
    ),
    // Money above the truck's cost, of one span and of two that both hold at 7, and of two that meet
    // there.
    (
        TRIO,
        TRIO_SPANS,
        "100001,60000000",
        "100001,60000001",
        12,
        "rejected,5\n",
    ),
    (
        TRIO,
        TRIO_SPANS,
        "span,A,B,0,100001,60000000,0\n",
        "span,A,B,0,8,60000000,0\nweight,S1,60000000\nweight,S2,60000000\nweight,S3,60000000\nspan,A,B,7,100001,60000000,0\n",
        12,
        "rejected,5\n",
    ),
    (
        TRIO,
        TRIO_SPANS,
        "span,A,B,0,100001,60000000,0\n",
        "span,A,B,0,7,60000000,0\nweight,S1,60000000\nweight,S2,60000000\nweight,S3,60000000\nspan,A,B,7,100001,60000000,0\n",
        0,
        "accepted,optimal\n",
    ),
    // A span that begins after the class or ends at it doesn't hold there, so the price is linear.
    (
        TRIO,
        TRIO_SPANS,
        "span,A,B,0,",
        "span,A,B,1,",
        12,
        "rejected,7\n",
    ),
    // Two spans in one place, weights in another order, and one that stands twice.
    (TRIO, TRIO_SPANS, "span,A,C", "span,A,B", 12, "rejected,5\n"),
    (
        TRIO,
        TRIO_SPANS,
        "weight,S1,60000000\nweight,S2,60000000",
        "weight,S2,60000000\nweight,S1,60000000",
        12,
        "rejected,5\n",
    ),
    (
        TRIO,
        TRIO_SPANS,
        "weight,S2,60000000",
        "weight,S1,60000000",
        12,
        "rejected,5\n",
    ),
    // The mode changes nothing where no class is forced.
    (TRIO, TRIO_SPANS, "plain", "forced", 0, "accepted,optimal\n"),
    // All pairs keep to what they may pay, and the three together don't.
    (
        "terminal,A\nterminal,B\narc,A,B,5,6,60,0\nshipment,S1,A,B,2,0,20\nshipment,S2,A,B,2,0,20\nshipment,S3,A,B,2,0,20\n",
        "answer,optimal,60\nleg,S1,A,B,0,5\nleg,S2,A,B,0,5\nleg,S3,A,B,0,5\ntruck,A,B,0,1,6\ntable,1\nspan,A,B,0,100001,60000000,0\nweight,S1,30000000\nweight,S2,30000000\nweight,S3,30000000\nleaf,1,0,plain\nend\n",
        "",
        "",
        12,
        "rejected,5\n",
    ),
    (SHARED, SHARED_SPAN, "", "", 0, "accepted,optimal\n"),
    (
        SHARED,
        SHARED_SPAN,
        "60000000,60000000\n",
        "60000000,59999999\n",
        12,
        "rejected,5\n",
    ),
    // Where both are forced, their class is free, and nothing is charged for it.
    (
        SHARED,
        SHARED_SPAN,
        "plain",
        "forced",
        0,
        "accepted,optimal\n",
    ),
    (LATER, LATER_SPAN, "", "", 0, "accepted,optimal\n"),
    (THIRDS, THIRDS_UNIT, "", "", 0, "accepted,unfinished\n"),
    (
        THIRDS,
        THIRDS_UNIT,
        "200,150",
        "200,151",
        12,
        "rejected,7\n",
    ),
    (THIRDS, THIRDS_UNIT, "unit,50\n", "", 12, "rejected,7\n"),
    (THIRDS, THIRDS_UNIT, "unit,50", "unit,7", 12, "rejected,5\n"),
    (
        THIRDS,
        THIRDS_UNIT,
        "unit,50",
        "unit,100",
        12,
        "rejected,5\n",
    ),
    // Where spans stand beside its table a leaf goes by the heads for each shipment.
    (SLOW_WAY, LATER_HEADS, "", "", 0, "accepted,optimal\n"),
    (
        SLOW_WAY,
        LATER_HEADS,
        "optimal,122",
        "unfinished,122,62,branches",
        0,
        "accepted,unfinished\n",
    ),
    (SLOW_WAY, LATER_HEADS_AT_20, "", "", 0, "accepted,optimal\n"),
    (SLOW_WAY, SAME_HEADS, "", "", 12, "rejected,7\n"),
    (
        SLOW_WAY,
        SAME_HEADS,
        "optimal,122",
        "unfinished,122,62,branches",
        0,
        "accepted,unfinished\n",
    ),
    (LATE_DUES, SAME_HEADS, "", "", 12, "rejected,7\n"),
    // By linear prices it goes by those of the classes, also beside spans that no leaf names.
    (
        SLOW_WAY,
        LATER_HEADS,
        "leaf,1,1",
        "leaf,linear,1",
        12,
        "rejected,7\n",
    ),
    // The first leaf is empty by its heads, where S1 has an allowed timed walk by those of the classes:
    // so it isn't empty by linear prices, nor as of round 0, where both heads are 10.
    (
        SLOW_WAY,
        LATER_HEADS,
        "leaf,1,1,plain\n",
        "split,arc,S1,A,C\nsplit,time,S1,C,16\nleaf,1,1,plain\nleaf,1,1,plain\nleaf,1,1,plain\n",
        0,
        "accepted,optimal\n",
    ),
    (
        SLOW_WAY,
        LATER_HEADS,
        "leaf,1,1,plain\n",
        "split,arc,S1,A,C\nsplit,time,S1,C,16\nleaf,linear,1,plain\nleaf,1,1,plain\nleaf,1,1,plain\n",
        12,
        "rejected,7\n",
    ),
    (
        SLOW_WAY,
        LATER_HEADS,
        "leaf,1,1,plain\n",
        "split,arc,S1,A,C\nsplit,time,S1,C,16\nleaf,1,0,plain\nleaf,1,1,plain\nleaf,1,1,plain\n",
        12,
        "rejected,7\n",
    ),
    // Of 100 for the truck and 4 for the freight.
    (ONE_ARC, ONE_ARC_PROOF, "", "", 0, "accepted,optimal\n"),
    (
        ONE_ARC,
        ONE_ARC_PROOF,
        "unit,4",
        "unit,8",
        12,
        "rejected,5\n",
    ),
];

const REFUSED: [Checked; 11] = [
    (
        TRIO,
        TRIO_SPANS,
        "100001,60000000,0\n",
        "100001,60000000\n",
        21,
        "refused,16,22\n",
    ),
    (
        TRIO,
        TRIO_SPANS,
        "span,A,B,0",
        "span,A,B,x",
        21,
        "refused,16,23\n",
    ),
    (TRIO, TRIO_SPANS, "table,1\n", "", 21, "refused,15,24\n"),
    // A share stands before the spans of its table.
    (
        TRIO,
        TRIO_SPANS,
        "leaf,1",
        "share,A,B,0,0\nleaf,1",
        21,
        "refused,28,24\n",
    ),
    (
        TRIO,
        TRIO_SPANS,
        "span,A,C",
        "span,C,A",
        21,
        "refused,20,25\n",
    ),
    (
        TRIO,
        TRIO_SPANS,
        "span,A,B,0,100001",
        "span,A,B,0,0",
        21,
        "refused,16,28\n",
    ),
    (
        TRIO,
        TRIO_SPANS,
        "span,A,B,0,100001",
        "span,A,B,0,100002",
        21,
        "refused,16,28\n",
    ),
    (
        THIRDS,
        THIRDS_UNIT,
        "unit,50",
        "unit,0",
        21,
        "refused,11,28\n",
    ),
    (
        THIRDS,
        THIRDS_UNIT,
        "unit,50",
        "unit,50\nunit,50",
        21,
        "refused,12,24\n",
    ),
    (
        THIRDS,
        THIRDS_UNIT,
        "unit,50",
        "unit,fifty",
        21,
        "refused,11,23\n",
    ),
    (
        THIRDS,
        THIRDS_UNIT,
        "unit,50",
        "unit",
        21,
        "refused,11,22\n",
    ),
];

#[test]
fn verdicts_by_spans_and_units(rt: HostRuntime) -> Result<(), Fail> {
    let alloc = rt.alloc();
    assert_eq!(rt; wrong_row(alloc, &TESTED)?, None);
    assert_eq!(rt; wrong_row(alloc, &REFUSED)?, None);
    Ok(())
}
