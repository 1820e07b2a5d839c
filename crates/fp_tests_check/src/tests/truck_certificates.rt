//! Certificates with splits by trucks and with gifts: those that `check` accepts, those that it rejects, each
//! by its first part that fails, and those that it refuses, each by its ordinal and code.

use fp_tests_run::{Checked, wrong_row};
use std::test::Fail;

// Three shipments of 6 of which none leaves with another, so each plan takes three trucks at 60.
const TIMES: &str =
    "terminal,A\nterminal,B\narc,A,B,5,10,60,0\nshipment,S1,A,B,6,0,9\nshipment,S2,A,B,6,10,19\nshipment,S3,A,B,6,20,29\n";

// At most two trucks are worth three times 120 less twice 60, and more than two three times 60.
const TWO_OR_THREE: &str =
    "answer,optimal,180\nleg,S1,A,B,0,5\nleg,S2,A,B,10,15\nleg,S3,A,B,20,25\ntruck,A,B,0,1,6\ntruck,A,B,10,1,6\ntruck,A,B,20,1,6\ntable,1\nspan,A,B,0,100,120000000,0\nweight,S1,120000000\nweight,S2,120000000\nweight,S3,120000000\ngroup,10\ngroup,20\ngift,A,B,0,100,most,60000000\ntable,2\nspan,A,B,0,100,0,0\ngift,A,B,0,100,least,60000000\nsplit,trucks,A,B,0,100,2\nleaf,1,0,plain\nleaf,2,0,plain\nend\n";

const TESTED: [Checked; 14] = [
    (TIMES, TWO_OR_THREE, "", "", 0, "accepted,optimal\n"),
    // An amount that is one more than what a truck costs, one that is one less than what pays for the
    // span's money, and one that takes as much from the leaf as it can lose, and one more.
    (
        TIMES,
        TWO_OR_THREE,
        "least,60000000",
        "least,60000001",
        12,
        "rejected,5\n",
    ),
    (
        TIMES,
        TWO_OR_THREE,
        "most,60000000",
        "most,59999999",
        12,
        "rejected,5\n",
    ),
    (
        TIMES,
        TWO_OR_THREE,
        "most,60000000",
        "most,90499999",
        0,
        "accepted,optimal\n",
    ),
    (
        TIMES,
        TWO_OR_THREE,
        "most,60000000",
        "most,90500000",
        12,
        "rejected,7\n",
    ),
    // The least that rounds up to the claim, and one less.
    (
        TIMES,
        TWO_OR_THREE,
        "least,60000000",
        "least,59666667",
        0,
        "accepted,optimal\n",
    ),
    (
        TIMES,
        TWO_OR_THREE,
        "least,60000000",
        "least,59666666",
        12,
        "rejected,7\n",
    ),
    // The leaves of the two sides in the other order, and a leaf by a gift without any side.
    (
        TIMES,
        TWO_OR_THREE,
        "leaf,1,0,plain\nleaf,2,0,plain\n",
        "leaf,2,0,plain\nleaf,1,0,plain\n",
        12,
        "rejected,7\n",
    ),
    (
        TIMES,
        TWO_OR_THREE,
        "split,trucks,A,B,0,100,2\nleaf,1,0,plain\nleaf,2,0,plain\n",
        "leaf,2,0,plain\n",
        12,
        "rejected,7\n",
    ),
    // The tree isn't whole without the leaf of the second side.
    (
        TIMES,
        TWO_OR_THREE,
        "leaf,2,0,plain\n",
        "",
        12,
        "rejected,6\n",
    ),
    // No truck at all moments of S1, at which nothing can go, and at all but the last and the first one.
    (
        TIMES,
        TWO_OR_THREE,
        "leaf,1,0,plain\n",
        "split,trucks,A,B,0,5,0\nleaf,linear,0,plain\nleaf,1,0,plain\n",
        0,
        "accepted,optimal\n",
    ),
    (
        TIMES,
        TWO_OR_THREE,
        "leaf,1,0,plain\n",
        "split,trucks,A,B,0,4,0\nleaf,linear,0,plain\nleaf,1,0,plain\n",
        12,
        "rejected,7\n",
    ),
    (
        TIMES,
        TWO_OR_THREE,
        "leaf,1,0,plain\n",
        "split,trucks,A,B,1,5,0\nleaf,linear,0,plain\nleaf,1,0,plain\n",
        12,
        "rejected,7\n",
    ),
    // Gifts of two kinds pay for each other, and each is for the number of its own side.
    (
        TIMES,
        TWO_OR_THREE,
        "split,trucks,A,B,0,100,2\nleaf,1,0,plain\nleaf,2,0,plain\n",
        "split,trucks,A,B,0,100,2\nleaf,1,0,plain\nsplit,trucks,A,B,0,100,3\nleaf,2,0,plain\nleaf,2,0,plain\n",
        0,
        "accepted,optimal\n",
    ),
];

const REFUSED: [Checked; 18] = [
    (
        TIMES,
        TWO_OR_THREE,
        "split,trucks",
        "split,truck",
        21,
        "refused,25,21\n",
    ),
    (
        TIMES,
        TWO_OR_THREE,
        "least,60000000",
        "least",
        21,
        "refused,24,22\n",
    ),
    (
        TIMES,
        TWO_OR_THREE,
        "split,trucks,A,B,0,100,2",
        "split,trucks,A,B,0,2",
        21,
        "refused,25,22\n",
    ),
    (
        TIMES,
        TWO_OR_THREE,
        "least",
        "exactly",
        21,
        "refused,24,23\n",
    ),
    (TIMES, TWO_OR_THREE, "most", "Most", 21, "refused,21,23\n"),
    (
        TIMES,
        TWO_OR_THREE,
        "split,trucks,A,B,0,100,2",
        "split,trucks,A,B,0,100,two",
        21,
        "refused,25,23\n",
    ),
    // A gift without a table, and before each line that stands before the gifts of its table.
    (
        TIMES,
        TWO_OR_THREE,
        "table,1\n",
        "gift,A,B,0,100,most,60000000\ntable,1\n",
        21,
        "refused,14,24\n",
    ),
    (
        TIMES,
        TWO_OR_THREE,
        "span,A,B,0,100,120000000,0\n",
        "gift,A,B,0,100,most,60000000\nspan,A,B,0,100,120000000,0\n",
        21,
        "refused,16,24\n",
    ),
    (
        TIMES,
        TWO_OR_THREE,
        "weight,S1,120000000\n",
        "gift,A,B,0,100,most,60000000\nweight,S1,120000000\n",
        21,
        "refused,17,24\n",
    ),
    (
        TIMES,
        TWO_OR_THREE,
        "group,20\n",
        "gift,A,B,0,100,most,60000000\ngroup,20\n",
        21,
        "refused,21,24\n",
    ),
    (
        TIMES,
        TWO_OR_THREE,
        "table,2\n",
        "share,A,B,0,0\ntable,2\n",
        21,
        "refused,22,24\n",
    ),
    (
        TIMES,
        TWO_OR_THREE,
        "gift,A,B",
        "gift,B,A",
        21,
        "refused,21,25\n",
    ),
    (
        TIMES,
        TWO_OR_THREE,
        "split,trucks,A,B",
        "split,trucks,A,C",
        21,
        "refused,25,25\n",
    ),
    // UNTIL is after POINT, and at most one past the latest time; a number of trucks has 32 bits.
    (
        TIMES,
        TWO_OR_THREE,
        "gift,A,B,0,100",
        "gift,A,B,100,0",
        21,
        "refused,21,28\n",
    ),
    (
        TIMES,
        TWO_OR_THREE,
        "gift,A,B,0,100",
        "gift,A,B,0,100002",
        21,
        "refused,21,28\n",
    ),
    (
        TIMES,
        TWO_OR_THREE,
        "split,trucks,A,B,0,100,2",
        "split,trucks,A,B,100,100,2",
        21,
        "refused,25,28\n",
    ),
    (
        TIMES,
        TWO_OR_THREE,
        "split,trucks,A,B,0,100,2",
        "split,trucks,A,B,0,100002,2",
        21,
        "refused,25,28\n",
    ),
    (
        TIMES,
        TWO_OR_THREE,
        "split,trucks,A,B,0,100,2",
        "split,trucks,A,B,0,100,4294967296",
        21,
        "refused,25,28\n",
    ),
];

#[test]
fn verdicts_by_trucks_and_gifts(rt: HostRuntime) -> Result<(), Fail> {
    let alloc = rt.alloc();
    assert_eq!(rt; wrong_row(alloc, &TESTED)?, None);
    assert_eq!(rt; wrong_row(alloc, &REFUSED)?, None);
    Ok(())
}
