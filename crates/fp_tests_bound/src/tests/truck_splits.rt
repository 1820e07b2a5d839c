//! Certificates with splits by trucks and gifts: which the checker accepts, and the part that fails first.

use crate::tests::checker::told_of;
use crate::tests::gifts::SIXES;
use fp_checker::Rejected;
use std::alloc::Global;
use std::test::Fail;

// The three shipments of SIXES in two trucks.
const TOGETHER: &str = "leg,S1,A,B,0,5\nleg,S2,A,B,0,5\nleg,S3,A,B,0,5\ntruck,A,B,0,2,18\n";

// A span by which each shipment pays 40, since all three need two trucks.
const SPANNED: &str =
    "table,1\nspan,A,B,0,100,60000000,0\nweight,S1,40000000\nweight,S2,40000000\nweight,S3,40000000\n";

// The whole cost of each truck counts by the number of trucks, so shipments pay nothing.
const LEAST: &str = "table,2\nspan,A,B,0,100,0,0\ngift,A,B,0,100,least,60000000\n";

// Each shipment pays 80, and 60 for each truck comes off.
const MOST: &str =
    "table,3\nspan,A,B,0,100,120000000,0\nweight,S1,80000000\nweight,S2,80000000\nweight,S3,80000000\ngift,A,B,0,100,most,60000000\n";

// What is claimed by these tables, a tree, and the first part that fails.
type Row = (u32, &'static str, Option<u32>);

const TREES: [Row; 21] = [
    // At most one truck is worth 240 less 60, and at least two are worth 120.
    (
        120,
        "split,trucks,A,B,0,100,1\nleaf,3,0,plain\nleaf,2,0,plain\n",
        None,
    ),
    (
        121,
        "split,trucks,A,B,0,100,1\nleaf,3,0,plain\nleaf,2,0,plain\n",
        Some(7),
    ),
    // At most two are worth 240 less 120, and at least three are worth 180.
    (
        120,
        "split,trucks,A,B,0,100,2\nleaf,3,0,plain\nleaf,2,0,plain\n",
        None,
    ),
    (
        121,
        "split,trucks,A,B,0,100,2\nleaf,3,0,plain\nleaf,2,0,plain\n",
        Some(7),
    ),
    (
        120,
        "split,trucks,A,B,0,100,2\nleaf,1,0,plain\nleaf,2,0,plain\n",
        None,
    ),
    // One leaf of two trucks, below a side of each kind, by either.
    (
        120,
        "split,trucks,A,B,0,100,2\nsplit,trucks,A,B,0,100,1\nleaf,3,0,plain\nleaf,2,0,plain\nleaf,2,0,plain\n",
        None,
    ),
    (
        120,
        "split,trucks,A,B,0,100,1\nleaf,3,0,plain\nsplit,trucks,A,B,0,100,2\nleaf,3,0,plain\nleaf,2,0,plain\n",
        None,
    ),
    // A gift at a leaf without a side by trucks, or with one of the other kind, or of another run.
    (0, "leaf,2,0,plain\n", Some(7)),
    (0, "leaf,3,0,plain\n", Some(7)),
    (
        0,
        "split,trucks,A,B,0,100,2\nleaf,2,0,plain\nleaf,2,0,plain\n",
        Some(7),
    ),
    (
        0,
        "split,trucks,A,B,0,100,2\nleaf,3,0,plain\nleaf,3,0,plain\n",
        Some(7),
    ),
    (
        0,
        "split,trucks,A,B,0,99,2\nleaf,1,0,plain\nleaf,2,0,plain\n",
        Some(7),
    ),
    // Gifts don't stand beside forced classes, and count under the sides by which a leaf is valued.
    (
        0,
        "split,trucks,A,B,0,100,2\nleaf,1,0,plain\nleaf,2,0,forced\n",
        Some(7),
    ),
    (
        120,
        "split,trucks,A,B,0,100,2\nleaf,1,0,plain\nleaf,2,0,plain,1\n",
        None,
    ),
    (
        0,
        "split,trucks,A,B,0,100,2\nleaf,1,0,plain\nleaf,2,0,plain,0\n",
        Some(7),
    ),
    // At most 0 trucks by all moments leave no class, so that leaf is empty, whatever prices it; by all but
    // one moment the class is left, and linear prices make 108 of it.
    (
        120,
        "split,trucks,A,B,0,5,0\nleaf,linear,0,plain\nleaf,1,0,plain\n",
        None,
    ),
    (
        120,
        "split,trucks,A,B,0,5,0\nleaf,2,0,plain\nleaf,1,0,plain\n",
        None,
    ),
    (
        108,
        "split,trucks,A,B,0,4,0\nleaf,linear,0,plain\nleaf,1,0,plain\n",
        None,
    ),
    (
        109,
        "split,trucks,A,B,0,4,0\nleaf,linear,0,plain\nleaf,1,0,plain\n",
        Some(7),
    ),
    // At most one leaves the class, and without gifts it changes no value.
    (
        108,
        "split,trucks,A,B,0,5,1\nleaf,linear,0,plain\nleaf,1,0,plain\n",
        None,
    ),
    (
        109,
        "split,trucks,A,B,0,5,1\nleaf,linear,0,plain\nleaf,1,0,plain\n",
        Some(7),
    ),
];

// What a table with gifts has, and the first part that fails where no leaf is priced by it.
type Prices = (&'static str, Option<u32>);

const PRICES: [Prices; 16] = [
    // What a truck costs, and one part more.
    ("span,A,B,0,100,0,0\ngift,A,B,0,100,least,60000000\n", None),
    (
        "span,A,B,0,100,0,0\ngift,A,B,0,100,least,60000001\n",
        Some(5),
    ),
    (
        "span,A,B,0,100,1,0\ngift,A,B,0,100,least,60000000\n",
        Some(5),
    ),
    // A gift because at most so many leave lets spans have more than a truck costs, and one because at least
    // so many do doesn't.
    (
        "span,A,B,0,100,120000000,0\ngift,A,B,0,100,most,60000000\n",
        None,
    ),
    (
        "span,A,B,0,100,120000001,0\ngift,A,B,0,100,most,60000000\n",
        Some(5),
    ),
    (
        "span,A,B,0,100,120000000,0\nweight,S1,80000000\nweight,S2,80000000\nweight,S3,80000000\ngift,A,B,0,100,least,60000000\n",
        Some(5),
    ),
    // Where no span holds, shipments may pay for the whole truck.
    ("gift,A,B,0,100,most,1\n", None),
    ("gift,A,B,0,100,least,1\n", Some(5)),
    (
        "gift,A,B,0,100,least,60000000\ngift,A,B,0,100,most,60000000\n",
        None,
    ),
    (
        "gift,A,B,0,100,least,60000000\ngift,A,B,0,50,most,60000000\n",
        Some(5),
    ),
    (
        "span,A,B,0,50,0,0\ngift,A,B,0,100,least,60000000\n",
        Some(5),
    ),
    // Spans that meet hold at each time of the gift's run; with one time between them they don't, though no
    // point is there.
    (
        "span,A,B,0,50,0,0\nspan,A,B,50,100,0,0\ngift,A,B,0,100,least,60000000\n",
        None,
    ),
    (
        "span,A,B,0,50,0,0\nspan,A,B,51,100,0,0\ngift,A,B,0,100,least,60000000\n",
        Some(5),
    ),
    // Amounts sum to less than 2^90; a gift may stand twice.
    (
        "gift,A,B,0,100,most,618970019642690137449562112\ngift,A,B,0,100,most,618970019642690137449562111\n",
        None,
    ),
    (
        "gift,A,B,0,100,most,618970019642690137449562112\ngift,A,B,0,100,most,618970019642690137449562112\n",
        Some(5),
    ),
    // The charge of a span is to pay, whatever the gifts.
    (
        "span,A,B,0,100,0,0\nweight,S1,1\ngift,A,B,0,100,least,60000000\n",
        Some(5),
    ),
];

// Three shipments of 6 of which none leaves with another: from 0 to 4, 10 to 14 and 20 to 24.
const THREE_TIMES: &str =
    "terminal,A\nterminal,B\narc,A,B,5,10,60,0\nshipment,S1,A,B,6,0,9\nshipment,S2,A,B,6,10,19\nshipment,S3,A,B,6,20,29\nanswer,optimal,";

const THREE_TRUCKS: &str =
    "\nleg,S1,A,B,0,5\nleg,S2,A,B,10,15\nleg,S3,A,B,20,25\ntruck,A,B,0,1,6\ntruck,A,B,10,1,6\ntruck,A,B,20,1,6\n";

// Each pays 120 for a truck of its own, so at most two trucks would be worth 360 less 120.
const GROUPED: &str =
    "table,1\nspan,A,B,0,100,120000000,0\nweight,S1,120000000\nweight,S2,120000000\nweight,S3,120000000\ngroup,10\ngroup,20\ngift,A,B,0,100,most,60000000\n";

// Whether the first part that fails of a text is this one.
fn fails_by(alloc: Global, text: &str, part: Option<u32>) -> Result<bool, Fail> {
    if text.len() >= 2000 {
        return Ok(false);
    }
    let told = told_of(alloc, text)?;
    Ok(told.verdict.err() == part.map(|number| Rejected::Part { number }))
}

#[test]
fn leaves_of_splits_by_trucks(rt: HostRuntime) -> Result<(), Fail> {
    let alloc = rt.alloc();
    for (claim, tree, part) in TREES {
        let text = format!(in alloc;
            "{SIXES}answer,unfinished,120,{claim},branches\n{TOGETHER}{SPANNED}{LEAST}{MOST}{tree}end\n"
        )?;
        assert!(rt; fails_by(alloc, text.as_str(), part)?, "{text}");
    }
    Ok(())
}

#[test]
fn tables_with_gifts(rt: HostRuntime) -> Result<(), Fail> {
    let alloc = rt.alloc();
    for (prices, part) in PRICES {
        let text = format!(in alloc;
            "{SIXES}answer,unfinished,120,0,branches\n{TOGETHER}table,1\n{prices}leaf,linear,0,plain\nend\n"
        )?;
        assert!(rt; fails_by(alloc, text.as_str(), part)?, "{text}");
    }
    Ok(())
}

// The run of a gift has to begin at a point, and to end at one or after all due times.
#[test]
fn gifts_whose_runs_end_at_points(rt: HostRuntime) -> Result<(), Fail> {
    let alloc = rt.alloc();
    for (run, part) in [
        ("0,100", None),
        ("0,10", None),
        ("0,9", Some(7)),
        ("1,100", Some(7)),
    ] {
        let text = format!(in alloc;
            "{SIXES}answer,unfinished,120,108,branches\n{TOGETHER}table,1\nspan,A,B,0,100,0,0\ngift,A,B,{run},least,60000000\nsplit,trucks,A,B,{run},2\nleaf,linear,0,plain\nleaf,1,0,plain\nend\n"
        )?;
        assert!(rt; fails_by(alloc, text.as_str(), part)?, "{text}");
    }
    Ok(())
}

// At least three trucks are worth three times the gift. Of the sides above a leaf the one that asks for
// most counts, wherever it stands.
#[test]
fn three_trucks(rt: HostRuntime) -> Result<(), Fail> {
    let alloc = rt.alloc();
    for (amount, below, part) in [
        ("least,60000000", "leaf,2,0,plain\n", None),
        ("least,59000000", "leaf,2,0,plain\n", Some(7)),
        ("most,60000000", "leaf,2,0,plain\n", Some(7)),
        (
            "least,60000000",
            "split,trucks,A,B,0,100,1\nleaf,2,0,plain\nleaf,2,0,plain\n",
            None,
        ),
        (
            "least,60000000",
            "split,trucks,A,B,0,100,1\nleaf,2,0,plain\nleaf,2,0,plain,1\n",
            None,
        ),
        (
            "least,60000000",
            "split,trucks,A,B,0,50,1\nleaf,2,0,plain\nleaf,2,0,plain\n",
            None,
        ),
    ] {
        let text = format!(in alloc;
            "{THREE_TIMES}180{THREE_TRUCKS}{GROUPED}table,2\nspan,A,B,0,100,0,0\ngift,A,B,0,100,{amount}\nsplit,trucks,A,B,0,100,2\nleaf,1,0,plain\n{below}end\n"
        )?;
        assert!(rt; fails_by(alloc, text.as_str(), part)?, "{text}");
    }
    Ok(())
}
