//! What `plan` prints, and that `check` accepts it.

use crate::runs::{check_on, lines_with, run_on, trucks_from};
use fp_tests_examples::{DETOUR, LINE, ONE_ARC, PAIR, TRIO};
use std::test::Fail;

// Words, the records of the input, the status' number, and the text with which the answer begins.
type Row = (&'static str, &'static str, u8, &'static str);

// An arc, and no shipment.
const NO_SHIPMENTS: &str = "terminal,A\nterminal,B\narc,A,B,5,10,100,1\n";

// `PAIR` as a spreadsheet writes it: a byte order mark, quotes, padding commas, a blank line, and
// both characters at each line's end.
const SHEET: &str =
    "\u{FEFF}terminal,\"A\",,,,,\r\nterminal,\"B\",,,,,\r\narc,\"A\",\"B\",5,10,100,1\r\nshipment,\"S1\",\"A\",\"B\",4,0,10\r\nshipment,\"S2\",\"A\",\"B\",5,3,12\r\n\r\n";

// A shipment that is held for 1 on its way.
const HELD: &str =
    "terminal,A\nterminal,B,1\nterminal,C\narc,A,B,4,10,100,0\narc,B,C,5,10,100,0\nshipment,S1,A,C,4,0,10\nshipment,S2,B,C,4,0,8\n";

// A day of a carrier, in minutes, pallets and cents.
const DAY: &str =
    "terminal,NICE\nterminal,LYON\nterminal,PARIS\nterminal,LILLE\narc,NICE,LYON,300,33,52000,150\narc,LYON,PARIS,280,33,48000,140\narc,PARIS,LILLE,150,33,26000,80\nshipment,P1,NICE,PARIS,12,480,1500\nshipment,P2,LYON,PARIS,15,600,1500\nshipment,P3,LYON,LILLE,5,540,1800\nshipment,P4,NICE,LILLE,6,900,2880\n";

// A weight that fits the usual scale, and not the greatest.
const HEAVY: &str =
    "terminal,A\nterminal,B\narc,A,B,5,10,100,1000000000000\nshipment,S1,A,B,10000000000000,0,10\n";

// Three shipments of 5 from A to B, of which two fill a truck, straight for 60 or over C for 100, and one
// that fills a truck to C. All straight take two trucks, 120, and the one to C 100, and 25 for their sizes.
// Without a split they seem to share the second truck to C in halves, which is worth 235 at most; at most
// one truck to C is worth 245, and so is more than one.
const WAYS: &str =
    "terminal,A\nterminal,B\nterminal,C\narc,A,B,5,10,60,1\narc,A,C,2,10,100,1\narc,C,B,2,10,0,0\nshipment,S1,A,B,5,0,9\nshipment,S2,A,B,5,0,9\nshipment,S3,A,B,5,0,9\nshipment,S4,A,C,10,0,9\n";

const ANSWERED: [Row; 33] = [
    ("plan", ONE_ARC, 0, "answer,optimal,104\n"),
    (
        "plan --rounds 4000 --branches 100000",
        ONE_ARC,
        0,
        "answer,optimal,104\n",
    ),
    ("plan", PAIR, 0, "answer,optimal,109\n"),
    // Both leave at 5.
    (
        "plan",
        "terminal,A\nterminal,B\narc,A,B,5,10,100,1\nshipment,S1,A,B,4,0,10\nshipment,S2,A,B,5,5,12\n",
        0,
        "answer,optimal,109\nleg,S1,A,B,5,10\nleg,S2,A,B,5,10\n",
    ),
    // No fraction between 5 and 6 helps.
    (
        "plan",
        "terminal,A\nterminal,B\narc,A,B,5,10,100,1\nshipment,S1,A,B,4,0,10\nshipment,S2,A,B,5,6,12\n",
        0,
        "answer,optimal,209\n",
    ),
    (
        "plan",
        "terminal,A\nterminal,B\narc,A,B,5,10,100,1\nshipment,S1,A,B,6,0,10\nshipment,S2,A,B,5,0,10\n",
        0,
        "answer,optimal,211\n",
    ),
    // Three trucks.
    (
        "plan",
        "terminal,A\nterminal,B\narc,A,B,5,10,100,1\nshipment,S1,A,B,25,0,10\n",
        0,
        "answer,optimal,325\n",
    ),
    ("plan", NO_SHIPMENTS, 0, "answer,optimal,0\nleaf,"),
    (
        "plan --rounds 0 --branches 0",
        NO_SHIPMENTS,
        0,
        "answer,optimal,0\nleaf,",
    ),
    // The due time is the least at which the shipment can come, and one less.
    (
        "plan",
        "terminal,A\nterminal,B\narc,A,B,5,10,100,1\nshipment,S1,A,B,4,0,5\n",
        0,
        "answer,optimal,104\nleg,S1,A,B,0,5\n",
    ),
    (
        "plan",
        "terminal,A\nterminal,B\narc,A,B,5,10,100,1\nshipment,S1,A,B,4,0,4\n",
        11,
        "answer,infeasible,S1,5\nend\n",
    ),
    (
        "plan",
        "terminal,A\nterminal,B\narc,A,B,5,10,100,1\nshipment,S1,B,A,4,0,10\n",
        11,
        "answer,infeasible,S1,none\nend\n",
    ),
    ("plan", LINE, 0, "answer,optimal,300\n"),
    (
        "plan --rounds 0",
        LINE,
        10,
        "answer,unfinished,300,200,rounds\n",
    ),
    (
        "plan --rounds 0 --branches 0",
        LINE,
        10,
        "answer,unfinished,300,200,rounds\n",
    ),
    ("plan --rounds=1", LINE, 0, "answer,optimal,300\n"),
    ("plan --scale 1", LINE, 0, "answer,optimal,300\nscale,1\n"),
    (
        "plan --rounds 0 --scale 7",
        LINE,
        10,
        "answer,unfinished,300,200,rounds\nscale,7\n",
    ),
    ("plan --scale 1000000", LINE, 0, "answer,optimal,300\nleg,"),
    ("plan", TRIO, 0, "answer,optimal,180\n"),
    (
        "plan --branches 0",
        TRIO,
        10,
        "answer,unfinished,180,150,branches\n",
    ),
    (
        "plan --branches 1",
        TRIO,
        10,
        "answer,unfinished,180,150,branches\n",
    ),
    ("plan --branches 0", DETOUR, 0, "answer,optimal,100\n"),
    // By spans each pays a whole truck at the root. All costs are multiples of the unit.
    (
        "plan --spans --branches 0",
        TRIO,
        0,
        "answer,optimal,180\nunit,30\nleg,",
    ),
    ("plan --spans", ONE_ARC, 0, "answer,optimal,104\nunit,4\n"),
    (
        "plan --rounds 0 --spans",
        LINE,
        0,
        "answer,optimal,300\nunit,100\n",
    ),
    ("plan --spans", NO_SHIPMENTS, 0, "answer,optimal,0\nunit,"),
    ("plan", SHEET, 0, "answer,optimal,109\n"),
    ("plan", HELD, 0, "answer,optimal,300\n"),
    (
        "plan",
        "terminal,A\nterminal,B,1\nterminal,C\narc,A,B,4,10,100,0\narc,B,C,5,10,100,0\nshipment,S1,A,C,4,0,9\nshipment,S2,B,C,4,0,8\n",
        11,
        "answer,infeasible,S1,10\nend\n",
    ),
    ("plan", DAY, 0, "answer,optimal,182900\n"),
    (
        "plan",
        HEAVY,
        0,
        "answer,optimal,10000000000100000000000000\n",
    ),
    (
        "plan --scale 250000000",
        HEAVY,
        0,
        "answer,optimal,10000000000100000000000000\nscale,250000000\n",
    ),
];

const REFUSED: [Row; 3] = [
    (
        "plan",
        "terminal,A\nterminal,B\nanswer,optimal,0\n",
        21,
        "refused,3,1\n",
    ),
    (
        "plan",
        "terminal,A\nterminal,B\narc,A,B,5,10,100,1000000000000000000\nshipment,S1,A,B,1000000000000000000,0,10\n",
        21,
        "refused,0,12\n",
    ),
    ("plan --scale 1000000000", HEAVY, 21, "refused,0,12\n"),
];

// Words, the records of the input, what a line begins with, and how many lines do.
const COUNTS: [(&str, &str, &str, usize); 14] = [
    // Both leave together.
    ("plan", PAIR, "truck,", 1),
    ("plan", NO_SHIPMENTS, "", 3),
    ("plan --rounds=1", LINE, "point,", 1),
    ("plan --rounds=1", LINE, "point,B,4,1", 1),
    ("plan --scale 1000000", LINE, "scale,", 0),
    ("plan --branches 1", TRIO, "split,", 1),
    ("plan --branches 1", TRIO, "unit,", 0),
    ("plan --branches 1", TRIO, "span,", 0),
    ("plan --spans", TRIO, "split,", 0),
    ("plan --branches 1", TRIO, "leaf,", 2),
    ("plan", HELD, "leg,S1,B,C,5,10", 1),
    ("direct", DAY, "answer,direct,356900", 1),
    // A joined departure would be a third leg at 0.
    ("plan", LINE, "leg,", 3),
    ("plan", LINE, "truck,", 3),
];

#[test]
fn check_accepts_what_plan_answers(rt: HostRuntime) -> Result<(), Fail> {
    let alloc = rt.alloc();
    for (line, input, code, want) in ANSWERED {
        let (status, text) = run_on(alloc, line, input)?;
        assert_eq!(rt; status, code, "{line} {input}");
        assert!(rt; text.starts_with(want.as_bytes()), "{line} {input}");
        let accepted = match status {
            0 => "accepted,optimal\n",
            10 => "accepted,unfinished\n",
            _ => "accepted,infeasible\n",
        };
        let (status, text) = check_on(alloc, input, &text)?;
        assert_eq!(rt; status, 0, "{line} {input}");
        assert_eq!(rt; text.as_slice(), accepted.as_bytes(), "{line} {input}");
    }
    Ok(())
}

#[test]
fn records_and_scales_are_refused(rt: HostRuntime) -> Result<(), Fail> {
    for (line, input, code, want) in REFUSED {
        let (status, text) = run_on(rt.alloc(), line, input)?;
        assert_eq!(rt; status, code, "{line} {input}");
        assert_eq!(rt; text.as_slice(), want.as_bytes(), "{line} {input}");
    }
    Ok(())
}

#[test]
fn lines_of_answers(rt: HostRuntime) -> Result<(), Fail> {
    for (line, input, front, count) in COUNTS {
        let (_, text) = run_on(rt.alloc(), line, input)?;
        assert_eq!(rt; lines_with(&text, front), count, "{line} {front}");
    }
    Ok(())
}

#[test]
fn trucks_of_a_day(rt: HostRuntime) -> Result<(), Fail> {
    let (_, text) = run_on(rt.alloc(), "plan", DAY)?;
    for (terminal, trucks) in [("NICE", 1), ("LYON", 2), ("PARIS", 1), ("LILLE", 0)] {
        assert_eq!(rt; trucks_from(&text, terminal), trucks, "{terminal}");
    }
    Ok(())
}

// Where spans are sought, leaves are split by the trucks of an arc and by ways.
#[test]
fn splits_by_spans_are_accepted(rt: HostRuntime) -> Result<(), Fail> {
    let alloc = rt.alloc();
    for (line, code, want, by_trucks, by_ways) in [
        (
            "plan --spans --branches 0",
            10,
            "answer,unfinished,245,235,branches\n",
            0,
            0,
        ),
        (
            "plan --spans --branches 1",
            10,
            "answer,unfinished,245,235,branches\n",
            1,
            0,
        ),
        ("plan --spans --branches 3", 0, "answer,optimal,245\n", 2, 1),
        ("plan --branches 3", 10, "answer,unfinished,245,", 0, 0),
    ] {
        let (status, text) = run_on(alloc, line, WAYS)?;
        assert_eq!(rt; status, code, "{line}");
        assert!(rt; text.starts_with(want.as_bytes()), "{line}");
        assert_eq!(rt; lines_with(&text, "split,trucks,"), by_trucks, "{line}");
        assert_eq!(rt; lines_with(&text, "split,way,"), by_ways, "{line}");
        let (status, _) = check_on(alloc, WAYS, &text)?;
        assert_eq!(rt; status, 0, "{line}");
    }
    Ok(())
}
