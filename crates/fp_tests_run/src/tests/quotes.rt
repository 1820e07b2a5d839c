//! What `quote` prints.

use crate::runs::run_on;
use fp_tests_examples::{LINE, PAIR};
use std::test::Fail;

// Words, the records of the input, the status' number, and the text.
type Row = (&'static str, &'static str, u8, &'static str);

// The second shipment comes too late for the first one's truck.
const APART: &str =
    "terminal,A\nterminal,B\narc,A,B,5,10,100,1\nshipment,S1,A,B,4,0,10\nshipment,S2,A,B,5,6,12\n";

// The last shipment.
const ROWS: [Row; 7] = [
    ("quote", PAIR, 0, "quote,S2,5,5\nend\n"),
    ("quote --spans", PAIR, 0, "quote,S2,5,5\nend\n"),
    ("quote", APART, 0, "quote,S2,105,105\nend\n"),
    ("quote", LINE, 0, "quote,S2,100,100\nend\n"),
    ("quote --rounds 0", LINE, 10, "quote,S2,0,100\nend\n"),
    (
        "quote",
        "terminal,A\nterminal,B\narc,A,B,5,10,100,1\n",
        21,
        "refused,0,38\n",
    ),
    (
        "quote",
        "terminal,A\nterminal,B\narc,A,B,5,10,100,1\nshipment,S1,A,B,4,0,4\n",
        11,
        "answer,infeasible,S1,5\nend\n",
    ),
];

// A shipment by its name.
const NAMED_ROWS: [Row; 11] = [
    ("quote S2", PAIR, 0, "quote,S2,5,5,5,none\nend\n"),
    ("quote S1 --spans", PAIR, 0, "quote,S1,4,4,4,none\nend\n"),
    ("quote S1", APART, 0, "quote,S1,104,104,104,none\nend\n"),
    (
        "quote --branches 3 S1",
        LINE,
        0,
        "quote,S1,200,200,200,none\nend\n",
    ),
    (
        "quote --rounds 0 S2",
        LINE,
        10,
        "quote,S2,0,100,100,after\nend\n",
    ),
    ("quote S3", PAIR, 21, "refused,0,38\n"),
    ("quote S1,S2", PAIR, 21, "refused,0,38\n"),
    ("quote \"S1\"", PAIR, 21, "refused,0,38\n"),
    ("quote -", PAIR, 21, "refused,0,38\n"),
    (
        "quote S1",
        "terminal,A\nterminal,B\narc,A,B,5,10,100,1\n",
        21,
        "refused,0,38\n",
    ),
    (
        "quote S1",
        "terminal,A\nterminal,B\narc,A,B,5,10,100,1\nshipment,S1,A,B,4,0,4\n",
        11,
        "answer,infeasible,S1,5\nend\n",
    ),
];

#[test]
fn one_more_shipment_has_its_price(rt: HostRuntime) -> Result<(), Fail> {
    for (words, input, want, printed) in ROWS {
        let (status, text) = run_on(rt.alloc(), words, input)?;
        assert_eq!(rt; status, want, "{words}");
        assert_eq!(rt; text.as_slice(), printed.as_bytes(), "{words}");
    }
    Ok(())
}

#[test]
fn a_named_shipment_has_its_price(rt: HostRuntime) -> Result<(), Fail> {
    for (words, input, want, printed) in NAMED_ROWS {
        let (status, text) = run_on(rt.alloc(), words, input)?;
        assert_eq!(rt; status, want, "{words}");
        assert_eq!(rt; text.as_slice(), printed.as_bytes(), "{words}");
    }
    Ok(())
}
