//! What `yard` and `fleet` print of the plans that certificates tell.

use crate::runs::run_on;
use fp_tests_examples::{LINE, LINE_PROOF};
use std::test::Fail;

// The words, the instance, the certificate, the status' number, and what is printed.
type Row = (&'static str, &'static str, &'static str, u8, &'static str);

// An arc to and fro, with a shipment over each. The second is to leave when the first has arrived.
const TO_AND_FRO: &str =
    "terminal,A\nterminal,B\narc,A,B,5,10,100,0\narc,B,A,5,10,100,0\nshipment,S1,A,B,25,0,5\nshipment,S2,B,A,15,5,10\n";

const TO_AND_FRO_PLAN: &str =
    "answer,direct,500\nleg,S1,A,B,0,5\nleg,S2,B,A,5,10\ntruck,A,B,0,3,25\ntruck,B,A,5,2,15\nend\n";

// The same, and the second is to leave a moment before.
const TOO_EARLY: &str =
    "terminal,A\nterminal,B\narc,A,B,5,10,100,0\narc,B,A,5,10,100,0\nshipment,S1,A,B,25,0,5\nshipment,S2,B,A,15,4,9\n";

const TOO_EARLY_PLAN: &str =
    "answer,direct,500\nleg,S1,A,B,0,5\nleg,S2,B,A,4,9\ntruck,A,B,0,3,25\ntruck,B,A,4,2,15\nend\n";

// Two trucks of the line's arcs, of which the second leaves with both shipments at 4.
const JOINED: &str =
    "answer,direct,200\nleg,S1,A,B,0,4\nleg,S1,B,C,4,9\nleg,S2,B,C,4,9\ntruck,A,B,0,1,4\ntruck,B,C,4,1,8\nend\n";

// The sheets of the line's terminals, and what the draws 0, 0, 1, 1, 0 and 0 choose.
const LINE_SHEETS: &str =
    "yard,3\nout,A,B,0,1\nload,S1\nout,B,C,0,1\nload,S2\nout,B,C,4,1\nload,S1\nin,B,A,4\nin,C,B,5\nin,C,B,9\ndeparts,A,B,0\narrives,A,B,0\ndeparts,B,C,4\narrives,B,C,4\ndeparts,B,C,0\narrives,B,C,0\nend\n";

// A truck for each unit of size, and one more than are told.
const MANY: &str = "terminal,A\nterminal,B\narc,A,B,5,1,100,0\nshipment,S1,A,B,1000001,0,5\n";

const MANY_PLAN: &str =
    "answer,direct,100000100\nleg,S1,A,B,0,5\ntruck,A,B,0,1000001,1000001\nend\n";

const ROWS: [Row; 18] = [
    ("yard 1", LINE, LINE_PROOF, 0, LINE_SHEETS),
    ("yard 1", LINE, JOINED, 12, "rejected,1\n"),
    (
        "yard 5",
        "terminal,A\n",
        "answer,optimal,0\nleaf,linear,0,plain\nend\n",
        0,
        "yard,0\nend\n",
    ),
    (
        "yard 1",
        TO_AND_FRO,
        "answer,direct,500\n",
        21,
        "refused,8,26\n",
    ),
    (
        "fleet",
        LINE,
        LINE_PROOF,
        0,
        "fleet,2\nneed,A,1,0\nneed,B,1,0\nstart,A,B,0,1\nstart,B,C,0,1\nturn,A,B,0,C,4,1\nend\n",
    ),
    (
        "fleet",
        TO_AND_FRO,
        TO_AND_FRO_PLAN,
        0,
        "fleet,3\nneed,A,3,0\nstart,A,B,0,3\nturn,A,B,0,A,5,2\nend\n",
    ),
    (
        "fleet",
        TOO_EARLY,
        TOO_EARLY_PLAN,
        0,
        "fleet,5\nneed,A,3,0\nneed,B,2,4\nstart,A,B,0,3\nstart,B,A,4,2\nend\n",
    ),
    // An instance without shipments.
    (
        "fleet",
        "terminal,A\n",
        "answer,direct,0\nend\n",
        0,
        "fleet,0\nend\n",
    ),
    // A plan that isn't one, another number of trucks, and an answer without a plan.
    ("fleet", LINE, JOINED, 12, "rejected,1\n"),
    (
        "fleet",
        TO_AND_FRO,
        "answer,direct,500\nleg,S1,A,B,0,5\nleg,S2,B,A,5,10\ntruck,A,B,0,2,25\ntruck,B,A,5,2,15\nend\n",
        12,
        "rejected,3\n",
    ),
    (
        "fleet",
        TO_AND_FRO,
        "answer,infeasible,S1,5\nend\n",
        12,
        "rejected,1\n",
    ),
    // What each truck runs: full ones and one with the rest, which doesn't come back.
    (
        "fleet --trucks",
        TO_AND_FRO,
        TO_AND_FRO_PLAN,
        0,
        "fleet,3\nneed,A,3,0\nstart,A,B,0,3\nturn,A,B,0,A,5,2\ntruck,1\nrun,A,B,0,5,10\nrun,B,A,5,10,10\ntruck,2\nrun,A,B,0,5,10\nrun,B,A,5,10,5\ntruck,3\nrun,A,B,0,5,5\nend\n",
    ),
    (
        "fleet --trucks",
        LINE,
        LINE_PROOF,
        0,
        "fleet,2\nneed,A,1,0\nneed,B,1,0\nstart,A,B,0,1\nstart,B,C,0,1\nturn,A,B,0,C,4,1\ntruck,1\nrun,A,B,0,4,4\nrun,B,C,4,9,4\ntruck,2\nrun,B,C,0,5,4\nend\n",
    ),
    (
        "fleet --trucks",
        "terminal,A\n",
        "answer,direct,0\nend\n",
        0,
        "fleet,0\nend\n",
    ),
    // More trucks than are told.
    (
        "fleet",
        MANY,
        MANY_PLAN,
        0,
        "fleet,1000001\nneed,A,1000001,0\nstart,A,B,0,1000001\nend\n",
    ),
    (
        "fleet --trucks",
        MANY,
        MANY_PLAN,
        0,
        "fleet,1000001\nneed,A,1000001,0\nstart,A,B,0,1000001\ntrucks,many\nend\n",
    ),
    ("fleet --trucks", LINE, JOINED, 12, "rejected,1\n"),
    // A certificate that ends too soon.
    (
        "fleet",
        TO_AND_FRO,
        "answer,direct,500\n",
        21,
        "refused,8,26\n",
    ),
];

#[test]
fn plans_are_run(rt: HostRuntime) -> Result<(), Fail> {
    for (line, instance, certificate, code, told) in ROWS {
        let input = format!(in rt.alloc(); "{instance}{certificate}")?;
        let (status, text) = run_on(rt.alloc(), line, &input)?;
        assert_eq!(rt; status, code, "{line} {input}");
        assert_eq!(rt; text.as_slice(), told.as_bytes(), "{line} {input}");
    }
    Ok(())
}
