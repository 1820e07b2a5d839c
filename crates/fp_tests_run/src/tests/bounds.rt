//! What `bound` prints.

use crate::runs::run_on;
use fp_tests_examples::{DETOUR, LINE, TRIO};
use std::test::Fail;

// Two shipments that share a truck, which costs 60.
const SHARED: &str =
    "terminal,A\nterminal,B\narc,A,B,5,10,60,0\nshipment,S1,A,B,5,0,20\nshipment,S2,A,B,5,0,20\n";

// The words, the records of the input, the status' number, and the text that is written.
const ROWS: [(&str, &str, u8, &str); 12] = [
    // A truck for each arc: at the points of the start both shipments can share one over the second.
    ("bound", LINE, 0, "answer,bound,200\nend\n"),
    // By spans in groups a truck for each leg: over the second arc they can't leave together.
    ("bound --spans", LINE, 0, "answer,bound,300\nend\n"),
    // By linear prices 40, by even ones 100.
    ("bound", DETOUR, 0, "answer,bound,100\nend\n"),
    // No shares of the root pass 150. By spans each shipment pays 60, as in the cheapest plan.
    ("bound", TRIO, 0, "answer,bound,150\nend\n"),
    ("bound --spans", TRIO, 0, "answer,bound,180\nend\n"),
    // Both together pay one truck, also by spans.
    ("bound --spans", SHARED, 0, "answer,bound,60\nend\n"),
    ("bound", "", 0, "answer,bound,0\nend\n"),
    ("bound --spans", "", 0, "answer,bound,0\nend\n"),
    // Four thirds of a truck at 100, which is 133 and a third, rounded up.
    (
        "bound",
        "terminal,A\nterminal,B\nterminal,C\narc,A,B,5,3,100,0\narc,A,C,4,3,50,0\narc,C,B,4,3,50,0\nshipment,S1,A,B,1,0,20\nshipment,S2,A,B,1,0,20\nshipment,S3,A,B,2,0,20\n",
        0,
        "answer,bound,134\nend\n",
    ),
    (
        "bound",
        "terminal,A\nterminal,B\narc,A,B,5,10,100,1\nshipment,S1,A,B,4,0,4\n",
        11,
        "answer,infeasible,S1,5\nend\n",
    ),
    (
        "bound --spans",
        "terminal,A\nterminal,B\narc,A,B,5,10,100,1\nshipment,S1,A,B,4,0,4\n",
        11,
        "answer,infeasible,S1,5\nend\n",
    ),
    (
        "bound",
        "terminal,A\nterminal,B\nanswer,bound,0\n",
        21,
        "refused,3,1\n",
    ),
];

#[test]
fn numbers_under_which_no_plan_costs(rt: HostRuntime) -> Result<(), Fail> {
    for (words, input, code, want) in ROWS {
        let (status, text) = run_on(rt.alloc(), words, input)?;
        assert_eq!(rt; status, code, "{words} {input}");
        assert_eq!(rt; text.as_slice(), want.as_bytes(), "{words} {input}");
    }
    Ok(())
}
