//! What `replan` prints.

use crate::runs::run_on;
use fp_tests_examples::{LINE, PAIR};
use std::test::Fail;

// Words, the records of an instance, those of its kept legs, the status' number, and the text with
// which the answer begins.
type Row = (&'static str, &'static str, &'static str, u8, &'static str);

const ROWS: [Row; 11] = [
    (
        "replan",
        LINE,
        "kept,S2,B,C,2",
        0,
        "answer,optimal,300\nleg,S1,A,B,0,4\nleg,S2,B,C,2,7\n",
    ),
    (
        "replan",
        LINE,
        "kept,S2,B,C,4",
        11,
        "answer,stuck,S2\nend\n",
    ),
    ("replan", PAIR, "kept,S1,A,B,0", 0, "answer,optimal,209\n"),
    (
        "replan --spans",
        PAIR,
        "kept,S1,A,B,0",
        0,
        "answer,optimal,209\nunit,1\n",
    ),
    (
        "replan",
        PAIR,
        "kept,S1,A,B,4",
        0,
        "answer,optimal,109\nleg,S1,A,B,4,9\nleg,S2,A,B,4,9\n",
    ),
    ("replan", LINE, "kept,S1,B,C,4", 21, "refused,8,36\n"),
    ("replan", LINE, "kept,S1,A,B,0x", 21, "refused,8,33\n"),
    ("replan", LINE, "kept,S1,A,B,0\nkeep", 21, "refused,9,31\n"),
    // Without a round B has one time point, as if one truck could take both shipments from B to C.
    (
        "replan --rounds 0",
        LINE,
        "kept,S2,B,C,2",
        10,
        "answer,unfinished,300,200,rounds\nleg,S1,A,B,0,4\nleg,S2,B,C,2,7\n",
    ),
    // The instance's faults come first, and nothing may be kept.
    ("replan", LINE, "keep\nkept,S1,A,B,0x", 21, "refused,8,1\n"),
    ("replan", LINE, "", 0, "answer,optimal,300\n"),
];

#[test]
fn trucks_that_roll_are_kept(rt: HostRuntime) -> Result<(), Fail> {
    let alloc = rt.alloc();
    for (words, instance, kept, want, front) in ROWS {
        let input = format!(in alloc; "{instance}{kept}\n")?;
        let (status, text) = run_on(alloc, words, input.as_str())?;
        assert_eq!(rt; status, want, "{words}: {kept}");
        assert!(rt; text.starts_with(front.as_bytes()), "{words}: {kept}");
    }
    Ok(())
}
