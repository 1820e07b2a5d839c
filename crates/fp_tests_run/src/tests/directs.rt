//! What `direct` prints.

use crate::runs::run_on;
use fp_tests_examples::{LINE, ONE_ARC, PAIR};
use std::test::Fail;

// Words, the records of the input, the status' number, and the text that is written.
type Row = (&'static str, &'static str, u8, &'static str);

const ONE_ARC_DIRECT: &str = "answer,direct,104\nleg,S1,A,B,0,5\ntruck,A,B,0,1,4\nend\n";

const ROWS: [Row; 14] = [
    ("direct", ONE_ARC, 0, ONE_ARC_DIRECT),
    (
        "direct",
        PAIR,
        0,
        "answer,direct,209\nleg,S1,A,B,0,5\nleg,S2,A,B,3,8\ntruck,A,B,0,1,4\ntruck,A,B,3,1,5\nend\n",
    ),
    (
        "direct",
        "terminal,A\nterminal,B\narc,A,B,5,10,100,1\nshipment,S1,A,B,6,0,10\nshipment,S2,A,B,5,0,10\n",
        0,
        "answer,direct,211\nleg,S1,A,B,0,5\nleg,S2,A,B,0,5\ntruck,A,B,0,2,11\nend\n",
    ),
    (
        "direct",
        "terminal,A\nterminal,B\narc,A,B,5,10,100,1\nshipment,S1,A,B,25,0,10\n",
        0,
        "answer,direct,325\nleg,S1,A,B,0,5\ntruck,A,B,0,3,25\nend\n",
    ),
    (
        "direct",
        LINE,
        0,
        "answer,direct,300\nleg,S1,A,B,0,4\nleg,S2,B,C,0,5\nleg,S1,B,C,4,9\ntruck,A,B,0,1,4\ntruck,B,C,0,1,4\ntruck,B,C,4,1,4\nend\n",
    ),
    ("direct", "", 0, "answer,direct,0\nend\n"),
    // The due time is the least at which the shipment can come, and one less.
    (
        "direct",
        "terminal,A\nterminal,B\narc,A,B,5,10,100,1\nshipment,S1,A,B,4,0,5\n",
        0,
        ONE_ARC_DIRECT,
    ),
    (
        "direct",
        "terminal,A\nterminal,B\narc,A,B,5,10,100,1\nshipment,S1,A,B,4,0,4\n",
        11,
        "answer,infeasible,S1,5\nend\n",
    ),
    (
        "direct",
        "terminal,A\nterminal,B\narc,A,B,5,10,100,1\nshipment,S1,B,A,4,0,10\n",
        11,
        "answer,infeasible,S1,none\nend\n",
    ),
    // A hold where a shipment passes through: it leaves B one unit after it came.
    (
        "direct",
        "terminal,A\nterminal,B,1\nterminal,C\narc,A,B,4,10,100,0\narc,B,C,5,10,100,0\nshipment,S1,A,C,4,0,10\nshipment,S2,B,C,4,0,8\n",
        0,
        "answer,direct,300\nleg,S1,A,B,0,4\nleg,S2,B,C,0,5\nleg,S1,B,C,5,10\ntruck,A,B,0,1,4\ntruck,B,C,0,1,4\ntruck,B,C,5,1,4\nend\n",
    ),
    (
        "direct",
        "terminal,A\nterminal,B,1\nterminal,C\narc,A,B,4,10,100,0\narc,B,C,5,10,100,0\nshipment,S1,A,C,4,0,9\nshipment,S2,B,C,4,0,8\n",
        11,
        "answer,infeasible,S1,10\nend\n",
    ),
    // As a spreadsheet writes it: a byte order mark, quotes, padding commas, a blank line, and
    // both line ends.
    (
        "direct",
        "\u{FEFF}terminal,\"A\",,,,,\r\nterminal,\"B\",,,,,\r\narc,\"A\",\"B\",5,10,100,1\r\nshipment,\"S1\",\"A\",\"B\",4,0,10\r\n\r\n",
        0,
        ONE_ARC_DIRECT,
    ),
    // Leading zeros, and a shipment with the name of a terminal.
    (
        "direct",
        "terminal,A\nterminal,B\narc,A,B,0005,10,100,1\nshipment,A,A,B,0004,0,10\n",
        0,
        "answer,direct,104\nleg,A,A,B,0,5\ntruck,A,B,0,1,4\nend\n",
    ),
    // The longest name.
    (
        "direct",
        "terminal,ABCDEFGHIJKLMNOPQRSTUVWXYZabcdef\n",
        0,
        "answer,direct,0\nend\n",
    ),
];

#[test]
fn answers(rt: HostRuntime) -> Result<(), Fail> {
    for (line, input, code, want) in ROWS {
        let (status, text) = run_on(rt.alloc(), line, input)?;
        assert_eq!(rt; status, code, "{line}: {input}");
        assert_eq!(rt; text.as_slice(), want.as_bytes(), "{line}: {input}");
    }
    Ok(())
}
