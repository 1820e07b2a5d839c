//! The refusals of an instance's records, each by its ordinal and code.

use crate::runs::run_on;
use std::test::Fail;

const TWO_TERMINALS: &str = "terminal,A\nterminal,B\n";

// What stands after the two terminals, and the line that is printed.
const ROWS: [(&str, &str); 27] = [
    ("depot,C", "refused,3,1\n"),
    ("answer,optimal,0", "refused,3,1\n"),
    ("arc,A,B,5,10,100", "refused,3,2\n"),
    ("terminal,C,1,2", "refused,3,2\n"),
    ("terminal,C C", "refused,3,3\n"),
    ("arc,A,B C,5,10,100,1", "refused,3,3\n"),
    (
        "terminal,ABCDEFGHIJKLMNOPQRSTUVWXYZabcdefg",
        "refused,3,3\n",
    ),
    ("arc,A,B,5x,10,100,1", "refused,3,4\n"),
    ("terminal,C,1x", "refused,3,4\n"),
    ("arc,A,B,0,10,100,1", "refused,3,5\n"),
    ("arc,A,A,0,10,100,1", "refused,3,5\n"),
    ("arc,A,B,5,10,100,1000000000000000001", "refused,3,5\n"),
    (
        "arc,A,B,5,10,100,100000000000000000000000000000000000000001",
        "refused,3,5\n",
    ),
    ("terminal,C,1001", "refused,3,5\n"),
    ("shipment,S1,A,B,4,0,100001", "refused,3,5\n"),
    ("terminal,A", "refused,3,6\n"),
    ("terminal,C\nterminal,A", "refused,4,6\n"),
    (
        "shipment,S1,A,B,4,0,9\nshipment,S1,A,B,4,0,9",
        "refused,4,6\n",
    ),
    ("arc,A,D,5,10,100,1", "refused,3,7\n"),
    ("arc,D,D,5,10,100,1", "refused,3,7\n"),
    ("shipment,S1,D,B,4,0,9", "refused,3,7\n"),
    ("arc,A,A,5,10,100,1", "refused,3,8\n"),
    ("shipment,S1,A,A,4,0,9", "refused,3,8\n"),
    ("arc,A,B,5,10,100,1\narc,A,B,5,10,100,1", "refused,4,9\n"),
    ("shipment,S1,A,B,4,10,9", "refused,3,10\n"),
    // A record that is dropped has no ordinal.
    (",,\n\nshipment,S1,A,B,4,10,9", "refused,3,10\n"),
    (
        "arc,A,B,5,10,100,1000000000000000000\nshipment,S1,A,B,1000000000000000000,0,10",
        "refused,0,12\n",
    ),
];

#[test]
fn each_fault_has_its_code(rt: HostRuntime) -> Result<(), Fail> {
    let alloc = rt.alloc();
    for (more, want) in ROWS {
        let input = format!(in alloc; "{TWO_TERMINALS}{more}\n")?;
        let (status, text) = run_on(alloc, "direct", input.as_str())?;
        assert_eq!(rt; status, 21, "{more}");
        assert_eq!(rt; text.as_slice(), want.as_bytes(), "{more}");
    }
    Ok(())
}

#[test]
fn the_instance_is_read_before_its_certificate(rt: HostRuntime) -> Result<(), Fail> {
    let input = "terminal,A\nterminal,A\nanswer,best,1\n";
    let (status, text) = run_on(rt.alloc(), "check", input)?;
    assert_eq!(rt; status, 21);
    assert_eq!(rt; text.as_slice(), b"refused,2,6\n".as_slice());
    Ok(())
}
