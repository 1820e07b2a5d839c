//! Words that are none of the forms, and words with options.

use crate::runs::run_on;
use fp_tests_examples::ONE_ARC;
use std::test::Fail;

const LINES: [&str; 59] = [
    "",
    "fly",
    "Direct",
    "dir",
    "direct now",
    "check now",
    "fleet now",
    "yard",
    "yard -",
    "yard 2147483648",
    "direct check",
    "direct --",
    "-- direct",
    "direct -",
    "direct -h",
    "direct --help",
    "--version",
    "help direct",
    "bound --spans --spans",
    "bound --spans=1",
    "bound --spans=",
    "bound --spans x",
    "bound spans",
    "bound -s",
    "plan --spans --spans",
    "plan --spans=1",
    "plan spans",
    "plan now",
    "plan --rounds",
    "plan --rounds --branches 5",
    "plan --rounds 4001",
    "plan --rounds 5 --rounds 5",
    "plan --rounds 5 --rounds=5",
    "plan --branches 100001",
    "plan --scale 0",
    "plan --scale=1000000001",
    "plan --rounds=",
    "plan --rounds=-1",
    "plan --round 5",
    "plan -r 5",
    "plan --seconds 0",
    "plan --seconds 086",
    "plan --seconds 86401",
    "plan --seconds 5 --seconds=5",
    "improve now",
    "improve --turns 3",
    "improve --scale 0",
    "improve --notes --notes",
    "check --seconds 5",
    "trial 1 2 1 --seconds 5",
    "--rounds 5 plan",
    "quote S1 S2",
    "quote -S1",
    "quote --name S1",
    "trial",
    "trial 1 1 1",
    "trial 1 2",
    "trial 1 2 501",
    "trial 2147483648 2 1",
];

// Words with options, which may stand in any order.
const PLANS: [&str; 10] = [
    "plan",
    "plan --rounds 4000",
    "plan --rounds=0 --branches=0",
    "plan --branches 100000 --rounds 0000000005",
    "plan --scale 1",
    "plan --scale=1000000000 --branches 7 --rounds=7",
    "plan --spans",
    "plan --rounds 7 --spans --scale 1",
    "plan --seconds 86400 --spans",
    "plan --rounds 7 --seconds=1",
];

// One shipment that can't be carried in time.
const LATE: &str = "terminal,A\nterminal,B\narc,A,B,5,10,100,1\nshipment,S1,A,B,4,0,4\n";

#[test]
fn words_of_no_form_are_refused(rt: HostRuntime) -> Result<(), Fail> {
    for line in LINES {
        let (status, text) = run_on(rt.alloc(), line, ONE_ARC)?;
        assert_eq!(rt; status, 20, "{line}");
        assert_eq!(rt; text.as_slice(), b"refused,words\n".as_slice(), "{line}");
    }
    Ok(())
}

#[test]
fn options_stand_in_any_order(rt: HostRuntime) -> Result<(), Fail> {
    for line in PLANS {
        let (status, text) = run_on(rt.alloc(), line, LATE)?;
        assert_eq!(rt; status, 11, "{line}");
        assert_eq!(rt;
            text.as_slice(),
            b"answer,infeasible,S1,5\nend\n".as_slice(),
            "{line}"
        );
    }
    Ok(())
}
