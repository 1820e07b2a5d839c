//! The refusals of a certificate's records, each by its ordinal and code.

use fp_tests_examples::{ONE_ARC, TRIO, TRIO_PROOF};
use fp_tests_run::{run_on, with};
use std::test::Fail;

// The instance, the certificate, what is replaced in it and by what, and the line that is printed.
type Row = (
    &'static str,
    &'static str,
    &'static str,
    &'static str,
    &'static str,
);

const PROOF: &str =
    "answer,optimal,104\nleg,S1,A,B,0,5\ntruck,A,B,0,1,4\nleaf,linear,0,forced\nend\n";

// The instance weighs less than 2^127 at the scale of 250,000,000, and more at 1,000,000,000.
const HEAVY: &str =
    "terminal,A\nterminal,B\narc,A,B,5,10,100,1000000000000\nshipment,S1,A,B,10000000000000,0,10\n";

const ROWS: [Row; 40] = [
    (ONE_ARC, PROOF, "leg", "lag", "refused,6,21\n"),
    (ONE_ARC, PROOF, "optimal", "bound", "refused,5,21\n"),
    (
        ONE_ARC,
        PROOF,
        "leaf",
        "split,leg,S1,A,B\nleaf",
        "refused,8,21\n",
    ),
    (ONE_ARC, PROOF, ",forced", "", "refused,8,22\n"),
    (ONE_ARC, PROOF, "optimal,104", "optimal", "refused,5,22\n"),
    (ONE_ARC, PROOF, "B,0,5", "B,0,5x", "refused,6,23\n"),
    (ONE_ARC, PROOF, "forced", "loose", "refused,8,23\n"),
    (ONE_ARC, PROOF, "linear", "cheap", "refused,8,23\n"),
    (
        ONE_ARC,
        PROOF,
        "optimal,104",
        "unfinished,104,104,times",
        "refused,5,23\n",
    ),
    (
        ONE_ARC,
        PROOF,
        "leg",
        "answer,optimal,104\nleg",
        "refused,6,24\n",
    ),
    (
        ONE_ARC,
        PROOF,
        "leg",
        "truck,A,B,0,1,4\nleg",
        "refused,7,24\n",
    ),
    (
        ONE_ARC,
        PROOF,
        "leg",
        "scale,1\nscale,1\nleg",
        "refused,7,24\n",
    ),
    (ONE_ARC, PROOF, "truck", "scale,1\ntruck", "refused,7,24\n"),
    (ONE_ARC, PROOF, "leaf", "table,2\nleaf", "refused,8,24\n"),
    (
        ONE_ARC,
        PROOF,
        "leaf",
        "share,A,B,0,0\nleaf",
        "refused,8,24\n",
    ),
    (
        ONE_ARC,
        PROOF,
        "leaf",
        "table,1\nweight,S1,1\nleaf",
        "refused,9,24\n",
    ),
    (ONE_ARC, PROOF, "end", "point,B,1,1\nend", "refused,9,24\n"),
    (ONE_ARC, PROOF, "optimal", "direct", "refused,8,24\n"),
    (
        ONE_ARC,
        PROOF,
        "optimal,104",
        "infeasible,S1,none",
        "refused,6,24\n",
    ),
    (ONE_ARC, PROOF, "S1", "S9", "refused,6,25\n"),
    (ONE_ARC, PROOF, "A,B", "B,A", "refused,6,25\n"),
    (
        ONE_ARC,
        PROOF,
        "leaf",
        "point,C,1,1\nleaf",
        "refused,8,25\n",
    ),
    (
        ONE_ARC,
        PROOF,
        "leaf",
        "split,time,S9,A,3\nleaf",
        "refused,8,25\n",
    ),
    (
        ONE_ARC,
        PROOF,
        "optimal,104",
        "infeasible,S9,none",
        "refused,5,25\n",
    ),
    (ONE_ARC, PROOF, "B,0,5", "B,100001,5", "refused,6,28\n"),
    (ONE_ARC, PROOF, "linear", "7", "refused,8,28\n"),
    (ONE_ARC, PROOF, "linear,0", "linear,4001", "refused,8,28\n"),
    (ONE_ARC, PROOF, "leg", "scale,0\nleg", "refused,6,28\n"),
    (
        ONE_ARC,
        PROOF,
        "leaf",
        "point,A,1,4001\nleaf",
        "refused,8,28\n",
    ),
    (
        ONE_ARC,
        PROOF,
        "leaf",
        "split,time,S1,A,100001\nleaf",
        "refused,8,28\n",
    ),
    // Under how many of its sides a leaf is valued.
    (ONE_ARC, PROOF, "forced", "forced,100001", "refused,8,28\n"),
    (ONE_ARC, PROOF, "forced", "forced,-1", "refused,8,23\n"),
    (ONE_ARC, PROOF, "forced", "forced,x", "refused,8,23\n"),
    (ONE_ARC, PROOF, "forced", "forced,0,0", "refused,8,22\n"),
    (
        ONE_ARC,
        PROOF,
        "104",
        "170141183460469231731687303715884105728",
        "refused,5,28\n",
    ),
    (
        ONE_ARC,
        PROOF,
        "optimal,104",
        "infeasible,S1,10000001",
        "refused,5,28\n",
    ),
    (
        HEAVY,
        PROOF,
        "leg",
        "scale,1000000000\nleg",
        "refused,6,28\n",
    ),
    (TRIO, TRIO_PROOF, "end\n", "", "refused,30,26\n"),
    (ONE_ARC, PROOF, PROOF, "", "refused,5,26\n"),
    (
        TRIO,
        TRIO_PROOF,
        "end\n",
        "end\npoint,A,1,1\n",
        "refused,31,27\n",
    ),
];

#[test]
fn each_fault_has_its_code(rt: HostRuntime) -> Result<(), Fail> {
    let alloc = rt.alloc();
    for (instance, certificate, old, new, want) in &ROWS {
        assert!(rt; certificate.contains(*old), "{old}");
        let certificate = with(alloc, certificate, old, new)?;
        let input = format!(in alloc; "{instance}{certificate}")?;
        let (status, text) = run_on(alloc, "check", input.as_str())?;
        assert_eq!(rt; status, 21, "{input}");
        assert_eq!(rt; text.as_slice(), want.as_bytes(), "{input}");
    }
    Ok(())
}
