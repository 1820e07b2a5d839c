//! Certificates that are cut off: after each number of their records the end is missing.

use fp_tests_examples::{LINE, LINE_PROOF};
use fp_tests_run::run_on;
use std::test::Fail;

// The instance has seven records, so its certificate's ten are these.
const FIRST: u32 = 8;

const LAST: u32 = 17;

#[test]
fn a_certificate_needs_its_end(rt: HostRuntime) -> Result<(), Fail> {
    let alloc = rt.alloc();
    let mut input = String::from_str(alloc, LINE)?;
    for (ordinal, record) in (FIRST..=LAST).zip(LINE_PROOF.lines()) {
        let (status, text) = run_on(alloc, "check", input.as_str())?;
        assert_eq!(rt; status, 21, "{input}");
        let want = format!(in alloc; "refused,{ordinal},26\n")?;
        assert_eq!(rt; text.as_slice(), want.as_bytes(), "{input}");
        input = format!(in alloc; "{input}{record}\n")?;
    }
    let (status, text) = run_on(alloc, "check", input.as_str())?;
    assert_eq!(rt; status, 0, "{input}");
    assert_eq!(rt; text.as_slice(), b"accepted,optimal\n".as_slice());
    Ok(())
}
