//! As many narrowings as a certificate may have, and one more.

use fp_tests_examples::ONE_ARC;
use fp_tests_run::run_on;
use std::alloc::{AllocError, Global};
use std::test::Fail;

// An instance of one shipment over one arc, and a certificate of it with so many narrowings before its
// leaf, which bar nothing.
fn narrowings(alloc: Global, count: u32) -> Result<String, AllocError> {
    let mut text = String::from_str(alloc, ONE_ARC)?;
    text.push_str("answer,optimal,104\nleg,S1,A,B,0,5\ntruck,A,B,0,1,4\n")?;
    for _ in 0..count {
        text.push_str("narrow,linear,0,plain\n")?;
    }
    text.push_str("leaf,linear,0,forced\nend\n")?;
    Ok(text)
}

#[test]
fn no_more_narrowings_than_the_limit(rt: HostRuntime) -> Result<(), Fail> {
    let alloc = rt.alloc();
    for (count, code, line) in [
        (50_000, 0, "accepted,optimal\n"),
        (50_001, 12, "rejected,6\n"),
    ] {
        let (status, text) = run_on(alloc, "check", narrowings(alloc, count)?.as_str())?;
        assert_eq!(rt; status, code, "{line}");
        assert!(rt; text.as_slice() == line.as_bytes(), "{line}");
    }
    Ok(())
}
