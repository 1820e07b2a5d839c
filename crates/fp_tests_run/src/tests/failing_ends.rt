//! Sources and sinks that fail, and an input that is too long.

use crate::runs::{run_over, sink_of, source_of, words_of};
use fp_app::run;
use fp_ends::{SureSink, SureSource};
use fp_tests_examples::ONE_ARC;
use std::test::Fail;

const DIRECT: &str = "answer,direct,104\nleg,S1,A,B,0,5\ntruck,A,B,0,1,4\nend\n";

#[test]
fn each_read_may_fail(rt: HostRuntime) -> Result<(), Fail> {
    let alloc = rt.alloc();
    for call in 1..66 {
        let source = source_of(alloc, ONE_ARC.as_bytes(), 1, &[call])?;
        let (status, text) = run_over(alloc, "direct", source, sink_of(alloc, 64, 64, &[])?)?;
        assert_eq!(rt; status, 30, "{call}");
        assert!(rt; text.is_empty(), "{call}");
    }
    Ok(())
}

#[test]
fn each_write_may_fail(rt: HostRuntime) -> Result<(), Fail> {
    let alloc = rt.alloc();
    for call in 1..54 {
        let source = source_of(alloc, ONE_ARC.as_bytes(), 64, &[])?;
        let (status, text) = run_over(alloc, "direct", source, sink_of(alloc, 64, 1, &[call])?)?;
        assert_eq!(rt; status, 31, "{call}");
        let front = DIRECT.as_bytes().get(..call as usize - 1);
        assert!(rt; front == Some(text.as_slice()), "{call}");
    }
    Ok(())
}

#[test]
fn a_full_sink_has_the_front_of_the_text(rt: HostRuntime) -> Result<(), Fail> {
    let alloc = rt.alloc();
    let source = source_of(alloc, ONE_ARC.as_bytes(), 64, &[])?;
    let (status, text) = run_over(alloc, "direct", source, sink_of(alloc, 10, 64, &[])?)?;
    assert_eq!(rt; status, 31);
    assert_eq!(rt; text.as_slice(), b"answer,dir".as_slice());
    Ok(())
}

#[test]
fn a_long_input_is_refused(rt: HostRuntime) -> Result<(), Fail> {
    let alloc = rt.alloc();
    for (bytes, code) in [(16_777_216, 0), (16_777_217, 22)] {
        let mut source = SureSource::new(vec![in alloc; b'\n'; bytes]?);
        let ran = run(
            alloc,
            &words_of(alloc, "direct")?,
            &mut source,
            &mut SureSink::new(),
        );
        assert_eq!(rt; ran.status.code(), code, "{bytes}");
    }
    Ok(())
}
