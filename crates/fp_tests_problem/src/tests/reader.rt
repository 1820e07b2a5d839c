//! What an instance's records give. Its faults stand with the tests of the whole program.

use fp_reader::{InputFault, Tail, instance};
use fp_records::records;
use fp_tests_examples::instance_of;
use std::test::Fail;

#[test]
fn a_certificate_ends_the_instance(rt: HostRuntime) -> Result<(), Fail> {
    let alloc = rt.alloc();
    let lines = records(alloc, b"terminal,A,7\nanswer,direct,0\nend\n")?;
    assert_eq!(rt; lines.len(), 3);
    let read = instance(alloc, &lines, Tail::Certificate)?;
    assert_eq!(rt; read.used, 1);
    assert_eq!(rt; read.instance.holds(), [7].as_slice());
    Ok(())
}

#[test]
fn without_a_certificate_an_answer_is_a_fault(rt: HostRuntime) -> Result<(), Fail> {
    let fault = instance_of(rt.alloc(), "terminal,A,7\nanswer,direct,0\nend\n").err();
    let want = InputFault::Bad {
        ordinal: 2,
        code: 1,
    };
    assert!(rt; fault == Some(want));
    Ok(())
}
