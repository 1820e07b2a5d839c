//! Notes on searches while they go on.

use crate::runs::{check_on, noted_by, run_on};
use fp_tests_examples::TRIO;
use std::alloc::Global;
use std::test::Fail;

// Words that want notes, and the same without the flag.
const NOTED: [(&str, &str); 4] = [
    ("plan --notes", "plan"),
    (
        "plan --rounds 0 --notes --branches=0",
        "plan --rounds 0 --branches=0",
    ),
    ("plan --spans --notes", "plan --spans"),
    ("quote --notes", "quote"),
];

// The first answer among notes, up to its end.
fn first_answer(alloc: Global, notes: &[u8]) -> Result<Vec<u8>, Fail> {
    let mut answer = Vec::new(alloc);
    for line in notes.split(|&byte| byte == b'\n') {
        answer.extend_from_slice(line)?;
        answer.push(b'\n')?;
        if line == b"end".as_slice() {
            break;
        }
    }
    Ok(answer)
}

#[test]
fn a_search_is_noted_and_its_answer_stays(rt: HostRuntime) -> Result<(), Fail> {
    for (line, plain) in NOTED {
        let (status, text, notes) = noted_by(rt.alloc(), line, TRIO, &[])?;
        assert_eq!(rt; run_on(rt.alloc(), plain, TRIO)?, (status, text));
        assert!(rt; notes.starts_with(b"answer,direct,"), "{}", line);
        assert!(rt; notes.ends_with(b"\n"), "{}", line);
    }
    Ok(())
}

#[test]
fn a_plan_that_is_noted_is_accepted(rt: HostRuntime) -> Result<(), Fail> {
    let (_, _, notes) = noted_by(rt.alloc(), "plan --notes", TRIO, &[])?;
    let answer = first_answer(rt.alloc(), &notes)?;
    let (status, verdict) = check_on(rt.alloc(), TRIO, &answer)?;
    assert_eq!(rt; status, 0);
    assert_eq!(rt; verdict.as_slice(), b"accepted,direct\n".as_slice());
    Ok(())
}

#[test]
fn without_the_flag_nothing_is_noted(rt: HostRuntime) -> Result<(), Fail> {
    let (_, _, notes) = noted_by(rt.alloc(), "plan --spans", TRIO, &[])?;
    assert!(rt; notes.is_empty());
    Ok(())
}
