//! What `trial` prints, whatever the source holds.

use crate::runs::run_on;
use std::test::Fail;

#[test]
fn a_trial_prints_its_numbers_the_answer_and_that_it_was_checked(
    rt: HostRuntime,
) -> Result<(), Fail> {
    let (status, text) = run_on(rt.alloc(), "trial 1 2 1", "depot,C\n")?;
    assert_eq!(rt; status, 0);
    assert_eq!(rt;
        text.as_slice(),
        b"trial,1,2,2,1\nanswer,optimal,115\nchecked\n".as_slice()
    );
    Ok(())
}

#[test]
fn a_trial_is_the_same_at_each_run(rt: HostRuntime) -> Result<(), Fail> {
    let (status, text) = run_on(rt.alloc(), "trial 7 4 6", "")?;
    let done = text.starts_with(b"trial,7,4,12,6\nanswer,optimal,");
    let unfinished = text.starts_with(b"trial,7,4,12,6\nanswer,unfinished,");
    assert!(rt; (done && status == 0) || (unfinished && status == 10));
    assert!(rt; text.ends_with(b"\nchecked\n"));
    let (again, same) = run_on(rt.alloc(), "trial 7 4 6", "")?;
    assert_eq!(rt; again, status);
    assert_eq!(rt; same.as_slice(), text.as_slice());
    Ok(())
}

// Two terminals and twelve shipments. A search with some thousand branches finds that the cheapest
// plan costs 955, and a trial has 100.
#[test]
fn a_trial_ends_with_a_bound_once_its_branches_are_used(rt: HostRuntime) -> Result<(), Fail> {
    let (status, text) = run_on(rt.alloc(), "trial 59 2 12", "")?;
    assert_eq!(rt; status, 10);
    assert!(rt; text.starts_with(b"trial,59,2,2,12\nanswer,unfinished,955,"));
    assert!(rt; text.ends_with(b",branches\nchecked\n"));
    Ok(())
}
