//! What `yard`, `fleet` and `improve` print of answers that follow kept legs or a day that is under way.

use crate::runs::{check_on, run_on};
use crate::tests::days::HUB;
use crate::tests::improvements::{HEAVY, HEAVY_PLAN};
use fp_tests_examples::{LINE, LINE_PROOF};
use std::test::Fail;

// The words, the instance, the records after it, the answer, the status' number, and what is printed.
type Row = (
    &'static str,
    &'static str,
    &'static str,
    &'static str,
    u8,
    &'static str,
);

// The commands, each with words that it takes.
const COMMANDS: [&str; 3] = ["yard 1", "fleet --trucks", "improve"];

// A day at 9:00, when P1 and P4 are late.
const LATE: &str =
    "terminal,NICE\nterminal,LYON,30\nterminal,PARIS,30\nterminal,LILLE\narc,NICE,LYON,300,33,52000,150\narc,LYON,PARIS,280,33,48000,140\narc,PARIS,LILLE,150,33,26000,80\nshipment,P1,NICE,PARIS,12,300,1140\nshipment,P2,LYON,PARIS,15,585,1020\nshipment,P3,LYON,LILLE,5,570,1230\nshipment,P4,NICE,LILLE,6,330,1440\n";

const LATE_RECORDS: &str = "now,540\nkept,P1,NICE,LYON,330,750\nkept,P4,NICE,LYON,330,750\n";

// What `replan` prints of it.
const LATE_ANSWER: &str =
    "answer,optimal,154200\nleg,P2,LYON,PARIS,585,865\nleg,P3,LYON,PARIS,585,865\nleg,P1,LYON,PARIS,780,1060\nleg,P4,LYON,PARIS,780,1060\nleg,P3,PARIS,LILLE,895,1045\nleg,P4,PARIS,LILLE,1090,1240\ntruck,LYON,PARIS,585,1,20\ntruck,LYON,PARIS,780,1,18\ntruck,PARIS,LILLE,895,1,5\ntruck,PARIS,LILLE,1090,1,6\npoint,PARIS,895,1\npoint,PARIS,1090,1\nleaf,even,1,forced\nend\n";

// What is left of the hub's day at 300, when P1 waits at B: in one truck from B, and in two.
const TOGETHER: &str =
    "answer,direct,200\nleg,P1,B,C,300,420\nleg,P3,A,B,300,400\nleg,P4,B,C,300,420\ntruck,A,B,300,1,4\ntruck,B,C,300,1,8\nend\n";

const APART: &str =
    "answer,direct,300\nleg,P1,B,C,300,420\nleg,P3,A,B,300,400\nleg,P4,B,C,310,430\ntruck,A,B,300,1,4\ntruck,B,C,300,1,4\ntruck,B,C,310,1,4\nend\n";

// The whole day of the hub, from its beginning.
const WHOLE: &str =
    "answer,direct,200\nleg,P1,A,B,0,100\nleg,P3,A,B,0,100\nleg,P1,B,C,110,230\nleg,P4,B,C,110,230\ntruck,A,B,0,1,8\ntruck,B,C,110,1,8\nend\n";

// The line with S2 at 2, as it is promised.
const PROMISED: &str =
    "answer,direct,300\nleg,S1,A,B,0,4\nleg,S2,B,C,2,7\nleg,S1,B,C,4,9\ntruck,A,B,0,1,4\ntruck,B,C,2,1,4\ntruck,B,C,4,1,4\nend\n";

const ROWS: [Row; 10] = [
    // What is left of the day: its sheets, its rosters, and no cheaper plan of it.
    (
        "yard 1",
        LATE,
        LATE_RECORDS,
        LATE_ANSWER,
        0,
        "yard,4\nout,LYON,PARIS,585,1\nload,P2\nload,P3\nout,LYON,PARIS,780,1\nload,P1\nload,P4\nout,PARIS,LILLE,895,1\nload,P3\nout,PARIS,LILLE,1090,1\nload,P4\nin,PARIS,LYON,865\nin,PARIS,LYON,1060\nin,LILLE,PARIS,1045\nin,LILLE,PARIS,1240\ndeparts,LYON,PARIS,585\narrives,LYON,PARIS,585\ndeparts,PARIS,LILLE,895\narrives,PARIS,LILLE,895\ndeparts,LYON,PARIS,780\narrives,LYON,PARIS,780\ndeparts,PARIS,LILLE,1090\narrives,PARIS,LILLE,1090\nend\n",
    ),
    (
        "fleet --trucks",
        LATE,
        LATE_RECORDS,
        LATE_ANSWER,
        0,
        "fleet,2\nneed,LYON,2,780\nstart,LYON,PARIS,585,1\nstart,LYON,PARIS,780,1\nturn,LYON,PARIS,585,LILLE,895,1\nturn,LYON,PARIS,780,LILLE,1090,1\ntruck,1\nrun,LYON,PARIS,585,865,20\nrun,PARIS,LILLE,895,1045,5\ntruck,2\nrun,LYON,PARIS,780,1060,18\nrun,PARIS,LILLE,1090,1240,6\nend\n",
    ),
    ("improve", LATE, LATE_RECORDS, LATE_ANSWER, 0, LATE_ANSWER),
    (
        "yard 1",
        HUB,
        "kept,P1,A,B,0\nnow,300\n",
        TOGETHER,
        0,
        "yard,2\nout,A,B,300,1\nload,P3\nout,B,C,300,1\nload,P1\nload,P4\nin,B,A,400\nin,C,B,420\ndeparts,A,B,300\narrives,A,B,300\ndeparts,B,C,300\narrives,B,C,300\nend\n",
    ),
    (
        "fleet",
        HUB,
        "kept,P1,A,B,0\nnow,300\n",
        TOGETHER,
        0,
        "fleet,2\nneed,A,1,300\nneed,B,1,300\nstart,A,B,300,1\nstart,B,C,300,1\nend\n",
    ),
    // From a dearer plan, and at another scale.
    (
        "improve",
        HUB,
        "kept,P1,A,B,0\nnow,300\n",
        APART,
        0,
        "answer,optimal,200\nleg,P1,B,C,300,420\nleg,P3,A,B,300,400\nleg,P4,B,C,300,420\ntruck,A,B,300,1,4\ntruck,B,C,300,1,8\nleaf,linear,0,forced\nend\n",
    ),
    (
        "fleet",
        LINE,
        "kept,S2,B,C,2\n",
        PROMISED,
        0,
        "fleet,2\nneed,A,1,0\nneed,B,1,2\nstart,A,B,0,1\nstart,B,C,2,1\nturn,A,B,0,C,4,1\nend\n",
    ),
    // The whole instance doesn't fit the scale of the words.
    (
        "improve --scale 1000000000",
        HEAVY,
        "now,0\n",
        HEAVY_PLAN,
        21,
        "refused,0,12\n",
    ),
    (
        "fleet",
        HEAVY,
        "now,0\n",
        HEAVY_PLAN,
        0,
        "fleet,1000000000000\nneed,A,1000000000000,0\nstart,A,B,0,1000000000000\nend\n",
    ),
    // No records between them: as ever.
    (
        "fleet",
        HUB,
        "",
        WHOLE,
        0,
        "fleet,1\nneed,A,1,0\nstart,A,B,0,1\nturn,A,B,0,C,110,1\nend\n",
    ),
];

#[test]
fn what_is_left_is_shown(rt: HostRuntime) -> Result<(), Fail> {
    let alloc = rt.alloc();
    for (line, instance, records, answer, want, told) in ROWS {
        let input = format!(in alloc; "{instance}{records}{answer}")?;
        let (status, text) = run_on(alloc, line, input.as_str())?;
        assert_eq!(rt; text.as_slice(), told.as_bytes(), "{line} {records}");
        assert_eq!(rt; status, want, "{line} {records}");
    }
    Ok(())
}

// An instance, the records after it, an answer, and what each of the three commands prints; it is `rejected`
// or `refused`.
type Refusal = (&'static str, &'static str, &'static str, &'static str);

const REFUSALS: [Refusal; 17] = [
    // A promised leg that isn't kept, and one that leaves before the present.
    (LINE, "kept,S2,B,C,2\n", LINE_PROOF, "rejected,1\n"),
    (HUB, "kept,P1,A,B,0\nnow,301\n", TOGETHER, "rejected,1\n"),
    // The whole day, where a part of it has left: P1 is at B.
    (HUB, "kept,P1,A,B,0\nnow,100\n", WHOLE, "rejected,1\n"),
    // Another cost, and another number of trucks.
    (
        HUB,
        "kept,P1,A,B,0\nnow,300\n",
        "answer,direct,201\nleg,P1,B,C,300,420\nleg,P3,A,B,300,400\nleg,P4,B,C,300,420\ntruck,A,B,300,1,4\ntruck,B,C,300,1,8\nend\n",
        "rejected,2\n",
    ),
    (
        HUB,
        "kept,P1,A,B,0\nnow,300\n",
        "answer,direct,200\nleg,P1,B,C,300,420\nleg,P3,A,B,300,400\nleg,P4,B,C,300,420\ntruck,A,B,300,1,4\ntruck,B,C,300,2,8\nend\n",
        "rejected,3\n",
    ),
    // No plan is told: none goes on, or the answer says so, rightly or not.
    (HUB, "now,450\n", "answer,direct,0\nend\n", "rejected,1\n"),
    (HUB, "now,450\n", "answer,stuck,P1\nend\n", "rejected,1\n"),
    (HUB, "now,450\n", "answer,stuck,P4\nend\n", "rejected,1\n"),
    (HUB, "now,300\n", "answer,stuck,P1\nend\n", "rejected,1\n"),
    (
        HUB,
        "now,300\n",
        "answer,infeasible,P1,5\nend\n",
        "rejected,1\n",
    ),
    // Faults of the instance, of the records after it, and of the answer.
    (
        "terminal,A\nterminal,A\n",
        "now,3\n",
        "answer,direct,0\nend\n",
        "refused,2,",
    ),
    (
        HUB,
        "now,300\nnow,300\n",
        "answer,direct,0\nend\n",
        "refused,11,38\n",
    ),
    (
        HUB,
        "kept,P1,A,B,50,49\n",
        "answer,direct,0\nend\n",
        "refused,10,39\n",
    ),
    (
        HUB,
        "now,300\nshipment,P5,A,C,1,0,600\n",
        "answer,direct,0\nend\n",
        "refused,11,31\n",
    ),
    (HUB, "now,300\n", "answer,best,1\nend\n", "refused,11,21\n"),
    (
        HUB,
        "now,300\n",
        "answer,stuck,P9\nend\n",
        "refused,11,25\n",
    ),
    // The records after the answer.
    (
        HUB,
        "",
        "answer,direct,0\nend\nnow,300\n",
        "refused,12,27\n",
    ),
];

#[test]
fn no_plan_is_told(rt: HostRuntime) -> Result<(), Fail> {
    let alloc = rt.alloc();
    for (instance, records, answer, told) in REFUSALS {
        let input = format!(in alloc; "{instance}{records}{answer}")?;
        let want = if told.starts_with("rejected") { 12 } else { 21 };
        for line in COMMANDS {
            let (status, text) = run_on(alloc, line, input.as_str())?;
            assert!(rt;
                text.starts_with(told.as_bytes()),
                "{line} {records}{answer}"
            );
            assert_eq!(rt; status, want, "{line} {records}{answer}");
        }
    }
    Ok(())
}

// An instance, records after it, and an answer of which `improve` makes one that `check` accepts after them.
const IMPROVED: [(&str, &str, &str); 3] = [
    (HUB, "kept,P1,A,B,0\nnow,300\n", APART),
    (LINE, "kept,S2,B,C,2\n", PROMISED),
    (LATE, LATE_RECORDS, LATE_ANSWER),
];

#[test]
fn improved_answers_are_accepted(rt: HostRuntime) -> Result<(), Fail> {
    let alloc = rt.alloc();
    for (instance, records, answer) in IMPROVED {
        let input = format!(in alloc; "{instance}{records}")?;
        for line in ["improve", "improve --scale 7 --spans"] {
            let whole = format!(in alloc; "{instance}{records}{answer}")?;
            let (status, text) = run_on(alloc, line, whole.as_str())?;
            assert_eq!(rt; status, 0, "{line} {records}");
            let (status, said) = check_on(alloc, input.as_str(), &text)?;
            assert_eq!(rt;
                said.as_slice(),
                b"accepted,optimal\n".as_slice(),
                "{line} {records}"
            );
            assert_eq!(rt; status, 0, "{line} {records}");
        }
    }
    Ok(())
}
