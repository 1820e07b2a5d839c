//! The plan that a certificate tells. What is accepted and rejected stands with the tests of the
//! whole program.

ghost use Rattle.std.specs.Prelude.{◌<◌, length};

use fp_certificate::read;
use fp_checker::{Rejected, check, plan_of};
use fp_flatnet::Windows;
use fp_model::{Leg, Plan};
use fp_reader::{Tail, instance};
use fp_records::records;
use fp_tests_examples::{LINE, LINE_PROOF, ONE_ARC, TRIO, TRIO_PROOF};
use std::alloc::Global;
use std::test::Fail;

// An instance with a certificate, the first route that it tells, and the first part that fails.
type Row = (
    &'static str,
    &'static str,
    Option<&'static [Leg]>,
    Option<u32>,
);

// Two shipments that never leave together: from 0 to 4, and from 6 to 9.
const APART: &str =
    "terminal,A\nterminal,B\narc,A,B,5,10,60,0\nshipment,S1,A,B,5,0,9\nshipment,S2,A,B,5,6,14\n";

const APART_ROUTE: &[Leg] = &[Leg { arc: 0, depart: 0 }];

// One shipment with two ways of the same cost.
const TWO_WAYS: &str =
    "terminal,A\nterminal,B\nterminal,C\narc,A,B,5,6,60,0\narc,A,C,4,6,30,0\narc,C,B,4,6,30,0\nshipment,S1,A,B,5,0,20\n";

// A split of TWO_WAYS, both of whose leaves are worth 60 under their side and 50 without it.
const HALVES: &str = "leg,S1,A,B,0,5\ntruck,A,B,0,1,5\nsplit,arc,S1,A,B\n";

const ROWS: [Row; 8] = [
    (
        LINE,
        LINE_PROOF,
        Some(&[Leg { arc: 0, depart: 0 }, Leg { arc: 1, depart: 4 }]),
        None,
    ),
    (TRIO, TRIO_PROOF, Some(&[Leg { arc: 0, depart: 0 }]), None),
    // The bound of a leaf is looked at for the claim alone.
    (
        TRIO,
        "answer,optimal,180\nleg,S1,A,B,0,5\nleg,S2,A,B,0,5\nleg,S3,A,B,0,5\ntruck,A,B,0,3,15\nleaf,linear,0,plain\nend\n",
        Some(&[Leg { arc: 0, depart: 0 }]),
        Some(7),
    ),
    (LINE, "answer,infeasible,S1,9\nend\n", None, Some(8)),
    // A span pays without a charge where each of two groups has one shipment, and not where the
    // first has both, or there is one group. No group begins at the span's point.
    (
        APART,
        "answer,optimal,120\nleg,S1,A,B,0,5\nleg,S2,A,B,6,11\ntruck,A,B,0,1,5\ntruck,A,B,6,1,5\ntable,1\nspan,A,B,0,100001,60000000,0\nweight,S1,60000000\nweight,S2,60000000\ngroup,6\nleaf,1,0,plain\nend\n",
        Some(APART_ROUTE),
        None,
    ),
    (
        APART,
        "answer,optimal,120\nleg,S1,A,B,0,5\nleg,S2,A,B,6,11\ntruck,A,B,0,1,5\ntruck,A,B,6,1,5\ntable,1\nspan,A,B,0,100001,60000000,0\nweight,S1,60000000\nweight,S2,60000000\ngroup,7\nleaf,1,0,plain\nend\n",
        Some(APART_ROUTE),
        Some(5),
    ),
    (
        APART,
        "answer,optimal,120\nleg,S1,A,B,0,5\nleg,S2,A,B,6,11\ntruck,A,B,0,1,5\ntruck,A,B,6,1,5\ntable,1\nspan,A,B,0,100001,60000000,0\nweight,S1,60000000\nweight,S2,60000000\nleaf,1,0,plain\nend\n",
        Some(APART_ROUTE),
        Some(5),
    ),
    (
        APART,
        "answer,optimal,120\nleg,S1,A,B,0,5\nleg,S2,A,B,6,11\ntruck,A,B,0,1,5\ntruck,A,B,6,1,5\ntable,1\nspan,A,B,0,100001,60000000,0\nweight,S1,60000000\nweight,S2,60000000\ngroup,0\ngroup,6\nleaf,1,0,plain\nend\n",
        Some(APART_ROUTE),
        Some(5),
    ),
];

// What is told of a certificate behind an instance: its plan, and whether it is accepted.
#[derive(Drop)]
pub(crate) struct Told {
    plan: Result<Plan, Rejected>,
    pub(crate) verdict: Result<(), Rejected>,
}

pub(crate) fn told_of(alloc: Global, text: &str) -> Result<Told, Fail>
    requires { length text.now < 2000 }
{
    let lines = records(alloc, text.as_bytes())?;
    let taken = instance(alloc, &lines, Tail::Certificate)?;
    let certificate = read(alloc, &taken.instance, &lines, taken.used.min(lines.len()))?;
    let windows = Windows::of(alloc, &taken.instance)?;
    Ok(Told {
        plan: plan_of(alloc, &taken.instance, &windows, &certificate),
        verdict: check(alloc, &taken.instance, &windows, &certificate),
    })
}

// Whether the first route of the plan that is told is this one. Where none is wanted, the certificate
// tells no plan.
fn begins_by(plan: &Result<Plan, Rejected>, route: Option<&[Leg]>) -> bool {
    match plan {
        Ok(plan) => match route {
            Some(wanted) => match plan.routes.first() {
                Some(first) => first.as_slice() == wanted,
                None => false,
            },
            None => false,
        },
        Err(fault) => route.is_none() && *fault == Rejected::Part { number: 1 },
    }
}

// What is claimed of HALVES, its two leaves, and the first part that fails.
type Half = (u32, &'static str, &'static str, Option<u32>);

const HALF_ROWS: [Half; 9] = [
    (60, "", "", None),
    (61, "", "", Some(7)),
    // Under none of its sides a leaf is worth what the root is.
    (50, ",0", ",0", None),
    (51, ",0", ",0", Some(7)),
    (60, ",0", "", Some(7)),
    (60, "", ",0", Some(7)),
    // All of them are one, and it has no more.
    (60, ",1", ",1", None),
    (60, ",2", ",100000", None),
    (61, ",2", ",100000", Some(7)),
];

// A leaf that is empty under all its sides is so whatever it is worth under the first of them.
const EMPTY_HALF: &str =
    "answer,optimal,104\nleg,S1,A,B,0,5\ntruck,A,B,0,1,4\nsplit,arc,S1,A,B\nleaf,linear,0,plain,0\nleaf,linear,0,forced\nend\n";

#[test]
fn leaves_are_valued_under_their_first_sides(rt: HostRuntime) -> Result<(), Fail> {
    let alloc = rt.alloc();
    for (claim, first, second, part) in HALF_ROWS {
        let text = format!(in alloc;
            "{TWO_WAYS}answer,unfinished,60,{claim},branches\n{HALVES}leaf,linear,0,forced{first}\nleaf,linear,0,forced{second}\nend\n"
        )?;
        assert!(rt; text.len() < 2000);
        let told = told_of(alloc, text.as_str())?;
        let failing = part.map(|number| Rejected::Part { number });
        assert!(rt; told.verdict.err() == failing, "{text}");
    }
    let text = format!(in alloc; "{ONE_ARC}{EMPTY_HALF}")?;
    assert!(rt; text.len() < 2000);
    let told = told_of(alloc, text.as_str())?;
    assert!(rt; told.verdict.is_ok());
    Ok(())
}

#[test]
fn plans(rt: HostRuntime) -> Result<(), Fail> {
    let alloc = rt.alloc();
    for (instance, certificate, route, part) in ROWS {
        let text = format!(in alloc; "{instance}{certificate}")?;
        assert!(rt; text.len() < 2000);
        let told = told_of(alloc, text.as_str())?;
        assert!(rt; begins_by(&told.plan, route), "{text}");
        let failing = part.map(|number| Rejected::Part { number });
        assert!(rt; told.verdict.err() == failing, "{text}");
    }
    Ok(())
}
