//! Searches from the direct plan, with ample budgets and with none.
ghost use Rattle.fp_session_history.specs.Budgets.{IsBudget};

use fp_certificate_lines::{Answer, Spent};
use fp_flatnet::{Verdict, Windows, direct, feasible};
use fp_model::Instance;
use fp_reader::generate;
use fp_session::{Budget, Ending, NoMemory, Session, Step};
use fp_session_history::RoundNote;
use fp_tests_examples::{LINE, PAIR, TRIO, instance_of};
use fp_timenodes::Place;
use std::alloc::Global;
use std::test::Fail;

// A budget that small instances don't use up.
const AMPLE: Budget = Budget {
    rounds: 400,
    branches: 4_000,
};

// The search of an instance from its direct plan, where it has one.
fn session_of(
    alloc: Global,
    instance: Instance,
    budget: Budget,
) -> Result<Option<Session>, NoMemory>
    requires { IsBudget budget }
{
    let Verdict::All = feasible(alloc, &instance)? else {
        return Ok(None);
    };
    let start = direct(alloc, &instance)?;
    let windows = Windows::of(alloc, &instance)?;
    Ok(Some(Session::new(alloc, instance, windows, start, budget)?))
}

// What the first few steps of a search do.
fn first_steps(alloc: Global, session: &mut Session) -> Result<Vec<Step>, NoMemory> {
    let mut steps = Vec::new(alloc);
    for _ in 0..20 {
        steps.push(session.step(alloc)?)?;
    }
    Ok(steps)
}

#[test]
fn answers(rt: HostRuntime) -> Result<(), Fail> {
    let alloc = rt.alloc();
    let no_rounds = Budget { rounds: 0, ..AMPLE };
    let no_branches = Budget {
        branches: 0,
        ..AMPLE
    };
    for (text, budget, answer) in [
        (LINE, AMPLE, Answer::Optimal { cost: 300 }),
        (PAIR, AMPLE, Answer::Optimal { cost: 109 }),
        (TRIO, AMPLE, Answer::Optimal { cost: 180 }),
        (
            LINE,
            no_rounds,
            Answer::Unfinished {
                cost: 300,
                bound: 200,
                spent: Spent::Rounds,
            },
        ),
        (
            TRIO,
            no_branches,
            Answer::Unfinished {
                cost: 180,
                bound: 150,
                spent: Spent::Branches,
            },
        ),
    ] {
        assert!(rt; text.len() < 2000);
        assert!(rt; budget.rounds <= 400 && budget.branches <= 4_000);
        let instance = instance_of(alloc, text)?;
        let Some(session) = session_of(alloc, instance, budget)? else {
            assert!(rt; false);
            return Ok(());
        };
        let solved = session.solve(alloc)?;
        assert_eq!(rt; solved.certificate.answer, answer, "{text}");
    }
    Ok(())
}

#[test]
fn steps(rt: HostRuntime) -> Result<(), Fail> {
    let alloc = rt.alloc();
    let done = Step::Done {
        ending: Ending::Optimal,
    };
    for (text, step) in [
        (LINE, Step::Round),
        (LINE, Step::Closed),
        (PAIR, Step::Better),
        (TRIO, Step::Branch),
        (TRIO, done),
    ] {
        assert!(rt; text.len() < 2000);
        let instance = instance_of(alloc, text)?;
        let Some(mut session) = session_of(alloc, instance, AMPLE)? else {
            assert!(rt; false);
            return Ok(());
        };
        let steps = first_steps(alloc, &mut session)?;
        assert!(rt; steps.contains(&step), "{text}");
        assert_eq!(rt; steps.last(), Some(&done));
    }
    Ok(())
}

// What a search of an instance prints, with a budget: cost and bound.
fn figures(
    alloc: Global,
    instance: &Instance,
    budget: Budget,
) -> Result<Option<(u128, u128)>, NoMemory>
    requires { IsBudget budget }
{
    let Some(session) = session_of(alloc, instance.copy(alloc)?, budget)? else {
        return Ok(None);
    };
    Ok(match session.solve(alloc)?.certificate.answer {
        Answer::Optimal { cost } => Some((cost, cost)),
        Answer::Unfinished { cost, bound, .. } => Some((cost, bound)),
        Answer::Direct { .. } | Answer::Infeasible { .. } => None,
    })
}

#[test]
fn more_rounds_give_no_less(rt: HostRuntime) -> Result<(), Fail> {
    let alloc = rt.alloc();
    for seed in [1, 2, 3] {
        let instance = generate(alloc, seed, 4, 6)?;
        let mut before = None;
        for rounds in [0, 2, 6] {
            let budget = Budget {
                rounds,
                branches: 0,
            };
            assert!(rt; rounds <= 400);
            let now = figures(alloc, &instance, budget)?;
            if let (Some((cost, bound)), Some((less, more))) = (before, now) {
                assert!(rt; less <= cost && bound <= more, "{seed} {rounds}");
            }
            before = now;
        }
        assert!(rt; before.is_some());
    }
    Ok(())
}

// S2 waits at A for S4, which comes there at 3, so it comes to B at 6, where S3 has to leave by 5. All but
// S3 can go together, or all but S4: four trucks run, at 400.
const MISSED: &str =
    "terminal,A\nterminal,B\nterminal,C\nterminal,D\narc,A,B,3,10,100,0\narc,B,C,4,10,100,0\narc,D,A,3,10,100,0\nshipment,S1,A,C,1,1,20\nshipment,S2,A,C,1,2,20\nshipment,S3,B,C,1,0,9\nshipment,S4,D,B,1,0,20\n";

// A search for spans from the direct plan of an instance, where it has one.
fn session_by_spans(alloc: Global, instance: Instance) -> Result<Option<Session>, NoMemory> {
    let Verdict::All = feasible(alloc, &instance)? else {
        return Ok(None);
    };
    let start = direct(alloc, &instance)?;
    let windows = Windows::of(alloc, &instance)?;
    let session = Session::with_spans(alloc, instance, windows, start, AMPLE)?;
    Ok(Some(session))
}

// The places that the rounds of some notes added.
fn added_places(alloc: Global, trace: &[RoundNote]) -> Result<Vec<Place>, NoMemory> {
    let mut added = Vec::new(alloc);
    for note in trace {
        let places = note.added.as_slice();
        added.extend_from_slice(places)?;
    }
    Ok(added)
}

// The places that rounds add one after the other where the shipments can't all meet.
fn missed_places(alloc: Global) -> Result<Vec<Place>, NoMemory> {
    let mut places = Vec::new(alloc);
    for (terminal, at) in [(1, 5), (0, 3), (1, 6)] {
        places.push(Place { terminal, at })?;
    }
    Ok(places)
}

#[test]
fn rounds_add_points_where_walks_clash(rt: HostRuntime) -> Result<(), Fail> {
    let alloc = rt.alloc();
    let instance = instance_of(alloc, MISSED)?;
    let Some(session) = session_by_spans(alloc, instance)? else {
        assert!(rt; false);
        return Ok(());
    };
    let solved = session.solve(alloc)?;
    let shown = &solved;
    assert_eq!(rt; shown.certificate.answer, Answer::Optimal { cost: 400 });
    let added = added_places(alloc, &shown.trace)?;
    assert_eq!(rt; added, missed_places(alloc)?);
    Ok(())
}

#[test]
fn rounds_end_where_walks_have_times(rt: HostRuntime) -> Result<(), Fail> {
    let alloc = rt.alloc();
    let instance = generate(alloc, 3, 4, 6)?;
    let Some(mut session) = session_by_spans(alloc, instance)? else {
        assert!(rt; false);
        return Ok(());
    };
    for step in [Step::Better, Step::Round, Step::Better, Step::Closed] {
        assert_eq!(rt; session.step(alloc)?, step);
    }
    Ok(())
}
