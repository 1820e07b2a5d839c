//! What `trial` shows.
ghost use Rattle.std.specs.Prelude.{◌≡◌, ◌≤◌, IfOk, None, false};
ghost use Rattle.fp_flatnet.specs.Verdicts.{AllInTime};
ghost use Rattle.fp_certificate_lines.specs.Ranges.{AnswerExists};
ghost use Rattle.fp_model.specs.declared.limits.TheConstants.{MOST_SHIPMENTS, MOST_TERMINALS};
ghost use Rattle.fp_app.specs.Checks.{IsCheckOutcome};
ghost use Rattle.fp_app.specs.Runs.{ShowsTrial};
ghost use Rattle.fp_app.specs.Searches.{IsSearched, trial_allowance};
ghost use Rattle.fp_app.specs.Shown.{IsPrintable};
ghost use Rattle.fp_app.specs.Wanted.{every};

use crate::check_outcomes::{CheckOutcome, check_outcome};
use crate::commands::options::SearchOptions;
use crate::commands::searches::solve;
use crate::no_notes::NoNotes;
use crate::{NoMemory, Shown};
use fp_ends::StillClock;
use fp_flatnet::{Verdict, feasible};
use fp_model::Instance;
use fp_reader::generate;
use fp_session::Solved;
use fp_session_history::Budget;
use std::alloc::Global;

// The rounds of a trial's search.
const TRIAL_ROUNDS: u32 = 40;

// The branches of a trial's search.
const TRIAL_BRANCHES: u32 = 100;

/// What `trial` shows for a seed and numbers of terminals and shipments within their limits.
pub fn trial_shown(
    alloc: Global,
    seed: u32,
    terminals: u32,
    shipments: u32,
) -> Result<Shown, NoMemory>
    requires seed { seed ≤ 2147483647 }
    requires terminals { (2 ≤ terminals) × (terminals ≤ MOST_TERMINALS) }
    requires shipments { shipments ≤ MOST_SHIPMENTS }
    ensures shown { IfOk result (ShowsTrial seed terminals shipments) }
    ensures printable { IfOk result IsPrintable }
{
    let instance = generate(alloc, seed, terminals, shipments)?;
    match feasible(alloc, &instance)? {
        Verdict::All => {
            let (solved, outcome) = solve_and_check(alloc, &instance)?;
            Ok(Shown::Trial {
                seed,
                outcome,
                instance,
                solved,
            })
        }
        // Round the ring of its terminals every shipment comes in time.
        Verdict::Blocked { .. } => unreachable!(),
    }
}

// What a search shows of an instance, and what the checker says of its certificate: that it's accepted.
#[tactic(auto, using(crate::proofs::Verdicts::IsCheckOutcome_accepted))]
fn solve_and_check(alloc: Global, instance: &Instance) -> Result<(Solved, CheckOutcome), NoMemory>
    requires { AllInTime instance.now }
    ensures searched { IfOk result (λ tried. IsSearched instance.now every trial_allowance tried.0) }
    ensures named { IfOk result (λ tried. AnswerExists instance.now tried.0.certificate.answer) }
    ensures outcome { IfOk result (λ tried. IsCheckOutcome instance.now tried.0.certificate tried.1) }
    ensures accepted { IfOk result (λ tried. tried.1 ≡ None) }
{
    let budget = Budget {
        rounds: TRIAL_ROUNDS,
        branches: TRIAL_BRANCHES,
    };
    let options = SearchOptions {
        budget,
        spans: false,
        seconds: None,
        notes: false,
    };
    let solved = solve(
        alloc,
        &mut StillClock::new(),
        &mut NoNotes::new(),
        options,
        instance,
    )?;
    let outcome = check_outcome(alloc, instance, &solved.certificate)?;
    Ok((solved, outcome))
}
