//! The certificate of an answer that is shown as one.
ghost use Rattle.std.specs.Prelude.{◌≡◌, [], IfOk};
ghost use Rattle.fp_model.specs.Plans.{IsPlan};
ghost use Rattle.fp_certificate_lines.specs.Ranges.{IsNamed};
ghost use Rattle.fp_certificate_lines.specs.declared.certificates.Answer.TheVariants as answer;
ghost use Rattle.fp_app.specs.Texts.{IsDirectCertificate, timetable_of};

use crate::NoMemory;
use fp_certificate::{Answer, Certificate};
use fp_model::{Instance, Plan};
use fp_timetable::{LegLine, TruckLine, legs, plan_cost, trucks};
use std::alloc::Global;

// The certificate of an answer with a timetable and no more.
fn timetable_of(
    alloc: Global,
    answer: Answer,
    legs: Vec<LegLine>,
    trucks: Vec<TruckLine>,
) -> Certificate
    ensures { result ≡ timetable_of answer legs.items trucks.items }
{
    Certificate {
        answer,
        scale: None,
        unit: None,
        legs,
        trucks,
        points: Vec::new(alloc),
        tables: Vec::new(alloc),
        spans: Vec::new(alloc),
        gifts: Vec::new(alloc),
        moments: Vec::new(alloc),
        tree: Vec::new(alloc),
    }
}

/// The certificate of a direct plan: its cost, its legs and its departures.
pub fn direct_certificate(
    alloc: Global,
    instance: &Instance,
    plan: &Plan,
) -> Result<Certificate, NoMemory>
    requires { IsPlan instance.now 1 plan.now }
    ensures exact { IfOk result (IsDirectCertificate instance.now plan.now) }
    ensures named { IfOk result (IsNamed instance.now) }
{
    let legs = legs(alloc, instance, plan)?;
    let trucks = trucks(alloc, instance, plan)?;
    let cost = plan_cost(instance, plan, &trucks);
    Ok(timetable_of(alloc, Answer::Direct { cost }, legs, trucks))
}

/// The certificate of a shipment that can't be carried in time: its number and its fastest time.
pub fn infeasible_certificate(alloc: Global, shipment: u32, time: Option<u32>) -> Certificate
    ensures { result ≡ timetable_of (answer.Infeasible shipment time) [] [] }
{
    let answer = Answer::Infeasible { shipment, time };
    timetable_of(alloc, answer, Vec::new(alloc), Vec::new(alloc))
}
