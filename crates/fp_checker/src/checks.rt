//! Tests a certificate part by part.
ghost use Rattle.std.specs.Prelude.{ℕ, ◌≡◌, ◌<◌, ◌≤◌, ◌-◌, ◌^◌, List, All, IfOk, OnOk, length};
ghost use Rattle.fp_model.specs.Numbered.{shipment_at};
ghost use Rattle.fp_flatnet.specs.Belonging.{BelongsTo};
ghost use Rattle.fp_flatnet.specs.Tables.{windows_in};
ghost use Rattle.fp_flatnet.specs.Windows.{AreWindows};
ghost use Rattle.fp_prices.specs.Tables.{AreCountable};
ghost use Rattle.fp_prices_spans.specs.Spans.{ClassSpan};
ghost use Rattle.fp_certificate_lines.specs.Ranges.{IsInRange};
ghost use Rattle.fp_certificate_rules.specs.Accepted.{IsAccepted, IsTooLate};
ghost use Rattle.fp_checker.specs.Cases.{HasCountableLists};
ghost use Rattle.fp_checker.specs.Rejections.{IsPlanRejected, TellsPlan, IsFirstUnmet, HoldBelow, IsFirstFailed};
ghost use Rattle.fp_certificate_rules.specs.Claims.{Claims, ClaimsWithin};
ghost use Rattle.fp_certificate_rules.specs.Plans.{HasTimetable, routes_of, stated_cost as stated_cost_of};

use crate::cases::Case;
use crate::rejections::{BLOCKED, COST, LEAVES, PLAN, PRICES, Rejected, TREE, TRUCKS};
use crate::rules::added_points::told_points;
use crate::rules::departures::are_same;
use crate::rules::fastest_times::is_too_late;
use crate::rules::leaves::are_leaves_worth;
use crate::rules::plans::told_plan;
use crate::rules::prices::has_prices;
use crate::rules::trees::{is_tree, narrowing_count, split_count};
use fp_certificate_lines::{Answer, Certificate};
use fp_certificate_rules::MOST_NARROWINGS;
use fp_flatnet::Windows;
use fp_model::{Instance, Plan};
use fp_timetable::{plan_cost, trucks};
use fp_tree::MOST_SPLITS;
use std::alloc::Global;

// The cost that an answer states of its plan, and 0 where it has none.
fn stated_cost(answer: Answer) -> u128
    ensures { result ≡ stated_cost_of answer }
{
    match answer {
        Answer::Direct { cost } | Answer::Optimal { cost } | Answer::Unfinished { cost, .. } =>
            cost,
        Answer::Infeasible { .. } => 0,
    }
}

// The plan of a certificate, whose cost and trucks are as told: parts 1 to 3.
fn tested_plan(alloc: Global, case: &Case<'_>) -> Result<Plan, Rejected>
    ensures plan { IfOk result (λ plan. plan ≡ routes_of case.now.problem case.now.told) }
    ensures holds { OnOk result
        (HasTimetable case.now.problem (windows_in case.now.windows) case.now.told) }
    ensures part { (number : ℕ) → result ≡ Err (Rejected.Part number) →
        (number ≤ 3) × IsFirstUnmet case.now.problem case.now.windows case.now.told number }
{
    let plan = told_plan(alloc, case)?;
    let instance = case.instance;
    let certificate = case.certificate;
    let lines = trucks(alloc, instance, &plan)?;
    if stated_cost(certificate.answer) != plan_cost(instance, &plan, lines.as_slice()) {
        return Err(Rejected::Part { number: COST });
    }
    if !are_same(certificate.trucks.as_slice(), lines.as_slice()) {
        return Err(Rejected::Part { number: TRUCKS });
    }
    Ok(plan)
}

// Whether all that bounds the plans is as it has to be: parts 4 to 7.
fn test_bound(alloc: Global, case: &Case<'_>) -> Result<(), Rejected>
    requires countable { HasCountableLists case.now }
    requires timetable { HasTimetable case.now.problem (windows_in case.now.windows) case.now.told }
    ensures holds { OnOk result (HoldBelow case.now.problem case.now.windows case.now.told BLOCKED) }
    ensures part { (number : ℕ) → result ≡ Err (Rejected.Part number) →
        (number ≤ 7) × IsFirstUnmet case.now.problem case.now.windows case.now.told number }
{
    let instance = case.instance;
    let certificate = case.certificate;
    let points = told_points(alloc, instance, case.windows, certificate.points.as_slice())?;
    if !has_prices(alloc, instance, case.windows, &points, certificate)? {
        return Err(Rejected::Part { number: PRICES });
    }
    let nodes = certificate.tree.as_slice();
    if !is_tree(nodes) || split_count(nodes) > MOST_SPLITS as usize {
        return Err(Rejected::Part { number: TREE });
    }
    if narrowing_count(nodes) > MOST_NARROWINGS {
        return Err(Rejected::Part { number: TREE });
    }
    if !are_leaves_worth(alloc, case, &points)? {
        return Err(Rejected::Part { number: LEAVES });
    }
    Ok(())
}

// Whether a certificate tells its plan and all that bounds the plans as it has to be: parts 1 to
// 7.
fn test_claim(alloc: Global, case: &Case<'_>) -> Result<(), Rejected>
    requires { HasCountableLists case.now }
    ensures holds { OnOk result (HoldBelow case.now.problem case.now.windows case.now.told BLOCKED) }
    ensures part { (number : ℕ) → result ≡ Err (Rejected.Part number) →
        (number ≤ 7) × IsFirstUnmet case.now.problem case.now.windows case.now.told number }
{
    tested_plan(alloc, case)?;
    test_bound(alloc, case)
}

// Whether the shipment of an infeasible answer is too late: part 8.
fn test_refusal(
    alloc: Global,
    instance: &Instance,
    shipment: u32,
    time: Option<u32>,
) -> Result<(), Rejected>
    requires { shipment < length instance.now.shipments }
    ensures holds { OnOk result (IsTooLate instance.now (shipment_at instance.now shipment) time) }
    ensures part { (number : ℕ) → result ≡ Err (Rejected.Part number) →
        (number ≡ BLOCKED)
        × (IsTooLate instance.now (shipment_at instance.now shipment) time → ⊥) }
{
    if is_too_late(alloc, instance, shipment, time)? {
        Ok(())
    } else {
        Err(Rejected::Part { number: BLOCKED })
    }
}

// Whether each part that applies to the answer holds.
fn test_parts(alloc: Global, case: &Case<'_>) -> Result<(), Rejected>
    requires { HasCountableLists case.now }
    ensures accepted { OnOk result (IsAccepted case.now.problem case.now.windows case.now.told) }
    ensures part { (number : ℕ) → result ≡ Err (Rejected.Part number) →
        IsFirstFailed case.now.problem case.now.windows case.now.told number }
{
    let certificate = case.certificate;
    match certificate.answer {
        Answer::Direct { .. } => {
            tested_plan(alloc, case)?;
            Ok(())
        }
        Answer::Optimal { .. } | Answer::Unfinished { .. } => test_claim(alloc, case),
        Answer::Infeasible { shipment, time } => test_refusal(alloc, case.instance, shipment, time),
    }
}

/// Whether a certificate is accepted for an instance and windows that belong to it: whether each
/// part that applies to its answer holds.
///
/// Accepted, its claim is true: of all plans that lie within the windows, and where these are the
/// instance's own, of all plans, with departures in any fractions of the unit of time. Otherwise
/// `Rejected` tells the first part that fails.
///
/// The instance has the scale of prices under which the certificate was made. The certificate's
/// numbers are in range, as those of one that was read, and there are fewer than `2^32 - 1` tables,
/// and shares and spans of each. Takes time that grows with its lines, but for the leaves and the
/// narrowings, each of which is valued anew. `NoMemory` only where no memory is found.
pub fn check(
    alloc: Global,
    instance: &Instance,
    windows: &Windows,
    certificate: &Certificate,
) -> Result<(), Rejected>
    requires belongs { BelongsTo instance.now windows.now }
    requires range { IsInRange instance.now certificate.now }
    requires countable { AreCountable instance.now certificate.now.tables }
    requires few { All (λ (list : List ClassSpan). length list < 2 ^ 32 - 1) certificate.now.spans }
    ensures accepted { OnOk result (IsAccepted instance.now windows.now certificate.now) }
    ensures part { (number : ℕ) → result ≡ Err (Rejected.Part number) →
        IsFirstFailed instance.now windows.now certificate.now number }
    ensures within { OnOk result
        (ClaimsWithin instance.now (windows_in windows.now) certificate.now.answer) }
    ensures claims { OnOk result
        (AreWindows instance.now (windows_in windows.now)
        → Claims instance.now certificate.now.answer) }
{
    let case = Case {
        instance,
        windows,
        certificate,
    };
    test_parts(alloc, &case)
}

/// The plan that a certificate tells, for each shipment its legs, where the parts 1 to 3 hold:
/// the plan lies within the windows, and its cost and its trucks are as told. What the answer
/// claims of other plans isn't looked at.
///
/// `Rejected` tells the first of these parts that fails, and 1 where the answer is an infeasible
/// one. `NoMemory` only where no memory is found.
pub fn plan_of(
    alloc: Global,
    instance: &Instance,
    windows: &Windows,
    certificate: &Certificate,
) -> Result<Plan, Rejected>
    requires belongs { BelongsTo instance.now windows.now }
    requires range { IsInRange instance.now certificate.now }
    ensures plan { IfOk result (λ plan. plan ≡ routes_of instance.now certificate.now) }
    ensures holds { OnOk result
        (HasTimetable instance.now (windows_in windows.now) certificate.now) }
    ensures answer { OnOk result (TellsPlan certificate.now.answer) }
    ensures part { (number : ℕ) → result ≡ Err (Rejected.Part number) →
        IsPlanRejected instance.now windows.now certificate.now certificate.now.answer number }
{
    let case = Case {
        instance,
        windows,
        certificate,
    };
    match certificate.answer {
        Answer::Infeasible { .. } => Err(Rejected::Part { number: PLAN }),
        _ => tested_plan(alloc, &case),
    }
}
