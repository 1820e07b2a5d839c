//! The plan that a certificate tells.
ghost use Rattle.std.specs.Prelude.{ℕ, ◌≡◌, Err, IfOk};
ghost use Rattle.fp_flatnet.specs.Belonging.{BelongsTo};
ghost use Rattle.fp_flatnet.specs.Tables.{windows_in};
ghost use Rattle.fp_flatnet.specs.Windows.{PlanLiesWithin};
ghost use Rattle.fp_model.specs.Plans.{IsPlan};
ghost use Rattle.fp_app.specs.CheckInputs.{CanBeChecked};
ghost use Rattle.fp_app.specs.Plans.{IsToldPlan, ShowsUntold};
ghost use Rattle.fp_app.specs.Wanted.{AreWindowsFor, Wanted, every};

use fp_certificate::Certificate;
use fp_checker::{Rejected, plan_of};
use fp_flatnet::Windows;
use fp_model::{Instance, Plan};
use std::alloc::Global;

/// The plan that a certificate tells of an instance under the windows of the wanted plans, whatever its
/// answer claims of other plans.
///
/// `Part` where its answer comes with none, or where the plan, its cost or its departures fail.
/// `NoMemory` only where no memory is found.
pub fn plan_within(
    alloc: Global,
    instance: &Instance,
    windows: &Windows,
    certificate: &Certificate,
) -> Result<Plan, Rejected>
    requires belongs { BelongsTo instance.now windows.now }
    requires checked { CanBeChecked instance.now certificate.now }
    ensures plan { IfOk result (IsPlan instance.now 1) }
    ensures within { IfOk result (PlanLiesWithin (windows_in windows.now) 1) }
    ensures told { (wanted : Wanted) → AreWindowsFor instance.now wanted windows.now → IfOk result (IsToldPlan instance.now wanted certificate.now) }
    ensures part { (wanted : Wanted) (number : ℕ) → AreWindowsFor instance.now wanted windows.now → result ≡ Err (Rejected.Part number) →
        ShowsUntold instance.now wanted certificate.now number }
{
    plan_of(alloc, instance, windows, certificate)
}

/// The plan that a certificate tells of an instance, whatever its answer claims of other plans.
///
/// `Part` where its answer comes with none, or where the plan, its cost or its departures fail.
/// `NoMemory` only where no memory is found.
pub fn told_plan(
    alloc: Global,
    instance: &Instance,
    certificate: &Certificate,
) -> Result<Plan, Rejected>
    requires { CanBeChecked instance.now certificate.now }
    ensures plan { IfOk result (IsToldPlan instance.now every certificate.now) }
    ensures part { (number : ℕ) → result ≡ Err (Rejected.Part number) →
        ShowsUntold instance.now every certificate.now number }
{
    let windows = Windows::of(alloc, instance)?;
    plan_within(alloc, instance, &windows, certificate)
}
