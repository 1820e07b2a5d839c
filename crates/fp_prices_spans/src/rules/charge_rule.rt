//! Tests whether the charges of spans pay for their weights.
ghost use Rattle.std.specs.Prelude.{ℕ, ◌≡◌, ◌-◌, ◌<◌, ◌≤◌, ◌^◌, ◌↔◌, All, IfOk, IsTrue, MatchOption, OnOk, length};
ghost use Rattle.fp_flatnet.specs.Belonging.{FitsInstance};
ghost use Rattle.fp_flatnet.specs.Tables.{windows_in};
ghost use Rattle.fp_timenodes.specs.Points.{points_at};
ghost use Rattle.fp_prices_knapsack.specs.Charges.{IsLeastCharge, Pays};
ghost use Rattle.fp_prices_spans.specs.MomentRuns.{first_points, group_weights};
ghost use Rattle.fp_prices_spans.specs.SpanCharges.{ChargePays, IsFirstUnpaid, items_of};
ghost use Rattle.fp_prices_spans.specs.SpanLists.{IsSpanOf};

use crate::NoMemory;
use crate::rules::moment_runs::{MomentRun, can_leave, run_at, span_end};
use crate::spans::Span;
use fp_flatnet::Windows;
use fp_model::Instance;
use fp_prices_knapsack::{Item, Knapsack};
use fp_timenodes::Points;
use std::alloc::Global;

/// The memory in which charges are tested, kept from span to span. What stands in it means nothing
/// between tests.
#[derive(Drop)]
pub(crate) struct ChargeTest {
    knapsack: Knapsack,
    items: Vec<Item>,
}

// The weights of a group as items, in the place of what the items were.
fn fill_items(
    items: &mut Vec<Item>,
    instance: &Instance,
    windows: &Windows,
    span: &Span,
    run: MomentRun,
) -> Result<(), NoMemory>
    requires fits { FitsInstance instance.now windows.now }
    requires of { IsSpanOf instance.now span.now }
    ensures { OnOk result (items.new.items
        ≡ items_of instance.now (group_weights (windows_in windows.now) span.now run)) }
{
    items.clear();
    for weight in &span.weights {
        if can_leave(windows, run, span.arc, weight.shipment) {
            items.push(Item {
                size: instance.shipment(weight.shipment).size,
                weight: weight.w,
            })?;
        }
    }
    Ok(())
}

// What a charge leaves beyond the least that pays for items, `None` where that is more, or nothing
// pays.
fn left_beyond(
    knapsack: &mut Knapsack,
    items: &[Item],
    capacity: u64,
    money: u128,
    charge: u128,
) -> Result<Option<u128>, NoMemory>
    requires { 0 < capacity }
    ensures { IfOk result (λ rest. MatchOption rest
        ((part : ℕ) → Pays items.now capacity money part → charge < part)
        (λ left. IsLeastCharge items.now capacity money (charge - left) × (left ≤ charge))) }
{
    match knapsack.least_charge(items, capacity, money)? {
        Some(part) => Ok(charge.checked_sub(part)),
        None => Ok(None),
    }
}

impl ChargeTest {
    /// A test that has taken no memory yet.
    pub(crate) fn new(alloc: Global) -> ChargeTest {
        ChargeTest {
            knapsack: Knapsack::new(alloc),
            items: Vec::new(alloc),
        }
    }

    /// Whether the charge of a span pays for its weights, by windows and by the points as of a
    /// round: whether the least charges that pay for its groups are together no more. Group after
    /// group is taken off the charge, so no sum is made. `NoMemory` only where no memory is found.
    pub(crate) fn pays(
        &mut self,
        instance: &Instance,
        windows: &Windows,
        points: &Points,
        round: u32,
        span: &Span,
    ) -> Result<bool, NoMemory>
        requires fits { FitsInstance instance.now windows.now }
        requires terminals { points.now.terminals ≡ length instance.now.terminals }
        requires of { IsSpanOf instance.now span.now }
        ensures { IfOk result (λ pays. IsTrue pays ↔ ChargePays instance.now (windows_in windows.now)
            (λ terminal. points_at points.now terminal round) span.now) }
    {
        let capacity = instance.arc(span.arc).capacity;
        let end = span_end(instance, points, round, span);
        let mut left = span.charge;
        for number in 0..span.groups.len() + 1 {
            let run = run_at(span.point, &span.groups, end, number);
            fill_items(&mut self.items, instance, windows, span, run)?;
            match left_beyond(&mut self.knapsack, &self.items, capacity, span.money, left)? {
                Some(rest) => left = rest,
                None => return Ok(false),
            }
        }
        Ok(true)
    }
}

/// The number, from 0, of the first span whose charge doesn't pay for its weights, or `None`
/// exactly where all charges pay.
///
/// A charge pays where it has a part for each run of the span's moments, so that in each run the
/// weights of every set of shipments that can leave in it, and that isn't empty, sum to at most the
/// money for the trucks that hold the set, and the part. A shipment can leave in a run where its
/// window for the arc has a moment at which the run has begun, and one before the run ends. The
/// last run ends at the first point of the arc's tail, as of round 0, that is at the span's `until`
/// or after it, and never where there is none.
///
/// The sizes of a set are counted in grains of its run, each rounded down, and at least one truck
/// is counted ([`fp_prices_knapsack::Knapsack::pays`]). The weights of each run together have to be
/// below 2^128; charges may be any numbers: no sum of them wraps. The windows fit the
/// instance, and the points have its terminals. The spans are of arcs, and their weights of
/// shipments, that exist, and there are fewer than 2^32 - 1 spans; in which order they and their
/// groups stand isn't asked. `NoMemory` where no memory is found.
pub fn check_charges(
    alloc: Global,
    instance: &Instance,
    windows: &Windows,
    points: &Points,
    spans: &[Span],
) -> Result<Option<u32>, NoMemory>
    requires fits { FitsInstance instance.now windows.now }
    requires terminals { points.now.terminals ≡ length instance.now.terminals }
    requires few { length spans.now < 2 ^ 32 - 1 }
    requires of { All (IsSpanOf instance.now) spans.now }
    ensures { IfOk result (λ unpaid.
        MatchOption unpaid
        (All (ChargePays instance.now (windows_in windows.now) (first_points points.now)) spans.now)
        (IsFirstUnpaid instance.now (windows_in windows.now) (first_points points.now) spans.now)) }
{
    let mut test = ChargeTest::new(alloc);
    for (number, span) in spans.iter().enumerate() {
        if !test.pays(instance, windows, points, 0, span)? {
            return Ok(Some(number as u32));
        }
    }
    Ok(None)
}
