//! Sides that bar runs of classes: neighbouring classes of one arc that are barred for a shipment
//! make one side.
ghost use Rattle.std.specs.Prelude.{ℕ, ◌≡◌, ◌+◌, ◌<◌, ◌≤◌, ◌^◌, ◌&&◌, All, IfOk, IfSome, length, nat_eq, true};
ghost use Rattle.fp_base_lists.specs.Membership.{list_has};
ghost use Rattle.fp_model.specs.Problem.{Problem};
ghost use Rattle.fp_model.specs.declared.limits.TheConstants.{LATEST as LATEST_MOMENT};
ghost use Rattle.fp_longestarcs.specs.Networks.{class_count, points_in};
ghost use Rattle.fp_longestarcs.specs.Whole.{IsWholeNetwork};
ghost use Rattle.fp_tree.specs.Sides.{Exit};
ghost use Rattle.fp_tree.specs.declared.sides.Side.TheVariants.{Outside as IsOutside};
ghost use Rattle.fp_allowed.specs.Allowed.{meets, meets_all};
ghost use Rattle.fp_prices_bars.specs.BarRuns.{BarAlso, EndsClass, IsRun};
ghost use Rattle.fp_prices_bars.specs.BarTests.{bars_by, is_barred_by};

use crate::NoMemory;
use crate::bar_tests::{BarTest, is_barred};
use fp_base_lists::count_until;
use fp_longestarcs::Network;
use fp_model::Instance;
use fp_model::limits::LATEST;
use fp_rows::Row;
use fp_tree::Side;

// Where the moments of a terminal's point end: at the next point, or with time where there is none.
fn end_of(network: &Network, terminal: u32, point: u32) -> u32
    requires terminal { terminal < length network.now.points }
    requires point { list_has (points_in network.now terminal) point ≡ true }
    ensures { EndsClass (points_in network.now terminal) point result }
{
    let points = network.points(terminal);
    let next = count_until(points, point);
    if next < points.len() {
        points[next]
    } else {
        LATEST + 1
    }
}

// Where the run of a bar begins, if the bar is of the shipment and the arc and ends here.
fn begun_before(bar: Side, shipment: u32, arc: u32, end: u32) -> Option<u32>
    ensures { IfSome result (λ point. bar ≡ IsOutside shipment arc point end) }
{
    match bar {
        Side::Outside {
            shipment: whose,
            arc: by,
            point,
            until,
        } if whose == shipment && by == arc && until == end => Some(point),
        _ => None,
    }
}

// Bars a run of departures of a shipment by an arc, which isn't empty: in one with the last bar, where
// that is a run of theirs that ends where this one begins.
fn add_run(
    bars: &mut Vec<Side>,
    shipment: u32,
    arc: u32,
    point: u32,
    until: u32,
) -> Result<(), NoMemory>
    requires { point < until }
    ensures runs { IfOk result (λ _. (p : Problem) → IsRun p (IsOutside shipment arc point until) → All (IsRun p) bars.old.items → All (IsRun p) bars.new.items) }
    ensures told { IfOk result (λ _. (p : Problem) → All (IsRun p) bars.old.items → (k : ℕ) (e : Exit) →
        meets_all k bars.new.items e ≡ (meets_all k bars.old.items e && meets k e (IsOutside shipment arc point until))) }
{
    let begun = match bars.last() {
        Some(last) => begun_before(*last, shipment, arc, point),
        None => None,
    };
    if begun.is_some() {
        let _ = bars.pop();
    }
    bars.push(Side::Outside {
        shipment,
        arc,
        point: begun.unwrap_or(point),
        until,
    })?;
    Ok(())
}

// Bars the class with a number for a shipment.
fn add_class(
    instance: &Instance,
    network: &Network,
    shipment: u32,
    class: u32,
    bars: &mut Vec<Side>,
) -> Result<(), NoMemory>
    requires whole { IsWholeNetwork instance.now network.now }
    requires shipment { shipment < length instance.now.shipments }
    requires class { class < class_count network.now }
    requires runs { All (IsRun instance.now) bars.old.items }
    ensures runs { IfOk result (λ _. All (IsRun instance.now) bars.new.items) }
    ensures also { IfOk result (λ _. BarAlso instance.now network.now shipment (λ n. nat_eq n class) bars.old.items bars.new.items) }
{
    let (arc, point) = network.of_class(class);
    let until = end_of(network, instance.arc(arc).from, point);
    add_run(bars, shipment, arc, point, until)
}

// Whether the class with a number is barred by the test: it is in the row, and barred by its least cost.
fn is_class_barred(row: &Row, through: &[Option<u128>], test: &BarTest, class: u32) -> bool
    requires row { class < length row.now }
    requires through { class < length through.now }
    requires scale { 0 < test.now.scale }
    requires small { All (λ o. IfSome o (λ cost. test.now.rest + cost + test.now.limit.more < 2 ^ 128)) through.now }
    ensures { result ≡ is_barred_by test.now row.now through.now class }
{
    row.get(class) && is_barred(test, through[class as usize])
}

/// Bars the classes of a row for a shipment that the test bars by the least costs of the shipment's
/// walks that have them, where neighbouring ones make one run. `NoMemory` only where no memory is
/// found.
pub(crate) fn add_classes(
    instance: &Instance,
    network: &Network,
    shipment: u32,
    row: &Row,
    through: &[Option<u128>],
    test: &BarTest,
    bars: &mut Vec<Side>,
) -> Result<(), NoMemory>
    requires whole { IsWholeNetwork instance.now network.now }
    requires shipment { shipment < length instance.now.shipments }
    requires row { length row.now ≡ class_count network.now }
    requires through { class_count network.now ≤ length through.now }
    requires scale { 0 < test.now.scale }
    requires small { All (λ o. IfSome o (λ cost. test.now.rest + cost + test.now.limit.more < 2 ^ 128)) through.now }
    requires runs { All (IsRun instance.now) bars.old.items }
    ensures runs { IfOk result (λ _. All (IsRun instance.now) bars.new.items) }
    ensures also { IfOk result (λ _. BarAlso instance.now network.now shipment (is_barred_by test.now row.now through.now) bars.old.items bars.new.items) }
{
    for class in 0..network.classes() {
        if is_class_barred(row, through, test, class) {
            add_class(instance, network, shipment, class, bars)?;
        }
    }
    Ok(())
}
