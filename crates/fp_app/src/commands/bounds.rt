//! What `bound` shows.
ghost use Rattle.std.specs.Prelude.{◌≡◌, ◌≤◌, false, length, IfOk, None};
ghost use Rattle.fp_model.specs.Plans.{PlanExists};
ghost use Rattle.fp_prices_spans.specs.SpanKinds.{spans_beside};
ghost use Rattle.fp_flatnet.specs.Tables.{WindowTable};
ghost use Rattle.fp_duals_leaves.specs.Prices.{ArePrices};
ghost use Rattle.fp_app.specs.Inputs.{OfInstance};
ghost use Rattle.fp_app.specs.declared.limits.TheConstants.{INSTANCE_LIMIT};
ghost use Rattle.fp_app.specs.Runs.{ShowsBound};
ghost use Rattle.fp_app.specs.Shown.{IsPrintable};

use crate::inputs::instances::{InstanceInput, read_instance};
use crate::{NoMemory, Shown};
use fp_certificate_rules::unit_of;
use fp_duals_leaves::{Improvement, PriceEffort, Prices, improve_root};
use fp_ends::{Deadline, Resources};
use fp_flatnet::{Verdict, Windows, feasible, initial};
use fp_longestarcs::Network;
use fp_model::Instance;
use fp_prices::Kind;
use fp_prices_spans::{Span, TableSpans};
use std::alloc::Global;

/// What `bound` shows for the bytes of an input, in the time that there is, and with the option of
/// spans or without it.
pub fn bound_shown<D: Deadline>(
    resources: &Resources<D>,
    bytes: Vec<u8>,
    option: bool,
) -> Result<Shown, NoMemory>
    requires { length bytes.items ≤ INSTANCE_LIMIT }
    ensures shown { IfOk result (λ shown. OfInstance bytes.items shown (λ p. ShowsBound option p shown)) }
    ensures printable { IfOk result IsPrintable }
{
    match read_instance(resources.alloc, bytes)? {
        InstanceInput::Read { instance } => bound_plans(resources, instance, option),
        InstanceInput::Fault { ordinal, code } => Ok(Shown::BadInput { ordinal, code }),
    }
}

// What the plans of an instance cost at least, or the first shipment that can't be carried in time.
fn bound_plans<D: Deadline>(
    resources: &Resources<D>,
    instance: Instance,
    option: bool,
) -> Result<Shown, NoMemory>
    ensures shown { IfOk result (ShowsBound option instance) }
    ensures printable { IfOk result IsPrintable }
{
    match feasible(resources.alloc, &instance)? {
        Verdict::All => bound_root(resources, instance, option),
        Verdict::Blocked { shipment, distance } => Ok(Shown::Infeasible {
            instance,
            shipment,
            time: distance,
        }),
    }
}

// Prices without tables, by which spans are sought where they are wanted.
fn first_prices(alloc: Global, instance: &Instance, option: bool) -> Prices
    ensures prices { (table : WindowTable) → ArePrices instance.now table result }
    ensures without { option ≡ false → result.unit ≡ None }
{
    let unit = if option {
        Some(unit_of(instance))
    } else {
        None
    };
    Prices::new(alloc, unit)
}

// The spans beside the table that a kind names, taken from the lists.
fn taken_beside(alloc: Global, lists: Vec<TableSpans>, kind: Kind) -> Vec<Span>
    ensures { result.items ≡ spans_beside lists.items kind }
{
    let mut lists = lists;
    let place = match kind {
        Kind::Linear | Kind::Even => lists.len(),
        Kind::Table { id } => (id as usize).saturating_sub(1),
    };
    if place < lists.len() {
        lists.swap_remove(place).spans
    } else {
        Vec::new(alloc)
    }
}

// What the plans of an instance cost at least, of which there is one: the best price found for the
// leaf without sides, by spans too where these are wanted.
fn bound_root<D: Deadline>(
    resources: &Resources<D>,
    instance: Instance,
    option: bool,
) -> Result<Shown, NoMemory>
    requires { PlanExists instance }
    ensures shown { IfOk result (ShowsBound option instance) }
    ensures printable { IfOk result IsPrintable }
{
    let alloc = resources.alloc;
    let windows = Windows::of(alloc, &instance)?;
    let points = initial(alloc, &instance, &windows)?;
    let network = Network::of(alloc, &instance, &points, 0)?;
    let mut prices = first_prices(alloc, &instance, option);
    let effort = &PriceEffort::ROOT;
    match improve_root(resources, &instance, &windows, network, effort, &mut prices)? {
        Improvement::Priced { price, value, .. } => {
            let (tables, lists, _, _) = prices.into_parts();
            let spans = taken_beside(alloc, lists, price.kind);
            Ok(Shown::Bound {
                instance,
                price,
                tables,
                spans,
                value,
            })
        }
        Improvement::Empty { .. } => unreachable!(),
    }
}
