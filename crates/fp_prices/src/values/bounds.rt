//! The bound of a leaf: the bases, and the least cost of each shipment.
ghost use Rattle.std.specs.Prelude.{◌≡◌, ◌+◌, ◌*◌, ◌<◌, ◌≤◌, IfOk, IfSome, length};
ghost use Rattle.fp_model.specs.Problem.{alone_total};
ghost use Rattle.fp_timenodes.specs.Points.{points_at};
ghost use Rattle.fp_flatnet.specs.Belonging.{BelongsTo};
ghost use Rattle.fp_flatnet.specs.Tables.{windows_in};
ghost use Rattle.fp_longestarcs.specs.Networks.{class_count};
ghost use Rattle.fp_prices.specs.ClassCosts.{IsFree};
ghost use Rattle.fp_prices.specs.Forced.{AreRowsUnder};
ghost use Rattle.fp_prices.specs.Found.{IsFoundAtLeaf, IsLeastAtLeaf, IsPricedLeaf, IsSmallCost};
ghost use Rattle.fp_prices.specs.KnownCosts.{AreKnownUnder};
ghost use Rattle.fp_prices.specs.Leaves.{BoundsPlans, IsBoundOf, IsSmallBound};
ghost use Rattle.fp_prices.specs.PointGraphs.{IsPointGraph};
ghost use Rattle.fp_prices.specs.PricedGraphs.{IsShipmentOver};
ghost use Rattle.fp_prices.specs.Tables.{AreTables, HasKind};

use crate::NoMemory;
use crate::graphs::least_costs::least_cost;
use crate::graphs::priced_graphs::PricedGraph;
use crate::leaf_prices::LeafPrice;
use crate::tables::Table;
use crate::values::known_costs::{KnownCost, keep_cost, known_cost};
use crate::values::leaves::Leaf;
use crate::values::rounds::RoundNetwork;
use fp_flatnet::Windows;
use fp_model::Instance;
use fp_rows::Row;
use fp_timenodes::{MOST_POINTS, Points};
use fp_tree::Side;
use std::alloc::Global;

/// The bound of a leaf.
#[derive(Clone, Copy, Debug, PartialEq, Eq)]
pub enum LeafBound {
    /// Some shipment has no allowed timed walk, so no plan obeys the leaf's sides; the first such
    /// shipment.
    Empty { shipment: u32 },
    /// The leaf bound, in parts of a unit of money of which the instance's scale makes one.
    Value { value: u128 },
}

// The least cost of a shipment whose row this is, `None` exactly where it has no allowed timed
// walk. The costs of the classes are put in anew.
fn shipment_cost(
    alloc: Global,
    over: &PricedGraph,
    shipment: u32,
    row: &Row,
    costs: &mut [Option<u128>],
) -> Result<Option<u128>, NoMemory>
    requires { IsShipmentOver over.now shipment row.now costs.old }
    ensures free { IsFree (class_count over.now.pricing.now.network.now) costs.new }
    ensures small { IfOk result (IsSmallCost over.now.pricing.now.instance.now shipment) }
    ensures exact { IfOk result (IsLeastAtLeaf over.now.pricing.now shipment row.now) }
{
    over.pricing.fill_costs(shipment, row, costs);
    least_cost(alloc, over, costs, shipment)
}

// The least cost of a shipment whose row this is, `None` exactly where it has no allowed timed
// walk: the known one, where it was found with the same row, and otherwise what a search finds,
// which is known from now on.
fn known_or_found(
    alloc: Global,
    over: &PricedGraph,
    shipment: u32,
    row: &Row,
    costs: &mut [Option<u128>],
    known: &mut Vec<KnownCost>,
) -> Result<Option<u128>, NoMemory>
    requires over { IsShipmentOver over.now shipment row.now costs.old }
    requires known { AreKnownUnder over.now.pricing.now known.old.items }
    requires before { shipment ≤ length known.old.items }
    ensures free { IsFree (class_count over.now.pricing.now.network.now) costs.new }
    ensures small { IfOk result (IsSmallCost over.now.pricing.now.instance.now shipment) }
    ensures exact { IfOk result (IsLeastAtLeaf over.now.pricing.now shipment row.now) }
    ensures known { IfOk result (λ _. AreKnownUnder over.now.pricing.now known.new.items) }
    ensures more { IfOk result (λ cost. IfSome cost (λ _. shipment + 1 ≤ length known.new.items)) }
{
    let classes = over.pricing.network.classes();
    if let Some(cost) = known_cost(known, shipment, row, classes) {
        return Ok(Some(cost));
    }
    let found = shipment_cost(alloc, over, shipment, row, costs)?;
    if let Some(cost) = found {
        keep_cost(alloc, known, shipment, row, classes, cost)?;
    }
    Ok(found)
}

/// The bases and the least cost of each shipment, whose rows these are, or the first that has none.
/// A shipment's cost is taken from the known ones, where its row is the same there.
pub(crate) fn value_over(
    alloc: Global,
    over: &PricedGraph,
    rows: &[Row],
    bases: u128,
    known: &mut Vec<KnownCost>,
) -> Result<LeafBound, NoMemory>
    requires graph { IsPointGraph over.now.pricing.now.instance.now over.now.pricing.now.network.now over.now.graph.now }
    requires rows { length rows.now ≡ length over.now.pricing.now.instance.now.shipments }
    requires priced { IsPricedLeaf over.now.pricing.now rows.now }
    requires bases { bases ≤ over.now.pricing.now.instance.now.scale * alone_total over.now.pricing.now.instance.now.arcs over.now.pricing.now.instance.now.shipments }
    requires known { AreKnownUnder over.now.pricing.now known.old.items }
    ensures found { IfOk result (IsFoundAtLeaf over.now.pricing.now rows.now bases) }
    ensures known { IfOk result (λ _. AreKnownUnder over.now.pricing.now known.new.items) }
{
    let mut costs = over.graph.free_costs(alloc)?;
    let mut value = bases;
    for shipment in 0..over.pricing.instance.shipments().len() as u32 {
        let row = &rows[shipment as usize];
        match known_or_found(alloc, over, shipment, row, &mut costs, known)? {
            Some(cost) => value += cost,
            None => return Ok(LeafBound::Empty { shipment }),
        }
    }
    Ok(LeafBound::Value { value })
}

/// The bound of a leaf by prices, with the points as of a round: what the trucks of its forced
/// chains cost, where forced classes are paid whole, and the least cost of each shipment's allowed
/// timed walks under the prices; or that the leaf is empty, with the first shipment that has no
/// allowed timed walk.
///
/// Over every denominator, the scale times the cost of each plan that lies within the windows and
/// obeys the sides is at least the value, and where the leaf is empty there is no such plan. The
/// value counts parts of a unit of money, of which the instance's scale makes one; it is at most
/// 65,537 times the scale times what all shipments cost that each go over every arc alone, so it's
/// below 2^128.
///
/// The windows and the points belong to the instance; the terminals, the first points and the added
/// points are together at most [`MOST_POINTS`]; the tables are in order and keep the price rule
/// ([`check_tables`](crate::check_tables)), and a kind by a table names one of them. `NoMemory`
/// only where no memory is found. One search over the points for each shipment; their graph and the
/// prices are made once.
pub fn bound(
    alloc: Global,
    instance: &Instance,
    windows: &Windows,
    points: &Points,
    tables: &[Table],
    sides: &[Side],
    price: LeafPrice,
) -> Result<LeafBound, NoMemory>
    requires belongs { BelongsTo instance.now windows.now }
    requires terminals { points.now.terminals ≡ length instance.now.terminals }
    requires few { points.now.terminals + length points.now.first + length points.now.added ≤ MOST_POINTS }
    requires tables { AreTables instance.now tables.now }
    requires kind { HasKind tables.now price.kind }
    ensures exact { IfOk result (IsBoundOf instance.now (windows_in windows.now) (λ terminal. points_at points.now terminal price.round) sides.now tables.now price.kind price.forced) }
    ensures plans { IfOk result (BoundsPlans instance.now (windows_in windows.now) sides.now) }
    ensures small { IfOk result (IsSmallBound instance.now) }
{
    let network = RoundNetwork::of(alloc, instance, points, price.round)?;
    let leaf = Leaf::of(alloc, &network, windows, sides)?;
    leaf.bound(alloc, tables, price.kind, price.forced)
}
