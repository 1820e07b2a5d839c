//! Improves the price of a leaf.
ghost use Rattle.std.specs.Prelude.{◌≡◌, ◌+◌, ◌≤◌, IfOk, OnErr, length, true};
ghost use Rattle.fp_flatnet.specs.Belonging.{BelongsTo};
ghost use Rattle.fp_flatnet.specs.Tables.{windows_in};
ghost use Rattle.fp_longestarcs.specs.Networks.{points_in};
ghost use Rattle.fp_prices.specs.declared.leaf_prices.Kind.TheVariants.{Linear};
ghost use Rattle.fp_prices.specs.LeastWalks.{AreLeastWalks};
ghost use Rattle.fp_prices.specs.Tables.{AreTables, HasKind};
ghost use Rattle.fp_timenodes.specs.Points.{points_at};
ghost use Rattle.fp_duals.specs.Choices.{IsChoice};
ghost use Rattle.fp_duals.specs.Improvements.{IsImproved};
ghost use Rattle.fp_duals.specs.PriceLines.{line_total};
ghost use Rattle.fp_duals.specs.PriceTables.{ArePriceTables};
ghost use Rattle.fp_duals.specs.Starts.{IsBestStart, IsStart};

use crate::NoMemory;
use crate::candidates::better_table;
use crate::improvements::Improved;
use crate::run_tables::Tables;
use crate::searches::Search;
use crate::starts::Start;
use crate::tabled_leaves::TabledLeaf;
use fp_duals_nets::LentNets;
use fp_duals_shares::Effort;
use fp_ends::{Deadline, Resources};
use fp_flatnet::Windows;
use fp_longestarcs::TimedWalk;
use fp_model::Instance;
use fp_prices::{Kind, Leaf, LeafBound, LeafPrice, RoundNetwork, Table};
use fp_timenodes::{MOST_POINTS, Points};
use fp_tree::Side;
use std::alloc::Global;

// A walk of least cost of each shipment under the prices of a start.
fn least_walks(
    alloc: Global,
    leaf: &Leaf,
    search: &mut Search,
    tables: &[Table],
    start: Start,
) -> Result<Vec<TimedWalk>, NoMemory>
    requires tables { AreTables leaf.now.setting.problem tables.now }
    requires start { IsStart leaf.now tables.now start }
    ensures { IfOk result (λ walks.
        AreLeastWalks leaf.now.setting.problem (windows_in leaf.now.setting.windows)
        (points_in leaf.now.setting.network) leaf.now.sides tables.now start.kind start.forced
        walks.items) }
{
    let preferred = search.walks(alloc, tables, start)?;
    match leaf.walks_preferring(alloc, tables, start.kind, start.forced, &preferred)? {
        Some(walks) => Ok(walks),
        None => unreachable!(),
    }
}

// The best start, or the prices by a table that is better, has at most so many price lines, and is
// added to the tables.
fn choice<D: Deadline>(
    resources: &Resources<D>,
    leaf: &Leaf,
    search: &mut Search,
    inherited: Kind,
    start: Start,
    room: u32,
    tables: &mut Tables,
) -> Result<Start, NoMemory>
    requires tables { ArePriceTables leaf.now.setting.problem tables.old }
    requires best { IsBestStart leaf.now tables.old inherited start }
    ensures tables { ArePriceTables leaf.now.setting.problem tables.new }
    ensures choice { IfOk result (IsChoice leaf.now tables.old tables.new inherited) }
    ensures lines { IfOk result (λ _. line_total tables.new ≤ line_total tables.old + room) }
    ensures err { OnErr result (tables.new ≡ tables.old) }
{
    match better_table(resources, leaf, search, room, tables, start)? {
        Some(found) => {
            tables.push(found.table)?;
            Ok(found.start)
        }
        None => Ok(start),
    }
}

// The price of a leaf from the best of its starting prices, or from a table that is better.
fn priced<D: Deadline>(
    resources: &Resources<D>,
    leaf: &Leaf,
    search: &mut Search,
    round: u32,
    inherited: Kind,
    start: Start,
    room: u32,
    tables: &mut Tables,
) -> Result<Improved, NoMemory>
    requires tables { ArePriceTables leaf.now.setting.problem tables.old }
    requires best { IsBestStart leaf.now tables.old inherited start }
    ensures improved { IfOk result
        (IsImproved leaf.now.setting.problem (windows_in leaf.now.setting.windows)
        (points_in leaf.now.setting.network) leaf.now.sides tables.old tables.new inherited round) }
    ensures tables { ArePriceTables leaf.now.setting.problem tables.new }
    ensures lines { IfOk result (λ _. line_total tables.new ≤ line_total tables.old + room) }
    ensures err { OnErr result (tables.new ≡ tables.old) }
{
    // They fit the instance, so no allowed class leaves a destination, and a forced chain that
    // reaches one is the only walk.
    let _windows = leaf.windows();
    let count = tables.list().len() as u32;
    let chosen = choice(resources, leaf, search, inherited, start, room, tables)?;
    match least_walks(resources.alloc, leaf, search, tables.list(), chosen) {
        Ok(walks) => Ok(Improved::Priced {
            price: LeafPrice {
                kind: chosen.kind,
                round,
                forced: chosen.forced,
            },
            value: chosen.value,
            walks,
        }),
        Err(error) => {
            tables.cut(count);
            Err(error)
        }
    }
}

/// Improves the price of a leaf over the network of a round, with so much effort, and with the nets of
/// the leaf, which it makes where it needs them and they aren't made yet.
///
/// It is [`Improved::Empty`] exactly where some shipment has no allowed timed walk; the first is
/// named, and the tables stay. Otherwise the price has this number of a round, which is used for
/// nothing else; its value is at least those by all six starting prices, which are of the kinds
/// linear, even and inherited, each plain and with forced classes paid whole; and there is a walk of
/// least cost under it for each shipment, which repeats no timed node. Where the forced chain of
/// each shipment reaches its destination, the value is the scale times what the chains cost.
///
/// The tables that were there stay, and the price is of one of the kinds of the starting prices, or
/// one table is added: it is the last, it has a share and at most `room` price lines, the price is by
/// it, and the value is above those by all six starting prices. The tables are of the instance, in
/// order and within the price rule, before and after, and a table that `inherited` names is one of
/// them; its round and mode aren't used. `NoMemory` only where no memory is found; then the tables
/// are as before, and so are the nets, of which contracts see nothing.
pub fn improve_leaf<D: Deadline>(
    resources: &Resources<D>,
    leaf: &Leaf,
    nets: &mut LentNets,
    round: u32,
    inherited: LeafPrice,
    effort: &Effort,
    room: u32,
    tables: &mut Tables,
) -> Result<Improved, NoMemory>
    requires tables { ArePriceTables leaf.now.setting.problem tables.old }
    requires kind { HasKind tables.old inherited.kind }
    ensures improved { IfOk result
        (IsImproved leaf.now.setting.problem (windows_in leaf.now.setting.windows)
        (points_in leaf.now.setting.network) leaf.now.sides tables.old tables.new inherited.kind
        round) }
    ensures tables { ArePriceTables leaf.now.setting.problem tables.new }
    ensures lines { IfOk result (λ _. line_total tables.new ≤ line_total tables.old + room) }
    ensures err { OnErr result (tables.new ≡ tables.old) }
    ensures nets { OnErr result (nets.new ≡ nets.old) }
{
    match leaf.bound(resources.alloc, tables.list(), Kind::Linear, true)? {
        LeafBound::Empty { shipment } => Ok(Improved::Empty { shipment }),
        LeafBound::Value { value } => {
            let first = Start {
                kind: Kind::Linear,
                forced: true,
                value,
            };
            let kind = inherited.kind;
            let tabled = TabledLeaf {
                leaf,
                tables: tables.list(),
            };
            let start = first.best(resources.alloc, &tabled, kind)?;
            let mut search = Search::of(resources.alloc, leaf, nets, effort)?;
            priced(
                resources,
                leaf,
                &mut search,
                round,
                kind,
                start,
                room,
                tables,
            )
        }
    }
}

/// Improves the price of a leaf with the points as of a round, as [`improve_leaf`] does, with the
/// effort of a root, where a table may have as many price lines as the tables leave.
///
/// The windows and the points belong to the instance; the terminals, the first points and the added
/// points are together at most [`MOST_POINTS`].
#[tactic(auto, using(fp_flatnet::proofs::WindowTimes::BelongsTo_fits))]
pub fn improve(
    alloc: Global,
    instance: &Instance,
    windows: &Windows,
    points: &Points,
    round: u32,
    sides: &[Side],
    inherited: LeafPrice,
    tables: &mut Tables,
) -> Result<Improved, NoMemory>
    requires belongs { BelongsTo instance.now windows.now }
    requires terminals { points.now.terminals ≡ length instance.now.terminals }
    requires few { points.now.terminals + length points.now.first + length points.now.added ≤ MOST_POINTS }
    requires tables { ArePriceTables instance.now tables.old }
    requires kind { HasKind tables.old inherited.kind }
    ensures improved { IfOk result
        (IsImproved instance.now (windows_in windows.now)
        (λ terminal. points_at points.now terminal round) sides.now tables.old tables.new
        inherited.kind round) }
    ensures tables { ArePriceTables instance.now tables.new }
    ensures err { OnErr result (tables.new ≡ tables.old) }
{
    let network = RoundNetwork::of(alloc, instance, points, round)?;
    let leaf = Leaf::of(alloc, &network, windows, sides)?;
    let mut nets = LentNets::new();
    let effort = &Effort::ROOT;
    let room = tables.left();
    let resources = &Resources::endless(alloc);
    improve_leaf(
        resources, &leaf, &mut nets, round, inherited, effort, room, tables,
    )
}
