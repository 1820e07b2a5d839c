//! A leaf over the network of its round: which classes its sides allow for each shipment, and what
//! it is worth under prices.
ghost use Rattle.std.specs.Prelude.{◌≡◌, ◌<◌, IfNone, IfOk, IfSome, IsNone, IsSome, List, false, length};
ghost use Rattle.fp_model.specs.declared.parts.Leg.{Leg};
ghost use Rattle.fp_model.specs.Numbered.{shipment_at};
ghost use Rattle.fp_flatnet.specs.Belonging.{FitsInstance};
ghost use Rattle.fp_flatnet.specs.Tables.{windows_in};
ghost use Rattle.fp_longestarcs.specs.Networks.{IsClass, points_in};
ghost use Rattle.fp_allowed.specs.Allowed.{tails_of};
ghost use Rattle.fp_allowed.specs.Bits.{IsRowUnder, allowed_in};
ghost use Rattle.fp_allowed.specs.Chains.{IsForced, SeveralLeave};
ghost use Rattle.fp_tree.specs.declared.sides.Split.TheVariants.{ByWay};
ghost use Rattle.fp_allowed.specs.Choices.{IsTaken, OneAtMost};
ghost use Rattle.fp_allowed.specs.Departures.{DividesDepartures, IsSplitAt};
ghost use Rattle.fp_allowed.specs.Heads.{heads_within};
ghost use Rattle.fp_prices.specs.Forced.{AreRowsUnder};
ghost use Rattle.fp_prices.specs.KnownCosts.{AreKnownCosts, IsSharedKind};
ghost use Rattle.fp_prices.specs.LeafPricings.{AreChainsOf};
ghost use Rattle.fp_prices.specs.LeafFindings.{AreLeafWalks, BoundsLeafPlans, HasLeafPreferred, IsEmptyLeaf, IsLeafBound};
ghost use Rattle.fp_prices.specs.Leaves.{IsSmallBound};
ghost use Rattle.fp_prices.specs.Points.{shape_by};
ghost use Rattle.fp_prices.specs.Tables.{AreTables, HasKind};

use crate::NoMemory;
use crate::classes::bases::{bases, forced_classes};
use crate::classes::class_rules::class_pricing;
use crate::graphs::priced_graphs::PricedGraph;
use crate::graphs::shipment_graphs::graph_within;
use crate::leaf_prices::Kind;
use crate::tables::Table;
use crate::values::bounds::{LeafBound, value_over};
use crate::values::known_costs::KnownCost;
use crate::values::leaf_pricings::LeafPricing;
use crate::values::leaf_walks::walks_over;
use crate::values::rounds::RoundNetwork;
use fp_allowed::{Allowed, Chain};
use fp_flatnet::Windows;
use fp_labels::Graph;
use fp_longestarcs::TimedWalk;
use fp_model::Instance;
use fp_rows::Row;
use fp_tree::{Side, Split};
use std::alloc::Global;
use std::marker::Model;

// The rows of all shipments under sides.
fn all_rows(
    alloc: Global,
    instance: &Instance,
    allowed: &Allowed,
    sides: &[Side],
) -> Result<Vec<Row>, NoMemory>
    requires { instance.now ≡ allowed.now.problem }
    ensures one_each { IfOk result (λ rows. length rows.items ≡ length instance.now.shipments) }
    ensures under { IfOk result (λ rows. AreRowsUnder allowed.now sides.now rows.items) }
{
    let mut rows = Vec::new(alloc);
    for shipment in 0..instance.shipments().len() as u32 {
        rows.push(allowed.row(alloc, shipment, sides)?)?;
    }
    Ok(rows)
}

/// A leaf: sides over the network of a round, with the row of allowed classes of each shipment.
///
/// Contracts see the instance, its windows and the network as one setting, and the sides.
#[derive(Drop)]
pub struct Leaf<'a> {
    round: &'a RoundNetwork<'a>,
    windows: &'a Windows,
    sides: &'a [Side],
    rows: Vec<Row>,
}

impl<'a> Model for Leaf<'a> {
    ghost use Rattle.fp_prices.specs.Rounds.{IsLeafOver, LeafModel};

    ghost Value = { LeafModel };

    ghost view = { λ l. record {
      setting = record { problem = l.round.now.problem; windows = l.windows.now; network = l.round.now.network };
      sides = l.sides.now;
    } };

    ghost invariant = { λ l. IsLeafOver (record {
      setting = record { problem = l.round.now.problem; windows = l.windows.now; network = l.round.now.network };
      sides = l.sides.now;
    }) l.rows.items };
}

impl<'a> Leaf<'a> {
    /// The leaf under sides, with windows that fit the instance: they may have no anchors. `NoMemory`
    /// only where no memory is found.
    pub fn of(
        alloc: Global,
        round: &'a RoundNetwork<'a>,
        windows: &'a Windows,
        sides: &'a [Side],
    ) -> Result<Leaf<'a>, NoMemory>
        requires { FitsInstance round.now.problem windows.now }
        ensures setting { IfOk result (λ leaf. leaf.setting
            ≡ record { problem = round.now.problem; windows = windows.now; network = round.now.network }) }
        ensures sides { IfOk result (λ leaf. leaf.sides ≡ sides.now) }
    {
        let allowed = Allowed::within(round.instance(), windows, round.network());
        let rows = all_rows(alloc, round.instance(), &allowed, sides)?;
        Ok(Leaf {
            round,
            windows,
            sides,
            rows,
        })
    }

    // What decides which classes are allowed.
    fn allowed(&self) -> Allowed<'_>
        ensures { result ≡ self.now.setting }
    {
        Allowed::within(self.round.instance(), self.windows, self.round.network())
    }

    /// The head of a class for a shipment, as [`Allowed::head`] has it.
    pub fn head(&self, shipment: u32, arc: u32, point: u32) -> u32
        requires shipment { shipment < length self.now.setting.problem.shipments }
        requires class { IsClass self.now.setting.network (record { arc = arc; depart = point }) }
        ensures { result ≡ heads_within self.now.setting.problem (windows_in self.now.setting.windows)
            (points_in self.now.setting.network) shipment (record { arc = arc; depart = point }) }
    {
        self.allowed().head(shipment, arc, point)
    }

    /// The graph of the network's points with the heads for a shipment, in the place of those of the
    /// classes: the nodes and the numbers of the edges are those of [`RoundNetwork::graph`].
    /// `NoMemory` only where no memory is found.
    pub fn graph(&self, alloc: Global, shipment: u32) -> Result<Graph, NoMemory>
        requires { shipment < length self.now.setting.problem.shipments }
        ensures { IfOk result (λ graph. graph ≡ shape_by self.now.setting.problem self.now.setting.network
            (heads_within self.now.setting.problem (windows_in self.now.setting.windows)
            (points_in self.now.setting.network) shipment)) }
    {
        graph_within(
            alloc,
            self.round.instance(),
            self.round.network(),
            &self.allowed(),
            shipment,
        )
    }

    /// The network of the leaf's round.
    pub fn round(&self) -> &'a RoundNetwork<'a>
        ensures problem { result.now.problem ≡ self.now.setting.problem }
        ensures network { result.now.network ≡ self.now.setting.network }
    {
        self.round
    }

    /// The windows, which fit the instance.
    pub fn windows(&self) -> &'a Windows
        ensures same { result.now ≡ self.now.setting.windows }
        ensures belongs { FitsInstance self.now.setting.problem self.now.setting.windows }
    {
        self.windows
    }

    /// The sides.
    pub fn sides(&self) -> &'a [Side]
        ensures { result.now ≡ self.now.sides }
    {
        self.sides
    }

    /// The row of a shipment: one bit per class of the network, by its number, set exactly where
    /// the class is allowed for the shipment.
    pub fn row(&self, shipment: u32) -> &Row
        requires { shipment < length self.now.setting.problem.shipments }
        ensures { IsRowUnder self.now.setting self.now.sides shipment result.now }
    {
        &self.rows[shipment as usize]
    }

    /// The forced chain of a shipment, and how it ends. `NoMemory` only where no memory is found.
    pub fn chain(&self, alloc: Global, shipment: u32) -> Result<Chain, NoMemory>
        requires { shipment < length self.now.setting.problem.shipments }
        ensures { IfOk result
            (IsForced self.now.setting.problem self.now.setting.network
            (allowed_in self.now.setting self.now.sides shipment)
            (shipment_at self.now.setting.problem shipment)) }
    {
        self.allowed().forced(alloc, shipment, self.row(shipment))
    }

    /// A split of a shipment at a terminal that leaves it something on both sides, as
    /// [`Allowed::choice`] chooses it under the leaf's sides. `None` exactly where fewer than two
    /// allowed classes leave the terminal. Takes no memory.
    pub fn choice(&self, shipment: u32, terminal: u32) -> Option<Split>
        requires { shipment < length self.now.setting.problem.shipments }
        ensures none { IsNone result → OneAtMost (allowed_in self.now.setting self.now.sides shipment)
            (λ c. tails_of self.now.setting.problem c.arc ≡ terminal) }
        ensures several { IsSome result → SeveralLeave self.now.setting.problem
            (allowed_in self.now.setting self.now.sides shipment) terminal }
        ensures at { IfSome result (IsSplitAt self.now.setting.problem shipment terminal) }
        ensures divides { IfSome result (DividesDepartures self.now.setting.problem
            (windows_in self.now.setting.windows) self.now.sides shipment terminal) }
        ensures taken { IfSome result (IsTaken self.now.setting.problem
            (windows_in self.now.setting.windows) self.now.setting.network
            (allowed_in self.now.setting self.now.sides shipment) shipment terminal) }
    {
        self.allowed()
            .choice(shipment, self.row(shipment), terminal)
    }

    /// The split of a shipment by the way by an arc that leaves it something on both sides, as
    /// [`Allowed::way`] has it under the leaf's sides. `None` where not both the arc and another one that
    /// leaves the same terminal have allowed classes. Takes no memory.
    pub fn way(&self, shipment: u32, arc: u32) -> Option<Split>
        requires shipment { shipment < length self.now.setting.problem.shipments }
        requires arc { arc < length self.now.setting.problem.arcs }
        ensures way { IfSome result (λ split. split ≡ ByWay shipment arc) }
        ensures at { IfSome result (IsSplitAt self.now.setting.problem shipment
            (tails_of self.now.setting.problem arc)) }
        ensures divides { IfSome result (DividesDepartures self.now.setting.problem
            (windows_in self.now.setting.windows) self.now.sides shipment
            (tails_of self.now.setting.problem arc)) }
    {
        self.allowed().way(shipment, self.row(shipment), arc)
    }

    /// The bound of the leaf by prices of a kind: what the trucks of its forced chains cost, where
    /// forced classes are paid whole, and the least cost of each shipment's allowed timed walks
    /// under the prices; or that the leaf is empty, with the first shipment that has no such walk.
    ///
    /// It is what [`bound`](crate::bound) finds as of the leaf's round, on the same conditions on
    /// the tables and the kind. `NoMemory` only where no memory is found. One search over the
    /// points for each shipment.
    pub fn bound(
        &self,
        alloc: Global,
        tables: &[Table],
        kind: Kind,
        forced: bool,
    ) -> Result<LeafBound, NoMemory>
        requires tables { AreTables self.now.setting.problem tables.now }
        requires kind { HasKind tables.now kind }
        ensures exact { IfOk result (IsLeafBound self.now tables.now kind forced) }
        ensures plans { IfOk result (BoundsLeafPlans self.now) }
        ensures small { IfOk result (IsSmallBound self.now.setting.problem) }
    {
        self.bound_with(alloc, tables, kind, forced, &mut Vec::new(alloc))
    }

    /// The same with costs that are known from earlier leaves over the same network under the same
    /// prices: a shipment whose row is the same as there isn't searched for again.
    pub(crate) fn bound_with(
        &self,
        alloc: Global,
        tables: &[Table],
        kind: Kind,
        forced: bool,
        known: &mut Vec<KnownCost>,
    ) -> Result<LeafBound, NoMemory>
        requires tables { AreTables self.now.setting.problem tables.now }
        requires kind { HasKind tables.now kind }
        requires known { AreKnownCosts self.now.setting.problem self.now.setting.network tables.now
            kind forced known.old.items }
        ensures exact { IfOk result (IsLeafBound self.now tables.now kind forced) }
        ensures plans { IfOk result (BoundsLeafPlans self.now) }
        ensures small { IfOk result (IsSmallBound self.now.setting.problem) }
        ensures known { IfOk result (λ _. IsSharedKind kind → forced ≡ false →
            AreKnownCosts self.now.setting.problem self.now.setting.network tables.now kind forced
            known.new.items) }
    {
        let priced = self.pricing(alloc, tables, kind, forced)?;
        let pricing = &priced.pricing;
        let base = bases(pricing.instance, pricing.network, &pricing.forced);
        let over = PricedGraph {
            pricing,
            graph: self.round.point_graph(),
        };
        value_over(alloc, &over, &self.rows, base, known)
    }

    /// For each shipment a walk of least cost under prices of a kind, as [`bound`](Leaf::bound)
    /// takes them: an allowed timed walk that repeats no timed node. `None` exactly where the leaf
    /// is empty. `NoMemory` only where no memory is found. One search over the points for each
    /// shipment.
    pub fn walks(
        &self,
        alloc: Global,
        tables: &[Table],
        kind: Kind,
        forced: bool,
    ) -> Result<Option<Vec<TimedWalk>>, NoMemory>
        requires tables { AreTables self.now.setting.problem tables.now }
        requires kind { HasKind tables.now kind }
        ensures none { IfOk result (λ found. IfNone found (IsEmptyLeaf self.now)) }
        ensures walks { IfOk result (λ found. IfSome found (λ walks. AreLeafWalks self.now tables.now kind forced walks.items)) }
    {
        self.walks_preferring(alloc, tables, kind, forced, &[])
    }

    /// The same with walks that are preferred, shipment by shipment: such a walk is taken where it
    /// is an allowed timed walk of least cost that repeats no timed node. Any list may be handed
    /// in, shorter or longer than that of the shipments, of any classes; a walk that isn't so is left
    /// aside. The test of a walk takes time that grows with its length, and with the square of the
    /// length up to the first timed node that it repeats.
    pub fn walks_preferring(
        &self,
        alloc: Global,
        tables: &[Table],
        kind: Kind,
        forced: bool,
        preferred: &[TimedWalk],
    ) -> Result<Option<Vec<TimedWalk>>, NoMemory>
        requires tables { AreTables self.now.setting.problem tables.now }
        requires kind { HasKind tables.now kind }
        ensures none { IfOk result (λ found. IfNone found (IsEmptyLeaf self.now)) }
        ensures walks { IfOk result (λ found. IfSome found (λ walks. AreLeafWalks self.now tables.now kind forced walks.items)) }
        ensures preferred { IfOk result (λ found. IfSome found (λ walks.
            HasLeafPreferred self.now tables.now kind forced preferred.now walks.items)) }
    {
        let priced = self.pricing(alloc, tables, kind, forced)?;
        let over = PricedGraph {
            pricing: &priced.pricing,
            graph: self.round.point_graph(),
        };
        walks_over(alloc, &over, &self.rows, preferred)
    }

    /// What the classes cost each shipment at the leaf under prices of a kind, as
    /// [`bound`](Leaf::bound) takes them. `NoMemory` only where no memory is found.
    pub fn pricing<'b>(
        &'b self,
        alloc: Global,
        tables: &'b [Table],
        kind: Kind,
        forced: bool,
    ) -> Result<LeafPricing<'b>, NoMemory>
        requires tables { AreTables self.now.setting.problem tables.now }
        requires kind { HasKind tables.now kind }
        ensures is { IfOk result (λ pricing. pricing
            ≡ record { leaf = self.now; tables = tables.now; kind = kind; forced = forced }) }
        ensures chains { IfOk result (λ _. (chains : List (List Leg)) × AreChainsOf self.now forced chains) }
    {
        let instance = self.round.instance();
        let network = self.round.network();
        let classes = network.classes();
        let paid = forced_classes(
            alloc,
            instance,
            &self.allowed(),
            classes,
            &self.rows,
            forced,
        )?;
        let pricing = class_pricing(
            alloc,
            instance,
            network,
            self.round.rates(),
            tables,
            kind,
            &self.rows,
            paid,
        )?;
        Ok(LeafPricing {
            leaf: self,
            tables,
            kind,
            is_forced: forced,
            pricing,
        })
    }
}
