//! The bounds of leaves one after another, with what those of one round share kept from leaf to
//! leaf.
ghost use Rattle.std.specs.Prelude.{◌≡◌, ◌+◌, ◌≤◌, ◌↔◌, IfOk, IsTrue, List, false, length};
ghost use Rattle.fp_timenodes.specs.Points.{points_at};
ghost use Rattle.fp_flatnet.specs.Belonging.{BelongsTo, FitsInstance};
ghost use Rattle.fp_flatnet.specs.Tables.{windows_in};
ghost use Rattle.fp_longestarcs.specs.Networks.{points_in};
ghost use Rattle.fp_prices.specs.KnownCosts.{AreKnownCosts, IsSharedKind};
ghost use Rattle.fp_prices.specs.Leaves.{BoundsPlans, IsBoundOf, IsSmallBound};
ghost use Rattle.fp_prices.specs.RoundBounds.{AreRoundBounds};
ghost use Rattle.fp_prices.specs.Shares.{ClassShare};
ghost use Rattle.fp_prices.specs.Tables.{AreTables, HasKind};

use crate::NoMemory;
use crate::leaf_prices::{Kind, LeafPrice};
use crate::tables::Table;
use crate::values::bounds::LeafBound;
use crate::values::known_costs::KnownCost;
use crate::values::leaves::Leaf;
use crate::values::rounds::RoundNetwork;
use fp_flatnet::Windows;
use fp_model::Instance;
use fp_timenodes::{MOST_POINTS, Points};
use fp_tree::Side;
use std::alloc::Global;

// Whether a leaf priced so is plain, and its prices don't depend on who else may use a class.
fn is_shared(price: LeafPrice) -> bool
    ensures { IsTrue result → (IsSharedKind price.kind × (price.forced ≡ false)) }
{
    match price.kind {
        Kind::Linear | Kind::Table { .. } => !price.forced,
        Kind::Even => false,
    }
}

// The bound of a leaf over a network, with costs that are known at its plain leaves by the kind.
fn bound_over(
    alloc: Global,
    network: &RoundNetwork,
    known: &mut Vec<KnownCost>,
    windows: &Windows,
    tables: &[Table],
    sides: &[Side],
    price: LeafPrice,
) -> Result<LeafBound, NoMemory>
    requires fits { FitsInstance network.now.problem windows.now }
    requires tables { AreTables network.now.problem tables.now }
    requires kind { HasKind tables.now price.kind }
    requires known { AreKnownCosts network.now.problem network.now.network tables.now price.kind false known.old.items }
    ensures exact { IfOk result (IsBoundOf network.now.problem (windows_in windows.now) (points_in network.now.network) sides.now tables.now price.kind price.forced) }
    ensures plans { IfOk result (BoundsPlans network.now.problem (windows_in windows.now) sides.now) }
    ensures small { IfOk result (IsSmallBound network.now.problem) }
    ensures known { IfOk result (λ _. AreKnownCosts network.now.problem network.now.network tables.now price.kind false known.new.items) }
{
    let leaf = Leaf::of(alloc, network, windows, sides)?;
    if is_shared(price) {
        leaf.bound_with(alloc, tables, price.kind, false, known)
    } else {
        leaf.bound(alloc, tables, price.kind, price.forced)
    }
}

/// The network of the last leaf's round, and the least costs of shipments that were found under its
/// kind of prices. A leaf of the same round takes the network as it is, and one of the same kind
/// whose row for a shipment is the same as at an earlier leaf takes that shipment's cost.
#[derive(Drop)]
pub struct RoundBounds<'a> {
    round: u32,
    kind: Kind,
    network: RoundNetwork<'a>,
    known: Vec<KnownCost>,
}

impl<'a> RoundBounds<'a> {
    /// The network as of a round, which may be any number, and no costs yet. The points have the
    /// instance's number of terminals; the terminals, the first points and the added points are
    /// together at most [`MOST_POINTS`]. `NoMemory` only where no memory is found.
    pub fn of(
        alloc: Global,
        instance: &'a Instance,
        points: &Points,
        round: u32,
        kind: Kind,
    ) -> Result<RoundBounds<'a>, NoMemory>
        requires terminals { points.now.terminals ≡ length instance.now.terminals }
        requires few { points.now.terminals + length points.now.first + length points.now.added ≤ MOST_POINTS }
        ensures holds { (tables : List (List ClassShare)) → IfOk result (AreRoundBounds instance.now points.now tables) }
        ensures round { IfOk result (λ bounds. bounds.round ≡ round) }
        ensures kind { IfOk result (λ bounds. bounds.kind ≡ kind) }
    {
        let network = RoundNetwork::of(alloc, instance, points, round)?;
        Ok(RoundBounds {
            round,
            kind,
            network,
            known: Vec::new(alloc),
        })
    }

    // The same for leaves of a round and a kind: what isn't of these is let go.
    fn turned(
        self,
        alloc: Global,
        instance: &'a Instance,
        points: &Points,
        price: LeafPrice,
    ) -> Result<RoundBounds<'a>, NoMemory>
        requires terminals { points.now.terminals ≡ length instance.now.terminals }
        requires few { points.now.terminals + length points.now.first + length points.now.added ≤ MOST_POINTS }
        ensures holds { (tables : List (List ClassShare)) → AreRoundBounds instance.now points.now tables self.entry →
            IfOk result (AreRoundBounds instance.now points.now tables) }
        ensures round { IfOk result (λ bounds. bounds.round ≡ price.round) }
        ensures kind { IfOk result (λ bounds. bounds.kind ≡ price.kind) }
    {
        if self.round != price.round {
            return RoundBounds::of(alloc, instance, points, price.round, price.kind);
        }
        if self.kind == price.kind {
            return Ok(self);
        }
        Ok(RoundBounds {
            kind: price.kind,
            known: Vec::new(alloc),
            ..self
        })
    }

    /// The bound of a leaf under sides, as [`bound`](crate::bound) finds it, on the same
    /// conditions. `NoMemory` only where no memory is found; then these bounds are of no more use.
    pub fn bound(
        self,
        alloc: Global,
        instance: &'a Instance,
        windows: &Windows,
        points: &Points,
        tables: &[Table],
        sides: &[Side],
        price: LeafPrice,
    ) -> Result<(LeafBound, RoundBounds<'a>), NoMemory>
        requires belongs { BelongsTo instance.now windows.now }
        requires terminals { points.now.terminals ≡ length instance.now.terminals }
        requires few { points.now.terminals + length points.now.first + length points.now.added ≤ MOST_POINTS }
        requires tables { AreTables instance.now tables.now }
        requires kind { HasKind tables.now price.kind }
        requires holds { AreRoundBounds instance.now points.now tables.now self }
        ensures exact { IfOk result (λ found. IsBoundOf instance.now (windows_in windows.now) (λ terminal. points_at points.now terminal price.round) sides.now tables.now price.kind price.forced found.0) }
        ensures plans { IfOk result (λ found. BoundsPlans instance.now (windows_in windows.now) sides.now found.0) }
        ensures small { IfOk result (λ found. IsSmallBound instance.now found.0) }
        ensures holds { IfOk result (λ found. AreRoundBounds instance.now points.now tables.now found.1) }
    {
        let bounds = self.turned(alloc, instance, points, price)?;
        let RoundBounds {
            round,
            kind,
            network,
            mut known,
        } = bounds;
        let bound = bound_over(alloc, &network, &mut known, windows, tables, sides, price)?;
        let bounds = RoundBounds {
            round,
            kind,
            network,
            known,
        };
        Ok((bound, bounds))
    }
}
