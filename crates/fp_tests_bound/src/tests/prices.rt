//! What leaves are worth: by each kind of prices, in both modes, with a table, and under sides.

ghost use Rattle.std.specs.Prelude.{◌≡◌, ◌<◌, ◌≤◌, [], ◌∷◌, All, IfOk, length};
ghost use Rattle.fp_prices.specs.Tables.{AreCountable, HasKind, IsAscendingTable};

use fp_flatnet::{Windows, initial};
use fp_longestarcs::{Stop, TimedWalk};
use fp_model::Instance;
use fp_prices::{
    Kind, Leaf, LeafBound, LeafPrice, NoMemory, RoundNetwork, Share, Table, TableFault, Weight,
    bound, check_tables,
};
use fp_tests_examples::{DETOUR, LINE, PAIR, instance_of};
use fp_tree::Side;
use std::alloc::Global;
use std::test::Fail;

// What a leaf is worth with the initial points, by a kind without a table.
fn initial_bound(
    alloc: Global,
    instance: &Instance,
    sides: &[Side],
    kind: Kind,
    forced: bool,
) -> Result<LeafBound, NoMemory>
    requires kind { HasKind [] kind }
    requires few { length instance.now.terminals ≤ 100 }
{
    let windows = Windows::of(alloc, instance)?;
    let points = initial(alloc, instance, &windows)?;
    let price = LeafPrice {
        kind,
        round: 0,
        forced,
    };
    bound(alloc, instance, &windows, &points, &[], sides, price)
}

// A share by which one shipment pays so much for a class, and no other shipment pays.
fn one_pays(alloc: Global, arc: u32, point: u32, shipment: u32, w: u128) -> Result<Share, NoMemory>
    ensures { IfOk result (λ share. share ≡ record { arc = arc; point = point; v = 0; weights = record { shipment = shipment; w = w } ∷ [] }) }
{
    Ok(Share {
        arc,
        point,
        v: 0,
        weights: vec![in alloc; Weight { shipment, w }]?,
    })
}

// A table for the line: over the first arc the first shipment pays so much, over the second each
// pays a truck alone.
fn line_table(alloc: Global, first: u128) -> Result<Table, NoMemory>
    ensures { IfOk result (λ table. table ≡
        (record { arc = 0; point = 0; v = 0; weights = record { shipment = 0; w = first } ∷ [] })
        ∷ (record { arc = 1; point = 0; v = 0; weights = record { shipment = 1; w = 100000000 } ∷ [] })
        ∷ (record { arc = 1; point = 4; v = 0; weights = record { shipment = 0; w = 100000000 } ∷ [] }) ∷ []) }
{
    let shares = vec![in alloc;
        one_pays(alloc, 0, 0, 0, first)?,
        one_pays(alloc, 1, 0, 1, 100_000_000)?,
        one_pays(alloc, 1, 4, 0, 100_000_000)?,
    ]?;
    Ok(Table { shares })
}

#[test]
fn leaves_without_tables(rt: HostRuntime) -> Result<(), Fail> {
    let alloc = rt.alloc();
    let barred = [Side::Without {
        shipment: 0,
        arc: 0,
    }];
    for (text, sides, kind, forced, value) in [
        (LINE, [].as_slice(), Kind::Linear, false, Some(120)),
        (LINE, &[], Kind::Linear, true, Some(200)),
        (LINE, &[], Kind::Even, false, Some(200)),
        (LINE, &[], Kind::Even, true, Some(200)),
        (LINE, &barred, Kind::Linear, false, None),
        (DETOUR, &[], Kind::Linear, false, Some(40)),
        (DETOUR, &[], Kind::Even, false, Some(100)),
        (DETOUR, &barred, Kind::Linear, false, Some(48)),
        (DETOUR, &barred, Kind::Linear, true, Some(120)),
        // S2 pays the truck at 3, and S1 waits for it.
        (PAIR, &[], Kind::Linear, false, Some(99)),
        (PAIR, &[], Kind::Linear, true, Some(109)),
        (PAIR, &[], Kind::Even, false, Some(109)),
    ] {
        assert!(rt; text.len() < 2000);
        let instance = instance_of(alloc, text)?;
        assert!(rt; instance.terminals().len() <= 100);
        let want = match value {
            Some(units) => LeafBound::Value {
                value: 1_000_000 * units,
            },
            None => LeafBound::Empty { shipment: 0 },
        };
        let is = initial_bound(alloc, &instance, sides, kind, forced)?;
        assert_eq!(rt; is, want, "by {kind:?}: {text}");
    }
    Ok(())
}

// What the classes of walks are: a shipment, an arc and a point each.
fn classes_of(alloc: Global, walks: &[TimedWalk]) -> Result<Vec<(usize, u32, u32)>, NoMemory> {
    let mut classes = Vec::new(alloc);
    for (shipment, walk) in walks.iter().enumerate() {
        for stop in &walk.stops {
            classes.push((shipment, stop.arc, stop.point))?;
        }
    }
    Ok(classes)
}

// A leaf with the initial points, made once: what it is worth by a kind without a table, and the
// classes of a cheapest walk of each shipment.
#[derive(Drop)]
struct PricedLeaf {
    bound: LeafBound,
    classes: Option<Vec<(usize, u32, u32)>>,
}

fn priced_leaf(
    alloc: Global,
    instance: &Instance,
    sides: &[Side],
    kind: Kind,
    forced: bool,
) -> Result<PricedLeaf, NoMemory>
    requires kind { HasKind [] kind }
    requires few { length instance.now.terminals ≤ 100 }
{
    let windows = Windows::of(alloc, instance)?;
    let points = initial(alloc, instance, &windows)?;
    let round = RoundNetwork::of(alloc, instance, &points, 0)?;
    let leaf = Leaf::of(alloc, &round, &windows, sides)?;
    let bound = leaf.bound(alloc, &[], kind, forced)?;
    let classes = match leaf.walks(alloc, &[], kind, forced)? {
        Some(walks) => Some(classes_of(alloc, &walks)?),
        None => None,
    };
    Ok(PricedLeaf { bound, classes })
}

#[test]
fn cheapest_walks(rt: HostRuntime) -> Result<(), Fail> {
    let alloc = rt.alloc();
    let barred = [Side::Without {
        shipment: 0,
        arc: 0,
    }];
    for (text, sides, kind, forced, value, classes) in [
        (
            LINE,
            [].as_slice(),
            Kind::Linear,
            true,
            200_000_000,
            [(0, 0, 0), (0, 1, 0), (1, 1, 0)].as_slice(),
        ),
        (DETOUR, &[], Kind::Even, false, 100_000_000, &[(0, 0, 0)]),
        (
            DETOUR,
            &barred,
            Kind::Linear,
            false,
            48_000_000,
            &[(0, 1, 0), (0, 2, 0)],
        ),
        // S2 pays the truck at 3, and S1 waits for it.
        (
            PAIR,
            &[],
            Kind::Linear,
            true,
            109_000_000,
            &[(0, 0, 3), (1, 0, 3)],
        ),
    ] {
        assert!(rt; text.len() < 2000);
        let instance = instance_of(alloc, text)?;
        assert!(rt; instance.terminals().len() <= 100);
        let leaf = priced_leaf(alloc, &instance, sides, kind, forced)?;
        assert_eq!(rt;
            leaf.bound,
            LeafBound::Value { value },
            "by {kind:?}: {text}"
        );
        let found = leaf.classes.as_ref().map(|found| found.as_slice());
        assert!(rt; found == Some(classes), "by {kind:?}: {text}");
    }
    let instance = instance_of(alloc, LINE)?;
    assert!(rt; instance.terminals().len() <= 100);
    let empty = priced_leaf(alloc, &instance, &barred, Kind::Linear, false)?;
    assert!(rt; empty.classes.is_none());
    Ok(())
}

// The first class of the first shipment's walk by linear prices with the initial points, where it
// prefers to go by one class, as an arc and a point.
fn first_class(
    alloc: Global,
    instance: &Instance,
    preferred: Stop,
) -> Result<Option<Stop>, NoMemory>
    requires few { length instance.now.terminals ≤ 100 }
{
    let windows = Windows::of(alloc, instance)?;
    let points = initial(alloc, instance, &windows)?;
    let round = RoundNetwork::of(alloc, instance, &points, 0)?;
    let leaf = Leaf::of(alloc, &round, &windows, &[])?;
    let preferred = [TimedWalk {
        stops: vec![in alloc; preferred]?,
    }];
    let found = leaf.walks_preferring(alloc, &[], Kind::Linear, false, &preferred)?;
    let Some(walks) = found else {
        return Ok(None);
    };
    let Some(walk) = walks.first() else {
        return Ok(None);
    };
    Ok(walk.stops.first().copied())
}

#[test]
fn preferred_walks(rt: HostRuntime) -> Result<(), Fail> {
    let alloc = rt.alloc();
    let instance = instance_of(alloc, PAIR)?;
    assert!(rt; instance.terminals().len() <= 100);
    // The first shipment may leave at both points, at the same cost.
    for point in [0, 3] {
        let preferred = Stop { arc: 0, point };
        assert!(rt; first_class(alloc, &instance, preferred)? == Some(preferred));
    }
    // No point of the terminal, and no arc.
    for preferred in [Stop { arc: 0, point: 2 }, Stop { arc: 9, point: 0 }] {
        let found = first_class(alloc, &instance, preferred)?;
        assert!(rt; found.is_some() && found != Some(preferred));
    }
    Ok(())
}

// What a class costs a shipment with the initial points by linear prices, where forced classes are
// paid whole, and for what load its trucks are paid.
fn class_price(
    alloc: Global,
    instance: &Instance,
    shipment: u32,
    class: u32,
) -> Result<(Option<u128>, Option<u128>), NoMemory>
    requires shipment { shipment < length instance.now.shipments }
    requires few { length instance.now.terminals ≤ 100 }
{
    let windows = Windows::of(alloc, instance)?;
    let points = initial(alloc, instance, &windows)?;
    let round = RoundNetwork::of(alloc, instance, &points, 0)?;
    let leaf = Leaf::of(alloc, &round, &windows, &[])?;
    let pricing = leaf.pricing(alloc, &[], Kind::Linear, true)?;
    if class >= round.network().classes() {
        return Ok((None, None));
    }
    Ok((pricing.price(shipment, class), pricing.forced_load(class)))
}

#[test]
fn prices_of_classes(rt: HostRuntime) -> Result<(), Fail> {
    let alloc = rt.alloc();
    let instance = instance_of(alloc, PAIR)?;
    assert!(rt; instance.terminals().len() <= 100);
    assert!(rt; instance.shipments().len() == 2);
    // The second shipment has to leave at 3, and pays nothing for it; neither does the first.
    for (shipment, class, price, load) in [
        (0, 0, Some(40_000_000), None),
        (0, 1, Some(0), Some(5)),
        (1, 0, None, None),
        (1, 1, Some(0), Some(5)),
    ] {
        let is = class_price(alloc, &instance, shipment, class)?;
        assert!(rt; is == (price, load), "{shipment} {class}");
    }
    Ok(())
}

// What a leaf of an instance with three terminals is worth by a table, as of a round, where a
// point stands at the second terminal at 4 from the first round on. `None` where the table breaks
// the price rule.
fn bound_by(
    alloc: Global,
    instance: &Instance,
    tables: &[Table],
    round: u32,
) -> Result<Option<LeafBound>, NoMemory>
    requires three { length instance.now.terminals ≡ 3 }
    requires countable { AreCountable instance.now tables.now }
    requires ascending { All IsAscendingTable tables.now }
    requires one { length tables.now ≡ 1 }
{
    if check_tables(instance, tables).is_err() {
        return Ok(None);
    }
    let windows = Windows::of(alloc, instance)?;
    let mut points = initial(alloc, instance, &windows)?;
    points.add(alloc, 1, 4, 1)?;
    let price = LeafPrice {
        kind: Kind::Table { id: 1 },
        round,
        forced: false,
    };
    Ok(Some(bound(alloc, instance, &windows, &points, tables, &[], price)?))
}

#[test]
fn leaves_with_a_table(rt: HostRuntime) -> Result<(), Fail> {
    let alloc = rt.alloc();
    let instance = instance_of(alloc, LINE)?;
    assert!(rt; instance.terminals().len() == 3 && instance.arcs().len() == 2);
    let tables = vec![in alloc; line_table(alloc, 100_000_000)?]?;
    for (round, value) in [(0, 200_000_000), (1, 300_000_000)] {
        let is = bound_by(alloc, &instance, &tables, round)?;
        assert_eq!(rt; is, Some(LeafBound::Value { value }), "as of round {round}");
    }
    Ok(())
}

#[test]
fn a_table_above_its_limit(rt: HostRuntime) -> Result<(), Fail> {
    let alloc = rt.alloc();
    let instance = instance_of(alloc, LINE)?;
    assert!(rt; instance.arcs().len() == 2);
    for first in [100_000_001, u128::MAX] {
        let tables = vec![in alloc; line_table(alloc, first)?]?;
        let fault = TableFault { table: 1, share: 0 };
        assert_eq!(rt; check_tables(&instance, &tables), Err(fault));
    }
    Ok(())
}
