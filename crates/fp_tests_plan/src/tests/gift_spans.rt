//! Spans and gifts that are sought at leaves with sides by trucks: what the leaves are worth by them.

ghost use Rattle.std.specs.Prelude.{◌-◌, ◌<◌, ◌≡◌, ◌≤◌, ◌^◌, true, All, IfOk, length};
ghost use Rattle.std.specs.Bool.{OnTrue};
ghost use Rattle.fp_prices.specs.declared.tables.Weight.{Weight as WeightParts};
ghost use Rattle.fp_prices_gifts.specs.declared.gifts.Gift.{Gift as GiftParts};
ghost use Rattle.fp_prices_spans.specs.SpanLists.{AreSpans, IsSpanOf};

use fp_duals_clashes::ClashVotes;
use fp_duals_nets::LentNets;
use fp_duals_spans::{
    AveragedUses, NoMemory, Proposed, SpanEffort, StartPrices, TRUCK_PARTS, averaged_uses,
    proposed_spans,
};
use fp_ends::Resources;
use fp_flatnet::{Windows, initial};
use fp_model::Instance;
use fp_prices::{Kind, Leaf, LeafBound, RoundNetwork, Weight};
use fp_prices_gifts::{Gift, check_gifts, gift_bound};
use fp_prices_spans::{Span, SpanFault, check_spans};
use fp_tests_examples::instance_of;
use fp_tree::Side;
use std::alloc::Global;
use std::test::Fail;

// An arc of truck cost 60 with trucks of 10, and three shipments of 6: by their sizes they need two
// trucks, and no two of them go together.
const SIXES: &str =
    "terminal,A\nterminal,B\narc,A,B,5,10,60,0\nshipment,S1,A,B,6,0,9\nshipment,S2,A,B,6,0,9\nshipment,S3,A,B,6,0,9\n";

// Three shipments of 5 from A to B, of which two fill a truck, straight for 60 or over C for 100, and one
// that fills a truck to C. Each costs its size beside. All three go straight: 120, 100 and 25. Without a
// side they seem to share the second truck to C in halves.
const WAYS: &str =
    "terminal,A\nterminal,B\nterminal,C\narc,A,B,5,10,60,1\narc,A,C,2,10,100,1\narc,C,B,2,10,0,0\nshipment,S1,A,B,5,0,9\nshipment,S2,A,B,5,0,9\nshipment,S3,A,B,5,0,9\nshipment,S4,A,C,10,0,9\n";

// More than so many trucks by an arc before a time.
fn more_than(arc: u32, until: u32, trucks: u32) -> Side {
    Side::MoreThan {
        arc,
        point: 0,
        until,
        trucks,
    }
}

// At most so many trucks by an arc before a time.
fn at_most(arc: u32, until: u32, trucks: u32) -> Side {
    Side::AtMost {
        arc,
        point: 0,
        until,
        trucks,
    }
}

// Whether the shipments of weights exist.
fn weights_exist(instance: &Instance, weights: &[Weight]) -> bool
    ensures { OnTrue result (All (λ (w : WeightParts). w.shipment < length instance.now.shipments) weights.now) }
{
    let shipments = instance.shipments().len();
    weights
        .iter()
        .all(|weight| (weight.shipment as usize) < shipments)
}

// Whether a span is of an arc and of shipments that exist.
fn span_exists(instance: &Instance, span: &Span) -> bool
    ensures { OnTrue result (IsSpanOf instance.now span.now) }
{
    (span.arc as usize) < instance.arcs().len() && weights_exist(instance, &span.weights)
}

// Whether spans are of arcs and of shipments that exist.
fn spans_exist(instance: &Instance, spans: &[Span]) -> bool
    ensures { OnTrue result (All (IsSpanOf instance.now) spans.now) }
{
    spans.iter().all(|span| span_exists(instance, span))
}

// Whether gifts are of arcs that exist.
fn gifts_exist(instance: &Instance, gifts: &[Gift]) -> bool
    ensures { OnTrue result (All (λ (gift : GiftParts). gift.arc < length instance.now.arcs) gifts.now) }
{
    let arcs = instance.arcs().len();
    gifts.iter().all(|gift| (gift.arc as usize) < arcs)
}

// Whether leaves can be priced by spans: whether they keep each rule but the money rule.
fn can_price(alloc: Global, instance: &Instance, spans: &[Span]) -> Result<bool, NoMemory>
    requires exist { All (IsSpanOf instance.now) spans.now }
    requires few { length spans.now < 2 ^ 32 - 1 }
    ensures { IfOk result (λ can. can ≡ true → AreSpans instance.now spans.now) }
{
    match check_spans(alloc, instance, spans)? {
        None => Ok(true),
        Some(SpanFault::Money(_)) => Ok(true),
        Some(_) => Ok(false),
    }
}

// What a leaf is worth by what is proposed; `None` where that breaks a rule, or doesn't price the leaf.
fn worth(alloc: Global, leaf: &Leaf, proposed: &Proposed) -> Result<Option<u128>, NoMemory> {
    let instance = leaf.round().instance();
    let spans = &proposed.spans;
    let gifts = &proposed.gifts;
    if spans.len() >= u32::MAX as usize
        || !spans_exist(instance, spans)
        || !gifts_exist(instance, gifts)
        || !can_price(alloc, instance, spans)?
        || check_gifts(instance, spans, gifts).is_some()
    {
        return Ok(None);
    }
    match gift_bound(alloc, leaf, &[], spans, gifts, Kind::Linear, false)? {
        Some(LeafBound::Value { value }) => Ok(Some(value)),
        _ => Ok(None),
    }
}

// What is proposed for a leaf from what stands beside its table, and what it is worth by it.
fn sought(
    alloc: Global,
    instance: &Instance,
    sides: &[Side],
    from: &Proposed,
) -> Result<(Proposed, Option<u128>), NoMemory>
    requires terminals { length instance.now.terminals ≤ 100 }
{
    let windows = Windows::of(alloc, instance)?;
    let points = initial(alloc, instance, &windows)?;
    let round = RoundNetwork::of(alloc, instance, &points, 0)?;
    let leaf = Leaf::of(alloc, &round, &windows, sides)?;
    let mut votes = ClashVotes::of(alloc, instance)?;
    let mut nets = LentNets::new();
    let start = StartPrices {
        tables: &[],
        kind: Kind::Linear,
        forced: false,
        spans: &from.spans,
        gifts: &from.gifts,
    };
    let proposed = proposed_spans(
        &Resources::endless(alloc),
        &leaf,
        nets.within(alloc, &leaf)?,
        start,
        &SpanEffort::ROOT,
        &mut votes,
    )?;
    let value = worth(alloc, &leaf, &proposed)?;
    Ok((proposed, value))
}

// What averaged walks use at the root, from what stands beside its table.
fn used(alloc: Global, instance: &Instance, from: &Proposed) -> Result<AveragedUses, NoMemory>
    requires terminals { length instance.now.terminals ≤ 100 }
{
    let windows = Windows::of(alloc, instance)?;
    let points = initial(alloc, instance, &windows)?;
    let round = RoundNetwork::of(alloc, instance, &points, 0)?;
    let leaf = Leaf::of(alloc, &round, &windows, &[])?;
    let mut nets = LentNets::new();
    let start = StartPrices {
        tables: &[],
        kind: Kind::Linear,
        forced: false,
        spans: &from.spans,
        gifts: &from.gifts,
    };
    averaged_uses(
        &Resources::endless(alloc),
        &leaf,
        nets.within(alloc, &leaf)?,
        start,
        100,
    )
}

// Nothing, from which a first search starts.
fn nothing(alloc: Global) -> Proposed {
    Proposed {
        spans: Vec::new(alloc),
        gifts: Vec::new(alloc),
    }
}

// Where more than two trucks leave, all three are paid; nothing is lost where at most two do. Where by
// the arc to C at most one truck leaves, or more than one, each side costs at least what a plan does. So
// it is from the start and from the spans of the leaf without the side, and without one there are no
// gifts. The run of a side may end after all due times.
#[test]
fn spans_and_gifts(rt: HostRuntime) -> Result<(), Fail> {
    let alloc = rt.alloc();
    let none = nothing(alloc);
    for (text, sides, least, most) in [
        (SIXES, [].as_slice(), 120, 120),
        (SIXES, [more_than(0, 100_001, 2)].as_slice(), 180, 180),
        (SIXES, [more_than(0, 50, 2)].as_slice(), 180, 180),
        (SIXES, [at_most(0, 100_001, 2)].as_slice(), 120, 180),
        (SIXES, [at_most(0, 50, 2)].as_slice(), 120, 180),
        (WAYS, [].as_slice(), 234, 235),
        (WAYS, [at_most(1, 100_001, 1)].as_slice(), 245, 245),
        (WAYS, [more_than(1, 100_001, 1)].as_slice(), 245, 285),
    ] {
        assert!(rt; text.len() < 2000);
        let instance = instance_of(alloc, text)?;
        assert!(rt; instance.terminals().len() <= 100);
        let (free, _) = sought(alloc, &instance, &[], &none)?;
        assert!(rt; free.gifts.is_empty());
        for from in [&none, &free] {
            let (_, value) = sought(alloc, &instance, sides, from)?;
            let found = value.unwrap_or(0);
            assert!(rt;
                least * 1_000_000 <= found && found <= most * 1_000_000,
                "{found} {least}"
            );
        }
    }
    Ok(())
}

// Of the two trucks to C the second is shared by halves, so one and a half are paid for, and one of those
// that go straight. Arcs stand in order.
#[test]
fn trucks_by_halves(rt: HostRuntime) -> Result<(), Fail> {
    let alloc = rt.alloc();
    let instance = instance_of(alloc, WAYS)?;
    assert!(rt; instance.terminals().len() <= 100);
    let none = nothing(alloc);
    let (free, _) = sought(alloc, &instance, &[], &none)?;
    for from in [&none, &free] {
        let AveragedUses { trucks, ways } = used(alloc, &instance, from)?;
        assert!(rt; trucks.len() == 3 && ways.len() == 12);
        for ((arc, exact), paid) in [(0, TRUCK_PARTS), (1, 1_572_864)]
            .into_iter()
            .zip(trucks.iter())
        {
            assert!(rt; paid.arc == arc);
            assert!(rt;
                paid.trucks.abs_diff(exact) < TRUCK_PARTS / 4,
                "{} {}",
                arc,
                paid.trucks
            );
        }
    }
    Ok(())
}
