//! What leaves are worth under prices by spans, and which spans are refused.

ghost use Rattle.std.specs.Prelude.{[], ◌≡◌, ◌-◌, ◌<◌, ◌≤◌, ◌^◌, ◌∷◌, All, IfOk, length};
ghost use Rattle.fp_flatnet.specs.Belonging.{FitsInstance};
ghost use Rattle.fp_prices_spans.specs.SpanLists.{IsSpanOf};

use fp_flatnet::{Windows, initial};
use fp_model::Instance;
use fp_prices::{Kind, Leaf, LeafBound, NoMemory, RoundNetwork, Weight};
use fp_prices_spans::{MOST_SPAN_WEIGHT, Span, SpanFault, check_charges, check_spans, span_bound};
use fp_tests_examples::{SLOW_WAY, TRIO, instance_of};
use fp_tree::Side;
use std::alloc::Global;
use std::test::Fail;

// An arc of truck cost 60 with trucks of 10, and two shipments of 5, which share one.
const ROAD: &str =
    "terminal,A\nterminal,B\narc,A,B,5,10,60,0\nshipment,S1,A,B,5,0,6\nshipment,S2,A,B,5,0,6\n";

// The same arc, and two shipments of 5 that never leave together: from 0 to 4, and from 6 to 9.
const APART: &str =
    "terminal,A\nterminal,B\narc,A,B,5,10,60,0\nshipment,S1,A,B,5,0,9\nshipment,S2,A,B,5,6,14\n";

// The weights by which the first two shipments pay so much each.
fn two_pay(alloc: Global, w: u128) -> Result<Vec<Weight>, NoMemory>
    ensures { IfOk result (λ weights. weights.items
        ≡ (record { shipment = 0; w = w }) ∷ (record { shipment = 1; w = w }) ∷ []) }
{
    let weights = vec![in alloc; Weight { shipment: 0, w }, Weight { shipment: 1, w }]?;
    Ok(weights)
}

// The weights by which the first three shipments pay so much each.
fn three_pay(alloc: Global, w: u128) -> Result<Vec<Weight>, NoMemory>
    ensures { IfOk result (λ weights. weights.items
        ≡ (record { shipment = 0; w = w }) ∷ (record { shipment = 1; w = w }) ∷ (record { shipment = 2; w = w }) ∷ []) }
{
    let weights = vec![in alloc;
        Weight { shipment: 0, w },
        Weight { shipment: 1, w },
        Weight { shipment: 2, w },
    ]?;
    Ok(weights)
}

// A span of all classes of an arc with this money, and with one group of departures.
fn whole_span(arc: u32, money: u128, charge: u128, weights: Vec<Weight>) -> Span
    ensures { result
        ≡ record {
          arc = arc;
          point = 0;
          until = 100;
          money = money;
          charge = charge;
          weights = weights.items;
          groups = [];
        } }
{
    let groups = Vec::new(*weights.allocator());
    Span {
        arc,
        point: 0,
        until: 100,
        money,
        charge,
        weights,
        groups,
    }
}

// The same span with a further group, which begins at a moment.
fn grouped_span(
    alloc: Global,
    arc: u32,
    money: u128,
    weights: Vec<Weight>,
    moment: u32,
) -> Result<Span, NoMemory>
    ensures { IfOk result (λ span. span
        ≡ record {
          arc = arc;
          point = 0;
          until = 100;
          money = money;
          charge = 0;
          weights = weights.items;
          groups = moment ∷ [];
        }) }
{
    let groups = vec![in alloc; moment]?;
    Ok(Span {
        arc,
        point: 0,
        until: 100,
        money,
        charge: 0,
        weights,
        groups,
    })
}

// A span of the classes of the last arc from one point up to and without another, with the money of
// its truck, and for all of which one shipment pays that truck.
fn one_pays(alloc: Global, point: u32, until: u32, shipment: u32) -> Result<Span, NoMemory>
    ensures { IfOk result (λ span. span
        ≡ record {
          arc = 3;
          point = point;
          until = until;
          money = 60000000;
          charge = 0;
          weights = (record { shipment = shipment; w = 60000000 }) ∷ [];
          groups = [];
        }) }
{
    let weights = vec![in alloc;
        Weight {
            shipment,
            w: 60_000_000
        },
    ]?;
    Ok(Span {
        arc: 3,
        point,
        until,
        money: 60_000_000,
        charge: 0,
        weights,
        groups: Vec::new(alloc),
    })
}

// What a leaf of a round is worth by spans, and by linear prices where none holds. `None` where the
// spans are refused.
fn leaf_bound(
    alloc: Global,
    round: &RoundNetwork,
    windows: &Windows,
    spans: &[Span],
    sides: &[Side],
    forced: bool,
) -> Result<Option<LeafBound>, NoMemory>
    requires fits { FitsInstance round.now.problem windows.now }
    requires exist { All (IsSpanOf round.now.problem) spans.now }
    requires few { length spans.now < 2 ^ 32 - 1 }
{
    match check_spans(alloc, round.instance(), spans)? {
        Some(_) => Ok(None),
        None => {
            let leaf = Leaf::of(alloc, round, windows, sides)?;
            let bound = span_bound(alloc, &leaf, &[], spans, Kind::Linear, forced)?;
            Ok(Some(bound))
        }
    }
}

// What a leaf with the initial points is worth by spans, and by linear prices where none holds.
// `None` where the spans are refused or a charge doesn't pay.
fn spanned_bound(
    alloc: Global,
    instance: &Instance,
    spans: &[Span],
    sides: &[Side],
    forced: bool,
) -> Result<Option<LeafBound>, NoMemory>
    requires terminals { length instance.now.terminals ≤ 100 }
    requires exist { All (IsSpanOf instance.now) spans.now }
    requires few { length spans.now < 2 ^ 32 - 1 }
{
    let windows = Windows::of(alloc, instance)?;
    let points = initial(alloc, instance, &windows)?;
    if check_charges(alloc, instance, &windows, &points, spans)?.is_some() {
        return Ok(None);
    }
    let round = RoundNetwork::of(alloc, instance, &points, 0)?;
    leaf_bound(alloc, &round, &windows, spans, sides, forced)
}

// The same with one more point of the third terminal, plain.
fn pointed_bound(
    alloc: Global,
    instance: &Instance,
    at: u32,
    spans: &[Span],
    sides: &[Side],
) -> Result<Option<LeafBound>, NoMemory>
    requires third { 2 < length instance.now.terminals }
    requires terminals { length instance.now.terminals ≤ 100 }
    requires at { at ≤ 100 }
    requires exist { All (IsSpanOf instance.now) spans.now }
    requires few { length spans.now < 2 ^ 32 - 1 }
{
    let windows = Windows::of(alloc, instance)?;
    let mut points = initial(alloc, instance, &windows)?;
    points.add(alloc, 2, at, 1)?;
    if check_charges(alloc, instance, &windows, &points, spans)?.is_some() {
        return Ok(None);
    }
    let round = RoundNetwork::of(alloc, instance, &points, 1)?;
    leaf_bound(alloc, &round, &windows, spans, sides, false)
}

#[test]
fn three_ways(rt: HostRuntime) -> Result<(), Fail> {
    let alloc = rt.alloc();
    let instance = instance_of(alloc, TRIO)?;
    assert!(rt; instance.terminals().len() <= 100);
    assert!(rt; instance.arcs().len() == 3);
    assert!(rt; instance.shipments().len() == 3);
    let spans = vec![in alloc;
        whole_span(0, 60_000_000, 0, three_pay(alloc, 60_000_000)?),
        whole_span(1, 30_000_000, 0, three_pay(alloc, 30_000_000)?),
        whole_span(2, 30_000_000, 0, three_pay(alloc, 30_000_000)?),
    ]?;
    // Each shipment pays a truck of its own, whichever way it goes.
    let is = spanned_bound(alloc, &instance, &spans, &[], false)?;
    assert_eq!(rt; is, Some(LeafBound::Value { value: 180_000_000 }));
    // Without spans it pays five sixths.
    let linear = spanned_bound(alloc, &instance, &[], &[], false)?;
    assert_eq!(rt; linear, Some(LeafBound::Value { value: 150_000_000 }));
    // By the straight arc alone the way round stays at linear prices.
    let one = spanned_bound(alloc, &instance, &spans[..1], &[], false)?;
    assert_eq!(rt; one, Some(LeafBound::Value { value: 150_000_000 }));
    let barred = [
        Side::Without {
            shipment: 1,
            arc: 0,
        },
        Side::Without {
            shipment: 1,
            arc: 1,
        },
    ];
    let empty = spanned_bound(alloc, &instance, &spans, &barred, false)?;
    assert_eq!(rt; empty, Some(LeafBound::Empty { shipment: 1 }));
    Ok(())
}

#[test]
fn charged_once(rt: HostRuntime) -> Result<(), Fail> {
    let alloc = rt.alloc();
    assert!(rt; ROAD.len() < 2000);
    let instance = instance_of(alloc, ROAD)?;
    assert!(rt; instance.terminals().len() <= 100);
    assert!(rt; instance.arcs().len() == 1);
    assert!(rt; instance.shipments().len() == 2);
    // Both pay a truck, and the charge is the one that they don't need.
    let charged = vec![in alloc;
        whole_span(0, 60_000_000, 60_000_000, two_pay(alloc, 60_000_000)?),
    ]?;
    let is = spanned_bound(alloc, &instance, &charged, &[], false)?;
    assert_eq!(rt; is, Some(LeafBound::Value { value: 60_000_000 }));
    // Where their one class is forced, it is paid whole, and nothing is taken off.
    let forced = spanned_bound(alloc, &instance, &charged, &[], true)?;
    assert_eq!(rt; forced, Some(LeafBound::Value { value: 60_000_000 }));
    // A charge that doesn't pay is refused.
    let less = vec![in alloc; whole_span(0, 60_000_000, 59_999_999, two_pay(alloc, 60_000_000)?)]?;
    assert_eq!(rt; spanned_bound(alloc, &instance, &less, &[], false)?, None);
    Ok(())
}

#[test]
fn groups_of_departures(rt: HostRuntime) -> Result<(), Fail> {
    let alloc = rt.alloc();
    assert!(rt; APART.len() < 2000);
    let instance = instance_of(alloc, APART)?;
    assert!(rt; instance.terminals().len() <= 100);
    assert!(rt; instance.arcs().len() == 1);
    assert!(rt; instance.shipments().len() == 2);
    // Each needs a truck of its own, which two groups show without a charge.
    let groups = vec![in alloc;
        grouped_span(alloc, 0, 60_000_000, two_pay(alloc, 60_000_000)?, 5)?,
    ]?;
    let is = spanned_bound(alloc, &instance, &groups, &[], false)?;
    assert_eq!(rt; is, Some(LeafBound::Value { value: 120_000_000 }));
    // Where both can leave in the first group, it has to pay for both.
    let late = vec![in alloc; grouped_span(alloc, 0, 60_000_000, two_pay(alloc, 60_000_000)?, 7)?]?;
    assert_eq!(rt; spanned_bound(alloc, &instance, &late, &[], false)?, None);
    let one = vec![in alloc; whole_span(0, 60_000_000, 0, two_pay(alloc, 60_000_000)?)]?;
    assert_eq!(rt; spanned_bound(alloc, &instance, &one, &[], false)?, None);
    // No group begins where the span begins, or after it.
    let first = vec![in alloc;
        grouped_span(alloc, 0, 60_000_000, two_pay(alloc, 60_000_000)?, 0)?,
    ]?;
    assert_eq!(rt;
        check_spans(alloc, &instance, &first)?,
        Some(SpanFault::Order)
    );
    let after = vec![in alloc;
        grouped_span(alloc, 0, 60_000_000, two_pay(alloc, 60_000_000)?, 100)?,
    ]?;
    assert_eq!(rt;
        check_spans(alloc, &instance, &after)?,
        Some(SpanFault::Order)
    );
    Ok(())
}

// S1 comes to C by B at 20, and so it pays the truck of the span from the point on, where S2 pays
// that of the span before it. With the point 21 its head is 10 and it goes free.
#[test]
fn later_heads(rt: HostRuntime) -> Result<(), Fail> {
    let alloc = rt.alloc();
    let instance = instance_of(alloc, SLOW_WAY)?;
    assert!(rt; instance.terminals().len() == 4);
    assert!(rt; instance.arcs().len() == 4);
    assert!(rt; instance.shipments().len() == 2);
    for (at, units) in [(16, 122), (20, 122), (21, 62)] {
        let spans = vec![in alloc;
            one_pays(alloc, 10, at, 1)?,
            one_pays(alloc, at, 100_001, 0)?,
        ]?;
        let want = LeafBound::Value {
            value: 1_000_000 * units,
        };
        let is = pointed_bound(alloc, &instance, at, &spans, &[])?;
        assert_eq!(rt; is, Some(want), "with the point {at}");
        let linear = pointed_bound(alloc, &instance, at, &[], &[])?;
        assert_eq!(rt; linear, Some(LeafBound::Value { value: 62_000_000 }));
    }
    Ok(())
}

// Where S1 may go by B alone and leaves C before 16, it has timed walks and none by later heads.
#[test]
fn empty_by_later_heads(rt: HostRuntime) -> Result<(), Fail> {
    let alloc = rt.alloc();
    let instance = instance_of(alloc, SLOW_WAY)?;
    assert!(rt; instance.terminals().len() == 4);
    assert!(rt; instance.arcs().len() == 4);
    assert!(rt; instance.shipments().len() == 2);
    let spans = vec![in alloc;
        one_pays(alloc, 10, 16, 1)?,
        one_pays(alloc, 16, 100_001, 0)?,
    ]?;
    let sides = [
        Side::Without {
            shipment: 0,
            arc: 0,
        },
        Side::Before {
            shipment: 0,
            terminal: 2,
            at: 16,
        },
    ];
    let empty = pointed_bound(alloc, &instance, 16, &spans, &sides)?;
    assert_eq!(rt; empty, Some(LeafBound::Empty { shipment: 0 }));
    let linear = pointed_bound(alloc, &instance, 16, &[], &sides)?;
    assert_eq!(rt; linear, Some(LeafBound::Value { value: 62_000_000 }));
    Ok(())
}

#[test]
fn refused_spans(rt: HostRuntime) -> Result<(), Fail> {
    let alloc = rt.alloc();
    assert!(rt; ROAD.len() < 2000);
    let instance = instance_of(alloc, ROAD)?;
    assert!(rt; instance.arcs().len() == 1);
    let half = MOST_SPAN_WEIGHT / 2;
    let twice = vec![in alloc;
        whole_span(0, 1, 0, two_pay(alloc, 1)?),
        whole_span(0, 1, 0, two_pay(alloc, 1)?),
    ]?;
    assert_eq!(rt;
        check_spans(alloc, &instance, &twice)?,
        Some(SpanFault::Order)
    );
    let heavy = vec![in alloc; whole_span(0, half, 0, two_pay(alloc, half)?)]?;
    assert_eq!(rt;
        check_spans(alloc, &instance, &heavy)?,
        Some(SpanFault::Weights)
    );
    let dear = vec![in alloc; whole_span(0, half - 1, 0, two_pay(alloc, half - 1)?)]?;
    assert_eq!(rt;
        check_spans(alloc, &instance, &dear)?,
        Some(SpanFault::Money(0))
    );
    Ok(())
}
