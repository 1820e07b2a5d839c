//! For how many trucks gifts are given at a leaf, what a leaf is worth with them, and which are refused.

ghost use Rattle.std.specs.Prelude.{[], ◌≡◌, ◌-◌, ◌<◌, ◌≤◌, ◌^◌, ◌∷◌, true, All, IfOk, length};
ghost use Rattle.fp_flatnet.specs.Belonging.{BelongsTo};
ghost use Rattle.fp_prices_spans.specs.SpanLists.{AreSpans, IsSpanOf};
ghost use Rattle.fp_prices_gifts.specs.Gifts.{AreGifts};

use fp_flatnet::{Windows, initial};
use fp_longestarcs::Network;
use fp_model::Instance;
use fp_prices::{Kind, Leaf, LeafBound, NoMemory, RoundNetwork, Weight};
use fp_prices_gifts::{
    Gift, GiftFault, MOST_GIFTS, check_gifts, gift_bound, gift_number, gift_value,
};
use fp_prices_spans::{Span, SpanFault, check_spans};
use fp_tests_examples::instance_of;
use fp_tree::Side;
use std::alloc::Global;
use std::test::Fail;

// An arc of truck cost 60 with trucks of 10, and three shipments of 6 that leave from 0 to 4.
pub(crate) const SIXES: &str =
    "terminal,A\nterminal,B\narc,A,B,5,10,60,0\nshipment,S1,A,B,6,0,9\nshipment,S2,A,B,6,0,9\nshipment,S3,A,B,6,0,9\n";

// What a truck costs, in parts of a unit of money.
const TRUCK: u128 = 60_000_000;

// A gift over the whole day.
fn gift_of(least: bool, amount: u128) -> Gift
    ensures { result ≡ record { arc = 0; point = 0; until = 100; least = least; amount = amount } }
{
    Gift {
        arc: 0,
        point: 0,
        until: 100,
        least,
        amount,
    }
}

// More than so many trucks over the whole day.
fn more_than(trucks: u32) -> Side {
    Side::MoreThan {
        arc: 0,
        point: 0,
        until: 100,
        trucks,
    }
}

// At most so many trucks over the whole day.
fn at_most(trucks: u32) -> Side {
    Side::AtMost {
        arc: 0,
        point: 0,
        until: 100,
        trucks,
    }
}

// A span of the arc's classes with this money, and without weights.
fn span_of(alloc: Global, money: u128) -> Span
    ensures { result ≡ record { arc = 0; point = 0; until = 100; money = money; charge = 0; weights = []; groups = [] } }
{
    Span {
        arc: 0,
        point: 0,
        until: 100,
        money,
        charge: 0,
        weights: Vec::new(alloc),
        groups: Vec::new(alloc),
    }
}

// The best number counts, and only of sides of exactly the gift's run and kind.
#[test]
fn numbers_of_gifts(rt: HostRuntime) -> Result<(), Fail> {
    let early = Side::MoreThan {
        arc: 0,
        point: 0,
        until: 50,
        trucks: 2,
    };
    let other = Side::MoreThan {
        arc: 1,
        point: 0,
        until: 100,
        trucks: 2,
    };
    for (sides, least, most) in [
        ([].as_slice(), None, None),
        ([more_than(2)].as_slice(), Some(3), None),
        ([at_most(2)].as_slice(), None, Some(2)),
        (
            [
                more_than(0),
                at_most(4),
                more_than(2),
                at_most(3),
                more_than(1),
            ]
            .as_slice(),
            Some(3),
            Some(3),
        ),
        ([early, other].as_slice(), None, None),
        ([more_than(u32::MAX)].as_slice(), Some(1 << 32), None),
    ] {
        assert_eq!(rt; gift_number(sides, gift_of(true, TRUCK)), least);
        assert_eq!(rt; gift_number(sides, gift_of(false, TRUCK)), most);
    }
    Ok(())
}

// Where at least three trucks leave, a gift of a truck's cost is worth three trucks; where at most one
// does, it costs one. A value isn't below 0. Without a side, or where the run doesn't end at points, the
// leaf isn't priced.
#[test]
fn values_with_gifts(rt: HostRuntime) -> Result<(), Fail> {
    let alloc = rt.alloc();
    let instance = instance_of(alloc, SIXES)?;
    let windows = Windows::of(alloc, &instance)?;
    let network = Network::of(alloc, &instance, &initial(alloc, &instance, &windows)?, 0)?;
    assert!(rt; instance.arcs().len() == 1);
    let mut inside = gift_of(true, TRUCK);
    inside.point = 2;
    let inner = Side::MoreThan {
        arc: 0,
        point: 2,
        until: 100,
        trucks: 2,
    };
    for (side, gift, value, want) in [
        (more_than(2), gift_of(true, TRUCK), 0, Some(3 * TRUCK)),
        (
            at_most(1),
            gift_of(false, TRUCK),
            4 * TRUCK,
            Some(3 * TRUCK),
        ),
        (at_most(1), gift_of(false, TRUCK), TRUCK / 2, Some(0)),
        (at_most(1), gift_of(true, TRUCK), 0, None),
        (more_than(2), gift_of(false, TRUCK), 0, None),
        (inner, inside, 0, None),
    ] {
        let gifts = [gift];
        let sides = [side];
        assert!(rt; gift.arc == 0 && gift.amount == TRUCK && value <= 4 * TRUCK);
        let found = gift_value(
            &instance,
            &network,
            sides.as_slice(),
            gifts.as_slice(),
            value,
        );
        assert_eq!(rt; found, want);
    }
    Ok(())
}

// What shipments pay and what is given because at least so many leave is within the truck's cost and what
// is given because at most so many leave.
#[test]
fn rules_of_gifts(rt: HostRuntime) -> Result<(), Fail> {
    let alloc = rt.alloc();
    let instance = instance_of(alloc, SIXES)?;
    assert!(rt; instance.arcs().len() == 1);
    for (money, least, amount, want) in [
        (0, true, TRUCK, None),
        (1, true, TRUCK, Some(GiftFault::Money)),
        (2 * TRUCK, false, TRUCK, None),
        (2 * TRUCK + 1, false, TRUCK, Some(GiftFault::Money)),
        // The wrong sign.
        (2 * TRUCK, true, TRUCK, Some(GiftFault::Money)),
        (0, true, TRUCK + 1, Some(GiftFault::Money)),
        (0, false, MOST_GIFTS, Some(GiftFault::Amounts)),
    ] {
        let spans = vec![in alloc; span_of(alloc, money)]?;
        let gifts = [gift_of(least, amount)];
        assert_eq!(rt; check_gifts(&instance, &spans, gifts.as_slice()), want);
    }
    // Where no span holds, shipments may pay the whole truck, and nothing is left to give.
    let gifts = [gift_of(true, 1)];
    assert_eq!(rt;
        check_gifts(&instance, &[], gifts.as_slice()),
        Some(GiftFault::Money)
    );
    Ok(())
}

// A span of the arc's classes with this money, for which each of the three shipments pays so much.
fn paid_span(alloc: Global, money: u128, w: u128) -> Result<Span, NoMemory>
    ensures { IfOk result (λ span. span
        ≡ record {
          arc = 0;
          point = 0;
          until = 100;
          money = money;
          charge = 0;
          weights = (record { shipment = 0; w = w }) ∷ (record { shipment = 1; w = w }) ∷ (record { shipment = 2; w = w }) ∷ [];
          groups = [];
        }) }
{
    let weights = vec![in alloc;
        Weight { shipment: 0, w },
        Weight { shipment: 1, w },
        Weight { shipment: 2, w },
    ]?;
    Ok(Span {
        arc: 0,
        point: 0,
        until: 100,
        money,
        charge: 0,
        weights,
        groups: Vec::new(alloc),
    })
}

// Whether leaves can be priced by spans: whether they keep each rule but the money rule.
fn can_price(alloc: Global, instance: &Instance, spans: &[Span]) -> Result<bool, NoMemory>
    requires exist { All (IsSpanOf instance.now) spans.now }
    requires few { length spans.now < 2 ^ 32 - 1 }
    ensures { IfOk result (λ can. can ≡ true → AreSpans instance.now spans.now) }
{
    match check_spans(alloc, instance, spans)? {
        None => Ok(true),
        Some(SpanFault::Money(_)) => Ok(true),
        Some(_) => Ok(false),
    }
}

// What a leaf with the initial points is worth by spans and gifts, and by linear prices where no span
// holds. `None` where the spans are refused, or the leaf isn't priced by the gifts.
fn gifted_bound(
    alloc: Global,
    instance: &Instance,
    spans: &[Span],
    gifts: &[Gift],
    sides: &[Side],
    forced: bool,
) -> Result<Option<LeafBound>, NoMemory>
    requires terminals { length instance.now.terminals ≤ 100 }
    requires exist { All (IsSpanOf instance.now) spans.now }
    requires few { length spans.now < 2 ^ 32 - 1 }
    requires gifts { AreGifts instance.now gifts.now }
{
    if !can_price(alloc, instance, spans)? {
        return Ok(None);
    }
    let windows = Windows::of(alloc, instance)?;
    let points = initial(alloc, instance, &windows)?;
    let round = RoundNetwork::of(alloc, instance, &points, 0)?;
    let leaf = Leaf::of(alloc, &round, &windows, sides)?;
    gift_bound(alloc, &leaf, &[], spans, gifts, Kind::Linear, forced)
}

// By spans and gifts a leaf is worth three trucks where at least three leave, and shipments pay
// nothing; and where at most one leaves, of the four that they pay.
#[test]
fn bounds_with_gifts(rt: HostRuntime) -> Result<(), Fail> {
    let alloc = rt.alloc();
    let instance = instance_of(alloc, SIXES)?;
    assert!(rt; instance.terminals().len() <= 100);
    assert!(rt; instance.arcs().len() == 1);
    assert!(rt; instance.shipments().len() == 3);
    let three = Some(LeafBound::Value { value: 3 * TRUCK });
    for (side, gift, paid, forced, want) in [
        (more_than(2), gift_of(true, TRUCK), 0, false, three),
        (at_most(1), gift_of(false, TRUCK), 80_000_000, false, three),
        (at_most(1), gift_of(true, TRUCK), 0, false, None),
        (more_than(2), gift_of(true, TRUCK), 0, true, None),
    ] {
        assert!(rt; gift.arc == 0 && gift.amount == TRUCK && paid <= TRUCK + TRUCK);
        let spans = vec![in alloc; paid_span(alloc, 2 * TRUCK, paid)?]?;
        let gifts = [gift];
        let sides = [side];
        let found = gifted_bound(
            alloc,
            &instance,
            &spans,
            gifts.as_slice(),
            sides.as_slice(),
            forced,
        )?;
        assert_eq!(rt; found, want);
    }
    Ok(())
}
