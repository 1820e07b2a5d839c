//! What the leaves of a certificate's tree are worth.
ghost use Rattle.std.specs.Prelude.{◌≡◌, ◌↔◌, IfOk, IsTrue, None, Some};
ghost use Rattle.fp_prices.specs.RoundBounds.{AreRoundBounds};
ghost use Rattle.fp_prices.specs.Tables.{HasKind};
ghost use Rattle.fp_prices_spans.specs.SpanKinds.{spans_beside as spans_beside_table};
ghost use Rattle.fp_prices_gifts.specs.GiftKinds.{gifts_beside as gifts_beside_table};
ghost use Rattle.fp_flatnet.specs.Tables.{windows_in};
ghost use Rattle.fp_tree.specs.Ways.{way_sides};
ghost use Rattle.fp_certificate_lines.specs.declared.certificates.Node.TheVariants.{Leaf};
ghost use Rattle.fp_certificate_lines.specs.Moments.{by_moments as by_moments_of};
ghost use Rattle.fp_certificate_lines.specs.Ranges.{IsSplitInRange};
ghost use Rattle.fp_certificate_rules.specs.Accepted.{claim_of as claim_of_answer};
ghost use Rattle.fp_certificate_rules.specs.Leaves.{AreLeavesWorth, IsLeafWorth, split_tail as tail_of_split};
ghost use Rattle.fp_checker.specs.Bounds.{IsBoundWorth, IsEmptyBound, IsLeafBoundBy};
ghost use Rattle.fp_checker.specs.LeafWays.{IsKept, steps_of};
ghost use Rattle.fp_certificate_rules.specs.Points.{ArePointsOf, points_as_of};
ghost use Rattle.fp_certificate_rules.specs.Prices.{HasPrices};

use crate::NoMemory;
use crate::cases::Case;
use crate::rules::claims::claim_of;
use crate::rules::narrowed_ways::NarrowedWay;
use crate::rules::narrowings::narrowing_bars;
use fp_certificate_lines::{Node, Valuation, by_moments};
use fp_certificate_rules::reaches;
use fp_model::Instance;
use fp_prices::{Kind, LeafBound, LeafPrice, RoundBounds};
use fp_prices_gifts::{gift_bound_of, gifts_beside, moment_bound_of};
use fp_prices_spans::spans_beside;
use fp_timenodes::Points;
use fp_tree::{Side, Split};
use std::alloc::Global;

// The terminal that the arc of a split leaves, and 0 for a split by a time, by trucks or by a way.
fn split_tail(instance: &Instance, split: Split) -> u32
    requires { IsSplitInRange instance.now split }
    ensures { result ≡ tail_of_split instance.now split }
{
    match split {
        Split::ByArc { arc, .. } => instance.arc(arc).from,
        Split::ByTime { .. } | Split::ByTrucks { .. } | Split::ByWay { .. } => 0,
    }
}

// Whether a leaf of this bound has a value, and is worth what the certificate claims in whole units of
// money, rounded up to a multiple of its unit.
fn is_worth(case: &Case<'_>, bound: LeafBound) -> bool
    ensures { IsTrue result
        ↔ IsBoundWorth case.now.told.unit case.now.problem.scale (claim_of_answer case.now.told.answer) (Some bound) }
{
    let certificate = case.certificate;
    let claim = claim_of(certificate.answer);
    match bound {
        LeafBound::Empty { .. } => false,
        LeafBound::Value { value } => {
            let money = value.div_ceil(u128::from(case.instance.scale()));
            reaches(money, certificate.unit, claim)
        }
    }
}

// The same of a leaf that may have no bound: then it isn't.
fn is_bound_worth(case: &Case<'_>, bound: Option<LeafBound>) -> bool
    ensures { IsTrue result
        ↔ IsBoundWorth case.now.told.unit case.now.problem.scale (claim_of_answer case.now.told.answer) bound }
{
    match bound {
        Some(bound) => is_worth(case, bound),
        None => false,
    }
}

// The bound of a leaf under sides by the certificate's prices, if it has one, with what is kept for the
// leaves after it. A leaf that isn't empty has none where it isn't priced by the gifts beside its table,
// or where its table is by moments and a span that is charged doesn't pay by the windows that the sides
// narrow.
fn leaf_bound<'a>(
    alloc: Global,
    case: &Case<'a>,
    points: &Points,
    sides: &[Side],
    price: LeafPrice,
    kept: RoundBounds<'a>,
) -> Result<(Option<LeafBound>, RoundBounds<'a>), NoMemory>
    requires points { ArePointsOf case.now.problem case.now.windows.anchors case.now.told.points
        points.now }
    requires prices { HasPrices case.now.problem case.now.windows case.now.told }
    requires kind { HasKind case.now.told.tables price.kind }
    requires kept { AreRoundBounds case.now.problem points.now case.now.told.tables kept }
    ensures exact { IfOk result (λ found. IsLeafBoundBy (by_moments_of case.now.told.moments price.kind) case.now.problem (windows_in case.now.windows)
        (points_as_of case.now.problem case.now.windows.anchors case.now.told price.round) sides.now case.now.told.tables
        (spans_beside_table case.now.told.spans price.kind) (gifts_beside_table case.now.told.gifts price.kind) price.kind price.forced found.0) }
    ensures kept { IfOk result (λ found. AreRoundBounds case.now.problem points.now case.now.told.tables found.1) }
{
    let instance = case.instance;
    let windows = case.windows;
    let certificate = case.certificate;
    let tables = certificate.tables.as_slice();
    let spans = spans_beside(&certificate.spans, price.kind);
    let gifts = gifts_beside(&certificate.gifts, price.kind);
    if by_moments(&certificate.moments, price.kind) {
        let bound = moment_bound_of(
            alloc, instance, windows, points, sides, tables, spans, gifts, price,
        )?;
        return Ok((bound, kept));
    }
    if spans.is_empty() && gifts.is_empty() {
        let found = kept.bound(alloc, instance, windows, points, tables, sides, price)?;
        return Ok((Some(found.0), found.1));
    }
    let bound = gift_bound_of(
        alloc, instance, windows, points, sides, tables, spans, gifts, price,
    )?;
    Ok((bound, kept))
}

// Whether a leaf of this bound, if it has one, is empty.
fn is_empty(bound: Option<LeafBound>) -> bool
    ensures { IsTrue result ↔ IsEmptyBound bound }
{
    matches!(bound, Some(LeafBound::Empty { .. }))
}

// Whether the leaf at the end of a way is worth what the certificate claims, or empty, where it is valued
// under all its sides; with what is kept for the leaves after it.
fn is_whole_worth<'a>(
    alloc: Global,
    case: &Case<'a>,
    points: &Points,
    way: &NarrowedWay,
    price: LeafPrice,
    kept: RoundBounds<'a>,
) -> Result<(bool, RoundBounds<'a>), NoMemory>
    requires points { ArePointsOf case.now.problem case.now.windows.anchors case.now.told.points
        points.now }
    requires prices { HasPrices case.now.problem case.now.windows case.now.told }
    requires kind { HasKind case.now.told.tables price.kind }
    requires way { IsKept way.now.way }
    requires kept { AreRoundBounds case.now.problem points.now case.now.told.tables kept }
    ensures exact { IfOk result (λ found. IsTrue found.0
        ↔ IsLeafWorth case.now.problem case.now.windows case.now.told (claim_of_answer case.now.told.answer)
        way.now.bars.items (Leaf (record { price = price; sides = None })) (way_sides (steps_of way.now.way))) }
    ensures kept { IfOk result (λ found. AreRoundBounds case.now.problem points.now case.now.told.tables found.1) }
{
    let sides = way.sides(alloc)?;
    let found = leaf_bound(alloc, case, points, &sides, price, kept)?;
    if is_bound_worth(case, found.0) {
        return Ok((true, found.1));
    }
    Ok((is_empty(found.0), found.1))
}

// The same where it is valued under its first so many sides; it is empty only under all.
fn is_first_worth<'a>(
    alloc: Global,
    case: &Case<'a>,
    points: &Points,
    way: &NarrowedWay,
    price: LeafPrice,
    count: u32,
    kept: RoundBounds<'a>,
) -> Result<(bool, RoundBounds<'a>), NoMemory>
    requires points { ArePointsOf case.now.problem case.now.windows.anchors case.now.told.points
        points.now }
    requires prices { HasPrices case.now.problem case.now.windows case.now.told }
    requires kind { HasKind case.now.told.tables price.kind }
    requires way { IsKept way.now.way }
    requires kept { AreRoundBounds case.now.problem points.now case.now.told.tables kept }
    ensures exact { IfOk result (λ found. IsTrue found.0
        ↔ IsLeafWorth case.now.problem case.now.windows case.now.told (claim_of_answer case.now.told.answer)
        way.now.bars.items (Leaf (record { price = price; sides = Some count })) (way_sides (steps_of way.now.way))) }
    ensures kept { IfOk result (λ found. AreRoundBounds case.now.problem points.now case.now.told.tables found.1) }
{
    let first = way.first_sides(alloc, count)?;
    let under = leaf_bound(alloc, case, points, &first, price, kept)?;
    if is_bound_worth(case, under.0) {
        return Ok((true, under.1));
    }
    let sides = way.sides(alloc)?;
    let whole = leaf_bound(alloc, case, points, &sides, price, under.1)?;
    Ok((is_empty(whole.0), whole.1))
}

// Whether the leaf at the end of a way is worth what the certificate claims, or empty, with what is
// kept for the leaves after it.
fn is_leaf_worth<'a>(
    alloc: Global,
    case: &Case<'a>,
    points: &Points,
    way: &NarrowedWay,
    valuation: Valuation,
    kept: RoundBounds<'a>,
) -> Result<(bool, RoundBounds<'a>), NoMemory>
    requires points { ArePointsOf case.now.problem case.now.windows.anchors case.now.told.points
        points.now }
    requires prices { HasPrices case.now.problem case.now.windows case.now.told }
    requires kind { HasKind case.now.told.tables valuation.price.kind }
    requires way { IsKept way.now.way }
    requires kept { AreRoundBounds case.now.problem points.now case.now.told.tables kept }
    ensures exact { IfOk result (λ found. IsTrue found.0
        ↔ IsLeafWorth case.now.problem case.now.windows case.now.told (claim_of_answer case.now.told.answer)
        way.now.bars.items (Leaf valuation) (way_sides (steps_of way.now.way))) }
    ensures kept { IfOk result (λ found. AreRoundBounds case.now.problem points.now case.now.told.tables found.1) }
{
    let price = valuation.price;
    match valuation.sides {
        None => is_whole_worth(alloc, case, points, way, price, kept),
        Some(count) => is_first_worth(alloc, case, points, way, price, count, kept),
    }
}

// Whether each leaf is worth what the certificate claims. The leaves are reached in preorder,
// each with sides that ask what those on its way ask, and with the bars of the narrowings on it.
pub(crate) fn are_leaves_worth(
    alloc: Global,
    case: &Case<'_>,
    points: &Points,
) -> Result<bool, NoMemory>
    requires points { ArePointsOf case.now.problem case.now.windows.anchors case.now.told.points
        points.now }
    requires prices { HasPrices case.now.problem case.now.windows case.now.told }
    ensures { IfOk result (λ worth. IsTrue worth
        ↔ AreLeavesWorth case.now.problem case.now.windows case.now.told (claim_of_answer case.now.told.answer)) }
{
    let instance = case.instance;
    let certificate = case.certificate;
    let mut way = NarrowedWay::new(alloc);
    let mut bounds = RoundBounds::of(alloc, instance, points, 0, Kind::Linear)?;
    for node in certificate.tree.as_slice() {
        match *node {
            Node::Branch { split } => way = way.descend(alloc, split, split_tail(instance, split))?,
            Node::Narrow { narrowing } => {
                let sides = way.sides(alloc)?;
                let own = narrowing_bars(alloc, case, points, &sides, narrowing)?;
                way = way.narrow(&own)?;
            }
            Node::Leaf { valuation } => {
                let found = is_leaf_worth(alloc, case, points, &way, valuation, bounds)?;
                if !found.0 {
                    return Ok(false);
                }
                bounds = found.1;
                match way.advance(alloc)? {
                    None => return Ok(true),
                    Some(next) => way = next,
                }
            }
        }
    }
    Ok(true)
}
