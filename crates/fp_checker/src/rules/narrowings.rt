//! The bars of a narrowing: sides that bar classes below its node.
ghost use Rattle.std.specs.Prelude.{◌++◌, IfOk, List};
ghost use Rattle.fp_tree.specs.declared.sides.Side.{Side as Asked};
ghost use Rattle.fp_prices.specs.Tables.{HasKind};
ghost use Rattle.fp_certificate_rules.specs.Accepted.{claim_of as claim_of_answer};
ghost use Rattle.fp_certificate_rules.specs.Leaves.{AreNarrowingBars, worth_of};
ghost use Rattle.fp_certificate_rules.specs.Points.{ArePointsOf};
ghost use Rattle.fp_certificate_rules.specs.Prices.{HasPrices};
ghost use Rattle.fp_certificate_rules.specs.Units.{IsLeastAmount};
ghost use Rattle.fp_checker.specs.LeafWays.{AskAlike};

use crate::NoMemory;
use crate::cases::Case;
use crate::rules::claims::claim_of;
use fp_certificate_lines::{Narrowing, by_moments};
use fp_certificate_rules::least_amount;
use fp_prices_bars::{PriceParts, gift_bars_of, moment_bars_of};
use fp_prices_gifts::gifts_beside;
use fp_prices_spans::spans_beside;
use fp_timenodes::Points;
use fp_tree::Side;
use std::alloc::Global;

// From how much on a narrowing bars classes, in whole units of money: that is worth what the certificate
// claims, or what the narrowing names, where that is more, once it is rounded up to a multiple of the unit.
fn least_money(case: &Case<'_>, narrowing: Narrowing) -> u128
    ensures { IsLeastAmount case.now.told.unit (worth_of (claim_of_answer case.now.told.answer) narrowing) result }
{
    let certificate = case.certificate;
    let claim = claim_of(certificate.answer);
    least_amount(certificate.unit, claim.max(narrowing.worth.unwrap_or(0)))
}

/// The bars of a narrowing at a node, under sides that ask what the bars before it and those on the way to
/// the node ask together. `NoMemory` only where no memory is found.
pub(crate) fn narrowing_bars(
    alloc: Global,
    case: &Case<'_>,
    points: &Points,
    sides: &[Side],
    narrowing: Narrowing,
) -> Result<Vec<Side>, NoMemory>
    requires points { ArePointsOf case.now.problem case.now.windows.anchors case.now.told.points
        points.now }
    requires prices { HasPrices case.now.problem case.now.windows case.now.told }
    requires kind { HasKind case.now.told.tables narrowing.price.kind }
    ensures { IfOk result (λ bars. (before own : List Asked) → AskAlike sides.now (before ++ own) →
        AreNarrowingBars case.now.problem case.now.windows case.now.told (claim_of_answer case.now.told.answer)
        before (record { narrowing = narrowing; sides = own }) bars.items) }
{
    let certificate = case.certificate;
    let kind = narrowing.price.kind;
    let parts = PriceParts {
        tables: certificate.tables.as_slice(),
        spans: spans_beside(&certificate.spans, kind),
        gifts: gifts_beside(&certificate.gifts, kind),
        price: narrowing.price,
    };
    let money = least_money(case, narrowing);
    if by_moments(&certificate.moments, kind) {
        return moment_bars_of(
            alloc,
            case.instance,
            case.windows,
            points,
            sides,
            &parts,
            money,
        );
    }
    gift_bars_of(
        alloc,
        case.instance,
        case.windows,
        points,
        sides,
        &parts,
        money,
    )
}
