//! Whether the prices of a certificate are as they have to be.
ghost use Rattle.std.specs.Prelude.{◌<◌, ◌-◌, ◌^◌, ◌≤◌, ◌↔◌, List, All, IfOk, IfSome, IsTrue, length};
ghost use Rattle.fp_flatnet.specs.Belonging.{BelongsTo};
ghost use Rattle.fp_certificate_lines.specs.Ranges.{IsInRange};
ghost use Rattle.fp_prices.specs.Tables.{AreCountable};
ghost use Rattle.fp_prices_spans.specs.Spans.{ClassSpan};
ghost use Rattle.fp_certificate_rules.specs.Points.{ArePointsOf};
ghost use Rattle.fp_certificate_rules.specs.Prices.{HasPrices};
ghost use Rattle.fp_certificate_rules.specs.Units.{IsUnit};

use crate::NoMemory;
use crate::rules::price_spans::has_paid_spans;
use crate::rules::price_tables::are_tables;
use fp_certificate_lines::Certificate;
use fp_certificate_rules::is_unit;
use fp_flatnet::Windows;
use fp_model::Instance;
use fp_timenodes::Points;
use std::alloc::Global;

// Whether the unit, where there is one, divides what plans cost.
fn has_unit(instance: &Instance, unit: Option<u128>) -> bool
    requires { IfSome unit (λ u. 1 ≤ u) }
    ensures { IsTrue result ↔ IfSome unit (IsUnit instance.now) }
{
    match unit {
        Some(unit) => is_unit(instance, unit),
        None => true,
    }
}

// Whether the tables are in order and keep the price rule, the spans and the gifts beside each are paid
// by the windows and the initial points, or only listed where the table is by moments, and the unit
// divides what plans cost. The points are the certificate's.
pub(crate) fn has_prices(
    alloc: Global,
    instance: &Instance,
    windows: &Windows,
    points: &Points,
    certificate: &Certificate,
) -> Result<bool, NoMemory>
    requires belongs { BelongsTo instance.now windows.now }
    requires points { ArePointsOf instance.now windows.now.anchors certificate.now.points
        points.now }
    requires range { IsInRange instance.now certificate.now }
    requires countable { AreCountable instance.now certificate.now.tables }
    requires few { All (λ (list : List ClassSpan). length list < 2 ^ 32 - 1) certificate.now.spans }
    ensures { IfOk result (λ has. IsTrue has ↔ HasPrices instance.now windows.now certificate.now) }
{
    if !are_tables(instance, &certificate.tables) || !has_unit(instance, certificate.unit) {
        return Ok(false);
    }
    has_paid_spans(alloc, instance, windows, points, certificate)
}
