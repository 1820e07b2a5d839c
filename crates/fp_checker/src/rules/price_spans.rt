//! Whether the spans and the gifts beside the tables are paid.
ghost use Rattle.std.specs.Prelude.{◌≡◌, ◌<◌, ◌-◌, ◌^◌, ◌↔◌, List, All, IfOk, IsTrue, length};
ghost use Rattle.fp_flatnet.specs.Belonging.{BelongsTo};
ghost use Rattle.fp_flatnet.specs.Initial.{initial_points};
ghost use Rattle.fp_flatnet.specs.Tables.{windows_in};
ghost use Rattle.fp_certificate_lines.specs.Ranges.{IsGiftInRange, IsInRange, IsSpanInRange};
ghost use Rattle.fp_certificate_rules.specs.Points.{ArePointsOf};
ghost use Rattle.fp_certificate_rules.specs.Prices.{ArePaid};
ghost use Rattle.fp_prices_spans.specs.MomentRuns.{first_points};
ghost use Rattle.fp_prices_spans.specs.Spans.{ClassSpan};

use crate::NoMemory;
use crate::rules::price_gifts::are_prices_beside;
use fp_certificate_lines::Certificate;
use fp_flatnet::Windows;
use fp_model::Instance;
use fp_prices_gifts::TableGifts;
use fp_prices_spans::TableSpans;
use fp_timenodes::Points;
use std::alloc::Global;

// Whether the spans and the gifts beside each table are in order and light, keep the money rule, and, but
// for tables by moments, the charges of the spans pay, by the windows and the points as of the round 0.
fn all_paid(
    alloc: Global,
    instance: &Instance,
    windows: &Windows,
    points: &Points,
    spans: &[TableSpans],
    gifts: &[TableGifts],
    moments: &[bool],
) -> Result<bool, NoMemory>
    requires belongs { BelongsTo instance.now windows.now }
    requires terminals { points.now.terminals ≡ length instance.now.terminals }
    requires range { All (All (IsSpanInRange instance.now)) spans.now }
    requires few { All (λ (list : List ClassSpan). length list < 2 ^ 32 - 1) spans.now }
    requires given { All (All (IsGiftInRange instance.now)) gifts.now }
    requires beside { length gifts.now ≡ length spans.now }
    requires timed { length moments.now ≡ length spans.now }
    ensures { IfOk result (λ paid. IsTrue paid
        ↔ ArePaid instance.now (windows_in windows.now) (first_points points.now) spans.now gifts.now moments.now) }
{
    for place in 0..spans.len() {
        let held = &spans[place];
        let given = &gifts[place];
        if !are_prices_beside(
            alloc,
            instance,
            windows,
            points,
            &held.spans,
            &given.gifts,
            moments[place],
        )? {
            return Ok(false);
        }
    }
    Ok(true)
}

// Whether the spans and the gifts of a certificate are paid, by the windows and the initial points, or
// only listed where their table is by moments. The points are the certificate's: those that it adds are
// of later rounds.
pub(crate) fn has_paid_spans(
    alloc: Global,
    instance: &Instance,
    windows: &Windows,
    points: &Points,
    certificate: &Certificate,
) -> Result<bool, NoMemory>
    requires belongs { BelongsTo instance.now windows.now }
    requires points { ArePointsOf instance.now windows.now.anchors certificate.now.points
        points.now }
    requires range { IsInRange instance.now certificate.now }
    requires few { All (λ (list : List ClassSpan). length list < 2 ^ 32 - 1) certificate.now.spans }
    ensures { IfOk result (λ paid. IsTrue paid
        ↔ ArePaid instance.now (windows_in windows.now)
        (initial_points instance.now windows.now.anchors) certificate.now.spans certificate.now.gifts certificate.now.moments) }
{
    all_paid(
        alloc,
        instance,
        windows,
        points,
        &certificate.spans,
        &certificate.gifts,
        &certificate.moments,
    )
}
