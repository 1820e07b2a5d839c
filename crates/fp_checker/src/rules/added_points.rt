//! The points that a certificate adds to the initial ones.
ghost use Rattle.std.specs.Prelude.{ℕ, ◌≡◌, ◌≤◌, ◌==◌, ◌↔◌, All, AllPairs, IfOk, IsTrue, OnOk, count_by};
ghost use Rattle.fp_timenodes.specs.declared.places.AddedPoint.{AddedPoint};
ghost use Rattle.fp_flatnet.specs.Belonging.{BelongsTo};
ghost use Rattle.fp_certificate_lines.specs.Ranges.{IsPointInRange};
ghost use Rattle.fp_certificate_rules.specs.Points.{ArePointsOf, AreAddedPoints};
ghost use Rattle.fp_certificate_rules.specs.declared.limits.TheConstants.{MOST_IN_ROUND};

use crate::rejections::{POINTS, Rejected};
use fp_certificate_rules::MOST_IN_ROUND;
use fp_flatnet::{Windows, initial};
use fp_model::Instance;
use fp_timenodes::{Added, AddedPoint, Points};
use std::alloc::Global;

// Whether rounds don't fall from point to point.
fn rounds_ascend(added: &[AddedPoint]) -> bool
    ensures { IsTrue result ↔ AllPairs (λ (q r : AddedPoint). q.round ≤ r.round) added.now }
{
    for place in 1..added.len() {
        if added[place - 1].round > added[place].round {
            return false;
        }
    }
    true
}

// Whether at most the limit of points whose rounds don't fall have one round.
fn few_in_rounds(added: &[AddedPoint]) -> bool
    requires { AllPairs (λ (q r : AddedPoint). q.round ≤ r.round) added.now }
    ensures { IsTrue result
        ↔ ((round : ℕ) → count_by (λ (q : AddedPoint). q.round == round) added.now ≤ MOST_IN_ROUND) }
{
    for place in MOST_IN_ROUND..added.len() {
        if added[place - MOST_IN_ROUND].round == added[place].round {
            return false;
        }
    }
    true
}

// The points of a certificate: the initial ones and those that it adds.
pub(crate) fn told_points(
    alloc: Global,
    instance: &Instance,
    windows: &Windows,
    added: &[AddedPoint],
) -> Result<Points, Rejected>
    requires belongs { BelongsTo instance.now windows.now }
    requires range { All (IsPointInRange instance.now) added.now }
    ensures points { IfOk result (ArePointsOf instance.now windows.now.anchors added.now) }
    ensures holds { OnOk result (AreAddedPoints instance.now windows.now.anchors added.now) }
    ensures part { (number : ℕ) → result ≡ Err (Rejected.Part number) →
        (number ≡ POINTS) × (AreAddedPoints instance.now windows.now.anchors added.now → ⊥) }
{
    if !rounds_ascend(added) || !few_in_rounds(added) {
        return Err(Rejected::Part { number: POINTS });
    }
    let mut points = initial(alloc, instance, windows)?;
    for point in added {
        match points.add(alloc, point.terminal, point.at, point.round)? {
            Added::There => return Err(Rejected::Part { number: POINTS }),
            Added::New => {}
        }
    }
    Ok(points)
}
