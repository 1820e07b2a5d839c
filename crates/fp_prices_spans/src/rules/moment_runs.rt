//! The moments of a span, in runs, and who can leave in a run.
ghost use Rattle.std.specs.Prelude.{◌≡◌, ◌<◌, ◌≤◌, length, slice_index_or};
ghost use Rattle.fp_flatnet.specs.Tables.{windows_in};
ghost use Rattle.fp_timenodes.specs.Points.{points_at};
ghost use Rattle.fp_prices_spans.specs.declared.rules.moment_runs.MomentRun.{MomentRun};
ghost use Rattle.fp_prices_spans.specs.MomentRuns.{can_leave as can_leave_in, end_of, is_before, runs_from};

use crate::spans::Span;
use fp_flatnet::Windows;
use fp_model::Instance;
use fp_timenodes::Points;

/// The moments from one on and before another, or to the end of time where there is none.
#[derive(Clone, Copy)]
pub(crate) struct MomentRun {
    pub(crate) from: u32,
    pub(crate) before: Option<u32>,
}

/// Where the moments of a span end: at the first point of its arc's tail, as of a round, that is at
/// `until` or after it. None where there is none.
pub(crate) fn span_end(instance: &Instance, points: &Points, round: u32, span: &Span) -> Option<u32>
    requires terminals { points.now.terminals ≡ length instance.now.terminals }
    requires arc { span.now.arc < length instance.now.arcs }
    ensures { result ≡ end_of instance.now (λ terminal. points_at points.now terminal round) span.now }
{
    let tail = instance.arc(span.arc).from;
    match span.until.checked_sub(1) {
        Some(last) => points.next(tail, last, round),
        // 0 is always a point.
        None => Some(0),
    }
}

/// The run with a number, from 0, where the runs begin with a moment and further ones with those of
/// groups, and the last has this end.
pub(crate) fn run_at(first: u32, groups: &[u32], end: Option<u32>, number: usize) -> MomentRun
    requires { number ≤ length groups.now }
    ensures { (other : MomentRun) →
        slice_index_or (runs_from first groups.now end) number other ≡ result }
{
    let from = if number == 0 {
        first
    } else {
        groups[number - 1]
    };
    let before = if number < groups.len() {
        Some(groups[number])
    } else {
        end
    };
    MomentRun { from, before }
}

// Whether a moment is before an end; each is where there is none.
fn comes_before(moment: u32, end: Option<u32>) -> bool
    ensures { result ≡ is_before moment end }
{
    match end {
        Some(end) => moment < end,
        None => true,
    }
}

/// Whether a shipment can leave by an arc in a run: whether its window has a moment at which the
/// run has begun, and one before its end. The windows belong to the instance.
pub(crate) fn can_leave(windows: &Windows, run: MomentRun, arc: u32, shipment: u32) -> bool
    requires shipment { shipment < length windows.now.rows }
    requires arc { arc < length windows.now.tails }
    ensures { result ≡ can_leave_in (windows_in windows.now) run arc shipment }
{
    match windows.window(shipment, arc) {
        Some((lo, hi)) => run.from <= hi && comes_before(lo, run.before),
        None => false,
    }
}
