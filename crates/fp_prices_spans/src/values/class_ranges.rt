//! The classes of a network for which a span holds, by their numbers.
ghost use Rattle.std.specs.Prelude.{◌<◌, length};
ghost use Rattle.fp_longestarcs.specs.Whole.{IsWholeNetwork};
ghost use Rattle.fp_prices_spans.specs.ClassRanges.{IsRangeOf};

use crate::spans::Span;
use fp_base_lists::place_among;
use fp_longestarcs::Network;
use fp_model::Instance;

/// The classes with the numbers from `first` up to, and without, `end`, which is no less.
#[derive(Clone, Copy)]
pub(crate) struct ClassRange {
    pub(crate) first: u32,
    pub(crate) end: u32,
}

/// The classes of a network for which a span of an arc that exists holds. Takes no memory, and time
/// that grows with the logarithm of the points of the arc's tail.
pub(crate) fn range_of(instance: &Instance, network: &Network, span: &Span) -> ClassRange
    requires whole { IsWholeNetwork instance.now network.now }
    requires arc { span.now.arc < length instance.now.arcs }
    ensures { IsRangeOf network.now span.now result }
{
    let points = network.points(instance.arc(span.arc).from);
    let first = network.class(span.arc, 0);
    let from = place_among(points, span.point) as u32;
    let until = place_among(points, span.until) as u32;
    ClassRange {
        first: first + from,
        end: first + until.max(from),
    }
}
