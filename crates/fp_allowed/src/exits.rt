//! The allowed classes that leave by an arc, or leave a terminal.

ghost use Rattle.std.specs.Prelude.{ℕ, ◌≡◌, ◌+◌, ◌<◌, ◌≤◌, ◌⊎◌, length};
ghost use Rattle.fp_model.specs.declared.parts.Leg.{Leg};
ghost use Rattle.fp_longestarcs.specs.Networks.{IsNetwork, class_count, first_class, points_in, tail_in};
ghost use Rattle.fp_longestarcs.specs.Whole.{HasArcsOf};
ghost use Rattle.fp_allowed.specs.Allowed.{tails_of};
ghost use Rattle.fp_allowed.specs.Bits.{row_allows};
ghost use Rattle.fp_allowed.specs.Leaving.{IsFirstSet, IsRange, Tells, joined_of};

use fp_longestarcs::{MOST_CLASSES, Network};
use fp_model::Instance;
use fp_rows::Row;

/// How many allowed classes leave by an arc, or leave a terminal.
#[derive(Clone, Copy)]
pub enum Leaving {
    /// None.
    Nothing,
    /// Exactly one, with this number and this arc.
    One { class: u32, arc: u32 },
    /// Two or more.
    Several,
}

// The first bit that is set in a range.
pub(crate) fn first_set(row: &Row, from: u32, to: u32) -> Option<u32>
    requires { from ≤ length row.now }
    ensures { IsFirstSet row.now from to result }
{
    let first = row.first_from(from)?;
    if first < to { Some(first) } else { None }
}

// The numbers of an arc's classes: from the first up to and without the second.
pub(crate) fn class_range(network: &Network, arc: u32, tail: u32) -> (u32, u32)
    requires valid { IsNetwork network.now }
    requires arc { arc < length network.now.tails }
    requires tail { tail ≡ tail_in network.now arc }
    ensures range { IsRange network.now arc result.0 result.1 }
    ensures few { result.1 ≤ MOST_CLASSES }
{
    let first = network.class(arc, 0);
    (first, first + network.points(tail).len() as u32)
}

// The allowed classes of an arc.
fn leaving_by(network: &Network, arc: u32, tail: u32, row: &Row) -> Leaving
    requires valid { IsNetwork network.now }
    requires arc { arc < length network.now.tails }
    requires tail { tail ≡ tail_in network.now arc }
    requires long { length row.now ≡ class_count network.now }
    ensures { Tells network.now (row_allows network.now row.now) (λ c. c.arc ≡ arc) result }
{
    let (start, end) = class_range(network, arc, tail);
    match first_set(row, start, end) {
        None => Leaving::Nothing,
        Some(class) => match first_set(row, class + 1, end) {
            None => Leaving::One { class, arc },
            Some(_) => Leaving::Several,
        },
    }
}

// What leaves in one way or in another.
fn joined(first: Leaving, second: Leaving) -> Leaving
    ensures { result ≡ joined_of first second }
{
    match (first, second) {
        (Leaving::Nothing, other) | (other, Leaving::Nothing) => other,
        _ => Leaving::Several,
    }
}

// The allowed classes that leave a terminal.
pub(crate) fn leaving_from(
    instance: &Instance,
    network: &Network,
    terminal: u32,
    row: &Row,
) -> Leaving
    requires valid { IsNetwork network.now }
    requires arcs { HasArcsOf instance.now network.now }
    requires long { length row.now ≡ class_count network.now }
    ensures { Tells network.now (row_allows network.now row.now) (λ c. tails_of instance.now c.arc ≡ terminal) result }
{
    let mut leaving = Leaving::Nothing;
    for arc in 0..instance.arcs().len() as u32 {
        if instance.arc(arc).from == terminal {
            leaving = joined(leaving, leaving_by(network, arc, terminal, row));
        }
    }
    leaving
}
