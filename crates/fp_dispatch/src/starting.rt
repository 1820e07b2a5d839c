//! Where the moments start: at the beginnings of the windows.
ghost use Rattle.std.specs.Prelude.{ℕ, ◌≡◌, ◌+◌, ◌*◌, ◌<◌, ◌≤◌, ◌^◌, None, List, length, All, MatchOption, IsSomeAnd, slice_index_or};
ghost use Rattle.fp_base_lists.specs.Vectors.{lists_of};
ghost use Rattle.fp_model.specs.declared.limits.TheConstants.{MOST_TERMINALS};
ghost use Rattle.fp_model.specs.declared.parts.Member.{Member};
ghost use Rattle.fp_model.specs.Members.{IsMemberOf};
ghost use Rattle.fp_flatnet.specs.Tables.{windows_in};
ghost use Rattle.fp_dispatch.specs.Rising.{IsWide, value_at};
ghost use Rattle.fp_dispatch.specs.Times.{window_of};

use fp_flatnet::Windows;
use fp_model::Member;

// Writes the beginning of each leg's window; the first leg that has none, if there is one.
pub(crate) fn start(
    windows: &Windows,
    routes: &[Vec<u32>],
    width: usize,
    values: &mut [u32],
) -> Option<Member>
    requires rows { length windows.now.rows ≡ length routes.now }
    requires arcs { All (All (λ a. a < length windows.now.tails)) (lists_of routes.now) }
    requires wide { IsWide (lists_of routes.now) width }
    requires long { length values.old ≡ length routes.now * width }
    requires many { length routes.now < 2 ^ 32 }
    requires few { length values.old < 2 ^ 32 }
    ensures { MatchOption result
        ((m : Member) → IsMemberOf (lists_of routes.now) m →
        IsSomeAnd (window_of (windows_in windows.now) (lists_of routes.now) m) (λ w. value_at width values.new m ≡ w.lo))
        (λ m. IsMemberOf (lists_of routes.now) m
        × (window_of (windows_in windows.now) (lists_of routes.now) m ≡ None)) }
{
    for (shipment, route) in routes.iter().enumerate() {
        let shipment = shipment as u32;
        if let Some(leg) = start_route(windows, shipment, route, width, values) {
            return Some(Member { shipment, leg });
        }
    }
    None
}

// The same for the route of one shipment. The other entries stay as they are.
fn start_route(
    windows: &Windows,
    shipment: u32,
    route: &[u32],
    width: usize,
    values: &mut [u32],
) -> Option<u32>
    requires shipment { shipment < length windows.now.rows }
    requires arcs { All (λ a. a < length windows.now.tails) route.now }
    requires short { length route.now ≤ width }
    requires inside { shipment * width + width ≤ length values.old }
    requires few { length values.old < 2 ^ 32 }
    ensures starts { MatchOption result
        ((i : ℕ) → i < length route.now →
        IsSomeAnd (windows_in windows.now shipment (slice_index_or route.now i 0)) (λ w. slice_index_or values.new (shipment * width + i) 0 ≡ w.lo))
        (λ leg. (leg < length route.now) × (windows_in windows.now shipment (slice_index_or route.now leg 0) ≡ None)) }
    ensures others { (x : ℕ) → x < shipment * width → slice_index_or values.new x 0 ≡ slice_index_or values.old x 0 }
{
    let first = shipment as usize * width;
    for (leg, arc) in route.iter().enumerate() {
        match windows.window(shipment, *arc) {
            Some((lo, _)) => values[first + leg] = lo,
            None => return Some(leg as u32),
        }
    }
    None
}
