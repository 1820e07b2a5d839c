//! Where the legs of routes stand in flat tables, and when they can leave at the latest.
ghost use Rattle.std.specs.Prelude.{◌≡◌, ◌≤◌, ◌<◌, ◌^◌, true, false, All, IfSome, IsSomeAnd, length};
ghost use Rattle.std.specs.Option.{option_map};
ghost use Rattle.fp_base_lists.specs.Vectors.{lists_of};
ghost use Rattle.fp_model.specs.declared.limits.TheConstants.{MOST_TERMINALS};
ghost use Rattle.fp_model.specs.Members.{IsMemberOf, member_arc};
ghost use Rattle.fp_flatnet.specs.Tables.{windows_in};
ghost use Rattle.fp_dispatch.specs.Rising.{IsWide, place_of};
ghost use Rattle.fp_dispatch.specs.Times.{window_of};

use fp_flatnet::Windows;
use fp_model::Member;

// The most legs that a route has: so many entries each route has in the tables.
pub(crate) fn longest(routes: &[Vec<u32>]) -> usize
    requires { All (λ route. length route ≤ MOST_TERMINALS) (lists_of routes.now) }
    ensures wide { IsWide (lists_of routes.now) result }
    ensures short { result ≤ MOST_TERMINALS }
{
    let mut most = 0;
    for route in routes {
        if route.len() > most {
            most = route.len();
        }
    }
    most
}

// The place of a leg.
pub(crate) fn place(width: usize, leg: Member) -> usize
    requires { place_of width leg < 2 ^ 63 }
    ensures { result ≡ place_of width leg }
{
    leg.shipment as usize * width + leg.leg as usize
}

// When a leg can leave at the latest, if it has a window.
pub(crate) fn latest(windows: &Windows, routes: &[Vec<u32>], leg: Member) -> Option<u32>
    requires member { IsMemberOf (lists_of routes.now) leg }
    requires shipment { leg.shipment < length windows.now.rows }
    requires arc { member_arc (lists_of routes.now) leg < length windows.now.tails }
    ensures { result ≡ option_map (λ w. w.hi) (window_of (windows_in windows.now) (lists_of routes.now) leg) }
{
    let route = &routes[leg.shipment as usize];
    let arc = route[leg.leg as usize];
    windows.window(leg.shipment, arc).map(|(_, hi)| hi)
}

// Whether a moment is after a leg's latest one, or the leg has no window.
pub(crate) fn is_past(windows: &Windows, routes: &[Vec<u32>], leg: Member, moment: u32) -> bool
    requires member { IsMemberOf (lists_of routes.now) leg }
    requires shipment { leg.shipment < length windows.now.rows }
    requires arc { member_arc (lists_of routes.now) leg < length windows.now.tails }
    ensures past { result ≡ true → IfSome (window_of (windows_in windows.now) (lists_of routes.now) leg) (λ w. w.hi < moment) }
    ensures in_time { result ≡ false → IsSomeAnd (window_of (windows_in windows.now) (lists_of routes.now) leg) (λ w. moment ≤ w.hi) }
{
    match latest(windows, routes, leg) {
        Some(hi) => moment > hi,
        None => true,
    }
}
