//! Look-ups among points in ascending order.
ghost use Rattle.std.specs.Prelude.{◌≡◌};
ghost use Rattle.fp_timenodes.specs.Floor.{floor_point};
ghost use Rattle.fp_base_lists.specs.Membership.{list_has};
ghost use Rattle.fp_longestarcs.specs.Ascending.{ArePoints};

use fp_base_lists::place_among;

// Whether the time is one of the points.
pub(crate) fn is_among(points: &[u32], at: u32) -> bool
    requires { ArePoints points.now }
    ensures { result ≡ list_has points.now at }
{
    let place = place_among(points, at);
    place < points.len() && points[place] == at
}

// The greatest of the points that is not after the time.
pub(crate) fn floor_among(points: &[u32], at: u32) -> u32
    requires { ArePoints points.now }
    ensures { result ≡ floor_point points.now 1 at }
{
    let place = place_among(points, at);
    if place < points.len() && points[place] == at {
        return at;
    }
    points[place - 1]
}
