//! By which ways small leaves are split.

ghost use Rattle.std.specs.Prelude.{◌≤◌, length};

use fp_flatnet::{Windows, initial};
use fp_model::Instance;
use fp_prices::{Leaf, NoMemory, RoundNetwork};
use fp_session_branching::{WayCandidate, way_candidates};
use fp_tests_examples::instance_of;
use fp_tree::{Side, Split};
use std::alloc::Global;
use std::test::Fail;

// From A to D by B or by C, S2 with twice the size of S1.
const DIAMOND: &str =
    "terminal,A\nterminal,B\nterminal,C\nterminal,D\narc,A,B,5,10,100,0\narc,A,C,5,10,80,0\narc,B,D,5,10,100,0\narc,C,D,5,10,90,0\nshipment,S1,A,D,3,0,99\nshipment,S2,A,D,6,0,99\n";

// All of a shipment's walks.
const ALL: u64 = 1 << 20;

// The candidates of a leaf over the initial points with these sides, at most so many.
fn proposed(
    alloc: Global,
    instance: &Instance,
    sides: &[Side],
    used: &[u64],
    most: usize,
) -> Result<Vec<WayCandidate>, NoMemory>
    requires { length instance.now.terminals ≤ 100 }
{
    let windows = Windows::of(alloc, instance)?;
    let points = initial(alloc, instance, &windows)?;
    let round = RoundNetwork::of(alloc, instance, &points, 0)?;
    let leaf = Leaf::of(alloc, &round, &windows, sides)?;
    way_candidates(alloc, &leaf, used, most)
}

// First comes the way at which most is at stake, and at equal scores the one with the lower numbers. A way is left
// out that is used by less than 5 %, or by nearly all; and one by an arc beside which none leaves its tail: no
// other does that leaves B, and none A where the way by the other arc is set.
#[test]
fn orders_of_ways(rt: HostRuntime) -> Result<(), Fail> {
    let alloc = rt.alloc();
    let instance = instance_of(alloc, DIAMOND)?;
    assert!(rt; instance.terminals().len() <= 100);
    let half = ALL / 2;
    let set = Side::Through {
        shipment: 0,
        arc: 1,
    };
    for (sides, used, most, want) in [
        ([].as_slice(), [].as_slice(), 4, [].as_slice()),
        (&[], &[half, half], 4, &[(0, 0), (0, 1)]),
        (&[], &[half, half], 1, &[(0, 0)]),
        (&[], &[half, half], 0, &[]),
        // Three tenths of 100 are less than a half of 80.
        (&[], &[3 * ALL / 10, half], 4, &[(0, 1), (0, 0)]),
        (&[], &[half, half, half, half], 4, &[(0, 0), (0, 1)]),
        (
            &[],
            &[half, half, 0, 0, half, half],
            4,
            &[(1, 0), (1, 1), (0, 0), (0, 1)],
        ),
        (&[], &[52_428, ALL - 52_428], 4, &[]),
        (&[], &[52_429, ALL - 52_429], 4, &[(0, 0), (0, 1)]),
        (&[], &[ALL, 2 * ALL], 4, &[]),
        (&[set], &[half, half], 4, &[]),
        (&[set], &[half, half, 0, 0, half], 4, &[(1, 0)]),
    ] {
        let list = proposed(alloc, &instance, sides, used, most)?;
        assert!(rt; list.len() == want.len());
        for (candidate, (shipment, arc)) in list.iter().zip(want) {
            let split = Split::ByWay {
                shipment: *shipment,
                arc: *arc,
            };
            assert!(rt; candidate.split() == split);
        }
    }
    Ok(())
}
