//! By the trucks of which arcs small leaves are split.

ghost use Rattle.std.specs.Prelude.{◌≤◌, length};

use crate::tests::gifts::SIXES;
use fp_flatnet::{Windows, initial};
use fp_model::Instance;
use fp_prices::{Leaf, NoMemory, RoundNetwork};
use fp_session_branching::{TruckCandidate, truck_candidates};
use fp_tests_examples::instance_of;
use fp_tree::{Side, Split};
use std::alloc::Global;
use std::test::Fail;

// Three shipments of 6, and trucks of 10 both ways: there for 60 each, back for 120.
const BOTH: &str =
    "terminal,A\nterminal,B\narc,A,B,5,10,60,0\narc,B,A,5,10,120,0\nshipment,S1,A,B,6,0,9\nshipment,S2,A,B,6,0,9\nshipment,S3,A,B,6,0,9\n";

// The end of a run over the whole time.
const WHOLE: u32 = 100_001;

// A whole truck, in the parts in which it is paid for.
const TRUCK: u64 = 1 << 20;

// More than so many trucks leave by the first arc before this time.
fn more_than(trucks: u32, until: u32) -> Side {
    Side::MoreThan {
        arc: 0,
        point: 0,
        until,
        trucks,
    }
}

// At most so many do.
fn at_most(trucks: u32, until: u32) -> Side {
    Side::AtMost {
        arc: 0,
        point: 0,
        until,
        trucks,
    }
}

// The candidates of a leaf over the initial points with these sides, at most so many.
fn proposed(
    alloc: Global,
    instance: &Instance,
    sides: &[Side],
    paid: &[u64],
    most: usize,
) -> Result<Vec<TruckCandidate>, NoMemory>
    requires { length instance.now.terminals ≤ 100 }
{
    let windows = Windows::of(alloc, instance)?;
    let points = initial(alloc, instance, &windows)?;
    let round = RoundNetwork::of(alloc, instance, &points, 0)?;
    let leaf = Leaf::of(alloc, &round, &windows, sides)?;
    truck_candidates(alloc, &leaf, paid, most)
}

// An arc is left out where its trucks are paid for almost whole, and where the split doesn't divide:
// below the fewest that the sides leave, or at the most. Sides of another run don't count.
#[test]
fn numbers_of_trucks(rt: HostRuntime) -> Result<(), Fail> {
    let alloc = rt.alloc();
    let instance = instance_of(alloc, SIXES)?;
    assert!(rt; instance.terminals().len() <= 100);
    for (sides, paid, want) in [
        ([].as_slice(), 3 * TRUCK / 2, Some(1)),
        (&[], TRUCK / 2, Some(0)),
        // Each shipment alone has three trucks.
        (&[], 5 * TRUCK / 2, Some(2)),
        (&[], 7 * TRUCK / 2, None),
        (&[], u64::MAX - TRUCK / 2, None),
        // Less than 3 % from a whole number.
        (&[], TRUCK, None),
        (&[], TRUCK + 31_457, None),
        (&[], TRUCK + 31_458, Some(1)),
        (&[], 2 * TRUCK - 31_457, None),
        (&[], 2 * TRUCK - 31_458, Some(1)),
        (&[more_than(1, WHOLE)], 3 * TRUCK / 2, None),
        (&[more_than(1, WHOLE)], 12 * TRUCK / 5, Some(2)),
        (&[at_most(2, WHOLE)], 12 * TRUCK / 5, None),
        (&[at_most(2, WHOLE)], 3 * TRUCK / 2, Some(1)),
        (&[at_most(1, WHOLE), at_most(2, WHOLE)], 3 * TRUCK / 2, None),
        (&[more_than(1, 100)], 3 * TRUCK / 2, Some(1)),
        (&[at_most(1, 100)], 3 * TRUCK / 2, Some(1)),
    ] {
        let list = proposed(alloc, &instance, sides, [paid].as_slice(), 4)?;
        assert_eq!(rt;
            list.first().copied(),
            want.map(|trucks| TruckCandidate { arc: 0, trucks })
        );
        assert!(rt; list.len() <= 1);
    }
    Ok(())
}

// First comes the arc of whose cost most lies from the nearest whole number, and at equal scores the
// one with the lower number. What isn't told is not paid for.
#[test]
fn orders_of_arcs(rt: HostRuntime) -> Result<(), Fail> {
    let alloc = rt.alloc();
    let instance = instance_of(alloc, BOTH)?;
    assert!(rt; instance.terminals().len() <= 100);
    for (paid, most, arcs) in [
        ([].as_slice(), 4, [].as_slice()),
        (&[3 * TRUCK / 2], 4, &[0]),
        (&[3 * TRUCK / 2, 3 * TRUCK / 2], 4, &[1, 0]),
        (&[3 * TRUCK / 2, 3 * TRUCK / 2], 1, &[1]),
        (&[3 * TRUCK / 2, 3 * TRUCK / 2], 0, &[]),
        (&[3 * TRUCK / 2, 6 * TRUCK / 5], 4, &[0, 1]),
        (&[3 * TRUCK / 2, 6 * TRUCK / 5], 1, &[0]),
        (&[3 * TRUCK / 2, 5 * TRUCK / 4], 4, &[0, 1]),
        (&[3 * TRUCK / 2, 7 * TRUCK / 4], 1, &[0]),
        (&[7 * TRUCK / 2, 3 * TRUCK / 2], 4, &[1]),
    ] {
        let list = proposed(alloc, &instance, &[], paid, most)?;
        assert!(rt; list.len() == arcs.len());
        for (candidate, arc) in list.iter().zip(arcs) {
            let split = Split::ByTrucks {
                arc: *arc,
                point: 0,
                until: WHOLE,
                most: 1,
            };
            assert!(rt; candidate.split() == split);
        }
    }
    Ok(())
}
