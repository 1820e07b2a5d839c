//! Which shipments small leaves are split by.

ghost use Rattle.std.specs.Prelude.{◌≤◌, length};

use fp_flatnet::{Windows, initial};
use fp_longestarcs::{Stop, TimedWalk};
use fp_model::Instance;
use fp_prices::{Kind, Leaf, NoMemory, RoundNetwork};
use fp_session_branching::{Candidate, candidates};
use fp_tests_examples::{DETOUR, LINE, TRIO, instance_of};
use fp_tree::Split;
use std::alloc::Global;
use std::test::Fail;

// Two shipments that go from A to C, and might go to B and back before.
const RETURN: &str =
    "terminal,A\nterminal,B\nterminal,C\narc,A,B,5,6,60,0\narc,B,A,5,6,60,0\narc,A,C,5,6,60,0\nshipment,S1,A,C,5,0,40\nshipment,S2,A,C,5,0,40\n";

// A walk by these arcs, which leaves at 0 everywhere.
fn walk_by(alloc: Global, arcs: &[u32]) -> Result<TimedWalk, NoMemory> {
    let mut stops = Vec::new(alloc);
    for arc in arcs {
        stops.push(Stop {
            arc: *arc,
            point: 0,
        })?;
    }
    Ok(TimedWalk { stops })
}

// The candidates of a leaf without sides over the initial points, by linear prices and walks of least
// cost, at most so many. The last shipment goes by these arcs instead, if there are any.
fn proposed(
    alloc: Global,
    instance: &Instance,
    most: usize,
    arcs: &[u32],
) -> Result<Vec<Candidate>, NoMemory>
    requires { length instance.now.terminals ≤ 100 }
{
    let windows = Windows::of(alloc, instance)?;
    let points = initial(alloc, instance, &windows)?;
    let round = RoundNetwork::of(alloc, instance, &points, 0)?;
    let leaf = Leaf::of(alloc, &round, &windows, &[])?;
    let mut walks = match leaf.walks(alloc, &[], Kind::Linear, false)? {
        Some(walks) => walks,
        None => return Ok(Vec::new(alloc)),
    };
    if !arcs.is_empty() {
        let _ = walks.pop();
        walks.push(walk_by(alloc, arcs)?)?;
    }
    candidates(alloc, &leaf, &[], Kind::Linear, false, &walks, most)
}

#[test]
fn proposals(rt: HostRuntime) -> Result<(), Fail> {
    let alloc = rt.alloc();
    for (text, arcs, most, shipments) in [
        // Each chain reaches its destination.
        (LINE, [].as_slice(), 4, [].as_slice()),
        (DETOUR, &[], 4, &[0]),
        (DETOUR, &[], 0, &[]),
        (TRIO, &[], 4, &[0, 1, 2]),
        (TRIO, &[], 2, &[0, 1]),
        (RETURN, &[], 4, &[0, 1]),
        // A walk that returns to A comes first.
        (RETURN, &[0, 1, 2], 4, &[1, 0]),
        (RETURN, &[0, 1, 2], 1, &[1]),
    ] {
        assert!(rt; text.len() < 2000);
        let instance = instance_of(alloc, text)?;
        assert!(rt; instance.terminals().len() <= 100);
        let list = proposed(alloc, &instance, most, arcs)?;
        assert!(rt; list.len() == shipments.len(), "{most}: {text}");
        for (candidate, shipment) in list.iter().zip(shipments) {
            let is = matches!(candidate.split, Split::ByArc { .. });
            assert!(rt; candidate.shipment == *shipment && candidate.terminal == 0 && is);
        }
    }
    Ok(())
}
