//! Places at which a round adds points, and the same walks over the network with such a point.
ghost use Rattle.std.specs.Prelude.{◌<◌, ◌≤◌, length};

use fp_flatnet::{Verdict, Windows, direct, feasible, initial};
use fp_longestarcs::Network;
use fp_model::Instance;
use fp_prices::{Leaf, RoundNetwork};
use fp_relaxmodel::{TimedWalk, coarsen};
use fp_session_clashes::{NoMemory, laid_walks, round_places};
use fp_shortarcs::too_short;
use fp_tests_examples::instance_of;
use fp_timenodes::Place;
use std::alloc::Global;
use std::test::Fail;

// S2 waits at A for S4, which comes there at 3, so it comes to B at 6, where S3 has to leave by 5. S1
// comes to B at 4 and may go with any of them.
const MISSED: &str =
    "terminal,A\nterminal,B\nterminal,C\nterminal,D\narc,A,B,3,10,100,0\narc,B,C,4,10,100,0\narc,D,A,3,10,100,0\nshipment,S1,A,C,1,1,20\nshipment,S2,A,C,1,2,20\nshipment,S3,B,C,1,0,9\nshipment,S4,D,B,1,0,20\n";

// The same, where S3 has to leave B by 4.
const EARLY: &str =
    "terminal,A\nterminal,B\nterminal,C\nterminal,D\narc,A,B,3,10,100,0\narc,B,C,4,10,100,0\narc,D,A,3,10,100,0\nshipment,S1,A,C,1,1,20\nshipment,S2,A,C,1,2,20\nshipment,S3,B,C,1,0,8\nshipment,S4,D,B,1,0,20\n";

// The places of a round after the direct plan over the initial points, where all are in time.
fn places_after(
    alloc: Global,
    instance: &Instance,
    clashes: &[Place],
    any: bool,
) -> Result<Option<Vec<Place>>, NoMemory> {
    let Verdict::All = feasible(alloc, instance)? else {
        return Ok(None);
    };
    let plan = direct(alloc, instance)?;
    let windows = Windows::of(alloc, instance)?;
    let points = initial(alloc, instance, &windows)?;
    let network = Network::of(alloc, instance, &points, 0)?;
    let relaxed = coarsen(alloc, instance, &windows, &network, &plan)?;
    let shorts = too_short(alloc, instance, &windows, &network, &relaxed)?;
    let places = round_places(alloc, instance, &network, &shorts, clashes, any)?;
    Ok(Some(places))
}

// A point that stands, no terminal, and a time past the latest due time.
const TAKEN: [Place; 3] = [
    Place { terminal: 1, at: 0 },
    Place { terminal: 4, at: 3 },
    Place {
        terminal: 1,
        at: 21,
    },
];

// The same, and two places that are free, one of them twice.
const MIXED: [Place; 6] = [
    Place { terminal: 1, at: 0 },
    Place { terminal: 4, at: 3 },
    Place {
        terminal: 1,
        at: 21,
    },
    Place { terminal: 1, at: 6 },
    Place { terminal: 0, at: 3 },
    Place { terminal: 1, at: 6 },
];

#[test]
fn places_for_a_round(rt: HostRuntime) -> Result<(), Fail> {
    let alloc = rt.alloc();
    let instance = instance_of(alloc, MISSED)?;
    let free = [Place { terminal: 1, at: 6 }, Place { terminal: 0, at: 3 }];
    let short = [
        Place { terminal: 1, at: 4 },
        Place { terminal: 1, at: 5 },
        Place { terminal: 0, at: 3 },
    ];
    for (clashes, any, want) in [
        (MIXED.as_slice(), true, free.as_slice()),
        (MIXED.as_slice(), false, short.as_slice()),
        (TAKEN.as_slice(), true, short.as_slice()),
    ] {
        let places = places_after(alloc, &instance, clashes, any)?.expect(&rt, "in time");
        assert_eq!(rt; places.as_slice(), want);
    }
    Ok(())
}

// The classes of some walks, one walk after the other.
fn stops_of(alloc: Global, walks: &[TimedWalk]) -> Result<Vec<(u32, u32)>, NoMemory> {
    let mut stops = Vec::new(alloc);
    for walk in walks {
        for stop in &walk.stops {
            stops.push((stop.arc, stop.point))?;
        }
    }
    Ok(stops)
}

// The walks of the direct plan over the initial points, laid over those and another one.
fn laid(
    alloc: Global,
    instance: &Instance,
    place: Place,
) -> Result<Option<Vec<(u32, u32)>>, NoMemory>
    requires few { length instance.now.terminals ≤ 100 }
    requires terminal { place.terminal < length instance.now.terminals }
    requires time { place.at ≤ 100 }
{
    let Verdict::All = feasible(alloc, instance)? else {
        return Ok(None);
    };
    let plan = direct(alloc, instance)?;
    let windows = Windows::of(alloc, instance)?;
    let mut points = initial(alloc, instance, &windows)?;
    let network = Network::of(alloc, instance, &points, 0)?;
    let relaxed = coarsen(alloc, instance, &windows, &network, &plan)?;
    let _added = points.add(alloc, place.terminal, place.at, 1)?;
    let round = RoundNetwork::of(alloc, instance, &points, 1)?;
    let leaf = Leaf::of(alloc, &round, &windows, &[])?;
    match laid_walks(alloc, &leaf, &relaxed.walks)? {
        Some(walks) => Ok(Some(stops_of(alloc, &walks)?)),
        None => Ok(None),
    }
}

#[test]
fn walks_over_a_finer_network(rt: HostRuntime) -> Result<(), Fail> {
    let alloc = rt.alloc();
    for (text, at, want) in [
        // S2 comes to B at 5, and those with which it went on follow it there.
        (
            MISSED,
            5,
            [(0, 1), (1, 5), (0, 2), (1, 5), (1, 5), (2, 0), (0, 2)],
        ),
        // S3, which can't, goes alone.
        (
            EARLY,
            5,
            [(0, 1), (1, 5), (0, 2), (1, 5), (1, 0), (2, 0), (0, 2)],
        ),
        // No class comes to B as late as 6.
        (
            MISSED,
            6,
            [(0, 1), (1, 0), (0, 2), (1, 0), (1, 0), (2, 0), (0, 2)],
        ),
    ] {
        assert!(rt; text.len() < 2000);
        assert!(rt; at <= 100);
        let instance = instance_of(alloc, text)?;
        assert!(rt; instance.terminals().len() > 1 && instance.terminals().len() <= 100);
        let stops = laid(alloc, &instance, Place { terminal: 1, at })?.expect(&rt, "laid");
        assert_eq!(rt; stops.as_slice(), want.as_slice(), "{text} {at}");
    }
    Ok(())
}
