//! The classes of two shipments over an arc, under no side and under sides.

use fp_allowed::{Allowed, ChainEnd, departures};
use fp_flatnet::{Windows, initial};
use fp_longestarcs::Network;
use fp_tests_examples::{PAIR, SLOW_WAY, instance_of};
use fp_tree::{Side, Split};
use std::alloc::Global;
use std::test::Fail;

// At most so many trucks by the arc at a point or later and before a time.
fn at_most(point: u32, until: u32, trucks: u32) -> Side {
    Side::AtMost {
        arc: 0,
        point,
        until,
        trucks,
    }
}

#[test]
fn one_arc_under_sides(rt: HostRuntime) -> Result<(), Fail> {
    let alloc = rt.alloc();
    let instance = instance_of(alloc, PAIR)?;
    let windows = Windows::of(alloc, &instance)?;
    let network = Network::of(alloc, &instance, &initial(alloc, &instance, &windows)?, 0)?;
    assert!(rt; network.classes() == 2);
    assert!(rt; instance.shipments().len() == 2);
    let allowed = Allowed::new(&instance, &windows, &network);
    let before = Side::Before {
        shipment: 0,
        terminal: 0,
        at: 3,
    };
    let from = Side::From {
        shipment: 0,
        terminal: 0,
        at: 3,
    };
    let early = Side::Before {
        shipment: 0,
        terminal: 0,
        at: 2,
    };
    let later = Side::From {
        shipment: 0,
        terminal: 0,
        at: 2,
    };
    let without = Side::Without {
        shipment: 0,
        arc: 0,
    };
    let elsewhere = Side::Only {
        shipment: 0,
        arc: 7,
        tail: 1,
    };
    let no_early = at_most(0, 3, 0);
    let no_first = at_most(0, 2, 0);
    let no_middle = at_most(2, 4, 0);
    let no_late = at_most(3, 5, 0);
    let no_last = at_most(5, 8, 0);
    let some = Side::MoreThan {
        arc: 0,
        point: 0,
        until: 9,
        trucks: 0,
    };
    let several = ChainEnd::Several { terminal: 0 };
    let stuck = ChainEnd::Stuck { terminal: 0 };
    let at_three = Some(Split::ByTime {
        shipment: 0,
        terminal: 0,
        at: 3,
    });
    for (shipment, sides, want) in [
        (0, [].as_slice(), ((true, true), several, at_three, 6)),
        (
            1,
            [].as_slice(),
            ((false, true), ChainEnd::Reached, None, 5),
        ),
        (
            0,
            [before].as_slice(),
            ((true, false), ChainEnd::Reached, None, 3),
        ),
        (
            0,
            [from].as_slice(),
            ((false, true), ChainEnd::Reached, None, 3),
        ),
        (
            0,
            [early, later].as_slice(),
            ((false, false), stuck, None, 0),
        ),
        (0, [without].as_slice(), ((false, false), stuck, None, 0)),
        (
            0,
            [elsewhere].as_slice(),
            ((true, true), several, at_three, 6),
        ),
        (
            1,
            [before].as_slice(),
            ((false, true), ChainEnd::Reached, None, 5),
        ),
        // No truck from 0 until 3 leaves the class from 0 no moment, until 2 it leaves one.
        (
            0,
            [no_early].as_slice(),
            ((false, true), ChainEnd::Reached, None, 3),
        ),
        (
            0,
            [no_first].as_slice(),
            ((true, true), several, at_three, 4),
        ),
        (
            0,
            [no_middle].as_slice(),
            ((true, true), several, at_three, 4),
        ),
        // Two runs together leave the second shipment nothing, each alone leaves it something.
        (
            1,
            [no_late].as_slice(),
            ((false, true), ChainEnd::Reached, None, 3),
        ),
        (
            1,
            [no_late, no_last].as_slice(),
            ((false, false), stuck, None, 0),
        ),
        // At most 1 and more than 0 forbid no class.
        (
            0,
            [at_most(0, 9, 1), some].as_slice(),
            ((true, true), several, at_three, 6),
        ),
    ] {
        assert!(rt; shipment < 2);
        let row = allowed.row(alloc, shipment, sides)?;
        let end = allowed.forced(alloc, shipment, &row)?.end;
        let split = allowed.choice(shipment, &row, 0);
        let left = departures(alloc, &instance, &windows, shipment, 0, sides)?;
        assert_eq!(rt;
            ((row.get(0), row.get(1)), end, split, left),
            want,
            "shipment {shipment} under {} sides",
            sides.len()
        );
    }
    Ok(())
}

// From A to D by B or by C.
const DIAMOND: &str =
    "terminal,A\nterminal,B\nterminal,C\nterminal,D\narc,A,B,5,10,100,0\narc,A,C,5,10,80,0\narc,B,D,5,10,100,0\narc,C,D,5,10,90,0\nshipment,S1,A,D,6,0,99\nshipment,S2,A,D,6,0,99\n";

// Which of the four arcs have an allowed class for a shipment under sides, and whether S1's way by each of them
// divides.
fn ways_under(
    alloc: Global,
    shipment: u32,
    sides: &[Side],
) -> Result<Option<([bool; 4], [bool; 4])>, Fail> {
    let instance = instance_of(alloc, DIAMOND)?;
    let windows = Windows::of(alloc, &instance)?;
    if instance.terminals().len() > 100 || instance.arcs().len() != 4 {
        return Ok(None);
    }
    let network = Network::of(alloc, &instance, &initial(alloc, &instance, &windows)?, 0)?;
    let allowed = Allowed::new(&instance, &windows, &network);
    if shipment as usize >= instance.shipments().len() {
        return Ok(None);
    }
    let row = allowed.row(alloc, shipment, sides)?;
    let mut arcs = [false; 4];
    let mut ways = [false; 4];
    for class in 0..network.classes() {
        let (arc, _) = network.of_class(class);
        if row.get(class)
            && let Some(has) = arcs.get_mut(arc as usize)
        {
            *has = true;
        }
    }
    for (arc, divides) in ways.iter_mut().enumerate() {
        if arc < instance.arcs().len() {
            *divides = allowed.way(shipment, &row, arc as u32).is_some();
        }
    }
    Ok(Some((arcs, ways)))
}

// By a way a shipment goes by no other arc that leaves the same terminal or enters the same one. It divides
// where another arc leaves the same terminal.
#[test]
fn ways_of_a_diamond(rt: HostRuntime) -> Result<(), Fail> {
    let alloc = rt.alloc();
    let both = [true, true, false, false];
    for (shipment, arc, arcs, ways) in [
        (0, 0, [true, false, true, true], [false; 4]),
        (0, 1, [false, true, true, true], [false; 4]),
        (0, 2, [true, true, true, false], both),
        (0, 3, [true, true, false, true], both),
        (1, 0, [true; 4], both),
    ] {
        let through = Side::Through { shipment: 0, arc };
        let found = ways_under(alloc, shipment, [through].as_slice())?;
        assert!(rt; found == Some((arcs, ways)), "{shipment} {arc}");
    }
    Ok(())
}

// The heads on the slow way with a point of C at a time: of the class from B at 0, and for S1; of the straight
// class for S1; of the class from B for S2.
fn heads_with(alloc: Global, at: u32) -> Result<Option<(u32, u32, u32, u32)>, Fail> {
    let instance = instance_of(alloc, SLOW_WAY)?;
    let windows = Windows::of(alloc, &instance)?;
    if instance.terminals().len() != 4 || instance.shipments().len() != 2 || at > 100 {
        return Ok(None);
    }
    let mut points = initial(alloc, &instance, &windows)?;
    points.add(alloc, 2, at, 1)?;
    let network = Network::of(alloc, &instance, &points, 1)?;
    let allowed = Allowed::new(&instance, &windows, &network);
    if network.classes() < 3 {
        return Ok(None);
    }
    let (straight, start) = network.of_class(0);
    let (way, begin) = network.of_class(2);
    if (straight, start, way, begin) != (0, 0, 2, 0) {
        return Ok(None);
    }
    Ok(Some((
        network.head(way, begin),
        allowed.head(0, way, begin),
        allowed.head(0, straight, start),
        allowed.head(1, way, begin),
    )))
}

// S1 never leaves B before 10, so from there it comes to the greatest point of C that isn't after 20,
// where the class of 0 alone comes to the one that isn't after 10. The straight arc's window begins
// at its point, and S2 has no window from B.
#[test]
fn heads_for_a_shipment(rt: HostRuntime) -> Result<(), Fail> {
    let alloc = rt.alloc();
    assert_eq!(rt; heads_with(alloc, 16)?, Some((10, 16, 10, 10)));
    assert_eq!(rt; heads_with(alloc, 20)?, Some((10, 20, 10, 10)));
    assert_eq!(rt; heads_with(alloc, 21)?, Some((10, 10, 10, 10)));
    Ok(())
}

// The first and the last moment at which a shipment can leave by the only arc under sides.
fn window_under(alloc: Global, shipment: u32, sides: &[Side]) -> Result<Option<(u32, u32)>, Fail> {
    let instance = instance_of(alloc, PAIR)?;
    let windows = Windows::of(alloc, &instance)?;
    let network = Network::of(alloc, &instance, &initial(alloc, &instance, &windows)?, 0)?;
    let allowed = Allowed::new(&instance, &windows, &network);
    if shipment as usize >= instance.shipments().len() {
        return Ok(None);
    }
    let row = allowed.windows_under(alloc, shipment, sides)?;
    match row.first() {
        Some(Some(window)) => Ok(Some((window.lo, window.hi))),
        _ => Ok(None),
    }
}

// S1 can leave from 0 to 5, S2 from 3 to 7. What lies between two moments that are left doesn't count.
#[test]
fn windows_under_sides(rt: HostRuntime) -> Result<(), Fail> {
    let alloc = rt.alloc();
    let before = Side::Before {
        shipment: 0,
        terminal: 0,
        at: 3,
    };
    let from = Side::From {
        shipment: 0,
        terminal: 0,
        at: 3,
    };
    let without = Side::Without {
        shipment: 0,
        arc: 0,
    };
    for (shipment, sides, want) in [
        (0, [].as_slice(), Some((0, 5))),
        (0, [before].as_slice(), Some((0, 2))),
        (0, [from].as_slice(), Some((3, 5))),
        (0, [before, from].as_slice(), None),
        (0, [without].as_slice(), None),
        (0, [at_most(0, 3, 0)].as_slice(), Some((3, 5))),
        (0, [at_most(2, 4, 0)].as_slice(), Some((0, 5))),
        (0, [at_most(0, 9, 1)].as_slice(), Some((0, 5))),
        (1, [before].as_slice(), Some((3, 7))),
        (1, [at_most(5, 8, 0)].as_slice(), Some((3, 4))),
        (1, [at_most(3, 5, 0), at_most(5, 8, 0)].as_slice(), None),
    ] {
        assert_eq!(rt; window_under(alloc, shipment, sides)?, want);
    }
    Ok(())
}
