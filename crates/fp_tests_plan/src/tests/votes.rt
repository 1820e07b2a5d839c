//! Votes for places where least walks clash with the sets that they are charged with.
ghost use Rattle.std.specs.Prelude.{◌≤◌, All, length};
ghost use Rattle.fp_timenodes.specs.Points.{IsPlace};

use fp_duals_clashes::{ClashVotes, Clashes, Ground, NoMemory};
use fp_duals_layouts::{Charges, Layout, SpanPrices};
use fp_duals_nets::{LeafNets, LentNets, least_walks};
use fp_flatnet::Windows;
use fp_model::Instance;
use fp_prices::{Leaf, RoundNetwork};
use fp_tests_examples::instance_of;
use fp_timenodes::{Place, Points};
use std::alloc::Global;
use std::test::Fail;

// S1 goes over B to C; S2 is ready at 5 and shares A to B; S3 shares B to C and has to leave by 14. So
// S1 and S2 come to B one unit after that.
const LATE: &str =
    "terminal,A\nterminal,B\nterminal,C\narc,A,B,10,10,100,0\narc,B,C,4,10,100,0\nshipment,S1,A,C,1,0,40\nshipment,S2,A,B,1,5,40\nshipment,S3,B,C,1,0,18\n";

// The same, where S3 has to leave by 15.
const IN_TIME: &str =
    "terminal,A\nterminal,B\nterminal,C\narc,A,B,10,10,100,0\narc,B,C,4,10,100,0\nshipment,S1,A,C,1,0,40\nshipment,S2,A,B,1,5,40\nshipment,S3,B,C,1,0,19\n";

// The same as at first, where B holds freight for 1 and S3 has to leave by 15.
const HELD: &str =
    "terminal,A\nterminal,B,1\nterminal,C\narc,A,B,10,10,100,0\narc,B,C,4,10,100,0\nshipment,S1,A,C,1,0,40\nshipment,S2,A,B,1,5,40\nshipment,S3,B,C,1,0,19\n";

// The same as at first, where S2 has to leave by 1 before S1 is ready, so that they never share a truck.
const APART: &str =
    "terminal,A\nterminal,B\nterminal,C\narc,A,B,10,10,100,0\narc,B,C,4,10,100,0\nshipment,S1,A,C,1,2,40\nshipment,S2,A,B,1,0,11\nshipment,S3,B,C,1,0,18\n";

// S1 goes over B and C to D; S2 makes it wait at A for 5, S3 at B for 20, and S4 has to leave C by 23.
const WAITED: &str =
    "terminal,A\nterminal,B\nterminal,C\nterminal,D\narc,A,B,10,10,100,0\narc,B,C,4,10,100,0\narc,C,D,4,10,100,0\nshipment,S1,A,D,1,0,60\nshipment,S2,A,B,1,5,60\nshipment,S3,B,C,1,20,60\nshipment,S4,C,D,1,0,27\n";

// The first and the last moment at which a shipment can leave by an arc.
fn moments_of(leaf: &Leaf, shipment: u32, arc: u32) -> (u32, u32) {
    let instance = leaf.round().instance();
    let known = (shipment as usize) < instance.shipments().len()
        && (arc as usize) < instance.arcs().len();
    if known && let Some(window) = leaf.windows().window(shipment, arc) {
        return window;
    }
    (0, u32::MAX)
}

// Spans over whole arcs, whose payers are told apart by their windows.
fn laid(alloc: Global, leaf: &Leaf, model: &mut LeafNets) -> Result<Layout, NoMemory> {
    let mut layout = Layout::of_arcs(alloc, model)?;
    let mut moments = Vec::new(alloc);
    for payer in &layout.payers {
        moments.push(match layout.spans.get(payer.span) {
            Some(span) => moments_of(leaf, payer.shipment, span.run.arc),
            None => (0, u32::MAX),
        })?;
    }
    layout.set_moments(&moments)?;
    Ok(layout)
}

// Prices by which each payer pays three fifths of a truck, so that two who can share one are charged.
fn dear(alloc: Global, layout: &Layout) -> Result<SpanPrices, NoMemory> {
    let mut prices = SpanPrices::of(alloc, layout)?;
    for (weight, payer) in prices.weights.iter_mut().zip(layout.payers.iter()) {
        *weight = match layout.spans.get(payer.span) {
            Some(span) => (span.truck / 5).saturating_mul(3),
            None => 0,
        };
    }
    Ok(prices)
}

// The edges of least walks of all shipments, one walk after the other.
fn walk_edges(alloc: Global, model: &mut LeafNets) -> Result<Vec<usize>, NoMemory> {
    let shared = least_walks(alloc, model, 1, 0)?;
    let mut edges = Vec::new(alloc);
    for walk in &shared.walks {
        edges.extend_from_slice(walk)?;
    }
    Ok(edges)
}

// Lets walks vote once, where payers of a layout are charged so.
fn let_vote(
    alloc: Global,
    layout: &Layout,
    model: &LeafNets,
    walks: &[usize],
    charges: &Charges,
    votes: &mut ClashVotes,
) -> Result<(), NoMemory> {
    let mut clashes = Clashes::of(alloc, layout)?;
    let mut ground = Ground {
        classes: &model.classes,
        arcs: &model.arcs,
        votes,
    };
    clashes.vote(layout, &model.nets, walks, charges, &mut ground)
}

// What spans are charged by such prices, and the edges of least walks under them.
fn charged(
    alloc: Global,
    layout: &Layout,
    model: &mut LeafNets,
) -> Result<(Charges, Vec<usize>), NoMemory> {
    let prices = dear(alloc, layout)?;
    let mut charges = Charges::of(alloc, layout, 512, false)?;
    let _sum = charges.find_all(layout, &prices)?;
    prices.set_costs(layout, &mut model.nets);
    let walks = walk_edges(alloc, model)?;
    Ok((charges, walks))
}

// The votes of least walks by such prices. The nets are those of the leaf.
fn votes_by(alloc: Global, leaf: &Leaf, model: &mut LeafNets) -> Result<ClashVotes, NoMemory> {
    let layout = laid(alloc, leaf, model)?;
    let (charges, walks) = charged(alloc, &layout, model)?;
    let mut votes = ClashVotes::of(alloc, leaf.round().instance())?;
    let_vote(alloc, &layout, model, &walks, &charges, &mut votes)?;
    Ok(votes)
}

// The places that get votes by such prices, where each terminal has the point 0 alone.
fn places_of(alloc: Global, instance: &Instance) -> Result<Vec<Place>, NoMemory>
    requires few { length instance.now.terminals ≤ 100 }
{
    let windows = Windows::of(alloc, instance)?;
    let points = Points::new(alloc, instance.terminals().len() as u32, &[])?;
    let round = RoundNetwork::of(alloc, instance, &points, 0)?;
    let leaf = Leaf::of(alloc, &round, &windows, &[])?;
    let mut nets = LentNets::new();
    let votes = votes_by(alloc, &leaf, nets.within(alloc, &leaf)?)?;
    votes.places(alloc, &round, 8)
}

#[test]
fn a_walk_clashes_by_one_unit(rt: HostRuntime) -> Result<(), Fail> {
    let alloc = rt.alloc();
    let chain = [
        Place { terminal: 0, at: 5 },
        Place {
            terminal: 1,
            at: 15,
        },
    ];
    let held = [
        Place { terminal: 0, at: 5 },
        Place {
            terminal: 1,
            at: 16,
        },
    ];
    let waited = [
        Place {
            terminal: 1,
            at: 20,
        },
        Place {
            terminal: 2,
            at: 24,
        },
    ];
    for (text, want) in [
        (LATE, chain.as_slice()),
        (IN_TIME, [].as_slice()),
        (HELD, held.as_slice()),
        (APART, [].as_slice()),
        (WAITED, waited.as_slice()),
    ] {
        assert!(rt; text.len() < 2000);
        let instance = instance_of(alloc, text)?;
        assert!(rt; instance.terminals().len() <= 100);
        let places = places_of(alloc, &instance)?;
        assert_eq!(rt; places.as_slice(), want, "{text}");
    }
    Ok(())
}

// A chain, and another that shares a place with it.
const FIRST: [Place; 2] = [
    Place { terminal: 0, at: 5 },
    Place {
        terminal: 1,
        at: 15,
    },
];

const OTHER: [Place; 2] = [
    Place {
        terminal: 1,
        at: 15,
    },
    Place {
        terminal: 2,
        at: 20,
    },
];

// Votes for the chains, for the other 9 and for the first 5, and so much more later.
fn voted(alloc: Global, instance: &Instance, more: u64) -> Result<ClashVotes, NoMemory> {
    let mut votes = ClashVotes::of(alloc, instance)?;
    votes.add(&FIRST, 5)?;
    votes.add(&OTHER, 9)?;
    votes.add(&FIRST, more)?;
    Ok(votes)
}

// A network with a point at 0 at each terminal, and at some places.
fn network_at<'a>(
    alloc: Global,
    instance: &'a Instance,
    first: &[Place],
) -> Result<RoundNetwork<'a>, NoMemory>
    requires few { length instance.now.terminals ≤ 100 }
    requires places { All (IsPlace (length instance.now.terminals)) first.now }
    requires short { length first.now ≤ 2 }
{
    let points = Points::new(alloc, instance.terminals().len() as u32, first)?;
    RoundNetwork::of(alloc, instance, &points, 0)
}

#[test]
fn places_of_the_dearest_chains_come_first(rt: HostRuntime) -> Result<(), Fail> {
    let alloc = rt.alloc();
    let instance = instance_of(alloc, LATE)?;
    assert!(rt; instance.terminals().len() == 3);
    let round = network_at(alloc, &instance, &[])?;
    let [a, b] = FIRST;
    let [_, c] = OTHER;
    for (more, most, want) in [
        (5, 8, [a, b, c].as_slice()),
        (3, 8, [b, c, a].as_slice()),
        (5, 2, [a, b].as_slice()),
        (3, 2, [b, c].as_slice()),
        (5, 0, [].as_slice()),
    ] {
        let votes = voted(alloc, &instance, more)?;
        let places = votes.places(alloc, &round, most)?;
        assert_eq!(rt; places.as_slice(), want, "{more} {most}");
    }
    Ok(())
}

#[test]
fn points_of_the_network_are_no_places(rt: HostRuntime) -> Result<(), Fail> {
    let alloc = rt.alloc();
    let instance = instance_of(alloc, LATE)?;
    assert!(rt; instance.terminals().len() == 3);
    let [a, b] = FIRST;
    let [_, c] = OTHER;
    for (first, most, want) in [
        ([b].as_slice(), 2, [a, c].as_slice()),
        ([a].as_slice(), 2, [b, c].as_slice()),
        ([a, b].as_slice(), 8, [c].as_slice()),
    ] {
        assert!(rt; first.len() <= 2);
        for place in first {
            assert!(rt; place.terminal < 3 && place.at <= 100);
        }
        let round = network_at(alloc, &instance, first)?;
        let votes = voted(alloc, &instance, 5)?;
        let places = votes.places(alloc, &round, most)?;
        assert_eq!(rt; places.as_slice(), want, "{first:?} {most}");
    }
    Ok(())
}
