//! The arcs by which the walks of a leaf go.
ghost use Rattle.std.specs.Prelude.{◌≡◌, ◌<◌, ◌^◌, IfOk};
ghost use Rattle.fp_prices_spans.specs.TaggedEdges.{AreArcTags, arc_tag as arc_tag_in};
ghost use Rattle.fp_prices_spans.specs.Ways.{ways_fit as fit_ways, ways_under};

use crate::NoMemory;
use fp_longestarcs::Network;
use fp_model::Instance;
use fp_prices::Leaf;
use fp_tree::ways_of;
use std::alloc::Global;

/// At most so many arcs of a shipment count at a leaf: a search over its walks has a layer for each set of
/// them that it has gone by.
pub const MOST_WAYS: usize = 4;

// The layers of a search by the most arcs.
const MOST_LAYERS: u32 = 16;

/// Whether no sum of prices passes its limit over sixteen times as many points. Takes no memory.
pub fn ways_fit(instance: &Instance) -> bool
    ensures { result ≡ fit_ways instance.now }
{
    match instance.scale().checked_mul(MOST_LAYERS) {
        Some(scale) => instance.fits(scale),
        None => false,
    }
}

/// The arcs by which the walks of a shipment go at a leaf that spans price: the first [`MOST_WAYS`] that the
/// leaf's sides ask the shipment to go by, in their order. None where sums of prices over the layers of a
/// search might pass 127 bits, at a scale of hundreds of millions or with costs near their limits. `NoMemory`
/// only where no memory is found.
pub fn leaf_ways(alloc: Global, leaf: &Leaf, shipment: u32) -> Result<Vec<u32>, NoMemory>
    ensures { IfOk result (λ ways. ways.items
        ≡ ways_under leaf.now.setting.problem leaf.now.sides shipment) }
{
    let mut ways = ways_of(alloc, leaf.sides(), shipment)?;
    if ways.is_empty() || !ways_fit(leaf.round().instance()) {
        return Ok(Vec::new(alloc));
    }
    ways.truncate(MOST_WAYS);
    Ok(ways)
}

// The tag of an edge: the arc of its class, and none for a holding edge.
fn arc_tag(network: &Network, edge: usize) -> Option<u32>
    requires { edge < 2 ^ 32 }
    ensures { result ≡ arc_tag_in network.now edge }
{
    let number = edge as u32;
    if number < network.classes() {
        Some(network.of_class(number).0)
    } else {
        None
    }
}

/// The tag of each of so many edges of a network's graph: the arc of a class, by the class's number, and
/// nothing for a holding edge. `NoMemory` only where no memory is found.
pub(crate) fn arc_tags(
    alloc: Global,
    network: &Network,
    edges: usize,
) -> Result<Vec<Option<u32>>, NoMemory>
    requires { edges < 2 ^ 32 }
    ensures { IfOk result (λ tags. AreArcTags network.now edges tags.items) }
{
    let mut tags = Vec::with_capacity(alloc, edges)?;
    for edge in 0..edges {
        tags.push(arc_tag(network, edge))?;
    }
    Ok(tags)
}
