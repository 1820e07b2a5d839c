//! Generates an instance from a number.
ghost use Rattle.std.specs.Prelude.{◌≡◌, ◌+◌, ◌*◌, ◌<◌, ◌≤◌, ◌≢◌, IfOk, OnOk, length};
ghost use Rattle.fp_model.specs.declared.limits.TheConstants.{MOST_SHIPMENTS, MOST_TERMINALS};
ghost use Rattle.fp_reader.specs.ArcDraws.{is_joined, number_after_arc, with_drawn_arc};
ghost use Rattle.fp_reader.specs.Generator.{drawn_arc, drawn_arcs, drawn_shipment, drawn_shipments, generated, number_after, ring_ends};

use crate::NoMemory;
use crate::generation::draws::Draws;
use crate::generation::ordinal_names::{shipment_name, terminal_names};
use fp_model::limits::{MOST_SHIPMENTS, MOST_TERMINALS};
use fp_model::{Arc, Instance, Shipment};
use std::alloc::Global;

// Whether an arc goes from the one terminal to the other.
fn is_joined(arcs: &[Arc], from: u32, to: u32) -> bool
    ensures { result ≡ is_joined arcs.now (from, to) }
{
    arcs.iter().any(|arc| from == arc.from && to == arc.to)
}

// The arc from the one terminal to the other, of four draws.
fn draw_arc(draws: &mut Draws, from: u32, to: u32) -> Arc
    ensures arc { result ≡ drawn_arc draws.old (from, to) }
    ensures next { draws.new ≡ number_after draws.old 4 }
{
    let time = 60 + draws.draw(241);
    let capacity = 10 + u64::from(draws.draw(11));
    let truck = 100 + u64::from(draws.draw(101));
    let freight = u64::from(draws.draw(3));
    Arc {
        from,
        to,
        time,
        capacity,
        truck,
        freight,
    }
}

// Adds the arc from the one terminal to the other. Where it exists already, nothing is drawn.
fn add_arc(draws: &mut Draws, arcs: &mut Vec<Arc>, from: u32, to: u32) -> Result<(), NoMemory>
    ensures arcs { OnOk result (arcs.new.items ≡ with_drawn_arc draws.old arcs.old.items (from, to)) }
    ensures next { OnOk result (draws.new ≡ number_after_arc draws.old arcs.old.items (from, to)) }
{
    if !is_joined(arcs, from, to) {
        arcs.push(draw_arc(draws, from, to))?;
    }
    Ok(())
}

// The arcs from each terminal to the next one, to the one before, and to the one half way round the
// ring of all terminals.
fn draw_arcs(alloc: Global, draws: &mut Draws, terminals: u32) -> Result<Vec<Arc>, NoMemory>
    requires terminals { (2 ≤ terminals) × (terminals ≤ MOST_TERMINALS) }
    ensures arcs { IfOk result (λ arcs. arcs.items ≡ drawn_arcs draws.old (ring_ends terminals)) }
    ensures next { OnOk result (draws.new ≡ number_after draws.old (4 * length (ring_ends terminals))) }
{
    let mut arcs = Vec::new(alloc);
    for from in 0..terminals {
        add_arc(draws, &mut arcs, from, (from + 1) % terminals)?;
        add_arc(draws, &mut arcs, from, (from + (terminals - 1)) % terminals)?;
        add_arc(draws, &mut arcs, from, (from + terminals / 2) % terminals)?;
    }
    Ok(arcs)
}

// The shipment with a number, of five draws.
fn draw_shipment(
    alloc: Global,
    draws: &mut Draws,
    terminals: u32,
    number: u32,
) -> Result<Shipment, NoMemory>
    requires terminals { (2 ≤ terminals) × (terminals ≤ MOST_TERMINALS) }
    requires number { number < MOST_SHIPMENTS }
    ensures shipment { IfOk result (λ s. s ≡ drawn_shipment terminals draws.old number) }
    ensures next { OnOk result (draws.new ≡ number_after draws.old 5) }
{
    let from = draws.draw(terminals);
    let to = (from + 1 + draws.draw(terminals - 1)) % terminals;
    let size = 1 + u64::from(draws.draw(12));
    let release = draws.draw(5_000);
    let due = release + 300 * terminals + draws.draw(2_000);
    Ok(Shipment {
        name: shipment_name(alloc, number)?,
        from,
        to,
        size,
        release,
        due,
    })
}

// So many shipments.
fn draw_shipments(
    alloc: Global,
    draws: &mut Draws,
    terminals: u32,
    count: u32,
) -> Result<Vec<Shipment>, NoMemory>
    requires terminals { (2 ≤ terminals) × (terminals ≤ MOST_TERMINALS) }
    requires count { count ≤ MOST_SHIPMENTS }
    ensures { IfOk result (λ shipments. shipments.items ≡ drawn_shipments terminals draws.old count) }
{
    let mut shipments = Vec::new(alloc);
    for number in 0..count {
        shipments.push(draw_shipment(alloc, draws, terminals, number)?)?;
    }
    Ok(shipments)
}

/// The instance of a seed, 0 to 2,147,483,647, with so many terminals, 2 to 100, and so many
/// shipments, at most 500. It is the same at each call with the same numbers.
///
/// The terminals are `T1`, `T2` and so on, with holds of 0, and stand in a ring. From each of them,
/// in order, an arc leads to the next one, to the one before and to the one half way round, in this
/// order; where an arc exists already there is no other. The shipments are `S1`, `S2` and so on.
/// The numbers of each part are drawn from the seed, in order, as [`Draws`] does:
///
/// - of an arc the time (60 to 300), the capacity (10 to 20), the cost of a truck (100 to 200) and
///   that of a unit of freight (0 to 2);
/// - of a shipment the origin, the destination, which is another terminal, the size (1 to 12), the
///   release (0 to 4,999), and how much later it is due: 300 for each terminal, and up to 1,999.
///
/// Each arc takes at most 300, so each shipment can be carried round the ring in time.
///
/// # Errors
/// `NoMemory` only where no memory is found.
pub fn generate(
    alloc: Global,
    seed: u32,
    terminals: u32,
    shipments: u32,
) -> Result<Instance, NoMemory>
    requires seed { seed ≤ 2147483647 }
    requires terminals { (2 ≤ terminals) × (terminals ≤ MOST_TERMINALS) }
    requires shipments { shipments ≤ MOST_SHIPMENTS }
    ensures { IfOk result (λ instance. instance ≡ generated seed terminals shipments) }
{
    let mut draws = Draws::new(seed);
    let names = terminal_names(alloc, terminals)?;
    let holds = vec![in alloc; 0u32; terminals as usize]?;
    let arcs = draw_arcs(alloc, &mut draws, terminals)?;
    let shipments = draw_shipments(alloc, &mut draws, terminals, shipments)?;
    Ok(Instance::new(names, holds, arcs, shipments))
}
