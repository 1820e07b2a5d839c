//! What is left of a day, gathered shipment by shipment.
ghost use Rattle.std.specs.Prelude.{ℕ, ◌≡◌, ◌+◌, ◌<◌, [], length, IfOk, OnOk};
ghost use Rattle.fp_model.specs.Problem.{IsValid, Problem};
ghost use Rattle.fp_replan_present.specs.Days.{AreTracked, Day};
ghost use Rattle.fp_replan_present.specs.Parts.{AreParts, IsFound};
ghost use Rattle.fp_replan_present.specs.Plans.{settled_legs};
ghost use Rattle.fp_replan_present.specs.Rests.{IsSettled};
ghost use Rattle.fp_replan_present.specs.Standings.{IsWay};

use crate::NoMemory;
use crate::presents::Present;
use crate::standings::{Going, Standing, standing_of};
use crate::tracked_legs::own_legs;
use fp_model::{Instance, Leg, Shipment};
use fp_replan::backward_graph;
use std::alloc::Global;

/// What is left of shipments: those that aren't delivered, as they are left, with their numbers, where
/// they were and a route; and the settled legs of all.
#[derive(Drop)]
pub struct Parts {
    pub numbers: Vec<u32>,
    pub shipments: Vec<Shipment>,
    pub gone: Vec<Vec<u32>>,
    pub routes: Vec<Vec<Leg>>,
    pub settled: Vec<Vec<Leg>>,
}

/// What is left of all shipments, or the first that is stuck.
#[derive(Drop)]
pub enum Found {
    All { parts: Parts },
    Stuck { shipment: u32 },
}

// Of no shipments.
fn no_parts(alloc: Global) -> Parts
    ensures { (p : Problem) (day : Day) → AreParts p day 0 result }
{
    Parts {
        numbers: Vec::new(alloc),
        shipments: Vec::new(alloc),
        gone: Vec::new(alloc),
        routes: Vec::new(alloc),
        settled: Vec::new(alloc),
    }
}

// Adds the settled legs of a shipment, and what is left of it where it isn't delivered.
fn add_shipment(
    parts: &mut Parts,
    number: u32,
    legs: Vec<Leg>,
    going: Option<Going>,
) -> Result<(), NoMemory>
    ensures { OnOk result ((p : Problem) (day : Day) → IsValid p → AreTracked p day → number < length p.shipments → AreParts p day number parts.old → legs.items ≡ settled_legs day number
        → IsSettled p day number → IsWay p day number going → AreParts p day (number + 1) parts.new) }
{
    parts.settled.push(legs)?;
    match going {
        Some(going) => {
            parts.numbers.push(number)?;
            parts.shipments.push(going.shipment)?;
            parts.gone.push(going.gone)?;
            parts.routes.push(going.route)?;
            Ok(())
        }
        None => Ok(()),
    }
}

// What is left of all shipments, or the first that is stuck.
pub(crate) fn parts_of(
    alloc: Global,
    instance: &Instance,
    present: &Present,
) -> Result<Found, NoMemory>
    requires { AreTracked instance.now present.now }
    ensures { IfOk result (IsFound instance.now present.now) }
{
    let graph = backward_graph(alloc, instance)?;
    let mut parts = no_parts(alloc);
    for number in 0..instance.shipments().len() as u32 {
        let own = own_legs(alloc, present, number)?;
        match standing_of(alloc, instance, &graph, present, number, &own)? {
            Standing::Settled { going } => add_shipment(&mut parts, number, own.legs, going)?,
            Standing::Stuck => return Ok(Found::Stuck { shipment: number }),
        }
    }
    Ok(Found::All { parts })
}
