//! At which places a round adds points.
ghost use Rattle.std.specs.Prelude.{[], ◌≡◌, ◌≢◌, ◌<◌, ◌≤◌, IfOk, IsTrue, OnOk, ◌↔◌, length};
ghost use Rattle.fp_longestarcs.specs.Whole.{IsWholeNetwork};
ghost use Rattle.fp_session_clashes.specs.Places.{AreFreePlaces, ArePlacesFound, ArePlacesOf, IsFreePlace};

use crate::NoMemory;
use fp_certificate_rules::MOST_IN_ROUND;
use fp_longestarcs::Network;
use fp_model::Instance;
use fp_shortarcs::Short;
use fp_timenodes::Place;
use std::alloc::Global;

// Adds the place of a too short leg, unless it's there or there are as many as a round may add.
fn add_place(places: &mut Vec<Place>, shorts: &[Short], number: usize) -> Result<(), NoMemory>
    requires { ArePlacesOf shorts.now places.old.items }
    ensures places { OnOk result (ArePlacesOf shorts.now places.new.items) }
    ensures some { OnOk result (number < length shorts.now → 1 ≤ length places.new.items) }
{
    let Some(short) = shorts.get(number) else {
        return Ok(());
    };
    let place = Place {
        terminal: short.terminal,
        at: short.at,
    };
    if places.len() < MOST_IN_ROUND && !places.contains(&place) {
        places.push(place)?;
    }
    Ok(())
}

// The places of the first too short legs.
fn first_places(alloc: Global, shorts: &[Short]) -> Result<Vec<Place>, NoMemory>
    ensures places { IfOk result (λ places. ArePlacesOf shorts.now places.items) }
    ensures some { IfOk result (λ places. shorts.now ≢ [] → 1 ≤ length places.items) }
{
    let mut places = Vec::new(alloc);
    for number in 0..shorts.len() {
        add_place(&mut places, shorts, number)?;
    }
    Ok(places)
}

// Whether a place is at a terminal and in time, and no point of the network is there.
fn is_free(instance: &Instance, network: &Network, place: Place) -> bool
    requires whole { IsWholeNetwork instance.now network.now }
    ensures { IsTrue result ↔ IsFreePlace instance.now network.now place }
{
    (place.terminal as usize) < instance.terminals().len()
        && 1 <= place.at
        && place.at <= instance.horizon()
        && !network.is_point(place.terminal, place.at)
}

// Adds a place where it's free, unless it's there or there are as many as a round may add.
fn add_free(
    places: &mut Vec<Place>,
    instance: &Instance,
    network: &Network,
    place: Place,
) -> Result<(), NoMemory>
    requires whole { IsWholeNetwork instance.now network.now }
    requires free { AreFreePlaces instance.now network.now places.old.items }
    ensures { OnOk result (AreFreePlaces instance.now network.now places.new.items) }
{
    if places.len() < MOST_IN_ROUND
        && is_free(instance, network, place)
        && !places.contains(&place)
    {
        places.push(place)?;
    }
    Ok(())
}

// The first free ones of some places.
fn free_places(
    alloc: Global,
    instance: &Instance,
    network: &Network,
    clashes: &[Place],
) -> Result<Vec<Place>, NoMemory>
    requires whole { IsWholeNetwork instance.now network.now }
    ensures { IfOk result (λ places. AreFreePlaces instance.now network.now places.items) }
{
    let mut places = Vec::new(alloc);
    for place in clashes {
        add_free(&mut places, instance, network, *place)?;
    }
    Ok(places)
}

/// Places at which a round adds points, each once, at most as many as it may add, and some where there is a
/// too short leg: where any are sought, the first ones of the given places that are at a terminal, after 0
/// and by the latest due time, and at which the network has no point; otherwise, and where there is none of
/// these, the places of the first too short legs.
///
/// Any lists may be handed in. `NoMemory` only where no memory is found.
pub fn round_places(
    alloc: Global,
    instance: &Instance,
    network: &Network,
    shorts: &[Short],
    clashes: &[Place],
    any: bool,
) -> Result<Vec<Place>, NoMemory>
    requires whole { IsWholeNetwork instance.now network.now }
    ensures places { IfOk result
        (λ places. ArePlacesFound instance.now network.now any shorts.now places.items) }
    ensures some { IfOk result (λ places. shorts.now ≢ [] → 1 ≤ length places.items) }
{
    if any {
        let places = free_places(alloc, instance, network, clashes)?;
        if !places.is_empty() {
            return Ok(places);
        }
    }
    first_places(alloc, shorts)
}
