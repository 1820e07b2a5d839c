//! Local searches from direct plans.

use fp_ends::Resources;
use fp_flatnet::{Verdict, Windows, direct, feasible};
use fp_model::{Instance, cost};
use fp_repair_search::{NoMemory, Search, local_search};
use fp_tests_examples::{ONE_ARC, PAIR, instance_of};
use std::alloc::Global;
use std::test::Fail;

// What the direct plan costs and what a search from it finds, where all are in time.
fn costs(alloc: Global, instance: &Instance) -> Result<Option<(u128, u128)>, NoMemory> {
    let Verdict::All = feasible(alloc, instance)? else {
        return Ok(None);
    };
    let plan = direct(alloc, instance)?;
    let windows = Windows::of(alloc, instance)?;
    let search = Search {
        seed: 1,
        turns: 20,
        loose: 10,
    };
    let found = local_search(
        &Resources::endless(alloc),
        instance,
        &windows,
        &plan,
        search,
    )?;
    Ok(Some((cost(instance, &plan), cost(instance, &found))))
}

#[test]
fn shipments_share_a_truck_or_stay_as_they_are(rt: HostRuntime) -> Result<(), Fail> {
    let alloc = rt.alloc();
    for (text, direct, found) in [(PAIR, 209, 109), (ONE_ARC, 104, 104)] {
        assert!(rt; text.len() < 2000);
        let instance = instance_of(alloc, text)?;
        assert!(rt; costs(alloc, &instance)? == Some((direct, found)));
    }
    Ok(())
}
