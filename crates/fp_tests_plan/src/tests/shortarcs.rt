//! The too short legs of direct plans made coarse.

use fp_flatnet::{Verdict, Windows, direct, feasible, initial};
use fp_longestarcs::Network;
use fp_model::Instance;
use fp_relaxmodel::coarsen;
use fp_shortarcs::{NoMemory, Short, too_short};
use fp_tests_examples::{LINE, PAIR, instance_of};
use std::alloc::Global;
use std::test::Fail;

// The too short legs of the direct plan over the initial points, where all are in time.
fn shorts(alloc: Global, instance: &Instance) -> Result<Option<Vec<Short>>, NoMemory> {
    let Verdict::All = feasible(alloc, instance)? else {
        return Ok(None);
    };
    let plan = direct(alloc, instance)?;
    let windows = Windows::of(alloc, instance)?;
    let points = initial(alloc, instance, &windows)?;
    let network = Network::of(alloc, instance, &points, 0)?;
    let relaxed = coarsen(alloc, instance, &windows, &network, &plan)?;
    Ok(Some(too_short(alloc, instance, &windows, &network, &relaxed)?))
}

#[test]
fn a_leg_that_goes_on_too_early_is_too_short(rt: HostRuntime) -> Result<(), Fail> {
    let alloc = rt.alloc();
    let first = Short {
        shipment: 0,
        leg: 0,
        terminal: 1,
        at: 4,
    };
    for (text, want) in [(LINE, [first].as_slice()), (PAIR, [].as_slice())] {
        assert!(rt; text.len() < 2000);
        let instance = instance_of(alloc, text)?;
        let is = shorts(alloc, &instance)?.expect(&rt, "in time");
        assert_eq!(rt; is.as_slice(), want);
    }
    Ok(())
}
