//! The network of a line of two arcs, refined, restored and lengthened.

ghost use Rattle.fp_longestarcs.specs.Whole.{HasArcsOf, IsWholeNetwork};

use fp_flatnet::{Windows, initial};
use fp_longestarcs::{Network, NoMemory};
use fp_model::Instance;
use fp_tests_examples::{LINE, instance_of};
use fp_timenodes::{LATEST, Place};
use std::alloc::Global;
use std::test::Fail;

// The head, the number and the parts of the class of an arc and a point, `None` where its tail has
// no such point.
fn class_row(
    instance: &Instance,
    network: &Network,
    arc: u32,
    point: u32,
) -> Option<(u32, u32, (u32, u32))>
    requires { HasArcsOf instance.now network.now }
{
    if arc as usize >= instance.arcs().len() || !network.is_point(instance.arc(arc).from, point) {
        return None;
    }
    let class = network.class(arc, point);
    Some((network.head(arc, point), class, network.of_class(class)))
}

// Refines a network at a terminal that has no such point yet. Answers whether it did.
fn refine_at(
    alloc: Global,
    instance: &Instance,
    network: &mut Network,
    terminal: u32,
    at: u32,
) -> Result<bool, NoMemory>
    requires { HasArcsOf instance.now network.old }
    ensures { HasArcsOf instance.now network.new }
{
    if terminal as usize >= instance.terminals().len()
        || at > LATEST
        || network.is_point(terminal, at)
    {
        return Ok(false);
    }
    network.refine(alloc, instance, terminal, at)?;
    Ok(true)
}

// Lengthens the class of an arc and a point whose head is too early.
fn lengthened(
    alloc: Global,
    instance: &Instance,
    network: &mut Network,
    arc: u32,
    point: u32,
) -> Result<Option<Place>, NoMemory>
    requires { IsWholeNetwork instance.now network.old }
    ensures { IsWholeNetwork instance.now network.new }
{
    if arc as usize >= instance.arcs().len()
        || point > 1000
        || !network.is_point(instance.arc(arc).from, point)
    {
        return Ok(None);
    }
    let onward = point + instance.step(arc);
    if onward > LATEST || network.head(arc, point) >= onward {
        return Ok(None);
    }
    Ok(Some(network.lengthen(alloc, instance, arc, point)?))
}

#[test]
fn a_line_refined_and_restored(rt: HostRuntime) -> Result<(), Fail> {
    let alloc = rt.alloc();
    let instance = instance_of(alloc, LINE)?;
    assert!(rt; instance.terminals().len() == 3);
    let windows = Windows::of(alloc, &instance)?;
    let mut network = Network::of(alloc, &instance, &initial(alloc, &instance, &windows)?, 0)?;
    assert!(rt; network.points(1) == [0].as_slice() && network.points(2) == [0, 8, 9].as_slice());
    for (at, floor) in [(0, 0), (7, 0), (8, 8), (9, 9), (12, 9)] {
        assert_eq!(rt; network.floor(2, at), floor);
    }
    assert_eq!(rt; network.classes(), 2);
    assert_eq!(rt; class_row(&instance, &network, 0, 0), Some((0, 0, (0, 0))));
    assert_eq!(rt; class_row(&instance, &network, 1, 0), Some((0, 1, (1, 0))));
    assert!(rt; refine_at(alloc, &instance, &mut network, 1, 4)?);
    assert_eq!(rt; network.classes(), 3);
    assert_eq!(rt; class_row(&instance, &network, 0, 0), Some((0, 0, (0, 0))));
    assert_eq!(rt; class_row(&instance, &network, 1, 4), Some((9, 2, (1, 4))));
    network.restore(&instance, 1, 4);
    assert_eq!(rt; class_row(&instance, &network, 0, 0), Some((4, 0, (0, 0))));
    Ok(())
}

#[test]
fn a_line_lengthened(rt: HostRuntime) -> Result<(), Fail> {
    let alloc = rt.alloc();
    let instance = instance_of(alloc, LINE)?;
    let windows = Windows::of(alloc, &instance)?;
    let network = Network::of(alloc, &instance, &initial(alloc, &instance, &windows)?, 0)?;
    let mut longer = network.copy(alloc)?;
    let place = lengthened(alloc, &instance, &mut longer, 0, 0)?;
    assert_eq!(rt; place, Some(Place { terminal: 1, at: 4 }));
    assert_eq!(rt; class_row(&instance, &longer, 0, 0), Some((4, 0, (0, 0))));
    assert_eq!(rt; class_row(&instance, &longer, 1, 4), Some((9, 2, (1, 4))));
    assert_eq!(rt; class_row(&instance, &network, 0, 0), Some((0, 0, (0, 0))));
    Ok(())
}
