//! The price of a root by the six starting prices and tables.

ghost use Rattle.std.specs.Prelude.{◌≤◌, length};

use fp_duals::{Improved, NoMemory, Tables, improve};
use fp_flatnet::{Windows, initial};
use fp_model::Instance;
use fp_prices::{Kind, LeafPrice};
use fp_tests_examples::{DETOUR, LINE, TRIO, instance_of};
use fp_tree::Side;
use std::alloc::Global;
use std::test::Fail;

// An arc of truck cost 100 that two shipments may share. The first may go round over D for 30, where
// freight costs nothing either, and the second straight from C for 90. Linear prices give 48 and
// even prices 80; a plan costs 100, and a table gives that.
const SHARED: &str =
    "terminal,A\nterminal,B\nterminal,C\nterminal,D\narc,A,B,5,10,100,0\narc,A,D,4,10,15,0\narc,D,B,4,10,15,0\narc,C,A,2,10,0,0\narc,C,B,3,10,90,0\nshipment,S1,A,B,4,0,20\nshipment,S2,C,B,4,0,9\n";

// What a leaf is worth at round 0, with linear plain as inherited, and how many tables and walks it
// has then; or the first shipment without an allowed timed walk.
fn improved(
    alloc: Global,
    instance: &Instance,
    sides: &[Side],
) -> Result<(Improved, usize), NoMemory>
    requires few { length instance.now.terminals ≤ 100 }
{
    let windows = Windows::of(alloc, instance)?;
    let points = initial(alloc, instance, &windows)?;
    let inherited = LeafPrice {
        kind: Kind::Linear,
        round: 0,
        forced: false,
    };
    let mut tables = Tables::new(alloc);
    let is = improve(
        alloc,
        instance,
        &windows,
        &points,
        0,
        sides,
        inherited,
        &mut tables,
    )?;
    let count = tables.list().len();
    tables.cut(0);
    Ok((is, count))
}

#[test]
fn roots(rt: HostRuntime) -> Result<(), Fail> {
    let alloc = rt.alloc();
    // Each class of the line is forced. On the detour even prices are best, and with three large
    // shipments linear ones.
    for (text, value, shipments, added) in [
        (LINE, 200, 2, 0),
        (DETOUR, 100, 1, 0),
        (TRIO, 150, 3, 0),
        (SHARED, 100, 2, 1),
    ] {
        assert!(rt; text.len() < 2000);
        let instance = instance_of(alloc, text)?;
        assert!(rt; instance.terminals().len() <= 100);
        let (is, count) = improved(alloc, &instance, &[])?;
        let (found, walks) = match is {
            Improved::Priced { value, walks, .. } => (value, walks.len()),
            Improved::Empty { .. } => (0, 0),
        };
        assert_eq!(rt; found, 1_000_000 * value, "{text}");
        assert_eq!(rt; (walks, count), (shipments, added));
    }
    Ok(())
}

#[test]
fn an_empty_leaf(rt: HostRuntime) -> Result<(), Fail> {
    let alloc = rt.alloc();
    let instance = instance_of(alloc, LINE)?;
    assert!(rt; instance.terminals().len() <= 100);
    let barred = [Side::Without {
        shipment: 1,
        arc: 1,
    }];
    let (is, _) = improved(alloc, &instance, &barred)?;
    assert!(rt; matches!(&is, Improved::Empty { shipment: 1 }));
    Ok(())
}
