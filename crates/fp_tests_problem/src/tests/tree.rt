//! What the calls give on small trees, with values from outside.

use fp_tree::{Side, Split, Tree, Way};
use std::alloc::{AllocError, Global};
use std::test::Fail;

// The arc by which the trees split, and the terminal that it leaves.
const ARC: u32 = 4;

const TAIL: u32 = 9;

// Splits a leaf by whether the shipment uses the arc. The new leaves have these values.
fn divide(
    alloc: Global,
    tree: &mut Tree<u32>,
    leaf: u32,
    shipment: u32,
    values: (u128, u128),
) -> Result<(), AllocError> {
    if leaf < tree.leaves() && tree.splits() < 100_000 {
        let split = Split::ByArc { shipment, arc: ARC };
        let (first, second) = ((10 + leaf % 2, values.0), (20 + leaf % 2, values.1));
        tree.split_leaf(alloc, leaf, split, TAIL, first, second)?;
    }
    Ok(())
}

// Each of three shipments uses the arc or not: eight leaves.
fn tree_of_eight(alloc: Global) -> Result<Tree<u32>, AllocError> {
    let mut tree = Tree::new(alloc, 0, 1)?;
    for (leaf, shipment) in [(0, 0), (1, 1), (0, 1), (3, 2), (2, 2), (1, 2), (0, 2)] {
        divide(alloc, &mut tree, leaf, shipment, (2, 3))?;
    }
    Ok(tree)
}

// The side of a shipment that uses the arc or not.
fn side_by(shipment: u32, uses: bool) -> Side {
    if uses {
        Side::Only {
            shipment,
            arc: ARC,
            tail: TAIL,
        }
    } else {
        Side::Without { shipment, arc: ARC }
    }
}

#[test]
fn sides_of_eight_leaves(rt: HostRuntime) -> Result<(), Fail> {
    let alloc = rt.alloc();
    let tree = tree_of_eight(alloc)?;
    assert_eq!(rt; tree.leaves(), 8);
    assert_eq!(rt; tree.splits(), 7);
    let mut way = Way::new(alloc);
    let mut leaf = 0;
    let mut more = true;
    for node in 0..tree.leaves() + tree.splits() {
        assert!(rt; more, "at {node}");
        match tree.split_at(node) {
            Some(split) => way.descend(split, TAIL)?,
            None => {
                assert!(rt; leaf < tree.leaves());
                let sides = tree.leaf_sides(alloc, leaf)?;
                let want = [
                    side_by(0, leaf / 4 % 2 == 1),
                    side_by(1, leaf / 2 % 2 == 1),
                    side_by(2, leaf % 2 == 1),
                ];
                assert_eq!(rt; sides.as_slice(), want.as_slice());
                assert_eq!(rt; way.sides(alloc)?.as_slice(), want.as_slice());
                leaf += 1;
                more = way.advance();
            }
        }
    }
    assert_eq!(rt; (leaf, more), (8, false));
    Ok(())
}

#[test]
fn sides_by_trucks(rt: HostRuntime) -> Result<(), Fail> {
    let alloc = rt.alloc();
    let split = Split::ByTrucks {
        arc: ARC,
        point: 10,
        until: 20,
        most: 2,
    };
    let mut tree = Tree::new(alloc, 0, 1)?;
    if tree.leaves() == 1 && tree.splits() == 0 {
        tree.split_leaf(alloc, 0, split, 0, (1, 2), (2, 3))?;
    }
    assert!(rt; tree.leaves() == 2 && tree.splits() == 1);
    let few = Side::AtMost {
        arc: ARC,
        point: 10,
        until: 20,
        trucks: 2,
    };
    let many = Side::MoreThan {
        arc: ARC,
        point: 10,
        until: 20,
        trucks: 2,
    };
    assert_eq!(rt; tree.leaf_sides(alloc, 0)?.as_slice(), [few].as_slice());
    assert_eq!(rt; tree.leaf_sides(alloc, 1)?.as_slice(), [many].as_slice());
    Ok(())
}

#[test]
fn sides_by_a_way(rt: HostRuntime) -> Result<(), Fail> {
    let alloc = rt.alloc();
    let split = Split::ByWay {
        shipment: 1,
        arc: ARC,
    };
    let mut tree = Tree::new(alloc, 0, 1)?;
    if tree.leaves() == 1 && tree.splits() == 0 {
        tree.split_leaf(alloc, 0, split, 0, (1, 2), (2, 3))?;
    }
    assert!(rt; tree.leaves() == 2 && tree.splits() == 1);
    let without = Side::Without {
        shipment: 1,
        arc: ARC,
    };
    let through = Side::Through {
        shipment: 1,
        arc: ARC,
    };
    assert_eq!(rt; tree.leaf_sides(alloc, 0)?.as_slice(), [without].as_slice());
    assert_eq!(rt; tree.leaf_sides(alloc, 1)?.as_slice(), [through].as_slice());
    Ok(())
}

#[test]
fn best_open_leaf(rt: HostRuntime) -> Result<(), Fail> {
    let alloc = rt.alloc();
    let mut tree = Tree::new(alloc, 7, 1)?;
    divide(alloc, &mut tree, 0, 0, (5, 3))?;
    divide(alloc, &mut tree, 1, 1, (4, 4))?;
    assert!(rt; tree.splits() == 2 && tree.leaves() == 3);
    assert_eq!(rt; (*tree.split_payload(0), *tree.split_payload(1)), (7, 20));
    assert_eq!(rt; tree.best_open(), Some(1));
    tree.close(1);
    assert_eq!(rt; (tree.is_closed(1), tree.best_open()), (true, Some(2)));
    tree.put(2, 8, 6);
    assert_eq!(rt; (*tree.payload(2), tree.value(2)), (8, 6));
    assert_eq!(rt; tree.best_open(), Some(0));
    tree.close(0);
    tree.close(2);
    assert_eq!(rt; tree.best_open(), None);
    Ok(())
}
