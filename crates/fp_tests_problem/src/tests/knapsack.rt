//! Charges that pay for the sets of some items.
use fp_prices_knapsack::{Item, Knapsack, NoMemory};

// The money for a truck of capacity 10.
const TRUCK: u128 = 60;

// Two items that one truck holds, and each of which weighs as much as the truck costs.
const PAIR: [Item; 2] = [
    Item {
        size: 5,
        weight: TRUCK,
    },
    Item {
        size: 5,
        weight: TRUCK,
    },
];

#[test]
fn a_pair_needs_the_charge_of_a_truck(rt: HostRuntime) -> Result<(), NoMemory> {
    let alloc = rt.alloc();
    let mut knapsack = Knapsack::new(alloc);
    assert_eq!(rt; knapsack.least_charge(&PAIR, 10, TRUCK)?, Some(TRUCK));
    assert!(rt; knapsack.pays(&PAIR, 10, TRUCK, TRUCK)?);
    assert!(rt; !knapsack.pays(&PAIR, 10, TRUCK, TRUCK - 1)?);
    if let Some(dearest) = knapsack.dearest_set(alloc, &PAIR, 10, TRUCK)? {
        assert_eq!(rt; dearest.places.len(), 2);
    }
    Ok(())
}
