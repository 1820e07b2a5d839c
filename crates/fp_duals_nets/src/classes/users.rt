//! How many shipments may use each class, and their sizes together.

use crate::NoMemory;
use crate::classes::set_bits::list_set;
use fp_prices::Leaf;
use std::alloc::Global;

/// The shipments for which a class is allowed.
#[derive(Clone, Copy)]
pub struct ClassUsers {
    pub count: u64,
    pub size: u128,
}

// Adds a shipment of a size to the classes with these numbers.
fn add_user(users: &mut [ClassUsers], numbers: &[u32], size: u64) {
    for number in numbers {
        if let Some(class) = users.get_mut(*number as usize) {
            class.count = class.count.wrapping_add(1);
            class.size = class.size.wrapping_add(u128::from(size));
        }
    }
}

/// For each class the shipments for which it's allowed.
pub fn class_users(alloc: Global, leaf: &Leaf) -> Result<Vec<ClassUsers>, NoMemory> {
    let count = leaf.round().network().classes();
    let instance = leaf.round().instance();
    let nobody = ClassUsers { count: 0, size: 0 };
    let mut users = vec![in alloc; nobody; count as usize]?;
    let mut numbers = Vec::new(alloc);
    for shipment in 0..instance.shipments().len() as u32 {
        list_set(leaf.row(shipment), count, &mut numbers)?;
        add_user(&mut users, &numbers, instance.shipment(shipment).size);
    }
    Ok(users)
}
