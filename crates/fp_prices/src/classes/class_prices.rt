//! What the classes of a network cost a shipment at a leaf.
ghost use Rattle.std.specs.Prelude.{ℕ, ◌≡◌, ◌<◌, ◌≤◌, None, length, slice_index_or, true};
ghost use Rattle.fp_model.specs.Numbered.{shipment_at};
ghost use Rattle.fp_longestarcs.specs.Networks.{IsClass, class_count, class_number};
ghost use Rattle.fp_allowed.specs.Bits.{bit_of};
ghost use Rattle.fp_allowed.specs.Listing.{class_at};
ghost use Rattle.fp_prices.specs.Pricings.{HoldsLeafCosts, IsClassCost, IsClassPrice, IsPricedClass, IsTruckPrice};

use crate::classes::bases::ForcedClasses;
use crate::classes::class_users::Users;
use crate::classes::share_prices::{even_price, share_price};
use crate::classes::share_searches::share_of;
use crate::tables::Share;
use fp_longestarcs::Network;
use fp_model::Instance;
use fp_rows::Row;

/// By what a leaf prices the classes that aren't forced.
#[derive(Drop)]
pub(crate) enum Rule<'a> {
    /// By size alone.
    BySize,
    /// In equal parts among the users.
    InParts { users: Users },
    /// By these shares, in ascending order.
    ByShares { shares: &'a [Share] },
}

/// What the classes of a network cost a shipment at a leaf.
#[derive(Drop)]
pub(crate) struct ClassPricing<'a> {
    pub(crate) instance: &'a Instance,
    pub(crate) network: &'a Network,
    pub(crate) rates: &'a [u128],
    pub(crate) rule: Rule<'a>,
    pub(crate) forced: ForcedClasses,
}

impl<'a> ClassPricing<'a> {
    /// Puts in, for each class by its number, what it costs the shipment with a number, its price
    /// and its flow, in parts of a unit of money, and `None` where the row's bit isn't set. Entries
    /// past the classes stay. Takes no memory.
    pub(crate) fn fill_costs(&self, shipment: u32, row: &Row, costs: &mut [Option<u128>])
        requires shipment { shipment < length self.now.instance.now.shipments }
        requires long { length row.now ≡ class_count self.now.network.now }
        requires room { class_count self.now.network.now ≤ length costs.old }
        requires priced { (class : ℕ) → bit_of row.now class ≡ true → IsPricedClass self.now shipment class }
        ensures costs { HoldsLeafCosts self.now shipment row.now costs.new }
        ensures others { (n : ℕ) → class_count self.now.network.now ≤ n → slice_index_or costs.new n None ≡ slice_index_or costs.old n None }
    {
        let size = self.instance.shipment(shipment).size;
        clear(costs, self.network.classes());
        let mut next = 0;
        let mut near = 0;
        while let Some(class) = row.first_from(next) {
            let (arc, point) = self.network.of_class_near(near, class);
            costs[class as usize] = Some(self.cost(class, arc, point, shipment, size));
            near = arc;
            next = class + 1;
        }
    }

    // What a class of an arc and a point that is allowed for the shipment with a number and a size
    // costs it: its price and the flow.
    fn cost(&self, class: u32, arc: u32, point: u32, shipment: u32, size: u64) -> u128
        requires shipment { shipment < length self.now.instance.now.shipments }
        requires class { IsClass self.now.network.now (record { arc = arc; depart = point }) }
        requires number { class ≡ class_number self.now.network.now (record { arc = arc; depart = point }) }
        requires priced { IsPricedClass self.now shipment class }
        requires size { size ≡ (shipment_at self.now.instance.now shipment).size }
        ensures { IsClassCost self.now shipment size (class_at self.now.network.now class) result }
    {
        let freight = self.instance.arc(arc).freight;
        let flow = u128::from(self.instance.scale()) * u128::from(freight) * u128::from(size);
        self.price(class, arc, point, shipment, size) + flow
    }

    /// The price of the class of an arc and a point, with its number, that is allowed for the
    /// shipment with a number and a size: nothing where the class is forced, and otherwise its truck
    /// price. Takes no memory.
    pub(crate) fn price(&self, class: u32, arc: u32, point: u32, shipment: u32, size: u64) -> u128
        requires shipment { shipment < length self.now.instance.now.shipments }
        requires class { IsClass self.now.network.now (record { arc = arc; depart = point }) }
        requires number { class ≡ class_number self.now.network.now (record { arc = arc; depart = point }) }
        requires priced { IsPricedClass self.now shipment class }
        requires size { size ≡ (shipment_at self.now.instance.now shipment).size }
        ensures { IsClassPrice self.now shipment size (class_at self.now.network.now class) result }
    {
        if self.forced.row.get(class) {
            return 0;
        }
        self.truck_price(class, arc, point, shipment, size)
    }

    // The truck price of the class of an arc and a point for the shipment with a number and a size.
    fn truck_price(&self, class: u32, arc: u32, point: u32, shipment: u32, size: u64) -> u128
        requires shipment { shipment < length self.now.instance.now.shipments }
        requires class { IsClass self.now.network.now (record { arc = arc; depart = point }) }
        requires number { class ≡ class_number self.now.network.now (record { arc = arc; depart = point }) }
        requires priced { IsPricedClass self.now shipment class }
        requires size { size ≡ (shipment_at self.now.instance.now shipment).size }
        ensures { IsTruckPrice self.now shipment size (record { arc = arc; depart = point }) result }
    {
        let linear = u128::from(size) * self.rates[arc as usize];
        match &self.rule {
            Rule::BySize => linear,
            Rule::InParts { users } => even_price(
                self.instance,
                arc,
                users.counts[class as usize],
                users.sizes[class as usize],
                linear,
            ),
            Rule::ByShares { shares } => match share_of(shares, arc, point) {
                Some(share) => share_price(share, shipment, size),
                None => linear,
            },
        }
    }
}

// Makes the first entries `None`, so many.
fn clear(costs: &mut [Option<u128>], count: u32)
    requires { count ≤ length costs.old }
    ensures cleared { (n : ℕ) → n < count → slice_index_or costs.new n None ≡ None }
    ensures others { (n : ℕ) → count ≤ n → slice_index_or costs.new n None ≡ slice_index_or costs.old n None }
{
    for place in 0..count as usize {
        costs[place] = None;
    }
}
