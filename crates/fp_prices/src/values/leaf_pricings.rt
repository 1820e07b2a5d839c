//! What the classes of a leaf's network cost each shipment, for those who rank shipments or look for
//! better prices.
ghost use Rattle.std.specs.Prelude.{ℕ, ◌≡◌, ◌<◌, ◌≤◌, None, length, slice_index_or};
ghost use Rattle.fp_longestarcs.specs.Networks.{class_count};
ghost use Rattle.fp_allowed.specs.Listing.{class_at};
ghost use Rattle.fp_prices.specs.LeafPricings.{AreCostsOf, IsForcedLoadOf, IsPriceOf};

use crate::classes::class_prices::ClassPricing;
use crate::leaf_prices::Kind;
use crate::tables::Table;
use crate::values::leaves::Leaf;
use std::marker::Model;

/// What the classes cost each shipment at a leaf under prices of a kind, with the classes that are
/// forced.
///
/// Contracts see the leaf, the tables, the kind, and whether forced classes are paid whole. All
/// money counts parts of a unit, of which the instance's scale makes one.
#[derive(Drop)]
pub struct LeafPricing<'a> {
    pub(crate) leaf: &'a Leaf<'a>,
    pub(crate) tables: &'a [Table],
    pub(crate) kind: Kind,
    pub(crate) is_forced: bool,
    pub(crate) pricing: ClassPricing<'a>,
}

impl<'a> Model for LeafPricing<'a> {
    ghost use Rattle.fp_prices.specs.LeafPricings.{IsLeafPricing, PricingModel};

    ghost Value = { PricingModel };

    ghost view = { λ l. record { leaf = l.leaf.now; tables = l.tables.now; kind = l.kind; forced = l.is_forced } };

    ghost invariant = { λ l. IsLeafPricing (record { leaf = l.leaf.now; tables = l.tables.now; kind = l.kind; forced = l.is_forced }) l.pricing };
}

impl<'a> LeafPricing<'a> {
    /// The leaf.
    pub fn leaf(&self) -> &'a Leaf<'a>
        ensures { result.now ≡ self.now.leaf }
    {
        self.leaf
    }

    /// The price of the class with a number for a shipment: nothing where the class is forced and
    /// forced classes are paid whole, and otherwise its truck price. `None` exactly where the class
    /// isn't allowed for the shipment. Takes no memory.
    pub fn price(&self, shipment: u32, class: u32) -> Option<u128>
        requires shipment { shipment < length self.now.leaf.setting.problem.shipments }
        requires class { class < class_count self.now.leaf.setting.network }
        ensures { IsPriceOf self.now shipment (class_at self.now.leaf.setting.network class) result }
    {
        if self.leaf.row(shipment).get(class) {
            let size = self.pricing.instance.shipment(shipment).size;
            let (arc, point) = self.pricing.network.of_class(class);
            Some(self.pricing.price(class, arc, point, shipment, size))
        } else {
            None
        }
    }

    /// The sizes in all of the shipments whose forced chains have the class with a number, for
    /// which its trucks are paid whole. `None` exactly where no such chain has it, and so wherever
    /// the leaf is plain. Takes no memory.
    pub fn forced_load(&self, class: u32) -> Option<u128>
        requires { class < class_count self.now.leaf.setting.network }
        ensures { IsForcedLoadOf self.now (class_at self.now.leaf.setting.network class) result }
    {
        if self.pricing.forced.row.get(class) {
            Some(self.pricing.forced.loads[class as usize])
        } else {
            None
        }
    }

    /// Puts in, for each class by its number, what it costs the shipment, its price and its flow,
    /// and `None` where it isn't allowed for the shipment. Entries past the classes stay. Takes no
    /// memory.
    pub fn fill_costs(&self, shipment: u32, costs: &mut [Option<u128>])
        requires shipment { shipment < length self.now.leaf.setting.problem.shipments }
        requires room { class_count self.now.leaf.setting.network ≤ length costs.old }
        ensures costs { AreCostsOf self.now shipment costs.new }
        ensures others { (n : ℕ) → class_count self.now.leaf.setting.network ≤ n → slice_index_or costs.new n None ≡ slice_index_or costs.old n None }
    {
        self.pricing
            .fill_costs(shipment, self.leaf.row(shipment), costs);
    }
}
