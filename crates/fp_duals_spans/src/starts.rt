//! The prices of a kind, put into the spans of single classes.
ghost use Rattle.std.specs.Prelude.{◌<◌, length};

use fp_duals_layouts::{Payer, SpanPrices};
use fp_duals_nets::{EdgeUse, MoneyUnit, Nets};
use fp_prices::LeafPricing;

/// Prices from which a search starts.
#[derive(Clone, Copy)]
pub(crate) struct Start<'a> {
    pub pricing: &'a LeafPricing<'a>,
    /// The loads of the forced classes, where the prices leave these free, and none otherwise.
    pub freed: &'a [u128],
    pub unit: MoneyUnit,
}

impl Start<'_> {
    // What a class costs a shipment by the prices.
    fn price(&self, shipment: u32, class: u32) -> u64
        requires { shipment < length self.now.pricing.now.leaf.setting.problem.shipments }
    {
        if class >= self.pricing.leaf().round().network().classes() {
            return 0;
        }
        match self.pricing.price(shipment, class) {
            Some(price) => self.unit.inner(price),
            None => 0,
        }
    }

    // What a payer pays over an edge. Those who are forced to use a class that was free pay for
    // their own trucks, and others nothing.
    fn weight(&self, payer: &Payer, shipment: u32, edge: &EdgeUse) -> u64
        requires { shipment < length self.now.pricing.now.leaf.setting.problem.shipments }
    {
        let freed = self.freed.get(edge.class as usize).copied().unwrap_or(0);
        match (freed > 0, edge.forced) {
            (true, true) => payer.most,
            (true, false) => 0,
            _ => self.price(shipment, edge.class),
        }
    }

    /// Puts the start's prices into the spans of single classes.
    pub(crate) fn put_all(&self, payers: &[Payer], nets: &Nets, prices: &mut SpanPrices) {
        let shipments = self.pricing.leaf().round().instance().shipments().len() as u32;
        for shipment in 0..shipments {
            if let Some(net) = nets.list.get(shipment as usize) {
                for edge in nets.uses_of(net) {
                    if let Some(payer) = payers.get(edge.part)
                        && let Some(weight) = prices.weights.get_mut(edge.part)
                    {
                        *weight = self.weight(payer, shipment, edge);
                    }
                }
            }
        }
    }
}
