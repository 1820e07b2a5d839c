//! The ascent in which the value doesn't fall: what each span's charge leaves is offered to one
//! shipment after the other, and each keeps what it needs of it.

use crate::NoMemory;
use fp_duals_ascent::find_needs;
use fp_duals_layouts::{Charges, Layout, SpanPrices, change_costs};
use fp_duals_nets::{Net, Nets, part_mut};
use fp_ends::{Deadline, Resources};

/// The most loads by which sets are told apart here.
const MOST_LOADS: u64 = 4096;

// What the passes go over.
#[derive(Drop)]
struct Settling<'a> {
    layout: &'a Layout,
    charges: Charges,
    // What the shipments need over each edge.
    needs: Vec<u64>,
}

// Sets the costs of a net's edges by what its shipment pays.
fn set_net_costs(
    layout: &Layout,
    nets: &mut Nets,
    net: &Net,
    prices: &SpanPrices,
    payers: &[usize],
) {
    let uses = nets.uses.get(net.first_edge..net.end_edge).unwrap_or(&[]);
    if let Some(edges) = part_mut(&mut nets.edges, net.first_edge, net.end_edge) {
        for (edge, edge_use) in edges.iter_mut().zip(uses.iter()) {
            edge.cost = edge_use.flow;
        }
    }
    for number in payers {
        if let Some(payer) = layout.payers.get(*number) {
            let weight = prices.weight(*number);
            change_costs(&mut nets.edges, layout.edges_of(payer), 0, weight);
        }
    }
}

// The greatest need over some edges.
fn greatest_need(needs: &[u64], edges: &[usize]) -> u64 {
    let mut greatest = 0u64;
    for edge in edges {
        greatest = greatest.max(needs.get(*edge).copied().unwrap_or(0));
    }
    greatest
}

// Lowers the needs over some edges by what is paid already.
fn lower_needs(needs: &mut [u64], edges: &[usize], paid: u64) {
    for edge in edges {
        if let Some(need) = needs.get_mut(*edge) {
            *need = need.saturating_sub(paid);
        }
    }
}

impl Settling<'_> {
    // Cuts what some payers of one shipment pay to what it needs, and the needs by it.
    fn cut(&mut self, prices: &mut SpanPrices, payers: &[usize], joined: bool) {
        for number in payers {
            let Some(payer) = self.layout.payers.get(*number) else {
                continue;
            };
            if (payer.span >= self.layout.singles) == joined
                && let Some(weight) = prices.weights.get_mut(*number)
            {
                let edges = self.layout.edges_of(payer);
                *weight = greatest_need(&self.needs, edges).min(*weight);
                lower_needs(&mut self.needs, edges, *weight);
            }
        }
    }

    // Cuts what a shipment pays to what it needs: joined spans first give what no class under them
    // needs, then single classes what is paid by joined spans.
    fn cut_to_needs(
        &mut self,
        nets: &mut Nets,
        net: &Net,
        prices: &mut SpanPrices,
        shipment: usize,
    ) -> u64 {
        let layout = self.layout;
        let payers = layout.own.group(shipment);
        set_net_costs(layout, nets, net, prices, payers);
        let least = find_needs(nets, net, &mut self.needs);
        self.cut(prices, payers, true);
        self.cut(prices, payers, false);
        set_net_costs(layout, nets, net, prices, payers);
        least
    }

    // Lets a shipment pay what the charges leave it.
    fn offer(&mut self, prices: &mut SpanPrices, shipment: usize) -> Result<(), NoMemory> {
        for number in self.layout.own.group(shipment) {
            let room = self.charges.room(self.layout, prices, *number)?;
            if let Some(weight) = prices.weights.get_mut(*number) {
                *weight = room.max(*weight);
            }
        }
        Ok(())
    }

    // One pass over the shipments, which are offered what the charges leave where `offers`, as long
    // as there is time. What their least costs come to.
    fn pass<D: Deadline>(
        &mut self,
        resources: &Resources<D>,
        nets: &mut Nets,
        prices: &mut SpanPrices,
        offers: bool,
    ) -> Result<u64, NoMemory> {
        let mut sum = 0u64;
        for number in 0..nets.list.len() {
            if let Some(net) = nets.list.get(number).copied() {
                if offers && !resources.is_over() {
                    self.offer(prices, number)?;
                }
                let least = self.cut_to_needs(nets, &net, prices, number);
                sum = sum.saturating_add(least);
            }
        }
        Ok(sum)
    }

    // What the charges of the prices as they are come to.
    fn find_charges(&mut self, prices: &SpanPrices) -> Result<u64, NoMemory> {
        self.charges.forget();
        self.charges.find_all(self.layout, prices)
    }
}

/// Cuts the prices to needs, and makes at most so many passes of the ascent in which the value
/// doesn't fall; it ends before where a pass gains nothing. The value.
pub(crate) fn settle<D: Deadline>(
    resources: &Resources<D>,
    layout: &Layout,
    nets: &mut Nets,
    prices: &mut SpanPrices,
    passes: u32,
    merges: bool,
) -> Result<u64, NoMemory> {
    let mut settling = Settling {
        layout,
        charges: Charges::of(resources.alloc, layout, MOST_LOADS, merges)?,
        needs: vec![in resources.alloc; 0u64; nets.edges.len()]?,
    };
    let mut known = settling.pass(resources, nets, prices, false)?;
    let mut charges = settling.find_charges(prices)?;
    for _ in 0..passes {
        let sum = settling.pass(resources, nets, prices, true)?;
        let left = settling.find_charges(prices)?;
        let gained = sum > known || left < charges;
        known = sum;
        charges = left;
        if !gained || resources.is_over() {
            break;
        }
    }
    Ok(prices.value(layout, known, charges))
}
