//! Spans over whole arcs, whose payers are told apart by the moments at which they can leave.
ghost use Rattle.std.specs.Prelude.{◌≡◌, OnErr};

use crate::NoMemory;
use crate::joins::Priced;
use crate::layouts::{LaidSpan, Layout, Run};
use fp_duals_nets::{ArcMoney, ClassNodes, LeafNets, Nets};
use fp_model::limits::LATEST;
use std::alloc::Global;

// No span.
const NO_SPAN: u32 = u32::MAX;

// No payer.
const NO_PAYER: usize = usize::MAX;

// An edge of some net that stands for a class of an arc, by the arc.
type Crossing = (u32, Priced);

// The edges of all nets that stand for classes, by their arcs and then by shipment.
fn list_crossings(
    alloc: Global,
    nets: &Nets,
    classes: &[ClassNodes],
) -> Result<Vec<Crossing>, NoMemory> {
    let mut crossings = Vec::with_capacity(alloc, nets.uses.len())?;
    let mut shipment = 0u32;
    for net in &nets.list {
        for number in net.first_edge..net.end_edge {
            if let Some(edge) = nets.uses.get(number)
                && let Some(class) = classes.get(edge.class as usize)
            {
                let edge = (shipment, number, net.size);
                crossings.push((class.stop.arc, edge))?;
            }
        }
        shipment = shipment.wrapping_add(1);
    }
    crossings.sort_unstable();
    Ok(crossings)
}

impl Layout {
    /// A span for each arc of some net's edges, over all its classes. Tells the edges of the nets
    /// their spans and their payers, as `pool` and `part`. `NoMemory` only where no memory is
    /// found.
    pub fn of_arcs(alloc: Global, model: &mut LeafNets) -> Result<Layout, NoMemory>
        ensures { OnErr result (model.new ≡ model.old) }
    {
        let crossings = list_crossings(alloc, &model.nets, &model.classes)?;
        let mut layout = Layout::empty(alloc);
        layout.lay_arcs(alloc, &model.arcs, &crossings)?;
        layout.singles = layout.spans.len();
        layout.order_payers()?;
        layout.set_grains();
        layout.group_payers(alloc, model.nets.list.len())?;
        layout.tell_edges(&mut model.nets);
        Ok(layout)
    }

    // Lays a span over each arc that edges stand for, which stand by their arcs.
    fn lay_arcs(
        &mut self,
        alloc: Global,
        arcs: &[ArcMoney],
        crossings: &[Crossing],
    ) -> Result<(), NoMemory> {
        let mut priced = Vec::new(alloc);
        let mut arc = 0u32;
        for money in arcs {
            let first = crossings.partition_point(|(other, _)| *other < arc);
            let end = crossings.partition_point(|(other, _)| *other <= arc);
            priced.clear();
            for (_, edge) in crossings.get(first..end).unwrap_or(&[]) {
                priced.push(*edge)?;
            }
            if !priced.is_empty() {
                let span = self.arc_span(arc, money);
                self.push_wide(span, &priced)?;
            }
            arc = arc.wrapping_add(1);
        }
        Ok(())
    }

    // The next span, over all classes of an arc, without its payers.
    fn arc_span(&self, arc: u32, money: &ArcMoney) -> LaidSpan {
        let number = self.spans.len();
        LaidSpan {
            run: Run {
                arc,
                point: 0,
                until: LATEST + 1,
            },
            truck: money.truck,
            capacity: money.capacity,
            grain: 1,
            first: self.payers.len(),
            end: self.payers.len(),
            first_single: number,
            end_single: number.wrapping_add(1),
        }
    }

    // Tells the edges of the nets their spans and their payers.
    fn tell_edges(&self, nets: &mut Nets) {
        for edge in nets.uses.iter_mut() {
            edge.pool = NO_SPAN;
            edge.part = NO_PAYER;
        }
        let mut number = 0usize;
        for payer in &self.payers {
            for place in self.edges_of(payer) {
                if let Some(edge) = nets.uses.get_mut(*place) {
                    edge.pool = u32::try_from(payer.span).unwrap_or(NO_SPAN);
                    edge.part = number;
                }
            }
            number = number.wrapping_add(1);
        }
    }
}
