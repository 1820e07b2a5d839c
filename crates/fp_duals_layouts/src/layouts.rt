//! The spans over the classes of a leaf, and who pays by them.
ghost use Rattle.std.specs.Prelude.{◌≡◌, OnErr};

use crate::NoMemory;
use crate::gifts::LaidGift;
use crate::groups::{Groups, Member};
use crate::payers::{ALWAYS, Payer, divisor_of, most_of};
use fp_duals_nets::{ClassNodes, ClassPool, ClassPools, EdgeUse, LeafNets, part_mut};
use fp_model::limits::LATEST;
use std::alloc::Global;

/// A run of the classes of an arc, from a point up to and without another.
#[derive(Clone, Copy, Debug, PartialEq, Eq)]
pub struct Run {
    pub arc: u32,
    pub point: u32,
    pub until: u32,
}

/// A span over a run. Its payers stand together, by shipment.
#[derive(Clone, Copy)]
pub struct LaidSpan {
    pub run: Run,
    /// What a truck costs.
    pub truck: u64,
    pub capacity: u64,
    /// A common divisor of the capacity and the payers' sizes.
    pub grain: u64,
    /// Where its payers stand, among all.
    pub first: usize,
    pub end: usize,
    /// The spans of single classes within its run.
    pub first_single: usize,
    pub end_single: usize,
}

/// The spans over the classes of a leaf: first one for each class that some shipment may use, by
/// arc and then by point, and then those that are joined of several; or one for each arc that some
/// shipment may use, whose payers are told apart by moments.
#[derive(Drop)]
pub struct Layout {
    pub spans: Vec<LaidSpan>,
    /// How many spans aren't joined.
    pub singles: usize,
    pub payers: Vec<Payer>,
    /// The edges of the payers, among those of all nets.
    pub(crate) edges: Vec<usize>,
    /// The payers of each span in the order of the first moments at which they can leave.
    pub(crate) order: Vec<usize>,
    /// The payers of each shipment, in the order of the spans.
    pub own: Groups,
    /// The joined spans over each span of a single class.
    pub covers: Groups,
    /// The payers of joined spans over each edge of all nets.
    pub links: Groups,
    /// The gifts for trucks.
    pub gifts: Vec<LaidGift>,
    /// The gifts over each span of a single class: those because at least so many trucks leave, and
    /// those because at most so many do.
    pub least_over: Groups,
    pub most_over: Groups,
}

/// The part of a list by payers that a span's payers have.
pub fn of_span<'a, T>(all: &'a [T], span: &LaidSpan) -> &'a [T] {
    all.get(span.first..span.end).unwrap_or(&[])
}

// The run of one class: it ends at the next point of the arc.
fn single_run(class: u32, classes: &[ClassNodes]) -> Run {
    let here = classes.get(class as usize);
    let next = classes.get((class as usize).wrapping_add(1));
    match (here, next) {
        (Some(here), Some(next)) if here.stop.arc == next.stop.arc => Run {
            arc: here.stop.arc,
            point: here.stop.point,
            until: next.stop.point,
        },
        (Some(here), _) => Run {
            arc: here.stop.arc,
            point: here.stop.point,
            until: LATEST + 1,
        },
        _ => Run {
            arc: 0,
            point: 0,
            until: 0,
        },
    }
}

// The spans of single classes, one for each class that has a pool.
fn single_spans(
    alloc: Global,
    pools: &[ClassPool],
    classes: &[ClassNodes],
) -> Result<Vec<LaidSpan>, NoMemory> {
    let mut spans = Vec::with_capacity(alloc, pools.len())?;
    for pool in pools {
        let number = spans.len();
        spans.push(LaidSpan {
            run: single_run(pool.class, classes),
            truck: pool.arc.truck,
            capacity: pool.arc.capacity,
            grain: 1,
            first: pool.first,
            end: pool.end,
            first_single: number,
            end_single: number.wrapping_add(1),
        })?;
    }
    Ok(spans)
}

// The edges of so many payers of spans of single classes: those that stand for the class. They are one
// but where walks go by arcs.
fn single_edges(alloc: Global, uses: &[EdgeUse], payers: usize) -> Result<Groups, NoMemory> {
    let mut members = Vec::with_capacity(alloc, uses.len())?;
    let mut number = 0usize;
    for edge in uses {
        if edge.part < payers {
            let group = edge.part;
            members.push(Member { group, number })?;
        }
        number = number.wrapping_add(1);
    }
    Groups::of(alloc, &members, payers)
}

// The payers of spans of single classes, each for a part of their pools, with these edges.
fn single_payers(
    alloc: Global,
    pools: &ClassPools,
    edges: &Groups,
) -> Result<Vec<Payer>, NoMemory> {
    let mut payers = Vec::with_capacity(alloc, pools.parts.len())?;
    for part in &pools.parts {
        let most = match pools.list.get(part.pool) {
            Some(pool) => most_of(part.size, pool.arc.truck, pool.arc.capacity),
            None => 0,
        };
        let (first_edge, end_edge) = edges.place(payers.len());
        payers.push(Payer {
            shipment: part.shipment,
            span: part.pool,
            size: part.size,
            most,
            lo: ALWAYS.0,
            hi: ALWAYS.1,
            first_edge,
            end_edge,
        })?;
    }
    Ok(payers)
}

impl Layout {
    /// A span for each class of some net's edges. Tells the edges of the nets their spans and their
    /// payers, as `pool` and `part`. `NoMemory` only where no memory is found.
    pub fn of(alloc: Global, model: &mut LeafNets) -> Result<Layout, NoMemory>
        ensures { OnErr result (model.new ≡ model.old) }
    {
        let pools = ClassPools::of(alloc, model, false, 0)?;
        let edges = single_edges(alloc, &model.nets.uses, pools.parts.len())?;
        let mut layout = Layout {
            spans: single_spans(alloc, &pools.list, &model.classes)?,
            singles: pools.list.len(),
            payers: single_payers(alloc, &pools, &edges)?,
            edges: edges.into_list(),
            ..Layout::empty(alloc)
        };
        layout.order_payers()?;
        layout.set_grains();
        layout.group_payers(alloc, model.nets.list.len())?;
        Ok(layout)
    }

    /// No spans.
    pub(crate) fn empty(alloc: Global) -> Layout {
        Layout {
            spans: Vec::new(alloc),
            singles: 0,
            payers: Vec::new(alloc),
            edges: Vec::new(alloc),
            order: Vec::new(alloc),
            own: Groups::new(alloc),
            covers: Groups::new(alloc),
            links: Groups::new(alloc),
            gifts: Vec::new(alloc),
            least_over: Groups::new(alloc),
            most_over: Groups::new(alloc),
        }
    }

    /// Puts the payers of each span in the order of the first moments at which they can leave.
    pub(crate) fn order_payers(&mut self) -> Result<(), NoMemory> {
        for number in self.order.len()..self.payers.len() {
            self.order.push(number)?;
        }
        let payers = &self.payers;
        for span in &self.spans {
            if let Some(order) = part_mut(&mut self.order, span.first, span.end) {
                order.sort_unstable_by_key(|number| match payers.get(*number) {
                    Some(payer) => (payer.lo, payer.shipment),
                    None => (0, 0),
                });
            }
        }
        Ok(())
    }

    /// Tells the payers apart by the first and the last moments at which they can leave, in the
    /// order of the payers; without it they can always leave.
    pub fn set_moments(&mut self, moments: &[(u32, u32)]) -> Result<(), NoMemory> {
        for (payer, (lo, hi)) in self.payers.iter_mut().zip(moments.iter()) {
            payer.lo = *lo;
            payer.hi = *hi;
        }
        self.order_payers()
    }

    /// Sets the grains of the spans.
    pub(crate) fn set_grains(&mut self) {
        for span in self.spans.iter_mut() {
            let mut grain = span.capacity;
            for payer in of_span(&self.payers, span) {
                grain = divisor_of(grain, payer.size);
            }
            span.grain = grain.max(1);
        }
    }

    /// Groups the payers by so many shipments.
    pub(crate) fn group_payers(&mut self, alloc: Global, shipments: usize) -> Result<(), NoMemory> {
        let mut members = Vec::with_capacity(alloc, self.payers.len())?;
        let mut number = 0usize;
        for payer in &self.payers {
            let group = payer.shipment as usize;
            members.push(Member { group, number })?;
            number = number.wrapping_add(1);
        }
        self.own = Groups::of(alloc, &members, shipments)?;
        Ok(())
    }

    /// The spans of single classes.
    pub fn singles(&self) -> &[LaidSpan] {
        self.spans.get(..self.singles).unwrap_or(&[])
    }

    /// The edges of a payer, among those of all nets.
    pub fn edges_of(&self, payer: &Payer) -> &[usize] {
        self.edges
            .get(payer.first_edge..payer.end_edge)
            .unwrap_or(&[])
    }
}
