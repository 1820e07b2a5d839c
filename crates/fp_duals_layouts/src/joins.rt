//! Spans that are joined of several classes.

use crate::NoMemory;
use crate::groups::{Groups, Member};
use crate::layouts::{LaidSpan, Layout, Run, of_span};
use crate::payers::{ALWAYS, Payer, most_of};
use fp_duals_nets::Nets;
use std::alloc::Global;

/// A shipment, an edge of its net that a span prices, and its size.
pub(crate) type Priced = (u32, usize, u64);

impl Layout {
    /// The layout with joined spans over runs, whose payers aren't told apart. Runs without a class
    /// that is priced are left out. The numbers of the spans and payers that are there stay.
    /// `NoMemory` only where no memory is found.
    pub fn join(self, alloc: Global, nets: &Nets, runs: &[Run]) -> Result<Layout, NoMemory> {
        let mut layout = self;
        layout.lay_joined(alloc, runs)?;
        layout.order_payers()?;
        layout.set_grains();
        layout.group_payers(alloc, nets.list.len())?;
        layout.group_covers(alloc)?;
        layout.group_links(alloc, nets.edges.len())?;
        Ok(layout)
    }

    // Lays joined spans over runs, without their groups.
    fn lay_joined(&mut self, alloc: Global, runs: &[Run]) -> Result<(), NoMemory> {
        let mut priced = Vec::new(alloc);
        for run in runs {
            let (first_single, end_single) = self.singles_of(run);
            if let Some(single) = self.spans.get(first_single).copied()
                && first_single < end_single
            {
                self.list_priced(first_single, end_single, &mut priced)?;
                let span = LaidSpan {
                    run: *run,
                    first: self.payers.len(),
                    end: self.payers.len(),
                    first_single,
                    end_single,
                    ..single
                };
                self.push_wide(span, &priced)?;
            }
        }
        Ok(())
    }

    /// The spans of single classes within a run: the first, and the end.
    pub fn singles_of(&self, run: &Run) -> (usize, usize) {
        let first = self.single_from(run.arc, run.point);
        let end = self.single_from(run.arc, run.until);
        (first, end)
    }

    // The first span of a single class that doesn't stand before a point of an arc.
    fn single_from(&self, arc: u32, point: u32) -> usize {
        let before = |span: &LaidSpan| {
            span.run.arc < arc || span.run.arc == arc && span.run.point < point
        };
        self.singles().partition_point(before)
    }

    // Puts in the edges that are priced by spans of single classes, by shipment.
    fn list_priced(
        &self,
        first_single: usize,
        end_single: usize,
        priced: &mut Vec<Priced>,
    ) -> Result<(), NoMemory> {
        priced.clear();
        for span in self.spans.get(first_single..end_single).unwrap_or(&[]) {
            for payer in of_span(&self.payers, span) {
                for edge in self.edges_of(payer) {
                    priced.push((payer.shipment, *edge, payer.size))?;
                }
            }
        }
        priced.sort()
    }

    /// Adds a span of several classes with the payers of these edges, which stand by shipment and
    /// aren't told apart.
    pub(crate) fn push_wide(&mut self, span: LaidSpan, priced: &[Priced]) -> Result<(), NoMemory> {
        let number = self.spans.len();
        for (shipment, edge, size) in priced {
            let first_edge = self.edges.len();
            self.edges.push(*edge)?;
            let payers = self.payers.len();
            match self.payers.last_mut() {
                Some(last) if payers > span.first && last.shipment == *shipment => {
                    last.end_edge = first_edge.wrapping_add(1);
                }
                _ => {
                    self.payers.push(Payer {
                        shipment: *shipment,
                        span: number,
                        size: *size,
                        most: most_of(*size, span.truck, span.capacity),
                        lo: ALWAYS.0,
                        hi: ALWAYS.1,
                        first_edge,
                        end_edge: first_edge.wrapping_add(1),
                    })?;
                }
            }
        }
        let end = self.payers.len();
        self.spans.push(LaidSpan { end, ..span })?;
        Ok(())
    }

    // Groups the joined spans by the single classes within their runs.
    fn group_covers(&mut self, alloc: Global) -> Result<(), NoMemory> {
        let mut members = Vec::new(alloc);
        let mut number = self.singles;
        for span in self.spans.get(self.singles..).unwrap_or(&[]) {
            for group in span.first_single..span.end_single {
                members.push(Member { group, number })?;
            }
            number = number.wrapping_add(1);
        }
        self.covers = Groups::of(alloc, &members, self.singles)?;
        Ok(())
    }

    // Groups the payers of joined spans by their edges, of so many.
    fn group_links(&mut self, alloc: Global, edges: usize) -> Result<(), NoMemory> {
        let mut members = Vec::new(alloc);
        let mut number = 0usize;
        for payer in &self.payers {
            if payer.span >= self.singles {
                for group in self.edges_of(payer) {
                    members.push(Member {
                        group: *group,
                        number,
                    })?;
                }
            }
            number = number.wrapping_add(1);
        }
        self.links = Groups::of(alloc, &members, edges)?;
        Ok(())
    }
}
