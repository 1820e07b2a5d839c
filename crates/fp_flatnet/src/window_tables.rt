//! Windows: when each shipment can leave by each arc, and the anchors of those that were narrowed.
ghost use Rattle.std.specs.Prelude.{ℕ, ◌≡◌, ◌<◌, List, [], length, map, slice_index_or, IfOk, OnOk, OnErr};
ghost use Rattle.std.specs.Option.{option_map};
ghost use Rattle.fp_model.specs.Problem.{Problem};
ghost use Rattle.fp_flatnet.specs.Belonging.{AreNarrower, BelongsTo, FitsInstance};
ghost use Rattle.fp_flatnet.specs.Windows.{AreWindows, CoverPlans};
ghost use Rattle.fp_flatnet.specs.Tables.{AreFull, CanNarrow, closed, tail_of, narrowed, windows_in, with_entry, row_lists};

use crate::NoMemory;
use crate::window_rows::all_rows;
use fp_model::{Arc, Instance};
use fp_timenodes::Place;
use std::alloc::Global;
use std::marker::Model;

/// The most anchors: a window can be narrowed so often.
pub const MOST_ANCHORS: usize = 30_000;

/// The first and the last time at which a shipment can leave by an arc, in the input's unit of
/// time.
#[derive(Clone, Copy, PartialEq, Eq, Debug)]
pub struct Window {
    pub lo: u32,
    pub hi: u32,
}

/// For each shipment and arc of an instance its window, if there is one, and the anchors: the
/// places at which windows begin that were narrowed.
///
/// Contracts see the table of the arcs' tails, the shipments' rows of windows and the anchors.
/// `narrow` and `close` keep windows that belong to an instance so.
#[derive(Drop)]
pub struct Windows {
    tails: Vec<u32>,
    rows: Vec<Vec<Option<Window>>>,
    anchors: Vec<Place>,
}

impl Model for Windows {
    ghost use Rattle.fp_flatnet.specs.Tables.{AreFull, WindowTable, row_lists};

    ghost Value = { WindowTable };

    ghost view = { λ w. record {
      tails = w.tails.items;
      rows = row_lists w.rows.items;
      anchors = w.anchors.items;
    } };

    ghost invariant = { λ w. AreFull w.tails.items w.rows.items };
}

impl Windows {
    /// The windows of an instance.
    ///
    /// `lo` is the release where the arc leaves the origin, and otherwise the release plus the
    /// least time of a walk from the origin to the arc's tail plus the tail's hold. `hi` is the due
    /// time minus the arc's time where the arc enters the destination, and otherwise the due time
    /// minus the arc's step minus the least time of a walk from the arc's head to the destination.
    /// There is no window where one of these does not exist, where `lo > hi`, where the arc leaves
    /// the destination, or where it enters the origin. Every plan lies within these windows.
    /// `NoMemory` only where no memory is found.
    pub fn of(alloc: Global, instance: &Instance) -> Result<Windows, NoMemory>
        ensures windows { IfOk result (λ w. AreWindows instance.now (windows_in w)) }
        ensures anchors { IfOk result (λ w. w.anchors ≡ []) }
        ensures belongs { IfOk result (BelongsTo instance.now) }
        ensures fits { IfOk result (FitsInstance instance.now) }
        ensures covers { IfOk result (λ w. CoverPlans instance.now (windows_in w)) }
    {
        Ok(Windows {
            tails: tails_of(alloc, instance.arcs())?,
            rows: all_rows(alloc, instance)?,
            anchors: Vec::new(alloc),
        })
    }

    /// Windows of these rows for an instance, without anchors.
    ///
    /// There is one row a shipment with one entry an arc, and each window lies inside the problem's
    /// window of its shipment and arc. It may begin anywhere inside it: as no anchors are kept,
    /// `narrow` doesn't make such windows belong to the instance. `NoMemory` only where no memory is
    /// found.
    pub fn narrower(
        alloc: Global,
        instance: &Instance,
        rows: Vec<Vec<Option<Window>>>,
    ) -> Result<Windows, NoMemory>
        requires { AreNarrower instance.now (row_lists rows.items) }
        ensures rows { IfOk result (λ w. w.rows ≡ row_lists rows.items) }
        ensures anchors { IfOk result (λ w. w.anchors ≡ []) }
        ensures fits { IfOk result (FitsInstance instance.now) }
    {
        Ok(Windows {
            tails: tails_of(alloc, instance.arcs())?,
            rows,
            anchors: Vec::new(alloc),
        })
    }

    /// The first and the last time at which a shipment can leave by an arc, if there is such a
    /// time. Takes no memory.
    pub fn window(&self, shipment: u32, arc: u32) -> Option<(u32, u32)>
        requires shipment { shipment < length self.now.rows }
        requires arc { arc < length self.now.tails }
        ensures { result ≡ option_map (λ w. (w.lo, w.hi)) (windows_in self.now shipment arc) }
    {
        let row = &self.rows[shipment as usize];
        row[arc as usize].map(|window| (window.lo, window.hi))
    }

    /// Narrows the window of a shipment and an arc to the times from `lo` to `hi`, and makes `lo`
    /// at the arc's tail an anchor.
    ///
    /// The pair has a window, `lo <= hi` lies inside it, and there are fewer than [`MOST_ANCHORS`]
    /// anchors. `NoMemory` only where no memory is found: then nothing changes.
    pub fn narrow(
        &mut self,
        _alloc: Global,
        shipment: u32,
        arc: u32,
        lo: u32,
        hi: u32,
    ) -> Result<(), NoMemory>
        requires inside { CanNarrow self.old shipment arc lo hi }
        requires few { length self.old.anchors < MOST_ANCHORS }
        ensures ok { OnOk result (self.new ≡ narrowed self.old shipment arc lo hi) }
        ensures err { OnErr result (self.new ≡ self.old) }
        ensures belongs { (p : Problem) → BelongsTo p self.old → BelongsTo p self.new }
    {
        let terminal = self.tails[arc as usize];
        self.anchors.push(Place { terminal, at: lo })?;
        set_entry(&mut self.rows, shipment, arc, Some(Window { lo, hi }));
        Ok(())
    }

    /// Takes the window of a shipment and an arc away. Takes no memory.
    pub fn close(&mut self, shipment: u32, arc: u32)
        requires shipment { shipment < length self.old.rows }
        requires arc { arc < length self.old.tails }
        ensures closed { self.new ≡ closed self.old shipment arc }
        ensures belongs { (p : Problem) → BelongsTo p self.old → BelongsTo p self.new }
    {
        set_entry(&mut self.rows, shipment, arc, None);
    }

    /// The places at which windows begin that were narrowed, in the order in which they were.
    pub fn anchors(&self) -> &[Place]
        ensures { result.now ≡ self.now.anchors }
    {
        &self.anchors
    }
}

// The tails of the arcs.
fn tails_of(alloc: Global, arcs: &[Arc]) -> Result<Vec<u32>, NoMemory>
    ensures { IfOk result (λ tails. tails.items ≡ map tail_of arcs.now) }
{
    arcs.iter().map(|arc| arc.from).collect(alloc)
}

// Sets one entry of the rows.
fn set_entry(rows: &mut [Vec<Option<Window>>], shipment: u32, arc: u32, to: Option<Window>)
    requires shipment { shipment < length rows.old }
    requires arc { arc < length (slice_index_or (row_lists rows.old) shipment []) }
    ensures set { row_lists rows.new ≡ with_entry (row_lists rows.old) shipment arc to }
    ensures full { (tails : List ℕ) → AreFull tails rows.old → AreFull tails rows.new }
{
    let row = &mut rows[shipment as usize];
    row[arc as usize] = to;
}
