//! What may be asked of an instance, its windows and a network: rows, forced chains and splits.

ghost use Rattle.std.specs.Prelude.{◌≡◌, ◌<◌, List, [], IfOk, IfSome, IsNone, IsSome, length};
ghost use Rattle.fp_model.specs.Numbered.{shipment_at};
ghost use Rattle.fp_flatnet.specs.Belonging.{BelongsTo, FitsInstance};
ghost use Rattle.fp_flatnet.specs.Tables.{windows_in};
ghost use Rattle.fp_longestarcs.specs.Networks.{IsClass, class_count, points_in};
ghost use Rattle.fp_longestarcs.specs.Whole.{IsWholeNetwork};
ghost use Rattle.fp_tree.specs.declared.sides.Side.{Side};
ghost use Rattle.fp_tree.specs.declared.sides.Split.TheVariants.{ByWay};
ghost use Rattle.fp_allowed.specs.Allowed.{tails_of};
ghost use Rattle.fp_allowed.specs.Bits.{AllowsPlans, IsRowUnder, allowed_in};
ghost use Rattle.fp_allowed.specs.Chains.{IsForced, SeveralLeave};
ghost use Rattle.fp_allowed.specs.Choices.{IsTaken, OneAtMost};
ghost use Rattle.fp_allowed.specs.Departures.{DividesDepartures, IsSplitAt};
ghost use Rattle.fp_allowed.specs.Heads.{heads_within};
ghost use Rattle.fp_allowed.specs.Settings.{IsSetting};
ghost use Rattle.fp_allowed.specs.WindowsUnder.{AreWindowRowsUnder, IsWindowRowUnder, KeepsPlansWhole};

use crate::NoMemory;
use crate::allowed_rows::allowed_row;
use crate::chain_ends::Chain;
use crate::choices::{Leaving, parting_split, way_split};
use crate::class_heads::head_for;
use crate::forced_chains::forced_chain;
use crate::windows_under::{all_windows, window_row};
use fp_flatnet::{Window, Windows};
use fp_longestarcs::Network;
use fp_model::Instance;
use fp_rows::Row;
use fp_tree::{Side, Split};
use std::alloc::Global;
use std::marker::Model;

/// An instance, windows that fit it, and a network that is whole for it: they decide which
/// classes a shipment may use under sides.
///
/// Contracts see the three as one record. A row has one bit per class of the network, at the
/// class's number.
#[derive(Drop)]
pub struct Allowed<'a> {
    instance: &'a Instance,
    windows: &'a Windows,
    network: &'a Network,
}

impl<'a> Model for Allowed<'a> {
    ghost use Rattle.fp_allowed.specs.Settings.{Setting, IsSetting};

    ghost Value = { Setting };

    ghost view = { λ a. record { problem = a.instance.now; windows = a.windows.now; network = a.network.now } };

    ghost invariant = { λ a. IsSetting (record { problem = a.instance.now; windows = a.windows.now; network = a.network.now }) };
}

impl<'a> Allowed<'a> {
    /// An instance, windows that belong to it, and a network together. Takes no memory.
    #[tactic(auto, using(fp_flatnet::proofs::WindowTimes::BelongsTo_fits))]
    pub fn new(instance: &'a Instance, windows: &'a Windows, network: &'a Network) -> Allowed<'a>
        requires belongs { BelongsTo instance.now windows.now }
        requires whole { IsWholeNetwork instance.now network.now }
        ensures { result ≡ record { problem = instance.now; windows = windows.now; network = network.now } }
    {
        Allowed::within(instance, windows, network)
    }

    /// An instance, windows that fit it, and a network together: the windows need have no anchors.
    /// Takes no memory.
    pub fn within(instance: &'a Instance, windows: &'a Windows, network: &'a Network) -> Allowed<'a>
        requires fits { FitsInstance instance.now windows.now }
        requires whole { IsWholeNetwork instance.now network.now }
        ensures { result ≡ record { problem = instance.now; windows = windows.now; network = network.now } }
    {
        Allowed {
            instance,
            windows,
            network,
        }
    }

    /// The row of a shipment under sides: one bit per class, set exactly where the class has a
    /// whole moment inside the shipment's window for the arc that no side forbids. The sides of
    /// other shipments ask nothing of it, nor do those by trucks but where at most 0 are to leave.
    ///
    /// So for every plan over any denominator that lies within the windows by its whole moments and
    /// obeys the sides, the classes of the shipment's legs are set, and each stands at or after the
    /// head of the one before. `NoMemory` only where no memory is found.
    pub fn row(&self, alloc: Global, shipment: u32, sides: &[Side]) -> Result<Row, NoMemory>
        requires { shipment < length self.now.problem.shipments }
        ensures exact { IfOk result (IsRowUnder self.now sides.now shipment) }
        ensures plans { IfOk result (AllowsPlans self.now sides.now shipment) }
    {
        allowed_row(
            alloc,
            self.instance,
            self.windows,
            self.network,
            shipment,
            sides,
        )
    }

    /// For each arc the window of a shipment under sides: the first and the last whole moment at which it
    /// can leave by the arc on some way from its origin to its destination on which each leg leaves at a
    /// whole moment, once the shipment is ready for it, in the shipment's window for its arc, and as no
    /// side forbids; or none where there is no such way. A way may enter a terminal twice. The sides of
    /// other shipments ask nothing of it, nor do those by trucks but where at most 0 are to leave.
    ///
    /// So for every plan over any denominator that lies within the windows by its whole moments and
    /// obeys the sides, each leg of the shipment, put at the whole moment at its own or before it, lies
    /// in the window of its arc. `NoMemory` only where no memory is found.
    pub fn windows_under(
        &self,
        alloc: Global,
        shipment: u32,
        sides: &[Side],
    ) -> Result<Vec<Option<Window>>, NoMemory>
        requires { shipment < length self.now.problem.shipments }
        ensures exact { IfOk result (λ row. IsWindowRowUnder self.now.problem (windows_in self.now.windows) sides.now shipment row.items) }
        ensures plans { IfOk result (λ row. KeepsPlansWhole self.now.problem (windows_in self.now.windows) sides.now shipment row.items) }
    {
        window_row(alloc, self.instance, self.windows, shipment, sides)
    }

    /// The windows of all shipments under sides, as [`Allowed::windows_under`] finds them, as windows
    /// of the instance. They fit the instance, and have no anchors. `NoMemory` only where no memory is
    /// found.
    pub fn leaf_windows(&self, alloc: Global, sides: &[Side]) -> Result<Windows, NoMemory>
        ensures rows { IfOk result (λ w. AreWindowRowsUnder self.now.problem (windows_in self.now.windows) sides.now w.rows) }
        ensures anchors { IfOk result (λ w. w.anchors ≡ []) }
        ensures fits { IfOk result (FitsInstance self.now.problem) }
    {
        all_windows(alloc, self.instance, self.windows, sides)
    }

    /// The head of a class for a shipment: the greatest point of the arc's head that isn't after the
    /// later one of the class's point and the first time of the shipment's window for the arc, if it
    /// has one, and the arc's step. Takes no memory.
    pub fn head(&self, shipment: u32, arc: u32, point: u32) -> u32
        requires shipment { shipment < length self.now.problem.shipments }
        requires class { IsClass self.now.network (record { arc = arc; depart = point }) }
        ensures { result ≡ heads_within self.now.problem (windows_in self.now.windows) (points_in self.now.network) shipment (record { arc = arc; depart = point }) }
    {
        head_for(
            self.instance,
            self.windows,
            self.network,
            shipment,
            arc,
            point,
        )
    }

    /// The forced chain of a shipment under a row of its, and how it ends.
    ///
    /// From the origin, while the terminal isn't the destination, wasn't met before and has exactly
    /// one allowed class, that class is taken and followed to its arc's head. `row` has one bit per
    /// class; the promise is for each list of sides under which it is the shipment's row. A
    /// terminal that the end names exists. `NoMemory` only where no memory is found.
    pub fn forced(&self, alloc: Global, shipment: u32, row: &Row) -> Result<Chain, NoMemory>
        requires shipment { shipment < length self.now.problem.shipments }
        requires row { length row.now ≡ class_count self.now.network }
        ensures { (sides : List Side) → IsRowUnder self.now sides shipment row.now →
            IfOk result (IsForced self.now.problem self.now.network (allowed_in self.now sides shipment) (shipment_at self.now.problem shipment)) }
    {
        forced_chain(alloc, self.instance, self.network, shipment, row)
    }

    /// A split of a shipment at a terminal, under a row of its, that leaves something on both
    /// sides. `None` exactly where fewer than two allowed classes leave the terminal.
    ///
    /// Where several arcs with allowed classes leave the terminal, it is by the arc whose window
    /// ends last, the least number at a tie. Where one does, it is by the point of the middle one
    /// of its allowed classes: of those from the half of the least and the greatest of their
    /// numbers on, rounded up, the first. `row` has one bit per class. For each list of sides under
    /// which it is the shipment's row, each side of the split, added to that list, leaves the
    /// shipment some departures at the terminal, and together they leave those that the list alone
    /// leaves. Takes no memory.
    pub fn choice(&self, shipment: u32, row: &Row, terminal: u32) -> Option<Split>
        requires shipment { shipment < length self.now.problem.shipments }
        requires row { length row.now ≡ class_count self.now.network }
        ensures none { (sides : List Side) → IsRowUnder self.now sides shipment row.now → IsNone result →
            OneAtMost (allowed_in self.now sides shipment) (λ c. tails_of self.now.problem c.arc ≡ terminal) }
        ensures several { (sides : List Side) → IsRowUnder self.now sides shipment row.now → IsSome result →
            SeveralLeave self.now.problem (allowed_in self.now sides shipment) terminal }
        ensures at { IfSome result (IsSplitAt self.now.problem shipment terminal) }
        ensures divides { (sides : List Side) → IsRowUnder self.now sides shipment row.now →
            IfSome result (DividesDepartures self.now.problem (windows_in self.now.windows) sides shipment terminal) }
        ensures taken { (sides : List Side) → IsRowUnder self.now sides shipment row.now →
            IfSome result (IsTaken self.now.problem (windows_in self.now.windows) self.now.network (allowed_in self.now sides shipment) shipment terminal) }
    {
        parting_split(&Leaving {
            instance: self.instance,
            windows: self.windows,
            network: self.network,
            shipment,
            row,
            terminal,
        })
    }

    /// The split of a shipment by the way by an arc, under a row of its, that leaves something on both
    /// sides. `None` where not both that arc and another one that leaves the same terminal have allowed
    /// classes.
    ///
    /// `row` has one bit per class. For each list of sides under which it is the shipment's row, each
    /// side of the split, added to that list, leaves the shipment some departures at the terminal, and
    /// together they leave those that the list alone leaves. Takes no memory.
    pub fn way(&self, shipment: u32, row: &Row, arc: u32) -> Option<Split>
        requires shipment { shipment < length self.now.problem.shipments }
        requires row { length row.now ≡ class_count self.now.network }
        requires arc { arc < length self.now.problem.arcs }
        ensures way { IfSome result (λ split. split ≡ ByWay shipment arc) }
        ensures at { IfSome result (IsSplitAt self.now.problem shipment (tails_of self.now.problem arc)) }
        ensures divides { (sides : List Side) → IsRowUnder self.now sides shipment row.now →
            IfSome result (DividesDepartures self.now.problem (windows_in self.now.windows) sides shipment (tails_of self.now.problem arc)) }
    {
        let terminal = self.instance.arc(arc).from;
        let leaving = Leaving {
            instance: self.instance,
            windows: self.windows,
            network: self.network,
            shipment,
            row,
            terminal,
        };
        way_split(&leaving, arc)
    }
}
