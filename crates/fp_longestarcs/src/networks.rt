//! The network of points and timed copies of arcs, and the calls on it.
ghost use Rattle.std.specs.Prelude.{ℕ, ◌≡◌, ◌+◌, ◌<◌, ◌≤◌, false, true, IfOk, OnErr, OnOk, length};
ghost use Rattle.fp_model.specs.Problem.{Problem, arc_at};
ghost use Rattle.fp_model.specs.Routes.{step};
ghost use Rattle.fp_timenodes.specs.Floor.{floor_point};
ghost use Rattle.fp_base_lists.specs.Membership.{list_has};
ghost use Rattle.fp_timenodes.specs.Points.{TimePoints, points_at};
ghost use Rattle.fp_base_lists.specs.Ascending.{place_in};
ghost use Rattle.fp_longestarcs.specs.Classes.{head_of};
ghost use Rattle.fp_longestarcs.specs.Networks.{IsArcOfClass, IsClass, IsNetwork, TimedNetwork, class_count, class_number, first_class, kept_head, point_count, points_in, tail_in};
ghost use Rattle.fp_longestarcs.specs.Whole.{HasArcsOf, IsNetworkOf, IsWholeNetwork};
ghost use Rattle.fp_longestarcs.specs.Changes.{HasAlso, refined, restored, extended_points};
ghost use Rattle.fp_longestarcs.specs.Properties.{HasProperties};

use crate::NoMemory;
use crate::ascending::{floor_among, is_among};
use crate::copies::{add_point, lift_copies};
use crate::listing::{all_heads, all_tails, all_times, count_classes};
use crate::lists::{copied, list_at};
use fp_base_lists::{count_until, place_among};
use fp_model::Instance;
use fp_model::limits::MOST_ARCS;
use fp_timenodes::{LATEST, Place, Points};
use std::alloc::Global;
use std::marker::Model;

/// The most classes of a network: one for each arc and each time up to [`LATEST`].
pub const MOST_CLASSES: u32 = 100_001_000;

const _: () = prove!(MOST_CLASSES as usize == MOST_ARCS * (LATEST as usize + 1));

/// The points of each terminal, and for each arc a timed copy from each point of its tail.
///
/// A contract sees the tails of the arcs, the points of each terminal in ascending order, and for
/// each arc the heads of its timed copies in the order of its tail's points. A network is *whole*
/// for an instance where it has the timed copies of the instance's arcs and each head is the
/// greatest point of the arc's head that is not after the copy's point and the arc's step.
///
/// A terminal and an arc are numbers below their counts. A time to look up may be any number; a
/// point of a terminal is at most [`LATEST`], in the input's unit. A look-up takes time that grows
/// with the logarithm of a terminal's points or of the arcs, and no memory.
#[derive(Drop)]
pub struct Network {
    tails: Vec<u32>,
    points: Vec<Vec<u32>>,
    heads: Vec<Vec<u32>>,
    offsets: Vec<u32>,
}

impl Model for Network {
    ghost use Rattle.fp_longestarcs.specs.Networks.{TimedNetwork};
    ghost use Rattle.fp_longestarcs.specs.Vectors.{network_of, IsIndexedNetwork};

    ghost Value = { TimedNetwork };

    ghost view = { λ n. network_of n.tails.items n.points.items n.heads.items };

    ghost invariant = { λ n. IsIndexedNetwork (network_of n.tails.items n.points.items n.heads.items) n.offsets.items };
}

impl Network {
    /// The whole network of the instance with the points as of the round, which may be any number.
    /// `points` has the instance's number of terminals. `NoMemory` only where no memory is found.
    pub fn of(
        alloc: Global,
        instance: &Instance,
        points: &Points,
        round: u32,
    ) -> Result<Network, NoMemory>
        requires { points.now.terminals ≡ length instance.now.terminals }
        ensures whole { IfOk result (IsNetworkOf instance.now points.now round) }
        ensures properties { IfOk result (HasProperties instance.now (λ terminal. points_at points.now terminal round)) }
        ensures few { IfOk result (λ net. point_count net ≤ points.now.terminals + length points.now.first + length points.now.added) }
    {
        let times = all_times(alloc, points, instance.terminals().len() as u32, round)?;
        let tails = all_tails(alloc, instance)?;
        let heads = all_heads(alloc, instance, &times)?;
        let mut offsets = vec![in alloc; 0; tails.len() + 1]?;
        count_classes(&mut offsets, &tails, &times);
        Ok(Network {
            tails,
            points: times,
            heads,
            offsets,
        })
    }

    /// The points of a terminal, in ascending order and each once. 0 is the first.
    pub fn points(&self, terminal: u32) -> &[u32]
        requires { terminal < length self.now.points }
        ensures same { result.now ≡ points_in self.now terminal }
        ensures valid { IsNetwork self.now }
    {
        list_at(&self.points, terminal)
    }

    /// Whether the time is a point of the terminal.
    pub fn is_point(&self, terminal: u32, at: u32) -> bool
        requires { terminal < length self.now.points }
        ensures { result ≡ list_has (points_in self.now terminal) at }
    {
        is_among(self.points(terminal), at)
    }

    /// The greatest point of the terminal that is not after the time.
    pub fn floor(&self, terminal: u32, at: u32) -> u32
        requires { terminal < length self.now.points }
        ensures { result ≡ floor_point (points_in self.now terminal) 1 at }
    {
        floor_among(self.points(terminal), at)
    }

    /// The head that is kept for the class of the arc and the point, which is one of its tail's. In
    /// a whole network it is the greatest point of the arc's head that is not after the point and
    /// the arc's step.
    pub fn head(&self, arc: u32, point: u32) -> u32
        requires { IsClass self.now (record { arc = arc; depart = point }) }
        ensures kept { result ≡ kept_head self.now (record { arc = arc; depart = point }) }
        ensures greatest { (p : Problem) → IsWholeNetwork p self.now → result ≡ head_of p (points_in self.now) (record { arc = arc; depart = point }) }
    {
        list_at(&self.heads, arc)[self.place(arc, point)]
    }

    /// How many classes there are, one for each arc and point of its tail: at most
    /// [`MOST_CLASSES`].
    pub fn classes(&self) -> u32
        ensures count { result ≡ class_count self.now }
        ensures valid { IsNetwork self.now }
    {
        self.offsets[self.tails.len()]
    }

    /// The number of the class of the arc and the point of its tail, which is one of its points.
    /// Classes are numbered from 0, by arc and then by point.
    pub fn class(&self, arc: u32, point: u32) -> u32
        requires { IsClass self.now (record { arc = arc; depart = point }) }
        ensures number { result ≡ class_number self.now (record { arc = arc; depart = point }) }
        ensures below { result < class_count self.now }
    {
        self.offset(arc) + self.place(arc, point) as u32
    }

    /// The arc and the point of the class with this number, which is below the count of classes.
    pub fn of_class(&self, class: u32) -> (u32, u32)
        requires { class < class_count self.now }
        ensures is { IsClass self.now (record { arc = result.0; depart = result.1 }) }
        ensures number { class_number self.now (record { arc = result.0; depart = result.1 }) ≡ class }
    {
        let arc = self.arc_of_class(class);
        let place = class - self.offset(arc);
        (arc, self.points(self.tail(arc))[place as usize])
    }

    /// The same, which is found at once where the class is one of an arc that is named, `near`; any
    /// number may be named.
    pub fn of_class_near(&self, near: u32, class: u32) -> (u32, u32)
        requires { class < class_count self.now }
        ensures is { IsClass self.now (record { arc = result.0; depart = result.1 }) }
        ensures number { class_number self.now (record { arc = result.0; depart = result.1 }) ≡ class }
    {
        if (near as usize) < self.tails.len() {
            let first = self.offset(near);
            let points = self.points(self.tail(near));
            if first <= class && ((class - first) as usize) < points.len() {
                return (near, points[(class - first) as usize]);
            }
        }
        self.of_class(class)
    }

    // The tail of an arc.
    fn tail(&self, arc: u32) -> u32
        requires { arc < length self.now.tails }
        ensures tail { result ≡ tail_in self.now arc }
        ensures within { result < length self.now.points }
    {
        self.tails[arc as usize]
    }

    // The place of a point among those of an arc's tail.
    fn place(&self, arc: u32, point: u32) -> usize
        requires { IsClass self.now (record { arc = arc; depart = point }) }
        ensures place { result ≡ place_in (points_in self.now (tail_in self.now arc)) point }
        ensures within { result < length (points_in self.now (tail_in self.now arc)) }
        ensures valid { IsNetwork self.now }
    {
        place_among(self.points(self.tail(arc)), point)
    }

    // How many classes the arcs before an arc have.
    fn offset(&self, arc: u32) -> u32
        requires { arc < length self.now.tails }
        ensures { result ≡ first_class self.now arc }
    {
        self.offsets[arc as usize]
    }

    // The arc of the class with a number.
    fn arc_of_class(&self, class: u32) -> u32
        requires { class < class_count self.now }
        ensures arc { IsArcOfClass self.now class result }
        ensures valid { IsNetwork self.now }
    {
        (count_until(&self.offsets, class) - 1) as u32
    }

    /// Adds a point that isn't there, at most [`LATEST`], with its outgoing copies at their
    /// greatest heads. All other heads stay. The network has the timed copies of the instance's
    /// arcs. `NoMemory` only where no memory is found: then nothing changes. Takes time that grows
    /// with the points of the terminal for each arc out of it, and with the arcs.
    pub fn refine(
        &mut self,
        _alloc: Global,
        instance: &Instance,
        terminal: u32,
        at: u32,
    ) -> Result<(), NoMemory>
        requires arcs { HasArcsOf instance.now self.old }
        requires terminal { terminal < length instance.now.terminals }
        requires new { list_has (points_in self.old terminal) at ≡ false }
        requires in_time { at ≤ LATEST }
        ensures ok { OnOk result (self.new ≡ refined instance.now self.old terminal at) }
        ensures err { OnErr result (self.new ≡ self.old) }
    {
        add_point(
            instance,
            &self.tails,
            &mut self.points,
            &mut self.heads,
            &mut self.offsets,
            Place { terminal, at },
        )
    }

    /// Moves each head at the terminal that lies before `at`, and whose copy can reach `at`, to
    /// `at`. All else stays. The network has the timed copies of the instance's arcs, and `at` is
    /// meant to be a point of the terminal, as after `refine`. Takes no memory, and time that grows
    /// with the copies of the arcs into the terminal, and with the arcs.
    pub fn restore(&mut self, instance: &Instance, terminal: u32, at: u32)
        requires arcs { HasArcsOf instance.now self.old }
        ensures { self.new ≡ restored instance.now self.old terminal at }
    {
        lift_copies(
            instance,
            &self.tails,
            &self.points,
            &mut self.heads,
            Place { terminal, at },
        );
    }

    /// Adds, at the head of an arc, the time that its copy from a point can reach, the point and
    /// the arc's step, and answers that place. The network is whole for the instance and stays so;
    /// the copy's head lies before that time, which is at most [`LATEST`]. `NoMemory` only where no
    /// memory is found: then nothing changes.
    pub fn lengthen(
        &mut self,
        alloc: Global,
        instance: &Instance,
        arc: u32,
        point: u32,
    ) -> Result<Place, NoMemory>
        requires whole { IsWholeNetwork instance.now self.old }
        requires class { IsClass self.old (record { arc = arc; depart = point }) }
        requires short { kept_head self.old (record { arc = arc; depart = point }) < point + step instance.now arc }
        requires in_time { point + step instance.now arc ≤ LATEST }
        ensures place { IfOk result (λ place. place ≡ record { terminal = (arc_at instance.now arc).to; at = point + step instance.now arc }) }
        ensures whole { OnOk result (IsWholeNetwork instance.now self.new) }
        ensures points { OnOk result (self.new.points ≡ extended_points self.old (arc_at instance.now arc).to (point + step instance.now arc)) }
        ensures count { OnOk result (point_count self.new ≡ point_count self.old + 1) }
        ensures equal { OnOk result ((v : TimePoints) (round : ℕ) (net : TimedNetwork) → IsNetworkOf instance.now v round net →
            HasAlso self.old (arc_at instance.now arc).to (point + step instance.now arc) v round → self.new ≡ net) }
        ensures err { OnErr result (self.new ≡ self.old) }
    {
        let terminal = instance.arc(arc).to;
        let at = point + instance.step(arc);
        self.refine(alloc, instance, terminal, at)?;
        self.restore(instance, terminal, at);
        Ok(Place { terminal, at })
    }

    /// An equal network. `NoMemory` only where no memory is found.
    pub fn copy(&self, alloc: Global) -> Result<Network, NoMemory>
        ensures { IfOk result (λ net. net ≡ self.now) }
    {
        Ok(Network {
            tails: self.tails.as_slice().to_vec(alloc)?,
            points: copied(alloc, &self.points)?,
            heads: copied(alloc, &self.heads)?,
            offsets: self.offsets.as_slice().to_vec(alloc)?,
        })
    }
}
