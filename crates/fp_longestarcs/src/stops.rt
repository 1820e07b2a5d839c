//! Classes: the stops of a timed walk.
/// A class: an arc, and a point of the arc's tail, in the input's unit of time.
///
/// It stands for all moments from that point up to, and without, the tail's next one.
#[derive(Clone, Copy, PartialEq, Eq, Hash)]
pub struct Stop {
    pub arc: u32,
    pub point: u32,
}
