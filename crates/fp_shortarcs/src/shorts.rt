//! Too short legs.
/// A leg of a relaxed plan whose timed arc is too short, named by its shipment and its number, from
/// 0, in the shipment's walk; and the place that the timed arc does not reach.
///
/// `terminal` is the head of the leg's arc. `at` is the leg's point and the arc's step, in the
/// input's unit of time.
#[derive(Clone, Copy, Debug, PartialEq, Eq)]
pub struct Short {
    pub shipment: u32,
    pub leg: u32,
    pub terminal: u32,
    pub at: u32,
}
