//! What each kind of removal earned.

/// What the shipments have in common that are taken out in a turn.
#[derive(Clone, Copy)]
pub(crate) enum RemovalKind {
    // They share an arc, or nothing.
    Arc,
    // They pass a terminal at about one moment.
    Terminal,
    // They leave together, or go by that arc.
    Departure,
}

/// By how much turns made the best state met cheaper, in units of money, by what the shipments that they
/// took out have in common: an arc, a terminal at about one moment, or a departure.
#[derive(Clone, Copy, Debug, PartialEq, Eq)]
pub struct Earnings {
    pub arc: u128,
    pub terminal: u128,
    pub departure: u128,
}

impl Earnings {
    // Nothing.
    pub(crate) fn new() -> Earnings {
        Earnings {
            arc: 0,
            terminal: 0,
            departure: 0,
        }
    }

    // Adds what a turn earned.
    pub(crate) fn add(&mut self, kind: RemovalKind, less: u128) {
        let earned = match kind {
            RemovalKind::Arc => &mut self.arc,
            RemovalKind::Terminal => &mut self.terminal,
            RemovalKind::Departure => &mut self.departure,
        };
        *earned = earned.saturating_add(less);
    }
}
