//! From which value on a class is barred.

/// From which value by spans on a class is barred: where the value, with `more` added to it and `less`
/// taken off, and at least 0, is worth `money` in whole units of money, rounded up. `more` and `less` count
/// parts of a unit.
#[derive(Clone, Copy, PartialEq, Eq, Debug)]
pub struct BarLimit {
    pub more: u128,
    pub less: u128,
    pub money: u128,
}
