//! Between which figures the cost of one more shipment lies.
ghost use Rattle.std.specs.Prelude.{ℕ, ◌≡◌, ◌-◌, ◌≤◌};
ghost use Rattle.fp_model.specs.Problem.{Problem};
ghost use Rattle.fp_replan.specs.Quotes.{AreFigures, IsBetween, IsExtraCost, without_last as without_last_of};

/// Figures between which a cost lies, both included.
#[derive(Clone, Copy, Debug, PartialEq, Eq)]
pub struct Bracket {
    pub low: u128,
    pub high: u128,
}

/// Between which figures the extra cost of an instance's last shipment lies: the least cost of a
/// plan with it, minus the least cost of a plan without it.
///
/// Each low figure is a number under which no plan costs, and each cost that of a plan: `before`
/// without the shipment, `after` with it. `before_low` is at most `after_cost`, as it is where the
/// figures are such. `low` is `after_low - before_cost`, or 0 where that is negative, and `high` is
/// `after_cost - before_low`. Where each low figure is the cost beside it, both are the extra cost.
/// Takes no memory.
pub fn extra_range(
    before_low: u128,
    before_cost: u128,
    after_low: u128,
    after_cost: u128,
) -> Bracket
    requires { before_low ≤ after_cost }
    ensures low { result.low ≡ after_low - before_cost }
    ensures high { result.high ≡ after_cost - before_low }
    ensures between { (p : Problem) (extra : ℕ) → AreFigures (without_last_of p) before_low before_cost → AreFigures p after_low after_cost
        → IsExtraCost p extra → IsBetween result extra }
    ensures exact { (p : Problem) → AreFigures (without_last_of p) before_low before_cost → AreFigures p after_low after_cost
        → before_low ≡ before_cost → after_low ≡ after_cost → IsExtraCost p result.low × (result.high ≡ result.low) }
{
    Bracket {
        low: after_low.saturating_sub(before_cost),
        high: after_cost - before_low,
    }
}
