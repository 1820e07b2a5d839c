//! What the charges mean, as a contract without a body.
ghost use Rattle.fp_prices_knapsack.specs.Charges.{TrueSizesArePaid};

/// Sizes are rounded down to grains, so a charge that pays for the items pays for each of their sets
/// by its true size: the set weighs at most the money for each truck that its size needs, and the
/// charge once. No item has the size 0.
pub fn true_sizes_are_paid()
    ensures { TrueSizesArePaid }
{}
