//! The theory of leaves as contracts without a body.
ghost use Rattle.fp_prices.specs.Leaves.{LeafWindowsKeepPlans, LeavesBoundPlans, LeavesHaveOneValue};

/// No plan of a leaf costs less than the leaf is worth, and an empty leaf has no plan; whoever
/// finds the value, and whatever the windows, the points, the sides, the kind of prices and the
/// tables.
///
/// A plan of a leaf lies within the windows by the whole parts of its moments, and obeys the leaf's
/// sides. Its departures may be any fractions of the unit of time. The value counts parts of a unit of money, so it is compared
/// with the scale times the plan's cost. For the value the instance is valid and the tables keep
/// the price rule; for an empty leaf nothing is asked.
pub fn leaves_bound_plans()
    ensures { LeavesBoundPlans }
{}

/// A plan of a leaf is one of the leaf over the windows that the leaf's sides narrow
/// ([`fp_allowed::Allowed::leaf_windows`]), under the same sides. So what bounds the plans of that
/// leaf bounds those of the first.
pub fn leaf_windows_keep_plans()
    ensures { LeafWindowsKeepPlans }
{}

/// Two values of one leaf are the same number, and an empty leaf has no value.
///
/// So the value is decided by the instance, the windows, the points, the sides, the tables, the
/// kind of prices and whether forced classes are paid whole; who computes it once more finds the
/// same.
pub fn leaves_have_one_value()
    ensures { LeavesHaveOneValue }
{}
