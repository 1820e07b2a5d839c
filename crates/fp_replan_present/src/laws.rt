//! What is so where nothing new is told, as contracts without bodies.
ghost use Rattle.fp_replan_present.specs.KeptDays.{CostAsKept, UnderwayAsKept};
ghost use Rattle.fp_replan_present.specs.Records.{ReadAsKept};

/// Records without the present and without an arrival are read as `fp_replan::read_kept` reads them:
/// as the same kept legs, or with the same fault.
pub fn reads_as_kept()
    ensures { ReadAsKept }
{}

/// The plans under way of a day of which kept legs alone are told are the plans that keep these, over
/// any denominator, and cost what they do.
pub fn goes_on_as_kept()
    ensures underway { UnderwayAsKept }
    ensures cost { CostAsKept }
{}
