//! Laws on what a search has earned, without a body: any crate may cite them.
ghost use Rattle.fp_session_history.specs.Enough.{EnoughBranches, EnoughRounds};

/// A search that has earned what it shows hasn't used up its rounds where it may use as many as its
/// instance has terminals, times one more than the latest due time.
///
/// Each round adds a point after 0 and at most at that time, where there was none.
pub fn enough_rounds()
    ensures { EnoughRounds }
{}

/// A search that has earned what it shows hasn't used up its branches where it may use 2 to the
/// power of how often leaves can be divided: of its instance's slack, and where it has a unit, of that
/// and the slack of the trucks together.
///
/// Each split divides the departures that a shipment has left at a terminal or, where the search has a
/// unit, the numbers of trucks that an arc may have.
pub fn enough_branches()
    ensures { EnoughBranches }
{}
