//! What comes of improving a leaf.
use crate::kept::Kept;
use fp_relaxmodel::TimedWalk;

// What came of improving a leaf: it is empty; or what is kept of it, and a walk of least cost of each
// shipment under the price that was found.
#[derive(Drop)]
pub(crate) enum Outcome {
    Empty { kept: Kept },
    Open { kept: Kept, walks: Vec<TimedWalk> },
}
