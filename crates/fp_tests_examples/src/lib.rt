//! Worked examples that tests of several crates share: texts of instances and of certificates, and
//! a call that reads an instance.
#![tactic(auto)]

mod certificates;
mod instances;
mod reading;

pub use certificates::{LARGE_LOADS_PROOF, LINE_PROOF, LINE_TABLE, TRIO_PROOF};
pub use instances::{DETOUR, LARGE_LOADS, LINE, ONE_ARC, PAIR, SLOW_WAY, TRIO};
pub use reading::instance_of;
