//! The tests, a file for each subject.

mod allowed;
mod branching;
mod certificate;
mod checker;
mod gifts;
mod prices;
mod relaxmodel;
mod spans;
mod truck_candidates;
mod truck_splits;
mod way_candidates;
