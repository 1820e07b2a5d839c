//! The tests, a file for each subject.

mod bounds;
mod days;
mod deadlines;
mod directs;
mod dispatch;
mod failing_ends;
mod improvements;
mod input_faults;
mod notes;
mod plans;
mod quotes;
mod replans;
mod sizes;
mod tail_plans;
mod trials;
mod words;
