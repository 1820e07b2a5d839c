//! The tests, a file for each subject.

mod clashes;
mod dispatch;
mod duals;
mod gift_spans;
mod local;
mod repair;
mod session;
mod shortarcs;
mod votes;
