//! What long work may use: memory and time.

ghost use Rattle.std.specs.Prelude.{◌≡◌, true};

use crate::{Deadline, NoDeadline};
use std::alloc::Global;

/// The memory and the time that some work may use.
#[derive(Drop)]
pub struct Resources<D> {
    /// Where memory comes from.
    pub alloc: Global,
    /// When the time is over.
    pub deadline: D,
}

impl Resources<NoDeadline> {
    /// Memory, and time without end.
    pub fn endless(alloc: Global) -> Resources<NoDeadline> {
        let deadline = NoDeadline::new();
        Resources { alloc, deadline }
    }
}

impl<D: Deadline> Resources<D> {
    /// Whether the time seems to be over: never where it has no end.
    pub fn is_over(&self) -> bool
        ensures { result ≡ true → D.ends self.now.deadline ≡ true }
    {
        self.deadline.has_passed()
    }
}
