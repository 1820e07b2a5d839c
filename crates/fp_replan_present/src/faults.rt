//! Why records give no day.
use std::alloc::AllocError;
use thiserror::Error;

/// Why records give no day.
#[derive(Clone, Copy, Debug, PartialEq, Eq, Error)]
pub enum PresentFault {
    /// The record with this ordinal, counted from 1 over all records of the input, is the first
    /// with a fault, and `code` is the least of its codes:
    ///
    /// - 31: its first field is neither `now` nor `kept`.
    /// - 32: the number of its fields isn't 2 of `now`, or neither 5 nor 6 of `kept`.
    /// - 33: a time is empty, or holds a byte that is no digit.
    /// - 34: no shipment or no terminal has the name, or no arc joins the ends.
    /// - 35: a time is above 100,000.
    /// - 36: the arc doesn't leave the end of the shipment's tracked leg before it (of the first: the
    ///   shipment's origin), or that end is the destination, or the arc enters a terminal where the
    ///   shipment was, its origin included.
    /// - 37: there are 30,000 tracked legs already.
    /// - 38: the present is told already.
    /// - 39: the leg arrives before it departs.
    #[error("record {ordinal} has the fault {code}")]
    Bad { ordinal: u32, code: u32 },
    /// No memory was found.
    #[error("out of memory")]
    NoMemory,
}

impl From<AllocError> for PresentFault {
    ghost use Rattle.std.specs.Prelude.{◌≡◌};
    ghost use Rattle.fp_replan_present.specs.declared.faults.PresentFault.TheVariants.{NoMemory};

    ghost from_gives = { λ _ e. e ≡ NoMemory };

    fn from(_error: AllocError) -> PresentFault {
        PresentFault::NoMemory
    }
}
