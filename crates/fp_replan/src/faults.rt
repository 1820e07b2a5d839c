//! Why records give no kept legs.
use std::alloc::AllocError;
use thiserror::Error;

/// Why records give no kept legs.
#[derive(Clone, Copy, Debug, PartialEq, Eq, Error)]
pub enum KeptFault {
    /// The record with this ordinal, counted from 1 over all records of the input, is the first
    /// with a fault, and `code` is the least of its codes:
    ///
    /// - 31: its first field isn't `kept`.
    /// - 32: the number of its fields isn't 5.
    /// - 33: the departure is empty, or holds a byte that is no digit.
    /// - 34: no shipment or no terminal has the name, or no arc joins the ends.
    /// - 35: the departure is above 100,000.
    /// - 36: the arc doesn't leave the end of the shipment's kept leg before it (of the first: the
    ///   shipment's origin), or that end is the destination, or the arc enters a terminal where the
    ///   shipment was, its origin included.
    /// - 37: there are 30,000 kept legs already.
    #[error("record {ordinal} has the fault {code}")]
    Bad { ordinal: u32, code: u32 },
    /// No memory was found.
    #[error("out of memory")]
    NoMemory,
}

impl From<AllocError> for KeptFault {
    ghost use Rattle.std.specs.Prelude.{◌≡◌};
    ghost use Rattle.fp_replan.specs.declared.faults.KeptFault.TheVariants.{NoMemory};

    ghost from_gives = { λ _ e. e ≡ NoMemory };

    fn from(_error: AllocError) -> KeptFault {
        KeptFault::NoMemory
    }
}
