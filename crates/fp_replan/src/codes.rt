//! The faults that a record of a kept leg may have, and their codes.
ghost use Rattle.std.specs.Prelude.{◌≡◌};
ghost use Rattle.fp_replan.specs.Codes.{code_of};

/// A fault of one record. Of several, the one with the least code is told.
#[derive(Clone, Copy)]
pub enum RecordFault {
    /// The first field isn't `kept`.
    Kind,
    /// The number of fields isn't 5.
    Fields,
    /// The departure is empty, or holds a byte that is no digit.
    Digits,
    /// No shipment or no terminal has the name, or no arc joins the ends.
    Name,
    /// The departure is above 100,000.
    Range,
    /// The arc doesn't go on from the shipment's kept legs before it.
    Broken,
    /// There are as many kept legs as there may be.
    TooMany,
}

impl RecordFault {
    /// The code of the fault, from 31 to 37.
    pub fn code(self) -> u32
        ensures { result ≡ code_of self }
    {
        match self {
            RecordFault::Kind => 31,
            RecordFault::Fields => 32,
            RecordFault::Digits => 33,
            RecordFault::Name => 34,
            RecordFault::Range => 35,
            RecordFault::Broken => 36,
            RecordFault::TooMany => 37,
        }
    }
}
