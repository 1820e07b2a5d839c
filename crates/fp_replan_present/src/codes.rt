//! The faults that a record of the present or of a tracked leg may have, and their codes.
ghost use Rattle.std.specs.Prelude.{◌≡◌};
ghost use Rattle.fp_replan_present.specs.Codes.{code_of};

/// A fault of one record. Of several, the one with the least code is told.
#[derive(Clone, Copy)]
pub enum RecordFault {
    /// The first field is neither `now` nor `kept`.
    Kind,
    /// The number of fields isn't 2 of `now`, or neither 5 nor 6 of `kept`.
    Fields,
    /// A time is empty, or holds a byte that is no digit.
    Digits,
    /// No shipment or no terminal has the name, or no arc joins the ends.
    Name,
    /// A time is above 100,000.
    Range,
    /// The arc doesn't go on from the shipment's tracked legs before it.
    Broken,
    /// There are as many tracked legs as there may be.
    TooMany,
    /// The present is told already.
    Twice,
    /// The leg arrives before it departs.
    Backward,
}

impl RecordFault {
    /// The code of the fault, from 31 to 39.
    pub fn code(self) -> u32
        ensures { result ≡ code_of self }
    {
        match self {
            RecordFault::Kind => 31,
            RecordFault::Fields => 32,
            RecordFault::Digits => 33,
            RecordFault::Name => 34,
            RecordFault::Range => 35,
            RecordFault::Broken => 36,
            RecordFault::TooMany => 37,
            RecordFault::Twice => 38,
            RecordFault::Backward => 39,
        }
    }
}
