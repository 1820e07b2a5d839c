//! The faults that a record may have, and their codes.
ghost use Rattle.std.specs.Prelude.{◌≡◌};
ghost use Rattle.fp_reader.specs.Codes.{code_of};

/// A fault of one record. Of several, the one with the least code is told.
#[derive(Clone, Copy)]
pub enum RecordFault {
    /// The first field is no kind of record.
    Kind,
    /// The number of fields is none of those of the kind.
    Fields,
    /// A name field breaks the limit on names.
    Name,
    /// A number field is empty, or holds a byte that is no digit.
    Digits,
    /// A number is outside its limits.
    Range,
    /// An earlier terminal, or for a shipment an earlier shipment, has the name.
    NameTaken,
    /// An end is no earlier terminal.
    NoTerminal,
    /// Both ends are one terminal.
    SameEnds,
    /// An earlier arc has the same ends in the same order.
    ArcTaken,
    /// The due time is before the release time.
    DueBeforeRelease,
    /// There are as many of the kind as there may be.
    TooMany,
}

impl RecordFault {
    /// The code of the fault, from 1 to 11.
    pub fn code(self) -> u32
        ensures { result ≡ code_of self }
    {
        match self {
            RecordFault::Kind => 1,
            RecordFault::Fields => 2,
            RecordFault::Name => 3,
            RecordFault::Digits => 4,
            RecordFault::Range => 5,
            RecordFault::NameTaken => 6,
            RecordFault::NoTerminal => 7,
            RecordFault::SameEnds => 8,
            RecordFault::ArcTaken => 9,
            RecordFault::DueBeforeRelease => 10,
            RecordFault::TooMany => 11,
        }
    }
}
