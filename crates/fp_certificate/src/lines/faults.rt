//! The faults that a line may have, and their codes.
ghost use Rattle.std.specs.Prelude.{◌≡◌};
ghost use Rattle.fp_certificate.specs.Codes.{code_of};

use fp_records_fields::RecordError;

/// A fault of one line. They are looked for in this order, and the first is told.
#[derive(Clone, Copy)]
pub enum LineFault {
    /// The lines have ended before it.
    AfterEnd,
    /// Its first fields are no kind of line.
    Kind,
    /// The number of fields isn't that of the kind.
    Fields,
    /// A field is neither a number nor a word where its place takes one.
    Digits,
    /// The line can't stand here.
    Order,
    /// A name isn't that of a shipment or a terminal, or no arc joins the ends.
    Name,
    /// A number is out of its range.
    Range,
}

impl LineFault {
    /// The code of the fault, from 21 to 28.
    pub fn code(self) -> u32
        ensures { result ≡ code_of self }
    {
        match self {
            LineFault::AfterEnd => 27,
            LineFault::Kind => 21,
            LineFault::Fields => 22,
            LineFault::Digits => 23,
            LineFault::Order => 24,
            LineFault::Name => 25,
            LineFault::Range => 28,
        }
    }
}

impl From<LineFault> for RecordError<LineFault> {
    ghost use Rattle.std.specs.Prelude.{◌≡◌};
    ghost use Rattle.fp_records_fields.specs.declared.errors.RecordError.TheVariants as error;

    ghost from_gives = { λ fault e. e ≡ error.Fault fault };

    fn from(fault: LineFault) -> RecordError<LineFault> {
        RecordError::Fault(fault)
    }
}
