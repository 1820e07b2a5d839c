//! Why a record isn't added to what was read.
use std::alloc::AllocError;

/// Why a record isn't added to what was read, where `F` has the faults of a record.
#[derive(Clone, Copy)]
pub enum RecordError<F> {
    /// The record has this fault, and none that is told before it.
    Fault(F),
    /// No memory was found.
    NoMemory,
}

impl<F> From<AllocError> for RecordError<F> {
    ghost use Rattle.std.specs.Prelude.{◌≡◌};
    ghost use Rattle.fp_records_fields.specs.declared.errors.RecordError.TheVariants.{NoMemory};

    ghost from_gives = { λ _ e. e ≡ NoMemory };

    fn from(_error: AllocError) -> RecordError<F> {
        RecordError::NoMemory
    }
}
