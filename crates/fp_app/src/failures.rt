//! Why a run has no answer.
use crate::NoMemory;
use thiserror::Error;

/// Why a run has no answer.
#[derive(Clone, Copy, Debug, PartialEq, Eq, Error)]
pub enum Failure {
    /// A read failed.
    #[error("a read failed")]
    ReadFault,
    /// No memory was found.
    #[error("out of memory")]
    NoMemory,
}

impl From<NoMemory> for Failure {
    ghost use Rattle.std.specs.Prelude.{◌≡◌};
    ghost use Rattle.fp_app.specs.declared.failures.Failure.TheVariants as failure;

    ghost from_gives = { λ _ e. e ≡ failure.NoMemory };

    fn from(_error: NoMemory) -> Failure {
        Failure::NoMemory
    }
}
