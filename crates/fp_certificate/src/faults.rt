//! Why records give no certificate.
use std::alloc::AllocError;
use thiserror::Error;

/// Why records give no certificate.
#[derive(Clone, Copy, Debug, PartialEq, Eq, Error)]
pub enum CertFault {
    /// The record with this ordinal, counted from 1 over all records of the input, is the first
    /// with a fault. `code` is 27 where it stands after `end`, and otherwise the first of its codes
    /// in the order 21, 22, 23, 24, 25, 28:
    ///
    /// - 21: its first field is no kind of a certificate's line, or the second field of an `answer`
    ///   is none of `direct`, `optimal`, `unfinished` and `infeasible`, or that of a `split` is
    ///   none of `arc`, `time` and `trucks`.
    /// - 22: the number of fields isn't that of the line.
    /// - 23: a field is neither a number nor a word where its place takes one.
    /// - 24: the line can't stand here. An `answer` stands first and nothing else does; no line
    ///   stands after one of a later section (answer, scale, unit, legs, trucks, points, tables
    ///   with their shares, spans, weights, groups and gifts, tree, end); there is one scale and one unit;
    ///   a table has the next number; a share stands in a table before its spans, a span in a
    ///   table, a weight in a share or a span of the last table and before the span's groups, a
    ///   group in a span of the last table, and a gift in a table after all of these; under a direct answer there are legs and trucks alone,
    ///   and under an infeasible one nothing but `end`.
    /// - 25: no shipment or no terminal has the name, or no arc joins the ends.
    /// - 26: the records end without `end`. The ordinal is one past that of the last record.
    /// - 27: the record stands after `end`.
    /// - 28: a number is out of its range ([`read`](crate::read) has the ranges).
    #[error("record {ordinal} has the fault {code}")]
    Bad { ordinal: u32, code: u32 },
    /// No memory was found.
    #[error("out of memory")]
    NoMemory,
}

impl From<AllocError> for CertFault {
    ghost use Rattle.std.specs.Prelude.{◌≡◌};
    ghost use Rattle.fp_certificate.specs.declared.faults.CertFault.TheVariants.{NoMemory};

    ghost from_gives = { λ _ e. e ≡ NoMemory };

    fn from(_error: AllocError) -> CertFault {
        CertFault::NoMemory
    }
}
