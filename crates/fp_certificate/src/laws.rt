//! That a written certificate is read back.
ghost use Rattle.fp_certificate.specs.Readable.{WrittenReadsBack};

use fp_certificate_lines::instances_are_named;
use fp_model::Instance;

/// That what is written of a certificate is read back, for each instance.
///
/// The certificate is in range, its tables can be counted in 32 bits, and its parts are those that
/// reading takes under its answer: legs and trucks alone under a direct answer, nothing under an
/// infeasible one. Then the records of the text that [`fp_certificate_lines::write`] gives of it are without a
/// fault, and [`read`](crate::read) gives it back. The call does nothing.
pub fn written_reads_back(instance: &Instance)
    ensures { WrittenReadsBack instance.now }
{
    instances_are_named(instance);
}
