//! Lines `narrow,KIND,ROUND,MODE` and `narrow,KIND,ROUND,MODE,WORTH`.
ghost use Rattle.std.specs.Prelude.{◌≡◌, ◌<◌, ◌^◌, Some, None, length, MatchResult};
ghost use Rattle.fp_records_fields.specs.Findings.{IsFirstFault, first_code};
ghost use Rattle.fp_certificate.specs.Codes.{code_of};
ghost use Rattle.fp_certificate.specs.Trees.{narrowing_faults, narrowing_in, with_node};

use crate::drafts::Draft;
use crate::lines::faults::LineFault;
use crate::lines::prices::price_of;
use fp_certificate_lines::{LARGEST_FIGURE, Narrowing, Node};
use fp_records::Record;
use fp_records_fields::RecordError;

// The narrowing of a line, or the first of the line's faults.
fn narrowing_of(draft: &Draft, line: &Record) -> Result<Node, LineFault>
    requires { length draft.now.certificate.tables < 2 ^ 32 }
    ensures { MatchResult result
        (λ node. (first_code (narrowing_faults draft.now line.now) ≡ None) × (node ≡ narrowing_in line.now))
        (λ fault. first_code (narrowing_faults draft.now line.now) ≡ Some (code_of fault)) }
{
    let (price, worth) = price_of(draft, line, LARGEST_FIGURE)?;
    Ok(Node::Narrow {
        narrowing: Narrowing { price, worth },
    })
}

/// Adds the narrowing of a line, or tells the first of the line's faults.
pub fn read_narrowing(draft: &mut Draft, line: &Record) -> Result<(), RecordError<LineFault>>
    requires { length draft.old.certificate.tables < 2 ^ 32 }
    ensures { MatchResult result
        (λ _. (first_code (narrowing_faults draft.old line.now) ≡ None) × (draft.new ≡ with_node draft.old (narrowing_in line.now)))
        (λ e. IsFirstFault code_of e (first_code (narrowing_faults draft.old line.now))) }
{
    let node = narrowing_of(draft, line)?;
    draft.add_node(node)?;
    Ok(())
}
