//! Lines `leaf,KIND,ROUND,MODE` and `leaf,KIND,ROUND,MODE,SIDES`.
ghost use Rattle.std.specs.Prelude.{◌≡◌, ◌<◌, ◌^◌, Some, None, length, MatchResult};
ghost use Rattle.fp_records_fields.specs.Findings.{IsFirstFault, first_code};
ghost use Rattle.fp_certificate.specs.Codes.{code_of};
ghost use Rattle.fp_certificate.specs.Trees.{leaf_faults, leaf_in, with_node};

use crate::drafts::Draft;
use crate::lines::faults::LineFault;
use crate::lines::prices::price_of;
use fp_certificate_lines::{Node, Valuation};
use fp_records::Record;
use fp_records_fields::RecordError;
use fp_tree::MOST_SPLITS;

// The leaf of a line, or the first of the line's faults.
fn leaf_of(draft: &Draft, line: &Record) -> Result<Node, LineFault>
    requires { length draft.now.certificate.tables < 2 ^ 32 }
    ensures { MatchResult result
        (λ node. (first_code (leaf_faults draft.now line.now) ≡ None) × (node ≡ leaf_in line.now))
        (λ fault. first_code (leaf_faults draft.now line.now) ≡ Some (code_of fault)) }
{
    let (price, last) = price_of(draft, line, u128::from(MOST_SPLITS))?;
    let sides = match last {
        Some(count) => Some(count as u32),
        None => None,
    };
    Ok(Node::Leaf {
        valuation: Valuation { price, sides },
    })
}

/// Adds the leaf of a line, or tells the first of the line's faults.
pub fn read_leaf(draft: &mut Draft, line: &Record) -> Result<(), RecordError<LineFault>>
    requires { length draft.old.certificate.tables < 2 ^ 32 }
    ensures { MatchResult result
        (λ _. (first_code (leaf_faults draft.old line.now) ≡ None) × (draft.new ≡ with_node draft.old (leaf_in line.now)))
        (λ e. IsFirstFault code_of e (first_code (leaf_faults draft.old line.now))) }
{
    let node = leaf_of(draft, line)?;
    draft.add_node(node)?;
    Ok(())
}
