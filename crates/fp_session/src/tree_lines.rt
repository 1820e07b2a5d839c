//! The lines of a tree in a certificate, and the notes on its splits.
ghost use Rattle.std.specs.Prelude.{◌≡◌, IfOk};
ghost use Rattle.fp_session.specs.TreeLines.{lines_of, notes_of};

use crate::NoMemory;
use crate::payloads::Payload;
use fp_certificate_lines::Node;
use fp_session_history::SplitNote;
use fp_tree::{Tree, leaves_cover_all};
use std::alloc::Global;

// The lines of a tree's nodes, in preorder.
pub(crate) fn tree_lines(alloc: Global, tree: &Tree<Payload>) -> Result<Vec<Node>, NoMemory>
    ensures { IfOk result (λ lines. lines.items ≡ lines_of tree.now) }
{
    // The nodes are one tree, so each of its leaves has a number.
    leaves_cover_all(tree);
    let mut lines = Vec::new(alloc);
    let mut leaf = 0;
    for node in 0..tree.splits() + tree.leaves() {
        match tree.split_at(node) {
            Some(split) => lines.push(Node::Branch { split })?,
            None => {
                let valuation = tree.payload(leaf).valuation;
                lines.push(Node::Leaf { valuation })?;
                leaf += 1;
            }
        }
    }
    Ok(lines)
}

// The notes on a tree's splits, in preorder.
pub(crate) fn split_notes(alloc: Global, tree: &Tree<Payload>) -> Result<Vec<SplitNote>, NoMemory>
    ensures { IfOk result (λ notes. notes.items ≡ notes_of tree.now) }
{
    let mut notes = Vec::new(alloc);
    for split in 0..tree.splits() {
        let payload = *tree.split_payload(split);
        notes.push(SplitNote {
            incumbent: payload.incumbent,
            valuation: payload.valuation,
        })?;
    }
    Ok(notes)
}
