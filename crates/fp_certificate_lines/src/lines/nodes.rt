//! The lines of a tree, in preorder.
ghost use Rattle.std.specs.Prelude.{◌≡◌, ◌++◌, All, false, map, OnOk};
ghost use Rattle.fp_records.specs.Text.{line_of, lines_of};
ghost use Rattle.fp_certificate_lines.specs.Ranges.{NodeExists};
ghost use Rattle.fp_certificate_lines.specs.Rows.{node_fields};

use crate::NoMemory;
use crate::certificates::Node;
use crate::lines::leaves::write_leaf;
use crate::lines::narrowings::write_narrowing;
use crate::lines::splits::write_split;
use fp_model::Instance;
use fp_records::Line;

// Adds the line of a node.
fn write_node(line: &mut Line, instance: &Instance, node: Node) -> Result<(), NoMemory>
    requires begun { line.old.begun ≡ false }
    requires exists { NodeExists instance.now node }
    ensures text { OnOk result (line.new.text ≡ line.old.text ++ line_of (node_fields instance.now node)) }
    ensures ended { OnOk result (line.new.begun ≡ false) }
{
    match node {
        Node::Branch { split } => write_split(line, instance, split),
        Node::Leaf { valuation } => write_leaf(line, valuation),
        Node::Narrow { narrowing } => write_narrowing(line, narrowing),
    }
}

/// Adds the lines of nodes.
pub fn write_tree(line: &mut Line, instance: &Instance, tree: &[Node]) -> Result<(), NoMemory>
    requires begun { line.old.begun ≡ false }
    requires exist { All (NodeExists instance.now) tree.now }
    ensures text { OnOk result (line.new.text ≡ line.old.text ++ lines_of (map (node_fields instance.now) tree.now)) }
    ensures ended { OnOk result (line.new.begun ≡ false) }
{
    for node in tree {
        write_node(line, instance, *node)?;
    }
    Ok(())
}
