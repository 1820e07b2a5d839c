//! Whether nodes are a tree, with narrowings before them.
ghost use Rattle.std.specs.Prelude.{◌≡◌, ◌↔◌, IsTrue, length};
ghost use Rattle.fp_model.specs.Problem.{Problem};
ghost use Rattle.fp_tree.specs.Trees.{tree_splits};
ghost use Rattle.fp_certificate_rules.specs.Leaves.{AreNarrowedTrees, fork_of, narrowings_among};

use fp_certificate_lines::Node;

// Whether the nodes are exactly one tree in preorder: as long as nodes are to come, a split opens
// one more tree, a leaf ends one, and a narrowing stands before the next node.
pub(crate) fn is_tree(nodes: &[Node]) -> bool
    ensures { IsTrue result ↔ AreNarrowedTrees 1 nodes.now }
{
    let mut pending: usize = 1;
    for node in nodes {
        if pending == 0 {
            return false;
        }
        match node {
            Node::Branch { .. } => pending += 1,
            Node::Leaf { .. } => pending -= 1,
            Node::Narrow { .. } => {}
        }
    }
    pending == 0
}

// How many of the nodes are splits.
pub(crate) fn split_count(nodes: &[Node]) -> usize
    ensures { (p : Problem) → result ≡ length (tree_splits (fork_of p) nodes.now) }
{
    let mut count: usize = 0;
    for node in nodes {
        match node {
            Node::Branch { .. } => count += 1,
            Node::Leaf { .. } => {}
            Node::Narrow { .. } => {}
        }
    }
    count
}

// How many of the nodes are narrowings.
pub(crate) fn narrowing_count(nodes: &[Node]) -> usize
    ensures { result ≡ length (narrowings_among nodes.now) }
{
    let mut count: usize = 0;
    for node in nodes {
        match node {
            Node::Narrow { .. } => count += 1,
            Node::Branch { .. } => {}
            Node::Leaf { .. } => {}
        }
    }
    count
}
