//! What a search shows once it has ended.
ghost use Rattle.std.specs.Prelude.{IfOk};
ghost use Rattle.fp_session.specs.Certificates.{IsShown};
ghost use Rattle.fp_session.specs.Searches.{IsLeft, IsSearch};

use crate::NoMemory;
use crate::answers::answer;
use crate::certificates::certificate;
use crate::searches::Search;
use crate::tree_lines::split_notes;
use fp_certificate_lines::Certificate;
use fp_duals_leaves::Prices;
use fp_session_history::{Left, RoundNote, SplitNote};
use fp_tree::leaves_cover_all;
use std::alloc::Global;
use std::marker::Model;

/// What a search shows once it has ended: its certificate, the notes on its rounds and on its
/// splits, these in preorder, and what it left.
///
/// Contracts see the record of these parts, with lists.
#[derive(Drop)]
pub struct Solved {
    /// The answer with all that tells why it is true.
    pub certificate: Certificate,
    /// Why each round added points, from the first round on.
    pub trace: Vec<RoundNote>,
    /// Why each leaf was split that is a split of the certificate's tree, in the tree's order.
    pub splits: Vec<SplitNote>,
    /// What would have been next. `Nothing` exactly where the answer is optimal.
    pub left: Left,
}

impl Model for Solved {
    ghost use Rattle.fp_session_history.specs.Solutions.{Solution};

    ghost Value = { Solution };

    ghost view = { λ s. record {
      certificate = s.certificate;
      trace = s.trace.items;
      splits = s.splits.items;
      left = s.left;
    } };
}

// What is shown of a search that has ended and left this.
pub(crate) fn solution(
    alloc: Global,
    search: Search,
    prices: Prices,
    left: Left,
) -> Result<Solved, NoMemory>
    requires search { IsSearch search prices }
    requires left { IsLeft search prices left }
    ensures { IfOk result (IsShown search prices.unit left) }
{
    // The nodes are one tree.
    leaves_cover_all(&search.tree);
    let answer = answer(&search, &prices, &left);
    let splits = split_notes(alloc, &search.tree)?;
    let certificate = certificate(alloc, &search, prices, answer)?;
    Ok(Solved {
        certificate,
        trace: search.trace,
        splits,
        left,
    })
}
