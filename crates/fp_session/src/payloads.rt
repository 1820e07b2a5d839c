//! What the tree of a search keeps at its nodes.
use fp_certificate_lines::Valuation;

// What a node keeps: how it is valued; whether it is empty, which only a leaf may be; where it is a
// split, what the incumbent cost when it became one; and as of which round its price was improved with
// all effort, if it was.
#[derive(Clone, Copy, Debug, PartialEq, Eq)]
pub(crate) struct Payload {
    pub valuation: Valuation,
    pub empty: bool,
    pub incumbent: u128,
    pub improved: Option<u32>,
}
