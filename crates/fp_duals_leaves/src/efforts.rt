//! How much work it may take to improve the price of a leaf.
use fp_duals::Effort;
use fp_duals_spans::SpanEffort;

// Among more shipments the search at the two sides of a split by trucks or by a way has less patience: a turn takes
// longer there.
const MANY_SHIPMENTS: usize = 40;

// Among at most so many shipments the root of a search is priced over whole arcs where that is worth little less:
// among more, rounds by classes raise it by more than splits do.
const FEW_SHIPMENTS: usize = 100;

/// How much work it may take to improve the price of a leaf: by tables; and by spans, where these
/// are sought.
#[derive(Clone, Copy, Debug, PartialEq, Eq)]
pub struct PriceEffort {
    pub tables: Effort,
    pub spans: Option<SpanEffort>,
}

impl PriceEffort {
    /// For the root of a search, as long as it's a leaf.
    pub const ROOT: PriceEffort = PriceEffort {
        tables: Effort::ROOT,
        spans: Some(SpanEffort::ROOT),
    };
    /// For the root after rounds, where spans are sought: it goes on from those that it has, so tables
    /// are left out. By points spans over whole arcs gain little, so few turns are made over these.
    pub const AGAIN: PriceEffort = PriceEffort {
        tables: Effort {
            turns: 0,
            settle_passes: 0,
            ..Effort::CHOSEN
        },
        spans: Some(SpanEffort {
            patience: 30,
            joins: 1,
            arc_turns: 400,
            merged_turns: 0,
            ..SpanEffort::ROOT
        }),
    };
    /// For a leaf that a step has chosen.
    pub const CHOSEN: PriceEffort = PriceEffort {
        tables: Effort::CHOSEN,
        spans: Some(SpanEffort {
            turns: 400,
            patience: 40,
            joins: 0,
            arc_turns: 400,
            arc_patience: 40,
            merged_turns: 0,
            alone: true,
            ..SpanEffort::ROOT
        }),
    };
    /// For the two sides of a split: the spans that they inherit serve.
    pub const CHILD: PriceEffort = PriceEffort {
        tables: Effort::CHILD,
        spans: None,
    };
    /// None: a leaf is only valued by the prices that it inherits and by the six that each has, and
    /// its walks are found.
    pub const NONE: PriceEffort = PriceEffort {
        tables: Effort {
            turns: 0,
            settle_passes: 0,
            ..Effort::CHOSEN
        },
        spans: None,
    };
    /// Least: a leaf is only valued so, and its walks are any of least cost.
    pub const VALUE: PriceEffort = PriceEffort {
        tables: Effort {
            turns: 0,
            settle_passes: 0,
            share_passes: 0,
            ..Effort::CHOSEN
        },
        spans: None,
    };

    /// For the root of a search for plans among so many shipments before its first step, where spans are
    /// sought: by these alone; and among few shipments over whole arcs where such are worth little less,
    /// since splits and rounds take less time then.
    pub fn first(shipments: usize) -> PriceEffort {
        let arc_loss = if shipments > FEW_SHIPMENTS {
            0
        } else {
            4 << 10
        };
        PriceEffort {
            tables: PriceEffort::NONE.tables,
            spans: Some(SpanEffort {
                arc_loss,
                ..SpanEffort::ROOT
            }),
        }
    }

    /// For the two sides of a split by trucks or by a way among so many shipments: spans and gifts alone, on
    /// from the spans that they inherit. That's as much as they get until their next split. The ascent's
    /// direction is averaged anew at each leaf: with less patience it ends before it finds a better price.
    pub fn by_spans(shipments: usize) -> PriceEffort {
        let patience = if shipments > MANY_SHIPMENTS { 60 } else { 90 };
        PriceEffort {
            tables: PriceEffort::NONE.tables,
            spans: Some(SpanEffort {
                turns: 2000,
                patience,
                joins: 0,
                arc_turns: 2000,
                arc_patience: patience,
                merged_turns: 0,
                alone: true,
                ..SpanEffort::ROOT
            }),
        }
    }
}
