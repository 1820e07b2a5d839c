//! What words order, and why they order nothing.
ghost use Rattle.std.specs.Prelude.{◌≡◌, IfOk};

use crate::NoMemory;
use fp_session_history::Budget;
use std::alloc::Global;
use std::marker::Model;
use thiserror::Error;

/// A word for a name, whatever its bytes. Contracts see it as its bytes.
#[derive(Drop)]
pub struct NameWord {
    bytes: Vec<u8>,
}

impl Model for NameWord {
    ghost use Rattle.std.specs.Prelude.{ℕ, List};

    ghost Value = { List ℕ };

    ghost view = { λ n. n.bytes.items };
}

impl NameWord {
    /// A word of these bytes. `NoMemory` only where no memory is found.
    pub fn new(alloc: Global, bytes: &[u8]) -> Result<NameWord, NoMemory>
        ensures { IfOk result (λ word. word ≡ bytes.now) }
    {
        Ok(NameWord {
            bytes: bytes.to_vec(alloc)?,
        })
    }

    /// The bytes of the word.
    pub fn bytes(&self) -> &[u8]
        ensures { result.now ≡ self.now }
    {
        &self.bytes
    }
}

/// A command, with the numbers and flags that its words give. `spans` says that its search seeks
/// prices of runs of classes too, `seconds`, 1 to [`MOST_SECONDS`], when it ends at the latest, and
/// `notes` that it is told of while it goes on.
#[derive(Drop)]
pub enum Order {
    /// Each shipment's fastest timetable.
    Direct,
    /// Whether a certificate is accepted.
    Check,
    /// A number under which no plan costs.
    Bound {
        spans: bool,
        seconds: Option<u32>,
    },
    /// The cheapest plan that a search with this budget finds, at this scale of prices.
    Plan {
        budget: Budget,
        scale: u32,
        spans: bool,
        seconds: Option<u32>,
        notes: bool,
    },
    /// The cheapest plan that such a search finds which begins with a plan in hand.
    Improve {
        budget: Budget,
        scale: u32,
        spans: bool,
        seconds: Option<u32>,
        notes: bool,
    },
    /// What a search of an instance finds that is drawn from a seed, 0 to [`GREATEST_SEED`], with so
    /// many terminals, [`FEWEST_TERMINALS`] to [`MOST_TERMINALS`](fp_model::limits::MOST_TERMINALS),
    /// and at most [`MOST_SHIPMENTS`](fp_model::limits::MOST_SHIPMENTS) shipments.
    Trial {
        seed: u32,
        terminals: u32,
        shipments: u32,
    },
    /// The terminals' sheets of a plan, and departures and arrivals drawn from a seed, 0 to
    /// [`GREATEST_SEED`].
    Yard {
        seed: u32,
    },
    /// The fewest trucks that run a plan, and with `trucks` what each of them runs.
    Fleet {
        trucks: bool,
    },
    /// The cheapest plan that a search with this budget finds and that keeps legs which stand.
    Replan {
        budget: Budget,
        spans: bool,
        seconds: Option<u32>,
        notes: bool,
    },
    /// What the shipment of a name adds to the cost, or the last one where none is named, by two searches
    /// with this budget each.
    Quote {
        budget: Budget,
        spans: bool,
        seconds: Option<u32>,
        notes: bool,
        name: Option<NameWord>,
    },
}

/// The greatest seed of numbers that are drawn.
pub const GREATEST_SEED: u32 = 2_147_483_647;

/// The most seconds that a search may take: those of a day.
pub const MOST_SECONDS: u32 = 86_400;

/// The fewest terminals of an instance that is drawn.
pub const FEWEST_TERMINALS: u32 = 2;

/// Why words give no order.
#[derive(Clone, Copy, Debug, PartialEq, Eq, Error)]
pub enum WordFault {
    /// The words are none of the forms.
    #[error("the words have none of the forms")]
    BadWords,
    /// No memory was found.
    #[error("out of memory")]
    NoMemory,
}
