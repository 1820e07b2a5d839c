//! What the words of a search give.
ghost use Rattle.std.specs.Prelude.{◌≡◌};

use fp_session_history::Budget;

/// The budget of a search, whether it seeks spans, the seconds after which it ends, where there are
/// some, and whether it is noted while it goes on.
#[derive(Clone, Copy, Debug, PartialEq, Eq)]
pub struct SearchOptions {
    pub budget: Budget,
    pub spans: bool,
    pub seconds: Option<u32>,
    pub notes: bool,
}

impl SearchOptions {
    /// These options.
    pub fn new(budget: Budget, spans: bool, seconds: Option<u32>, notes: bool) -> SearchOptions
        ensures { result ≡ record { budget = budget; spans = spans; seconds = seconds; notes = notes } }
    {
        SearchOptions {
            budget,
            spans,
            seconds,
            notes,
        }
    }
}
