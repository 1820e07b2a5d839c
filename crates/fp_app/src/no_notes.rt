//! A sink of notes that takes nothing.
ghost use Rattle.std.specs.Prelude.{◌<◌, ◌^◌, None};

use fp_ends::{Failed, Sink};

/// Takes no byte: each write to it fails.
#[derive(Drop)]
pub(crate) struct NoNotes {
    faults: u64,
    ghost in_range: { faults < 2 ^ 64 },
}

impl NoNotes {
    /// A sink that takes nothing.
    pub(crate) fn new() -> NoNotes {
        NoNotes { faults: 0 }
    }
}

impl Sink for NoNotes {
    ghost taken = { λ _. None };

    ghost faults = { λ s. s.faults };

    ghost sure_room = { λ _. 0 };

    ghost counted = { λ s. s.in_range };

    fn write(&mut self, _piece: &[u8]) -> Result<usize, Failed> {
        self.faults = self.faults.saturating_add(1);
        Err(Failed)
    }
}
