//! The terminals that two fields of a record name.
ghost use Rattle.std.specs.Prelude.{◌≡◌, true, false, MatchOption};
ghost use Rattle.fp_reader.specs.Faults.{lacks_end};
ghost use Rattle.fp_records_fields.specs.NamedParts.{terminal_in};

use crate::drafts::Draft;
use fp_records::Record;
use fp_records_fields::fields::field_at;

/// Two terminals by their numbers.
#[derive(Clone, Copy)]
pub struct Ends {
    pub from: u32,
    pub to: u32,
}

/// The terminals that two fields name; `None` exactly where one names no earlier terminal.
pub fn ends_of(draft: &Draft<'_>, line: &Record, from: usize, to: usize) -> Option<Ends>
    ensures { MatchOption result (lacks_end draft.now line.now from to ≡ true)
        (λ ends. (lacks_end draft.now line.now from to ≡ false)
        × (ends ≡ record { from = terminal_in draft.now line.now from; to = terminal_in draft.now line.now to })) }
{
    let from = draft.terminal(field_at(line, from))?;
    let to = draft.terminal(field_at(line, to))?;
    Some(Ends { from, to })
}
