//! Where the answer of an input stands, if kept legs or a day are told before it.
ghost use Rattle.std.specs.Prelude.{ℕ, ◌≡◌, ◌≤◌, List, length, IfSome};
ghost use Rattle.fp_records.specs.Fields.{records_of};
ghost use Rattle.fp_app.specs.Inputs.{IsTailAnswer};

use fp_app_tails::{answer_place, tail_place};
use fp_records::Record;

/// How many records stand before the first `answer`, if some of these tell kept legs or a day that is
/// under way; `None` where none does.
pub fn tail_answer(lines: &[Record]) -> Option<usize>
    ensures tells { (input : List ℕ) → records_of input ≡ lines.now → IsTailAnswer input result }
    ensures within { IfSome result (λ place. place ≤ length lines.now) }
{
    let place = answer_place(lines);
    let begins = tail_place(&lines[..place]);
    if begins < place {
        return Some(place);
    }
    None
}
