//! The order that words give.
ghost use Rattle.std.specs.Prelude.{◌≡◌, IfOk, option_and_then, string_bytes};
ghost use Rattle.std.specs.List.{list_any};
ghost use Rattle.clap.specs.Words.{subcommand_rows_of};
ghost use Rattle.fp_app_words.specs.Commands.{entered_order, is_dashes};
ghost use Rattle.fp_app_words.specs.Settings.{IsWithinLimits};
ghost use Rattle.fp_app_words.specs.Words.{Orders, order_of, texts};

use crate::commands::{command, order_in};
use crate::{Order, WordFault};
use clap::ArgMatches;
use clap::error::ErrorKind;
use std::alloc::Global;

// Whether a word is `--`. To clap that is a mark and no word, so that it would take `direct --` for
// `direct`.
fn has_dashes(words: &[String]) -> bool
    ensures { result ≡ list_any (λ word. is_dashes (string_bytes word)) words.now }
{
    words.iter().any(|word| word.as_str() == "--")
}

// The order by what a parse found.
fn order_entered(alloc: Global, matches: &ArgMatches) -> Result<Order, WordFault>
    ensures order { Orders (option_and_then entered_order (subcommand_rows_of matches.now)) result }
    ensures range { IfOk result IsWithinLimits }
{
    match order_in(alloc, matches) {
        Ok(Some(order)) => Ok(order),
        Ok(None) => Err(WordFault::BadWords),
        Err(_) => Err(WordFault::NoMemory),
    }
}

/// The order that the words after the program's name give.
///
/// `BadWords` comes exactly where they have none of the forms: a command's name and the words that
/// it takes, with flags and options in any order, each at most once. `direct` and `check` take none,
/// and `fleet` the flag `--trucks`. `bound` takes the flag `--spans` and the option `--seconds N`,
/// which is two words or one, `--seconds=N`. `plan` and `improve` take these, the flag `--notes`, and
/// the options `--rounds N`, `--branches N` and `--scale N`; `replan` and `quote` take the same
/// without `--scale N`, and `quote` one other word among them, NAME, that isn't `--`, `--x` or `-x`.
/// `trial` takes three numbers, SEED TERMINALS SHIPMENTS, and `yard` one, SEED.
/// A number is 1 to 10 ASCII digits with a value in its range: at most
/// [`LAST_ROUND`](fp_model::LAST_ROUND) rounds, at most [`MOST_SPLITS`](fp_tree::MOST_SPLITS)
/// branches, a scale from 1 to [`GREATEST_SCALE`](fp_model::GREATEST_SCALE), and what [`Order`] says
/// of the others; seconds don't begin with a 0. `NoMemory` only where no memory is found.
pub fn read_words(alloc: Global, words: &[String]) -> Result<Order, WordFault>
    ensures order { Orders (order_of (texts words.now)) result }
    ensures range { IfOk result IsWithinLimits }
{
    if has_dashes(words) {
        return Err(WordFault::BadWords);
    }
    let Ok(command) = command(alloc) else {
        return Err(WordFault::NoMemory);
    };
    match command.try_get_matches_from(words) {
        Ok(matches) => order_entered(alloc, &matches),
        Err(error) => match error.kind() {
            ErrorKind::OutOfMemory => Err(WordFault::NoMemory),
            _ => Err(WordFault::BadWords),
        },
    }
}
