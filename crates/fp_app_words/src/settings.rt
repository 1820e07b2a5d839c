//! What words give a command: the values of options, whether a flag is among them, and the words in
//! places.
ghost use Rattle.std.specs.Prelude.{◌≡◌, ◌≤◌, IfOk, IfSome, Some, option_and_then};
ghost use Rattle.clap.specs.Words.{first_of, found_of, rows_of};
ghost use Rattle.fp_session_history.specs.Budgets.{IsBudget};
ghost use Rattle.fp_app_words.specs.Commands.{is_from_words, was_given};
ghost use Rattle.fp_app_words.specs.Settings.{IsTimeLimit, IsWithinLimits, begins_with_zero, bound_by, budget_by, fleet_by, improve_by, number_if, number_of, number_or, plan_by, quote_by, quote_of, replan_by, seconds_by, trial_by, yard_by};

use crate::NoMemory;
use crate::orders::{FEWEST_TERMINALS, GREATEST_SEED, MOST_SECONDS, NameWord, Order};
use clap::ArgMatches;
use clap::parser::ValueSource;
use fp_model::SCALE;
use fp_model::limits::{GREATEST_SCALE, LAST_ROUND, MOST_SHIPMENTS, MOST_TERMINALS};
use fp_records_fields::digits::{is_number, short_between};
use fp_session_history::Budget;
use fp_tree::MOST_SPLITS;
use std::alloc::Global;

/// The rounds of a search for which no number was given.
pub const USUAL_ROUNDS: u32 = 400;

/// The branches of a search for which no number was given.
pub const USUAL_BRANCHES: u32 = 4_000;

/// The most digits of a number.
pub const LONGEST_NUMBER: usize = 10;

// The number that a text writes, if it is 1 to 10 digits and the number is from `least` to `most`.
fn number_of(text: &str, least: u32, most: u32) -> Option<u32>
    ensures number { result ≡ number_of least most text.now }
    ensures range { IfSome result (λ n. (least ≤ n) × (n ≤ most)) }
{
    let digits = text.as_bytes();
    if is_number(digits) && digits.len() <= LONGEST_NUMBER {
        short_between(digits, least, most)
    } else {
        None
    }
}

// The number of the option of this name: `usual` where it wasn't given.
fn number_or(matches: &ArgMatches, name: &str, least: u32, most: u32, usual: u32) -> Option<u32>
    requires { (least ≤ usual) × (usual ≤ most) }
    ensures number { result ≡ number_or usual least most (first_of name.now (rows_of (found_of matches.now))) }
    ensures range { IfSome result (λ n. (least ≤ n) × (n ≤ most)) }
{
    match matches.get_str(name) {
        Some(text) => number_of(text, least, most),
        None => Some(usual),
    }
}

// Whether a text begins with the digit 0.
fn begins_with_zero(text: &str) -> bool
    ensures { result ≡ begins_with_zero text.now }
{
    let bytes = text.as_bytes();
    !bytes.is_empty() && bytes[0] == b'0'
}

// The number that a text writes which doesn't begin with 0, as that of an option that was given; `None`
// exactly where it is none.
fn number_given(text: &str, least: u32, most: u32) -> Option<Option<u32>>
    ensures number { result ≡ number_if least most (Some text.now) }
    ensures range { IfSome result (λ n. IfSome n (λ n. (least ≤ n) × (n ≤ most))) }
{
    if begins_with_zero(text) {
        return None;
    }
    match number_of(text, least, most) {
        Some(number) => Some(Some(number)),
        None => None,
    }
}

// The number of the option of this name, where it was given; `None` exactly where its text is no such
// number, or begins with 0.
fn number_if(matches: &ArgMatches, name: &str, least: u32, most: u32) -> Option<Option<u32>>
    ensures number { result ≡ number_if least most (first_of name.now (rows_of (found_of matches.now))) }
    ensures range { IfSome result (λ n. IfSome n (λ n. (least ≤ n) × (n ≤ most))) }
{
    match matches.get_str(name) {
        Some(text) => number_given(text, least, most),
        None => Some(None),
    }
}

// The number in the place of this name.
fn number_in(matches: &ArgMatches, name: &str, least: u32, most: u32) -> Option<u32>
    ensures number { result ≡ option_and_then (number_of least most) (first_of name.now (rows_of (found_of matches.now))) }
    ensures range { IfSome result (λ n. (least ≤ n) × (n ≤ most)) }
{
    match matches.get_str(name) {
        Some(text) => number_of(text, least, most),
        None => None,
    }
}

// Whether a value came from the words, and not from a default.
fn is_from_words(source: ValueSource) -> bool
    ensures { result ≡ is_from_words source }
{
    matches!(source, ValueSource::CommandLine)
}

// Whether the flag of this name was given. One that wasn't has a value too, by default.
fn was_given(matches: &ArgMatches, name: &str) -> bool
    ensures { result ≡ was_given name.now (rows_of (found_of matches.now)) }
{
    match matches.value_source(name) {
        Some(source) => is_from_words(source),
        None => false,
    }
}

// The budget that the options give.
fn budget_by(matches: &ArgMatches) -> Option<Budget>
    ensures budget { result ≡ budget_by (λ name. first_of name (rows_of (found_of matches.now))) }
    ensures range { IfSome result IsBudget }
{
    let rounds = number_or(matches, "rounds", 0, LAST_ROUND, USUAL_ROUNDS)?;
    let branches = number_or(matches, "branches", 0, MOST_SPLITS, USUAL_BRANCHES)?;
    Some(Budget { rounds, branches })
}

// The seconds that the options give, where they give some.
fn seconds_by(matches: &ArgMatches) -> Option<Option<u32>>
    ensures seconds { result ≡ seconds_by (λ name. first_of name (rows_of (found_of matches.now))) }
    ensures range { IfSome result IsTimeLimit }
{
    number_if(matches, "seconds", 1, MOST_SECONDS)
}

/// What the options of `bound` order; `None` exactly where the text of one is no number in its
/// range.
pub fn bound_by(matches: &ArgMatches) -> Option<Order>
    ensures order { result ≡ bound_by (λ name. first_of name (rows_of (found_of matches.now))) (λ name. was_given name (rows_of (found_of matches.now))) }
    ensures range { IfSome result IsWithinLimits }
{
    let seconds = seconds_by(matches)?;
    let spans = was_given(matches, "spans");
    Some(Order::Bound { spans, seconds })
}

/// What the options of `plan` order; `None` exactly where the text of one is no number in its
/// range.
pub fn plan_by(matches: &ArgMatches) -> Option<Order>
    ensures order { result ≡ plan_by (λ name. first_of name (rows_of (found_of matches.now))) (λ name. was_given name (rows_of (found_of matches.now))) }
    ensures range { IfSome result IsWithinLimits }
{
    let budget = budget_by(matches)?;
    let scale = number_or(matches, "scale", 1, GREATEST_SCALE, SCALE as u32)?;
    let seconds = seconds_by(matches)?;
    let spans = was_given(matches, "spans");
    let notes = was_given(matches, "notes");
    Some(Order::Plan {
        budget,
        scale,
        spans,
        seconds,
        notes,
    })
}

/// The same for `improve`.
pub fn improve_by(matches: &ArgMatches) -> Option<Order>
    ensures order { result ≡ improve_by (λ name. first_of name (rows_of (found_of matches.now))) (λ name. was_given name (rows_of (found_of matches.now))) }
    ensures range { IfSome result IsWithinLimits }
{
    let budget = budget_by(matches)?;
    let scale = number_or(matches, "scale", 1, GREATEST_SCALE, SCALE as u32)?;
    let seconds = seconds_by(matches)?;
    let spans = was_given(matches, "spans");
    let notes = was_given(matches, "notes");
    Some(Order::Improve {
        budget,
        scale,
        spans,
        seconds,
        notes,
    })
}

/// What the options of `replan` order; `None` exactly where the text of one is no number in its
/// range.
pub fn replan_by(matches: &ArgMatches) -> Option<Order>
    ensures order { result ≡ replan_by (λ name. first_of name (rows_of (found_of matches.now))) (λ name. was_given name (rows_of (found_of matches.now))) }
    ensures range { IfSome result IsWithinLimits }
{
    let budget = budget_by(matches)?;
    let seconds = seconds_by(matches)?;
    let spans = was_given(matches, "spans");
    let notes = was_given(matches, "notes");
    Some(Order::Replan {
        budget,
        spans,
        seconds,
        notes,
    })
}

// The word in the place of this name, where one was given. `NoMemory` only where no memory is found.
fn word_in(alloc: Global, matches: &ArgMatches, name: &str) -> Result<Option<NameWord>, NoMemory>
    ensures { IfOk result (λ word. word ≡ first_of name.now (rows_of (found_of matches.now))) }
{
    match matches.get_str(name) {
        Some(text) => Ok(Some(NameWord::new(alloc, text.as_bytes())?)),
        None => Ok(None),
    }
}

// What `quote` orders with this word in its place; `None` exactly where the text of an option is no number
// in its range.
fn quote_with(matches: &ArgMatches, name: Option<NameWord>) -> Option<Order>
    ensures order { result ≡ quote_of (λ name. first_of name (rows_of (found_of matches.now))) (λ name. was_given name (rows_of (found_of matches.now))) name }
    ensures range { IfSome result IsWithinLimits }
{
    let budget = budget_by(matches)?;
    let seconds = seconds_by(matches)?;
    let spans = was_given(matches, "spans");
    let notes = was_given(matches, "notes");
    Some(Order::Quote {
        budget,
        spans,
        seconds,
        notes,
        name,
    })
}

/// The same for `quote`, with the word in its place. `NoMemory` only where no memory is found.
pub fn quote_by(alloc: Global, matches: &ArgMatches) -> Result<Option<Order>, NoMemory>
    ensures order { IfOk result (λ order. order ≡ quote_by (λ name. first_of name (rows_of (found_of matches.now))) (λ name. was_given name (rows_of (found_of matches.now)))) }
    ensures range { IfOk result (λ order. IfSome order IsWithinLimits) }
{
    let name = word_in(alloc, matches, "name")?;
    Ok(quote_with(matches, name))
}

/// What the flag of `fleet` orders.
pub fn fleet_by(matches: &ArgMatches) -> Order
    ensures { Some result ≡ fleet_by (λ name. was_given name (rows_of (found_of matches.now))) }
{
    let trucks = was_given(matches, "trucks");
    Order::Fleet { trucks }
}

/// What the words in the places of `trial` order; `None` exactly where one is no number in its
/// range, or there is none.
pub fn trial_by(matches: &ArgMatches) -> Option<Order>
    ensures order { result ≡ trial_by (λ name. first_of name (rows_of (found_of matches.now))) }
    ensures range { IfSome result IsWithinLimits }
{
    let seed = number_in(matches, "seed", 0, GREATEST_SEED)?;
    let terminals = number_in(
        matches,
        "terminals",
        FEWEST_TERMINALS,
        MOST_TERMINALS as u32,
    )?;
    let shipments = number_in(matches, "shipments", 0, MOST_SHIPMENTS as u32)?;
    Some(Order::Trial {
        seed,
        terminals,
        shipments,
    })
}

/// What the word in the place of `yard` orders; `None` exactly where it is no number in its range,
/// or there is none.
pub fn yard_by(matches: &ArgMatches) -> Option<Order>
    ensures order { result ≡ yard_by (λ name. first_of name (rows_of (found_of matches.now))) }
    ensures range { IfSome result IsWithinLimits }
{
    let seed = number_in(matches, "seed", 0, GREATEST_SEED)?;
    Some(Order::Yard { seed })
}
