//! The times of a tracked leg's record.
ghost use Rattle.std.specs.Prelude.{◌≡◌, true, false, MatchOption};
ghost use Rattle.fp_replan_present.specs.Records.{are_times_within, has_leg_fields as has_leg_fields_of, has_times as has_times_of, is_backward as is_backward_of, tells_arrival as tells_arrival_of, times_in as times_of};

use fp_model::limits::LATEST;
use fp_records::Record;
use fp_records_fields::digits::short_between;
use fp_records_fields::fields::{field_at, has_fields, has_number};

/// When a leg departs, and when it arrives where that is told.
#[derive(Clone, Copy)]
pub struct Times {
    pub depart: u32,
    pub arrive: Option<u32>,
}

// Whether a record of a tracked leg tells its arrival.
fn tells_arrival(line: &Record) -> bool
    ensures { result ≡ tells_arrival_of line.now }
{
    has_fields(line, 6)
}

// Whether it has 5 fields, or 6.
pub(crate) fn has_leg_fields(line: &Record) -> bool
    ensures { result ≡ has_leg_fields_of line.now }
{
    has_fields(line, 5) || tells_arrival(line)
}

// Whether its times are numbers.
pub(crate) fn has_times(line: &Record) -> bool
    ensures { result ≡ has_times_of line.now }
{
    has_number(line, 4) && (!tells_arrival(line) || has_number(line, 5))
}

// Its times, or `None` where one is above the limit.
pub(crate) fn times_in(line: &Record) -> Option<Times>
    requires { has_times_of line.now ≡ true }
    ensures { MatchOption result (are_times_within line.now ≡ false) (λ times. (times ≡ times_of line.now) × (are_times_within line.now ≡ true)) }
{
    let depart = short_between(field_at(line, 4), 0, LATEST)?;
    if !tells_arrival(line) {
        return Some(Times {
            depart,
            arrive: None,
        });
    }
    let arrive = short_between(field_at(line, 5), 0, LATEST)?;
    Some(Times {
        depart,
        arrive: Some(arrive),
    })
}

// Whether a leg arrives before it departs.
pub(crate) fn is_backward(times: Times) -> bool
    ensures { result ≡ is_backward_of times }
{
    match times.arrive {
        Some(arrive) => arrive < times.depart,
        None => false,
    }
}
