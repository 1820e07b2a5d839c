//! The numbers in the fields of a line that is read.
ghost use Rattle.std.specs.Prelude.{◌≡◌, ◌≤◌, ◌&&◌, true, false, Some, None, MatchOption, MatchResult};
ghost use Rattle.fp_records_fields.specs.Fields.{has_number, is_between, number_at};
ghost use Rattle.fp_records_fields.specs.Findings.{first_code};
ghost use Rattle.fp_records_fields.specs.NamedParts.{arc_in};
ghost use Rattle.fp_model.specs.declared.limits.TheConstants.{LAST_ROUND, LATEST};
ghost use Rattle.fp_certificate.specs.Answers.{is_figure};
ghost use Rattle.fp_certificate.specs.Codes.{code_of};
ghost use Rattle.fp_certificate.specs.Timetables.{departure_faults, ends_in_range, is_time};

use crate::lines::faults::LineFault;
use fp_certificate_lines::LARGEST_FIGURE;
use fp_model::limits::{LAST_ROUND, LATEST};
use fp_records::Record;
use fp_records_fields::Lookup;
use fp_records_fields::digits::{number_between, short_between};
use fp_records_fields::fields::{field_at, has_number};

/// Whether the fields at two places are numbers.
pub fn have_numbers(line: &Record, place: usize, other: usize) -> bool
    ensures { result ≡ (has_number line.now place && has_number line.now other) }
{
    has_number(line, place) && has_number(line, other)
}

/// The number in the field at a place; `None` exactly where it is above `2^127 - 1`.
pub fn figure_at(line: &Record, place: usize) -> Option<u128>
    requires { has_number line.now place ≡ true }
    ensures { MatchOption result (is_figure line.now place ≡ false) (λ n. (is_figure line.now place ≡ true) × (n ≡ number_at line.now place)) }
{
    number_between(field_at(line, place), 0, LARGEST_FIGURE)
}

/// The time in the field at a place; `None` exactly where it is above 100,000.
pub fn time_at(line: &Record, place: usize) -> Option<u32>
    requires { has_number line.now place ≡ true }
    ensures { MatchOption result (is_time line.now place ≡ false) (λ n. (is_time line.now place ≡ true) × (n ≡ number_at line.now place)) }
{
    short_between(field_at(line, place), 0, LATEST)
}

/// The end of a run in the field at a place, where the run's point is in range and stands in the field
/// at `start`; `None` exactly where the end isn't after the point, or is above 100,001.
pub fn end_at(line: &Record, start: usize, place: usize, point: u32) -> Option<u32>
    requires digits { has_number line.now place ≡ true }
    requires point { (point ≡ number_at line.now start) × (point ≤ LATEST) }
    ensures { MatchOption result (ends_in_range line.now start place ≡ false)
        (λ n. (ends_in_range line.now start place ≡ true) × (n ≡ number_at line.now place)) }
{
    short_between(field_at(line, place), point + 1, LATEST + 1)
}

/// The arc whose ends the fields at places 1 and 2 name, and the time in the field at 3, or the first
/// of their faults.
pub fn departure_at(lookup: &Lookup<'_>, line: &Record) -> Result<(u32, u32), LineFault>
    requires { has_number line.now 3 ≡ true }
    ensures { MatchResult result
        (λ departure. (first_code (departure_faults lookup.now line.now) ≡ None)
        × (departure.0 ≡ arc_in lookup.now line.now 1 2) × (departure.1 ≡ number_at line.now 3))
        (λ fault. first_code (departure_faults lookup.now line.now) ≡ Some (code_of fault)) }
{
    let Some(arc) = lookup.arc_at(line, 1, 2) else {
        return Err(LineFault::Name);
    };
    let Some(time) = time_at(line, 3) else {
        return Err(LineFault::Range);
    };
    Ok((arc, time))
}

/// The round in the field at a place; `None` exactly where it isn't from the least to 4,000.
pub fn round_at(line: &Record, place: usize, least: u32) -> Option<u32>
    requires { has_number line.now place ≡ true }
    ensures { MatchOption result (is_between least LAST_ROUND line.now place ≡ false)
        (λ n. (is_between least LAST_ROUND line.now place ≡ true) × (n ≡ number_at line.now place)) }
{
    short_between(field_at(line, place), least, LAST_ROUND)
}
