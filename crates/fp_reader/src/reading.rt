//! Reads an instance.
ghost use Rattle.std.specs.Prelude.{◌≡◌, ◌≤◌, ◌-◌, ◌^◌, ◌<◌, ℕ, length, not, take, Ok, Err, IfOk, MatchResult};
ghost use Rattle.std.specs.List.{prefix_len};
ghost use Rattle.fp_records_fields.specs.Indexes.{entries_of};
ghost use Rattle.fp_reader.specs.Answers.{IsFirst};
ghost use Rattle.fp_reader.specs.Input.{input_of, instance_records, is_answer, parts_from};
ghost use Rattle.fp_reader.specs.Parts.{nothing_read};

use crate::additions::add_record;
use crate::drafts::Draft;
use crate::faults::InputFault;
use fp_model::Instance;
use fp_records::Record;
use fp_records_fields::fields::is_of_kind;
use fp_records_fields::{Index, RecordError};
use std::alloc::Global;

/// What may follow the records of an instance.
#[derive(Clone, Copy, Debug, PartialEq, Eq)]
pub enum Tail {
    /// Nothing: a record `answer` is no record of an instance.
    Alone,
    /// A certificate, which begins with the first record `answer`.
    Certificate,
}

/// An instance, and how many records it took.
#[derive(Drop)]
pub struct Read {
    /// The instance.
    pub instance: Instance,
    /// The number of its records: all that were given, or those before the certificate.
    pub used: usize,
}

/// An instance with the index of its names and ends, which keeps the names as they stand in the
/// records, and how many records it took.
#[derive(Drop)]
pub struct IndexedRead<'a> {
    /// The instance.
    pub instance: Instance,
    /// Its index.
    pub index: Index<'a>,
    /// The number of its records: all that were given, or those before the certificate.
    pub used: usize,
}

// How many records stand before the first that begins a certificate.
fn answer_place(lines: &[Record]) -> usize
    ensures place { result ≡ prefix_len (λ fields. not (is_answer fields)) lines.now }
    ensures within { result ≤ length lines.now }
{
    for (place, line) in lines.iter().enumerate() {
        if is_of_kind(line, b"answer") {
            return place;
        }
    }
    lines.len()
}

// How many of the records are the instance's.
fn instance_len(lines: &[Record], tail: Tail) -> usize
    ensures records { take result lines.now ≡ instance_records tail lines.now }
    ensures within { result ≤ length lines.now }
{
    match tail {
        Tail::Alone => lines.len(),
        Tail::Certificate => answer_place(lines),
    }
}

// The parts that records give, or the first record with a fault.
fn draft_of(alloc: Global, lines: &[Record]) -> Result<Draft<'_>, InputFault>
    requires { length lines.now < 2 ^ 32 - 1 }
    ensures { MatchResult result
        (λ d. parts_from nothing_read 1 lines.now ≡ Ok d) (λ e. IsFirst e (parts_from nothing_read 1 lines.now)) }
{
    let mut draft = Draft::new(alloc);
    for (place, line) in lines.iter().enumerate() {
        draft = match add_record(alloc, draft, line) {
            Ok(more) => more,
            Err(RecordError::Fault(fault)) => {
                return Err(InputFault::Bad {
                    ordinal: place as u32 + 1,
                    code: fault.code(),
                });
            }
            Err(RecordError::NoMemory) => return Err(InputFault::NoMemory),
        };
    }
    Ok(draft)
}

/// The instance of the records, or the first fault. There are fewer than `2^32 - 1` records.
///
/// A record is one of these, and a terminal's comes before each record that names it:
///
/// - `terminal,NAME` or `terminal,NAME,HOLD`: a terminal. The hold is 0 to 1,000, and 0 where none
///   is given.
/// - `arc,FROM,TO,TIME,CAPACITY,TRUCK,FREIGHT`: an arc between two terminals. The time is 1 to
///   100,000, the capacity 1 to `10^18`, the costs of a truck and of a unit of freight 0 to
///   `10^18`.
/// - `shipment,NAME,FROM,TO,SIZE,RELEASE,DUE`: a shipment. The size is 1 to `10^18`, the times are
///   0 to 100,000.
///
/// Times and holds are in the input's unit of time. A number is one or more ASCII digits, leading
/// zeros allowed. A shipment may have the name of a terminal. The instance has the scale of
/// 1,000,000.
///
/// With `Tail::Certificate` the instance ends before the first record whose first field is
/// `answer`; `used` is the number of the instance's records.
///
/// `Bad` comes exactly where there is a fault: the first record with one decides, and in it the
/// least code ([`InputFault`] has the codes). `NoMemory` comes only where no memory is found.
pub fn instance(alloc: Global, lines: &[Record], tail: Tail) -> Result<Read, InputFault>
    requires { length lines.now < 2 ^ 32 - 1 }
    ensures read { IfOk result (λ r. (input_of tail lines.now ≡ Ok r.instance) × (r.used ≡ length (instance_records tail lines.now))) }
    ensures bad { (ordinal code : ℕ) → result ≡ Err (InputFault.Bad ordinal code) → input_of tail lines.now ≡ Err (record { ordinal = ordinal; code = code }) }
{
    let read = instance_with_index(alloc, lines, tail)?;
    Ok(Read {
        instance: read.instance,
        used: read.used,
    })
}

/// What [`instance`] reads, with the index of the instance's names and ends, for a reader of what
/// follows.
pub fn instance_with_index(
    alloc: Global,
    lines: &[Record],
    tail: Tail,
) -> Result<IndexedRead<'_>, InputFault>
    requires { length lines.now < 2 ^ 32 - 1 }
    ensures read { IfOk result (λ r. (input_of tail lines.now ≡ Ok r.instance) × (r.used ≡ length (instance_records tail lines.now))) }
    ensures index { IfOk result (λ r. r.index ≡ entries_of r.instance) }
    ensures bad { (ordinal code : ℕ) → result ≡ Err (InputFault.Bad ordinal code) → input_of tail lines.now ≡ Err (record { ordinal = ordinal; code = code }) }
{
    let used = instance_len(lines, tail);
    let draft = draft_of(alloc, &lines[..used])?;
    match draft.into_instance() {
        Some((instance, index)) => Ok(IndexedRead {
            instance,
            index,
            used,
        }),
        None => Err(InputFault::Bad {
            ordinal: 0,
            code: 12,
        }),
    }
}
