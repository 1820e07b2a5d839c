//! Why an input gives no instance.
use thiserror::Error;

/// Why an input gives no instance.
#[derive(Clone, Copy, Debug, PartialEq, Eq, Error)]
pub enum InputFault {
    /// The record with this ordinal, counted from 1, is the first with a fault, and `code` is the
    /// least of its codes: 1 the first field is no kind of record, 2 the number of fields is none
    /// of the kind's, 3 a name field (FROM and TO too) is not 1 to 32 ASCII letters, digits, `_` or
    /// `-`, 4 a number field is no number, 5 a number is outside its limits, 6 the name is taken by
    /// an earlier terminal (of a shipment: by an earlier shipment), 7 an end is no earlier
    /// terminal, 8 both ends are one terminal, 9 an earlier arc has the same ends in the same
    /// order, 10 a shipment is due before it is released, 11 there are 100 terminals, 1,000 arcs or
    /// 500 shipments already.
    ///
    /// Ordinal 0 and code 12: no record has a fault, and the weight of the instance is above `2^127
    /// - 1`.
    #[error("record {ordinal} has the fault {code}")]
    Bad { ordinal: u32, code: u32 },
    /// No memory was found.
    #[error("out of memory")]
    NoMemory,
}
