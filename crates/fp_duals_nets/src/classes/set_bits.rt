//! The classes whose bits are set in a row.
ghost use Rattle.std.specs.Prelude.{◌≡◌, length};

use crate::NoMemory;
use fp_rows::Row;

// The first bit that is set at a place or after it, in a row of so many bits.
fn next_set(row: &Row, at: u32, count: u32) -> Option<u32>
    requires { length row.now ≡ count }
{
    if at <= count {
        row.first_from(at)
    } else {
        None
    }
}

/// Puts in the numbers of the bits that are set in a row of so many bits, in order.
pub(crate) fn list_set(row: &Row, count: u32, numbers: &mut Vec<u32>) -> Result<(), NoMemory>
    requires { length row.now ≡ count }
{
    numbers.clear();
    let mut next = 0u32;
    for _ in 0..count {
        let Some(number) = next_set(row, next, count) else {
            break;
        };
        numbers.push(number)?;
        next = number.wrapping_add(1);
    }
    Ok(())
}
