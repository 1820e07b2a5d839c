//! The last of the lists of gifts that are read: what comes next is its.
ghost use Rattle.std.specs.Prelude.{◌≡◌, ◌<◌, length, OnOk};
ghost use Rattle.fp_certificate.specs.Gifts.{and_gift};
ghost use Rattle.fp_certificate.specs.Tables.{has_gift, with_last};

use crate::NoMemory;
use fp_prices_gifts::{Gift, TableGifts};

/// Whether a gift stands in the last table.
pub fn has_gift(gifts: &[TableGifts]) -> bool
    ensures { result ≡ has_gift gifts.now }
{
    match gifts.last() {
        Some(beside) => !beside.gifts.is_empty(),
        None => false,
    }
}

/// Adds a gift to the last list of gifts. The only error is `NoMemory`.
pub fn push_gift(gifts: &mut [TableGifts], gift: Gift) -> Result<(), NoMemory>
    requires { 0 < length gifts.old }
    ensures { OnOk result (gifts.new ≡ with_last (and_gift gift) gifts.old) }
{
    let last = gifts.len() - 1;
    let beside = &mut gifts[last];
    beside.gifts.push(gift)?;
    Ok(())
}
