//! The last of the tables that are read, and its last share: what comes next is theirs.
ghost use Rattle.std.specs.Prelude.{◌≡◌, ◌<◌, false, length, OnOk};
ghost use Rattle.fp_certificate.specs.Tables.{and_last_share_weight, and_share, and_weight, lacks_share, with_last};

use crate::NoMemory;
use fp_prices::{Share, Table, Weight};

/// Whether the last table has no share, or there is no table.
pub fn lacks_share(tables: &[Table]) -> bool
    ensures { result ≡ lacks_share tables.now }
{
    match tables.last() {
        Some(table) => table.shares.is_empty(),
        None => true,
    }
}

/// Adds a share to the last table. The only error is `NoMemory`.
pub fn push_share(tables: &mut [Table], share: Share) -> Result<(), NoMemory>
    requires { 0 < length tables.old }
    ensures { OnOk result (tables.new ≡ with_last (and_share share) tables.old) }
{
    let last = tables.len() - 1;
    let table = &mut tables[last];
    table.shares.push(share)?;
    Ok(())
}

// Adds a weight to the last of some shares. The only error is `NoMemory`.
fn push_to_shares(shares: &mut [Share], weight: Weight) -> Result<(), NoMemory>
    requires { 0 < length shares.old }
    ensures { OnOk result (shares.new ≡ with_last (and_weight weight) shares.old) }
{
    let last = shares.len() - 1;
    let share = &mut shares[last];
    share.weights.push(weight)?;
    Ok(())
}

// Adds a weight to the last share of a table. The only error is `NoMemory`.
fn push_to_table(table: &mut Table, weight: Weight) -> Result<(), NoMemory>
    requires { 0 < length table.old }
    ensures { OnOk result (table.new ≡ with_last (and_weight weight) table.old) }
{
    push_to_shares(&mut table.shares, weight)
}

/// Adds a weight to the last share of the last table. The only error is `NoMemory`.
pub fn push_weight(tables: &mut [Table], weight: Weight) -> Result<(), NoMemory>
    requires { lacks_share tables.old ≡ false }
    ensures { OnOk result (tables.new ≡ and_last_share_weight weight tables.old) }
{
    let last = tables.len() - 1;
    push_to_table(&mut tables[last], weight)
}
