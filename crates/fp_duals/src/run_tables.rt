//! The tables of prices of a run.
ghost use Rattle.std.specs.Prelude.{◌≡◌, ◌+◌, ◌≤◌, All, IfOk, MatchBool, false, [], ◌∷◌, ◌++◌, length, take, OnOk, OnErr};
ghost use Rattle.fp_prices.specs.Shares.{ClassShare};
ghost use Rattle.fp_duals.specs.declared.limits.TheConstants.{MOST_PRICE_LINES};
ghost use Rattle.fp_duals.specs.PriceLines.{AreWithinLimits, IsInTime, line_count, line_total};
ghost use Rattle.fp_duals.specs.PriceTables.{ArePriceTables};

use crate::NoMemory;
use crate::limits::MOST_PRICE_LINES;
use crate::table_tests::is_fit;
use fp_model::Instance;
use fp_prices::{Share, Table};
use std::alloc::Global;
use std::marker::Model;

// The price lines of a table of shares that has few enough.
fn lines_of(shares: &[Share]) -> u32
    requires { line_count shares.now ≤ MOST_PRICE_LINES }
    ensures { result ≡ line_count shares.now }
{
    let mut lines = 1;
    for share in shares {
        lines += 1 + share.weights.len() as u32;
    }
    lines
}

/// The tables of a run: their points are at most 100,000, and they have at most 500,000 price lines
/// in all, which are themselves, their shares and the weights of these.
///
/// Contracts see the list of the tables, each as the list of its shares.
#[derive(Drop)]
pub struct Tables {
    list: Vec<Table>,
    // How many price lines they have in all.
    lines: u32,
}

impl Model for Tables {
    ghost use Rattle.std.specs.Prelude.{List};
    ghost use Rattle.fp_prices.specs.Shares.{ClassShare};
    ghost use Rattle.fp_duals.specs.PriceLines.{AreCounted};

    ghost Value = { List (List ClassShare) };

    ghost view = { λ t. t.list.items };

    ghost invariant = { λ t. AreCounted t.list.items t.lines };
}

impl Tables {
    /// No tables. Takes no memory.
    pub fn new(alloc: Global) -> Tables
        ensures { result ≡ [] }
    {
        Tables {
            list: Vec::new(alloc),
            lines: 0,
        }
    }

    /// The tables. Takes no memory.
    pub fn list(&self) -> &[Table]
        ensures same { result.now ≡ self.now }
        ensures within { AreWithinLimits self.now }
    {
        &self.list
    }

    /// The tables, handed out. Takes no memory.
    pub fn into_list(self) -> Vec<Table>
        ensures { result.items ≡ self }
    {
        self.list
    }

    /// Keeps exactly the first `count` tables, of which there are at least so many. Takes no
    /// memory.
    pub fn cut(&mut self, count: u32)
        requires { count ≤ length self.old }
        ensures { self.new ≡ take count self.old }
    {
        while self.list.len() > count as usize {
            let _ = self.pop();
        }
    }

    /// How many price lines may still be added. Takes no memory.
    pub fn left(&self) -> u32
        ensures { result + line_total self.now ≡ MOST_PRICE_LINES }
    {
        MOST_PRICE_LINES - self.lines
    }

    /// Adds a table of at most so many price lines as are left. `NoMemory` only where no memory is
    /// found.
    pub(crate) fn push(&mut self, table: Table) -> Result<(), NoMemory>
        requires in_time { IsInTime table }
        requires few { line_count table + line_total self.old ≤ MOST_PRICE_LINES }
        ensures ok { OnOk result (self.new ≡ self.old ++ (table ∷ [])) }
        ensures err { OnErr result (self.new ≡ self.old) }
    {
        let lines = lines_of(&table.shares);
        self.list.push(table)?;
        self.lines += lines;
        Ok(())
    }

    /// Adds a table by which leaves of the instance may be priced, and tells whether it did: only where it
    /// has a share, and no more than `most` price lines and those that are left. `NoMemory` only where no
    /// memory is found.
    pub fn push_fit(
        &mut self,
        instance: &Instance,
        table: Table,
        most: u32,
    ) -> Result<bool, NoMemory>
        requires tables { ArePriceTables instance.now self.old }
        ensures added { IfOk result (λ added. MatchBool added
            (self.new ≡ self.old ++ (table ∷ [])) (self.new ≡ self.old)) }
        ensures tables { ArePriceTables instance.now self.new }
        ensures lines { IfOk result (λ added. line_total self.new ≤ line_total self.old + most) }
        ensures err { OnErr result (self.new ≡ self.old) }
    {
        if !is_fit(instance, &table, self.left().min(most)) {
            return Ok(false);
        }
        self.push(table)?;
        Ok(true)
    }

    /// Adds a table without shares, and tells whether it did: not where no price line is left.
    /// `NoMemory` only where no memory is found.
    pub fn push_empty(&mut self, alloc: Global) -> Result<bool, NoMemory>
        ensures added { IfOk result (λ added. MatchBool added
            (self.new ≡ self.old ++ ([] ∷ [])) (self.new ≡ self.old)) }
        ensures full { IfOk result (λ added. added ≡ false
            → line_total self.old ≡ MOST_PRICE_LINES) }
        ensures err { OnErr result (self.new ≡ self.old) }
    {
        if self.left() == 0 {
            return Ok(false);
        }
        self.push(Table {
            shares: Vec::new(alloc),
        })?;
        Ok(true)
    }

    /// Takes the last table away, where there is one.
    pub(crate) fn pop(&mut self) -> Table
        requires { 1 ≤ length self.old }
        ensures { self.old ≡ self.new ++ (result ∷ []) }
    {
        let table = self.list.pop().unwrap();
        self.lines -= lines_of(&table.shares);
        table
    }
}
