//! Many places in one run, with a table of where hashes begin: `places` has two.

ghost use Rattle.std.specs.Prelude.{◌≡◌, [], IfOk, length};
ghost use Rattle.nm_shared.specs.Hashed.{at};
ghost use Rattle.nm_shared.specs.Places.{merge};

use crate::merge::Merge;
use crate::table::Table;
use crate::{Shared, SharedMap};
use nm_base::{Copies, NoMemory};
use std::alloc::Global;
use std::marker::Model;

/// The slot to which each hash leads, never changed. A contract sees it as its pairs in order.
#[derive(Drop)]
pub struct Long {
    pairs: SharedMap<u64, u64>,
    /// Where hashes begin in it.
    table: Option<Shared<Table>>,
}

impl Model for Long {
    ghost use Rattle.std.specs.Prelude.{ℕ, List};
    ghost use Rattle.std.specs.Coded.{coded_list, coded×, coded_ℕ};

    ghost Value = { List (ℕ × ℕ) };

    ghost coded = { coded_list (coded× coded_ℕ coded_ℕ) };

    ghost view = { λ l. l.pairs };
}

impl Long {
    /// None, and no memory is taken.
    pub fn new(alloc: Global) -> Long
        ensures { result ≡ [] }
    {
        Long {
            pairs: SharedMap::new(alloc),
            table: None,
        }
    }

    pub fn len(&self) -> usize
        ensures { result ≡ length self.now }
    {
        self.pairs.len()
    }

    pub fn alloc(&self) -> Global {
        self.pairs.alloc()
    }

    /// The slot to which the hash leads.
    pub fn get(&self, hash: u64) -> Option<u64>
        ensures { result ≡ at hash self.now }
    {
        match &self.table {
            Some(table) => Some(*self.pairs.get_by(&hash, table.get())?),
            None => Some(*self.pairs.get_spread(&hash)?),
        }
    }

    /// A clone, which counts two.
    pub fn share(&self) -> Result<Long, NoMemory>
        ensures { IfOk result (λ long. long ≡ self.now) }
    {
        let table = match &self.table {
            Some(table) => Some(table.copy()?),
            None => None,
        };
        Ok(Long {
            pairs: self.pairs.share()?,
            table,
        })
    }

    /// These with what came later, which counts before them.
    pub fn with(&self, late: &SharedMap<u64, u64>) -> Result<Long, NoMemory>
        ensures { IfOk result (λ long. long ≡ merge late.now self.now) }
    {
        merged(late, &self.pairs)
    }

    /// These, which count before the early ones, with them.
    pub fn before(&self, early: &Long) -> Result<Long, NoMemory>
        ensures { IfOk result (λ long. long ≡ merge self.now early.now) }
    {
        merged(&self.pairs, &early.pairs)
    }
}

/// Both in one run.
fn merged(late: &SharedMap<u64, u64>, early: &SharedMap<u64, u64>) -> Result<Long, NoMemory>
    ensures { IfOk result (λ long. long ≡ merge late.now early.now) }
{
    let len = late.len().saturating_add(early.len());
    let mut table = Table::new(early.alloc(), len);
    let mut merged = Vec::with_capacity(early.alloc(), len)?;
    'pairs: for pair in Merge::of(late.iter(), early.iter()) {
        table.note(pair.0, merged.len())?;
        merged.push(pair)?;
    }
    let table = Shared::new(early.alloc(), table)?;
    Ok(Long {
        pairs: SharedMap::of_sorted(merged)?,
        table: Some(table),
    })
}
