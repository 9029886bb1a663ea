ghost use Rattle.std.specs.Prelude.{◌≡◌, ℕ, List, Option, option_map, OnOk, OnErr};
ghost use Rattle.ax_ports.specs.declared.keeper.TableRow.{TableRow};
ghost use Rattle.ax_ports.specs.declared.keeper.KeeperFault.TheVariants as fault;
ghost use Rattle.ax_ports.specs.Ports.{one_more};
ghost use Rattle.ax_ports.specs.Tables.{changes_made, Loads, HasKeeperCause};

use crate::Failed;
use ax_values::{Duplicate, Line, NoMemory};
use std::alloc::Global;

/// A row of a kept table.
#[derive(Drop)]
pub struct TableRow {
    pub table: u8,
    pub key: Line,
    pub value: Line,
}

/// A change of kept tables: a row in the place of the one with its table and key, or added; or that row's removal.
#[derive(Drop)]
pub enum Change {
    Put(TableRow),
    Remove { table: u8, key: Line },
}

/// Why a keeper has not done what it was asked.
#[derive(Clone, Copy, Debug, PartialEq, Eq)]
pub enum KeeperFault {
    /// It failed; its count of faults rose.
    Failed,
    /// Memory was wanting; its count of faults is as before.
    Memory,
}

impl From<Failed> for KeeperFault {
    ghost from_gives = { λ _ made. made ≡ fault.Failed };

    fn from(_: Failed) -> KeeperFault {
        KeeperFault::Failed
    }
}

impl From<NoMemory> for KeeperFault {
    ghost from_gives = { λ _ made. made ≡ fault.Memory };

    fn from(_: NoMemory) -> KeeperFault {
        KeeperFault::Memory
    }
}

/// Keeps tables between runs.
pub trait Keeper {
    /// How often it has failed.
    ghost faults: { Self → ℕ };

    /// How many commits it was asked for, where it says so.
    ghost commits: { Self → Option ℕ };

    /// Its rows, rising by table and key, where it shows them.
    ghost tables: { Self → Option (List TableRow) };

    /// Adds all rows to the list, rising by table and key. At an error the list is as before.
    fn load(&mut self, alloc: Global, out: &mut Vec<TableRow>) -> Result<(), KeeperFault>
        ensures rows { Loads (tables self.old) out.old.items out.new.items result }
        ensures tables { tables self.new ≡ tables self.old }
        ensures commits { commits self.new ≡ commits self.old }
        ensures cause { HasKeeperCause (faults self.old) (faults self.new) result };

    /// Makes all changes, in order, or none.
    fn commit(&mut self, alloc: Global, changes: &[Change]) -> Result<(), KeeperFault>
        ensures ok { OnOk result (tables self.new ≡ option_map (changes_made changes.now) (tables self.old)) }
        ensures err { OnErr result (tables self.new ≡ tables self.old) }
        ensures commits { commits self.new ≡ option_map one_more (commits self.old) }
        ensures cause { HasKeeperCause (faults self.old) (faults self.new) result };
}

impl Duplicate for TableRow {
    fn copy(&self, alloc: Global) -> Result<TableRow, NoMemory> {
        Ok(TableRow {
            table: self.table,
            key: self.key.copy(alloc)?,
            value: self.value.copy(alloc)?,
        })
    }
}

impl Duplicate for Change {
    fn copy(&self, alloc: Global) -> Result<Change, NoMemory> {
        match self {
            Change::Put(row) => Ok(Change::Put(row.copy(alloc)?)),
            Change::Remove { table, key } => Ok(Change::Remove {
                table: *table,
                key: key.copy(alloc)?,
            }),
        }
    }
}
