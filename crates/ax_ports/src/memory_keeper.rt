ghost use Rattle.std.specs.Prelude.{◌≡◌, ◌≤◌, ◌+◌, ◌<◌, ◌++◌, [], length, vec_len, vec_capacity, IsTrue, OnOk, OnErr};
ghost use Rattle.std.specs.List.Sorted.{IsBinarySearchResult, IsSearchInRange};
ghost use Rattle.ax_ports.specs.Tables.{are_rows, row_cmp, row_at, change_made, changes_made};

use crate::calls::Calls;
use crate::{Change, Keeper, KeeperFault, TableRow};
use ax_values::{Line, NoMemory, copy_all};
use std::alloc::Global;
use std::cmp::Ordering;

/// Tables in memory. The calls with these numbers fail.
#[derive(Drop)]
pub struct MemoryKeeper {
    rows: Vec<TableRow>,
    commits: u64,
    calls: Calls,
    ghost rising: { IsTrue (are_rows rows.items) },
}

impl MemoryKeeper {
    ghost use Rattle.ax_ports.specs.Memory.{keeper_rows, keeper_commits, keeper_calls};

    /// A keeper of these rows, which rise by table and key. It fails at the calls with these numbers, counted from 0.
    pub fn new(rows: Vec<TableRow>, fails: Vec<u32>) -> MemoryKeeper
        requires { IsTrue (are_rows rows.items) }
        ensures rows { keeper_rows result ≡ rows.items }
        ensures commits { keeper_commits result ≡ 0 }
        ensures calls { keeper_calls result ≡ record { fails = fails; made = 0; faults = 0 } }
    {
        MemoryKeeper {
            rows,
            commits: 0,
            calls: Calls::new(fails),
        }
    }

    /// The tables' rows, rising by table and key.
    pub fn rows(&self) -> &[TableRow]
        ensures rows { result.now ≡ keeper_rows self.now }
        ensures rising { IsTrue (are_rows (keeper_rows self.now)) }
    {
        &self.rows
    }
}

impl Keeper for MemoryKeeper {
    ghost use Rattle.std.specs.Prelude.{◌≡◌, ◌↔◌, Some, option_map, OnOk, OnErr, IsTrue, IsErrOf};
    ghost use Rattle.ax_ports.specs.declared.keeper.KeeperFault.{KeeperFault};
    ghost use Rattle.ax_ports.specs.Ports.{one_more};
    ghost use Rattle.ax_ports.specs.Tables.{changes_made, Loads, HasKeeperCause};
    ghost use Rattle.ax_ports.specs.Calls.{is_due, called};
    ghost use Rattle.ax_ports.specs.Memory.{keeper_rows, keeper_commits, keeper_calls};

    ghost faults = { λ keeper. (keeper_calls keeper).faults };

    ghost commits = { λ keeper. Some (keeper_commits keeper) };

    ghost tables = { λ keeper. Some (keeper_rows keeper) };

    fn load(&mut self, alloc: Global, out: &mut Vec<TableRow>) -> Result<(), KeeperFault>
        ensures rows { Loads (Some (keeper_rows self.old)) out.old.items out.new.items result }
        ensures tables { Some (keeper_rows self.new) ≡ Some (keeper_rows self.old) }
        ensures commits { Some (keeper_commits self.new) ≡ Some (keeper_commits self.old) }
        ensures cause { HasKeeperCause (keeper_calls self.old).faults (keeper_calls self.new).faults result }
        ensures fails { IsErrOf result KeeperFault.Failed ↔ IsTrue (is_due (keeper_calls self.old)) }
        ensures calls { keeper_calls self.new ≡ called (keeper_calls self.old) (is_due (keeper_calls self.old)) }
    {
        self.calls.next()?;
        add_copies(alloc, &self.rows, out)?;
        Ok(())
    }

    fn commit(&mut self, alloc: Global, changes: &[Change]) -> Result<(), KeeperFault>
        ensures ok { OnOk result (Some (keeper_rows self.new) ≡ option_map (changes_made changes.now) (Some (keeper_rows self.old))) }
        ensures err { OnErr result (Some (keeper_rows self.new) ≡ Some (keeper_rows self.old)) }
        ensures commits { Some (keeper_commits self.new) ≡ option_map one_more (Some (keeper_commits self.old)) }
        ensures cause { HasKeeperCause (keeper_calls self.old).faults (keeper_calls self.new).faults result }
        ensures fails { IsErrOf result KeeperFault.Failed ↔ IsTrue (is_due (keeper_calls self.old)) }
        ensures calls { keeper_calls self.new ≡ called (keeper_calls self.old) (is_due (keeper_calls self.old)) }
    {
        self.commits = self.commits.saturating_add(1);
        self.calls.next()?;
        change_rows(alloc, &mut self.rows, changes)?;
        Ok(())
    }
}

// Adds copies of all rows to the list. At an error the list is as before.
fn add_copies(alloc: Global, rows: &[TableRow], out: &mut Vec<TableRow>) -> Result<(), NoMemory>
    ensures ok { OnOk result (out.new.items ≡ out.old.items ++ rows.now) }
    ensures err { OnErr result (out.new.items ≡ out.old.items) }
{
    let mut copies = copy_all(alloc, rows)?;
    out.append(&mut copies)?;
    Ok(())
}

// Makes all changes in order, or none.
fn change_rows(alloc: Global, rows: &mut Vec<TableRow>, changes: &[Change]) -> Result<(), NoMemory>
    requires { IsTrue (are_rows rows.old.items) }
    ensures ok { OnOk result (rows.new.items ≡ changes_made changes.now rows.old.items) }
    ensures err { OnErr result (rows.new.items ≡ rows.old.items) }
    ensures rising { IsTrue (are_rows rows.new.items) }
{
    let copies = copy_all(alloc, changes)?;
    rows.reserve(copies.len())?;
    make_all(rows, copies);
    Ok(())
}

// Makes the changes in order. It takes no memory.
fn make_all(rows: &mut Vec<TableRow>, changes: Vec<Change>)
    requires rising { IsTrue (are_rows rows.old.items) }
    requires room { vec_len rows.old + vec_len changes ≤ vec_capacity rows.old }
    ensures made { rows.new.items ≡ changes_made changes.items rows.old.items }
    ensures rising { IsTrue (are_rows rows.new.items) }
{
    for change in changes {
        make(rows, change);
    }
}

// Makes one change. It takes no memory.
fn make(rows: &mut Vec<TableRow>, change: Change)
    requires rising { IsTrue (are_rows rows.old.items) }
    requires room { vec_len rows.old < vec_capacity rows.old }
    ensures made { rows.new.items ≡ change_made change rows.old.items }
    ensures len { vec_len rows.new ≤ vec_len rows.old + 1 }
    ensures capacity { vec_capacity rows.old ≤ vec_capacity rows.new }
{
    match change {
        Change::Put(row) => put(rows, row),
        Change::Remove { table, key } => remove(rows, table, &key),
    }
}

fn put(rows: &mut Vec<TableRow>, row: TableRow)
    requires rising { IsTrue (are_rows rows.old.items) }
    requires room { vec_len rows.old < vec_capacity rows.old }
    ensures made { rows.new.items ≡ change_made (Change.Put row) rows.old.items }
    ensures len { vec_len rows.new ≤ vec_len rows.old + 1 }
    ensures capacity { vec_capacity rows.old ≤ vec_capacity rows.new }
{
    match place_of(rows, row.table, &row.key) {
        Ok(place) => rows[place] = row,
        Err(place) => {
            let _ = rows.insert(place, row);
        }
    }
}

fn remove(rows: &mut Vec<TableRow>, table: u8, key: &Line)
    requires rising { IsTrue (are_rows rows.old.items) }
    ensures made { rows.new.items ≡ change_made (Change.Remove table key.now) rows.old.items }
    ensures len { vec_len rows.new ≤ vec_len rows.old + 1 }
    ensures capacity { vec_capacity rows.old ≤ vec_capacity rows.new }
{
    match place_of(rows, table, key) {
        Ok(place) => {
            let _ = rows.remove(place);
        }
        Err(_place) => {}
    }
}

// Where the row with this table and key stands, or where it would stand.
fn place_of(rows: &[TableRow], table: u8, key: &Line) -> Result<usize, usize>
    ensures bound { IsSearchInRange result (length rows.now) }
    ensures place { IsBinarySearchResult (λ row. row_cmp row (row_at table key.now)) rows.now result }
{
    rows.binary_search_by(|row| order(row, table, key))
}

fn order(row: &TableRow, table: u8, key: &Line) -> Ordering
    ensures { result ≡ row_cmp row.now (row_at table key.now) }
{
    row.table
        .cmp(&table)
        .then_with(|| row.key.parts().cmp(key.parts()))
}
