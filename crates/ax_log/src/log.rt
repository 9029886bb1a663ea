ghost use Rattle.std.specs.Prelude.{◌≡◌, ◌+◌, ◌<◌, ◌≤◌, [], length, map, replicate, slice_get, IsTrue, IfOk, OnOk};
ghost use Rattle.std.specs.Option.{option_copied};
ghost use Rattle.ax_log.specs.Log.{stream_of, length_of};
ghost use Rattle.std.specs.List.{list_all};
ghost use Rattle.ax_log.specs.Order.{IsOrdered, max_cells, has_few_fields};
ghost use Rattle.ax_log.specs.Puts.{CanPut, CanPutAll, HasRoom, IsKept, IsKnown, puts_at, after_put};
ghost use Rattle.ax_log.specs.Answers.{HasCells, IsReserveAnswer, IsAppendAnswer, aggregate_of, first_void, voiding};

use crate::put::put_at;
use crate::streams::Streams;
use crate::{CellPut, CellPuts, LogFault};
use ax_values::{Cell, Duplicate, Name, NoMemory, Record};
use std::alloc::Global;
use std::marker::Model;

const MAX_CELLS: usize = 200_000;

/// For how long a reserved cell may not be made void, in milliseconds.
const VOID_PERIOD: u64 = 60_000;

/// The event store of Axon's reference guide: one list of cells for the events of all aggregates, in which an index is
/// a place. The events of an aggregate are its stream, and their sequence numbers rise from 0 by 1 in index order.
/// An event has at most 16 fields, and there are at most 200,000 cells.
/// A cell comes at the end, reserved or as an event; a reserved one becomes an event or void, and then stays.
#[derive(Drop)]
pub struct Log {
    cells: Vec<Cell>,
    streams: Streams,
}

impl Model for Log {
    ghost use Rattle.std.specs.Prelude.{◌-◌, min, vec_len, vec_capacity};
    ghost use Rattle.indexmap.specs.IndexMap.{keys};
    ghost use Rattle.ax_log.specs.Puts.{LogView};
    ghost use Rattle.ax_log.specs.Order.{IsOrdered};
    ghost use Rattle.ax_log.specs.Index.{IsIndexed};

    ghost Value = { LogView };

    ghost view = { λ log. record {
      cells = log.cells.items;
      room = record {
        cells = min (vec_capacity log.cells - vec_len log.cells) (vec_capacity log.streams.before - vec_len log.streams.before);
        names = keys log.streams.last;
      };
    } };

    ghost invariant = { λ log. IsOrdered log.cells.items × IsIndexed log.cells.items log.streams.before.items log.streams.last.entries };
}

impl Log {
    /// The log without cells.
    pub fn new(alloc: Global) -> Log
        ensures { result.cells ≡ [] }
    {
        Log {
            cells: Vec::new(alloc),
            streams: Streams::new(alloc),
        }
    }

    /// The cells, in index order.
    pub fn cells(&self) -> &[Cell]
        ensures value { result.now ≡ self.now.cells }
        ensures ordered { IsOrdered self.now.cells }
    {
        &self.cells
    }

    /// How many events the aggregate has, which is its next sequence number.
    pub fn length_of(&self, aggregate: &Name) -> u32
        ensures { result ≡ length_of aggregate.now self.now.cells }
    {
        let last = self.streams.last_of(aggregate) as usize;
        if last == 0 {
            return 0;
        }
        let Cell::Event(event) = &self.cells[last - 1] else {
            unreachable!()
        };
        event.seq + 1
    }

    /// The indexes of the aggregate's events, in order.
    pub fn stream(&self, alloc: Global, aggregate: &Name) -> Result<Vec<u32>, NoMemory>
        ensures { IfOk result (λ indexes. indexes.items ≡ map (λ event. event.index) (stream_of aggregate.now self.now.cells)) }
    {
        let before = self.streams.before();
        let mut at = self.streams.last_of(aggregate);
        let mut indexes = Vec::new(alloc);
        while at > 0 {
            let index = at - 1;
            indexes.push(index)?;
            at = before[index as usize];
        }
        indexes.reverse();
        Ok(indexes)
    }

    /// The cell at an index. None comes exactly from the log's length on.
    pub fn scan(&self, from: u32) -> Option<&Cell>
        ensures { option_copied result ≡ slice_get self.now.cells from }
    {
        self.cells().get(from as usize)
    }

    /// The cells that a reservation puts at the end, as many as `count`, for events of the aggregate that are numbered
    /// from the stream's length, by the actor at the moment `at`, in milliseconds.
    /// LogFull comes exactly where the cells would pass 200,000.
    #[tactic(auto, using(crate::proofs::Order::can_reserve))]
    pub fn reserve(
        &self,
        alloc: Global,
        aggregate: &Name,
        actor: &Name,
        count: u32,
        at: u64,
    ) -> Result<CellPuts, LogFault>
        ensures puts { IfOk result (λ puts. puts ≡ puts_at (length self.now.cells) (replicate count (Cell.Reserved aggregate.now (length_of aggregate.now self.now.cells) actor.now at))) }
        ensures fits { IfOk result (CanPutAll self.now.cells) }
        ensures cause { IsReserveAnswer self.now.cells count result }
    {
        let first = self.cells().len();
        if count as usize > MAX_CELLS - first {
            return Err(LogFault::LogFull);
        }
        let first_seq = self.length_of(aggregate);
        let puts = reserved_puts(alloc, first as u32, aggregate, first_seq, actor, at, count)?;
        Ok(puts)
    }

    /// The cells that hold the records from the index `first` on: either cells that are void or reserved for them, or
    /// new ones at the end.
    /// Where each record has at most 16 fields, they may be put.
    /// Voided comes exactly where one of the cells is void, and names the first. Conflict comes exactly where none is
    /// and the stream's length is not the first number. LogFull comes exactly where the cells would pass 200,000.
    #[tactic(auto, using(crate::proofs::Append::first_within, crate::proofs::Append::can_append))]
    pub fn append(
        &self,
        alloc: Global,
        first: u32,
        records: Vec<Record>,
    ) -> Result<CellPuts, LogFault>
        requires some { 0 < length records.items }
        requires place { HasCells self.now.cells first records.items }
        ensures puts { IfOk result (λ puts. puts ≡ puts_at first (map Cell.Event records.items)) }
        ensures fits { IsTrue (list_all has_few_fields records.items) → IfOk result (CanPutAll self.now.cells) }
        ensures cause { IsAppendAnswer self.now.cells first records.items result }
    {
        let found = self.length_of(&records[0].aggregate);
        admit(self.cells(), first, &records, found)?;
        let puts = event_puts(alloc, first, records)?;
        Ok(puts)
    }

    /// The void cell that takes the place of a reserved one at the moment `now`, in milliseconds.
    /// NotReserved comes exactly where there is no such cell or it is not reserved, Young exactly where it is reserved
    /// for no more than 60,000 ms.
    pub fn void(&self, index: u32, now: u64) -> Result<CellPut, LogFault>
        ensures value { result ≡ voiding index now (slice_get self.now.cells index) }
        ensures fits { IfOk result (CanPut self.now.cells) }
    {
        let _ = &self.cells;
        let Some(Cell::Reserved { at, .. }) = self.scan(index) else {
            return Err(LogFault::NotReserved);
        };
        let since = *at;
        if now.saturating_sub(since) <= VOID_PERIOD {
            return Err(LogFault::Young { since });
        }
        Ok(CellPut {
            index,
            cell: Cell::Void,
        })
    }

    /// Sets memory aside, so that the puts take none when they are made one after another. The cells stay as they are,
    /// also where memory is wanting.
    pub fn room(&mut self, puts: &[CellPut]) -> Result<(), NoMemory>
        ensures cells { self.new.cells ≡ self.old.cells }
        ensures room { OnOk result (HasRoom self.new.room puts.now) }
        ensures kept { IsKept self.old.room self.new.room }
    {
        self.cells.reserve(puts.len())?;
        self.streams.room(puts)
    }

    /// Puts a cell at the end, where there is room, or over a reserved one, if the log then keeps its order: what
    /// `reserve`, `append` and `void` return may be put. It takes no memory.
    pub fn put(&mut self, put: CellPut)
        requires room { put.index ≡ length self.old.cells → 0 < self.old.room.cells }
        requires known { IsKnown self.old.room.names put.cell }
        requires can { CanPut self.old.cells put }
        ensures { self.new ≡ after_put self.old put }
    {
        let CellPut { index, cell } = put;
        self.streams.note(index, &cell);
        put_at(&mut self.cells, index, cell);
    }
}

/// Refuses the records, of whose aggregate there are `found` events, where they may not be put at the indexes from `first` on.
#[tactic(auto, using(std::proofs::lemmas::List::take_min))]
fn admit(cells: &[Cell], first: u32, records: &[Record], found: u32) -> Result<(), LogFault>
    requires size { length cells.now ≤ max_cells }
    requires some { 0 < length records.now }
    requires within { first ≤ length cells.now }
    requires found { found ≡ length_of (aggregate_of records.now) cells.now }
    ensures { IsAppendAnswer cells.now first records.now result }
{
    let start = first as usize;
    if records.len() > MAX_CELLS - start {
        return Err(LogFault::LogFull);
    }
    let rest = &cells[start..];
    let held = &rest[..records.len().min(rest.len())];
    if let Some(index) = first_void(first, held) {
        return Err(LogFault::Voided { index });
    }
    let expected = records[0].seq;
    if found != expected {
        return Err(LogFault::Conflict { expected, found });
    }
    Ok(())
}

/// The index of the first void cell among those from the index `first` on.
fn first_void(first: u32, cells: &[Cell]) -> Option<u32>
    requires { first + length cells.now ≤ max_cells }
    ensures { result ≡ first_void first cells.now }
{
    for (offset, cell) in cells.iter().enumerate() {
        if let Cell::Void = cell {
            return Some(first + offset as u32);
        }
    }
    None
}

/// The cells of a reservation, one after another.
fn reserved_puts(
    alloc: Global,
    first: u32,
    aggregate: &Name,
    first_seq: u32,
    actor: &Name,
    at: u64,
    count: u32,
) -> Result<CellPuts, NoMemory>
    requires { first + count ≤ max_cells }
    ensures { IfOk result (λ puts. puts ≡ puts_at first (replicate count (Cell.Reserved aggregate.now first_seq actor.now at))) }
{
    let mut puts = Vec::with_capacity(alloc, count as usize)?;
    for place in 0..count {
        let cell = Cell::Reserved {
            aggregate: aggregate.copy(alloc)?,
            first_seq,
            actor: actor.copy(alloc)?,
            at,
        };
        puts.push(CellPut {
            index: first + place,
            cell,
        })?;
    }
    Ok(CellPuts::of(puts))
}

/// The cells of the records, one after another.
fn event_puts(alloc: Global, first: u32, records: Vec<Record>) -> Result<CellPuts, NoMemory>
    requires { first + length records.items ≤ max_cells }
    ensures { IfOk result (λ puts. puts ≡ puts_at first (map Cell.Event records.items)) }
{
    let mut puts = Vec::with_capacity(alloc, records.len())?;
    let mut index = first;
    for event in records {
        puts.push(CellPut {
            index,
            cell: Cell::Event(event),
        })?;
        index += 1;
    }
    Ok(CellPuts::of(puts))
}
