ghost use Rattle.std.specs.Prelude.{◌≡◌, length, IfOk, IfSome, IsTrue};
ghost use Rattle.ax_values.specs.Grammar.{when};
ghost use Rattle.ax_rules.specs.SagaRules.{handler_fits};
ghost use Rattle.ax_sagas.specs.Sagas.{associated, dissociated, next_row, completed, expects_by, source_value, receive, begin};

use crate::dispatching::sendings_of;
use crate::source::{key_of, value_of};
use crate::{Links, Received, Saga};
use ax_rules::{Association, Handler, Row, SagaRules, Source, guards_cause, sets_made, start_row};
use ax_values::{Duplicate, Item, ItemName, NoMemory, Payload};
use itoa::Buffer;
use std::alloc::Global;

/// The saga after an item, and what it sends. None comes exactly where the saga does not receive the item: it has ended, no
/// handler is for the item's kind, or the value of the handler's property is missing or not associated with it; and where
/// the handler has a guard that is false, or a part without a value.
pub fn receive(
    alloc: Global,
    rules: &SagaRules,
    saga: &Saga,
    item: &Item,
) -> Result<Option<Received>, NoMemory>
    requires { length saga.now.row ≡ length rules.now.fields }
    ensures value { IfOk result (λ received. received ≡ receive rules.now saga.now item.now) }
    ensures fields { IfOk result (λ received. IfSome received (λ r. length r.saga.row ≡ length rules.now.fields)) }
{
    let Some(handler) = rules.handler_for(&item.kind) else {
        return Ok(None);
    };
    if !expects_by(&handler.by, item, saga) {
        return Ok(None);
    }
    let Some(row) = next_row(alloc, handler, saga.row.parts(), &item.payload)? else {
        return Ok(None);
    };
    let name = saga.name.copy(alloc)?;
    let links = saga.links.copy(alloc)?;
    completed(alloc, handler, item, name, row, links)
}

/// The saga that an item starts, and what it sends. It has the first values and the association of its own property before
/// the handler acts on it. None comes exactly where no handler that starts is for the item's kind, its property is missing,
/// a guard is false, or a part has no value.
pub fn begin(alloc: Global, rules: &SagaRules, item: &Item) -> Result<Option<Received>, NoMemory>
    ensures value { IfOk result (λ received. received ≡ begin rules.now item.now) }
    ensures fields { IfOk result (λ received. IfSome received (λ r. length r.saga.row ≡ length rules.now.fields)) }
{
    let Some(handler) = rules.handler_for(&item.kind) else {
        return Ok(None);
    };
    if !handler.start {
        return Ok(None);
    }
    let mut digits = Buffer::new();
    let Some(value) = value_of(&handler.by, item, &mut digits) else {
        return Ok(None);
    };
    let first = start_row(alloc, rules.fields())?;
    let Some(row) = next_row(alloc, handler, first.parts(), &item.payload)? else {
        return Ok(None);
    };
    let name = item.name.copy(alloc)?;
    let links = Links::one(alloc, key_of(&handler.by), value)?;
    completed(alloc, handler, item, name, row, links)
}

/// Whether the saga is live and associated with what the item gives for the source.
fn expects_by(by: &Source, item: &Item, saga: &Saga) -> bool
    ensures { result ≡ expects_by by.now (source_value by.now item.now) saga.now }
{
    let mut digits = Buffer::new();
    match value_of(by, item, &mut digits) {
        Some(value) => saga.expects(key_of(by), value),
        None => false,
    }
}

/// The row after the handler's guards and sets.
fn next_row(
    alloc: Global,
    handler: &Handler,
    row: &[i64],
    payload: &Payload,
) -> Result<Option<Row>, NoMemory>
    requires { IsTrue (handler_fits (length row.now) handler.now) }
    ensures value { IfOk result (λ next. next ≡ next_row handler.now row.now payload.now) }
    ensures long { IfOk result (λ next. IfSome next (λ made. length made ≡ length row.now)) }
{
    if guards_cause(handler.guards.parts(), row, payload).is_some() {
        return Ok(None);
    }
    match sets_made(alloc, handler.sets.parts(), row, payload)? {
        Ok(row) => Ok(Some(row)),
        Err(_) => Ok(None),
    }
}

/// The saga of this name and row after the handler's other parts: associations, dissociations, commands, and whether it ends.
fn completed(
    alloc: Global,
    handler: &Handler,
    item: &Item,
    name: ItemName,
    row: Row,
    mut links: Links,
) -> Result<Option<Received>, NoMemory>
    ensures value { IfOk result (λ received. received ≡ completed handler.now item.now name row links) }
    ensures row { IfOk result (λ received. IfSome received (λ r. r.saga.row ≡ row)) }
{
    if !associate(alloc, handler.associate.parts(), item, &mut links)? {
        return Ok(None);
    }
    if !dissociate(handler.dissociate.parts(), item, &mut links) {
        return Ok(None);
    }
    let Some(sends) = sendings_of(alloc, handler.send.parts(), item)? else {
        return Ok(None);
    };
    let saga = Saga {
        name,
        live: !handler.end,
        row,
        links,
    };
    Ok(Some(Received { saga, sends }))
}

/// Makes the associations, in order, up to the first that has no value. Says whether all are made.
fn associate(
    alloc: Global,
    associations: &[Association],
    item: &Item,
    links: &mut Links,
) -> Result<bool, NoMemory>
    ensures { IfOk result (λ all. when all links.new ≡ associated associations.now item.now links.old) }
{
    for association in associations {
        let mut digits = Buffer::new();
        match value_of(&association.from, item, &mut digits) {
            Some(value) => links.add(alloc, key_of(&association.key), value)?,
            None => return Ok(false),
        }
    }
    Ok(true)
}

/// Takes the associations off, in order, up to the first that has no value. Says whether all are taken off.
fn dissociate(associations: &[Association], item: &Item, links: &mut Links) -> bool
    ensures { when result links.new ≡ dissociated associations.now item.now links.old }
{
    for association in associations {
        let mut digits = Buffer::new();
        match value_of(&association.from, item, &mut digits) {
            Some(value) => links.remove(key_of(&association.key), value),
            None => return false,
        }
    }
    true
}
