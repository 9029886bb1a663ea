use ax_case_lines::{CaseFault, item_of, name_of, whole_item_of};
use ax_rules::SagaRules;
use ax_sagas::{Delivery, Received, Saga, Sent, begin, receive};
use ax_sheet::Sheet;
use ax_values::{Duplicate, Payload};
use std::alloc::Global;
use std::test::Fail;

/// The rules of transfers between gift cards.
fn rules_in(alloc: Global, cards: &Sheet) -> Result<&SagaRules, CaseFault> {
    let name = name_of(alloc, b"transfers")?;
    let rules = cards.saga(&name);
    drop(name);
    rules.ok_or(CaseFault::Line)
}

/// The saga that a transfer of 30 starts.
fn begun(alloc: Global, rules: &SagaRules) -> Result<Received, CaseFault> {
    let text = b"card-1.1.0 transferred amount=30 to=\"card-2\" transfer=\"t1\"";
    let item = whole_item_of(alloc, text)?;
    begin(alloc, rules, &item)?.ok_or(CaseFault::Line)
}

/// What the credit of the transfer does to the saga.
fn credited(alloc: Global, rules: &SagaRules, saga: &Saga) -> Result<Received, CaseFault> {
    let item = whole_item_of(alloc, b"card-2.1.0 credited amount=30 transfer=\"t1\"")?;
    if saga.row.parts().len() != rules.fields().len() {
        return Err(CaseFault::Line);
    }
    receive(alloc, rules, saga, &item)?.ok_or(CaseFault::Line)
}

/// Whether a transfer that has begun ends with its credit.
fn ends(alloc: Global, cards: &Sheet) -> Result<bool, CaseFault> {
    let rules = rules_in(alloc, cards)?;
    let begun = begun(alloc, rules)?;
    let ended = credited(alloc, rules, &begun.saga)?;
    let copied = ended.saga.copy(alloc)?;
    Ok(begun.saga.live && !copied.live)
}

/// A command of the outbox.
fn sent(alloc: Global) -> Result<Sent, CaseFault> {
    let saga = item_of(alloc, b"card-1.1.0")?;
    let aggregate = name_of(alloc, b"card-2")?;
    let command = name_of(alloc, b"credit")?;
    let args = Payload::of(Vec::new(alloc));
    Ok(Sent {
        processor: 0,
        saga,
        aggregate,
        command,
        args,
        delivery: Delivery::Waiting,
    })
}

/// Whether a command of the outbox is copied.
fn is_copied(alloc: Global) -> Result<bool, CaseFault> {
    let copied = sent(alloc)?.copy(alloc)?;
    Ok(copied.args.parts().is_empty())
}

#[test]
fn a_transfer_begins_and_ends(rt: HostRuntime) -> Result<(), Fail> {
    let alloc = rt.alloc();
    let cards = Sheet::cards(alloc)?;
    assert!(rt; ends(alloc, &cards)?);
    assert!(rt; is_copied(alloc)?);
    Ok(())
}
