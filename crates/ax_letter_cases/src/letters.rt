use ax_case_lines::{CaseFault, item_of, name_of, two_words, u64_of};
use ax_letters::Letter;
use ax_rules::Why;
use ax_values::{Item, ItemName, Payload};
use std::alloc::Global;

/// The letter `ITEM TOUCHED WHY`.
pub(crate) fn letter_of(alloc: Global, text: &[u8]) -> Result<Letter, CaseFault> {
    let (item, touched, why) = two_words(text);
    let touched = u64_of(touched)?;
    let why = why_of(alloc, why)?;
    let item = item_of(alloc, item)?;
    letter(alloc, item, touched, why)
}

/// Why an item is parked, as a text is.
pub(crate) fn why_of(alloc: Global, text: &[u8]) -> Result<Why, CaseFault> {
    Why::read(alloc, text)?.ok_or(CaseFault::Line)
}

/// A letter of an item of this name.
pub(crate) fn letter(
    alloc: Global,
    name: ItemName,
    touched: u64,
    why: Why,
) -> Result<Letter, CaseFault> {
    let kind = name_of(alloc, b"issued")?;
    let payload = Payload::of(Vec::new(alloc));
    let item = Item {
        name,
        kind,
        payload,
    };
    Ok(Letter {
        item,
        index: 0,
        touched,
        replayed: false,
        why,
    })
}
