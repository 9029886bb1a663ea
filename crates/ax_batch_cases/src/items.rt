use ax_basis::{BasisItem, Member};
use ax_case_lines::{CaseFault, first_word, int_of, name_of, whole_item_of};
use ax_rules::Row;
use ax_values::{Marks, Seen};
use std::alloc::Global;

/// The member `AGGREGATE NUMBER`, whose row has that one number.
pub(crate) fn member_of(alloc: Global, text: &[u8]) -> Result<Member, CaseFault> {
    let (aggregate, number) = first_word(text);
    let number = int_of(number)?;
    let row = Row::of(vec![in alloc; number]?);
    let aggregate = name_of(alloc, aggregate)?;
    let seen = Seen {
        position: 0,
        parked: false,
        marks: Marks::of(Vec::new(alloc)),
    };
    Ok(Member {
        aggregate,
        seen,
        row,
    })
}

/// The item `NAME KIND PAYLOAD`.
pub(crate) fn item_from(alloc: Global, marked: bool, text: &[u8]) -> Result<BasisItem, CaseFault> {
    Ok(BasisItem {
        item: whole_item_of(alloc, text)?,
        index: 0,
        marked,
        replayed: false,
    })
}
