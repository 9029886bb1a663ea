use crate::letters::{letter_of, why_of};
use crate::written::{write_changed, write_letter};
use ax_case_lines::{CaseFault, CaseLine, item_of, name_of, three_words, two_words, u64_of};
use ax_letters::{Queue, Taken};
use ax_values::Name;
use std::slice;

/// The letter `ITEM TOUCHED WHY` comes.
pub(crate) fn enqueue(queue: &mut Queue, line: &mut CaseLine) -> Result<(), CaseFault> {
    let letter = letter_of(line.alloc, &line.text)?;
    write_changed(queue.enqueue(letter), &mut line.out)
}

/// Sets memory aside for the letter `ITEM TOUCHED WHY`.
pub(crate) fn make_room(queue: &mut Queue, line: &CaseLine) -> Result<(), CaseFault> {
    let letter = letter_of(line.alloc, &line.text)?;
    queue.room(slice::from_ref(&letter))?;
    Ok(())
}

/// Takes the item's first letter out, and shows it.
pub(crate) fn evict(queue: &mut Queue, line: &mut CaseLine) -> Result<(), CaseFault> {
    let item = item_of(line.alloc, &line.text)?;
    match queue.evict(&item) {
        Ok(letter) => {
            let written = write_letter(&letter, &mut line.out);
            drop(letter);
            Ok(written?)
        }
        Err(fault) => write_changed(Err(fault), &mut line.out),
    }
}

/// The failure `ITEM NOW WHY` of the item's first letter.
pub(crate) fn requeue(queue: &mut Queue, line: &mut CaseLine) -> Result<(), CaseFault> {
    let (item, now, why) = two_words(&line.text);
    let now = u64_of(now)?;
    let item = item_of(line.alloc, item)?;
    let why = why_of(line.alloc, why)?;
    write_changed(queue.requeue(&item, why, now), &mut line.out)
}

/// The take `SEQUENCE ACTOR SINCE NUMBER`.
pub(crate) fn hold(queue: &mut Queue, line: &CaseLine) -> Result<(), CaseFault> {
    let (sequence, actor, since, number) = three_words(&line.text);
    let (since, number) = (u64_of(since)?, u64_of(number)?);
    let by = name_of(line.alloc, actor)?;
    let sequence = name_of(line.alloc, sequence)?;
    take(queue, &sequence, Some(Taken { by, since, number }))
}

/// Ends the take of a sequence.
pub(crate) fn free(queue: &mut Queue, line: &CaseLine) -> Result<(), CaseFault> {
    let sequence = name_of(line.alloc, &line.text)?;
    take(queue, &sequence, None)
}

/// Takes a sequence that has letters, or ends its take.
fn take(queue: &mut Queue, sequence: &Name, taken: Option<Taken>) -> Result<(), CaseFault> {
    if !queue.contains(sequence) {
        return Err(CaseFault::Line);
    }
    queue.hold(sequence, taken);
    Ok(())
}
