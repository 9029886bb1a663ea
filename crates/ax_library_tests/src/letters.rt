use ax_case_lines::{CaseFault, name_of, whole_item_of};
use ax_letters::{Letter, Queue, QueueFault, Taken};
use ax_rules::Why;
use ax_values::Name;
use std::alloc::Global;
use std::slice;
use std::test::Fail;

/// A letter of the first item of a card.
fn letter(alloc: Global) -> Result<Letter, CaseFault> {
    Ok(Letter {
        item: whole_item_of(alloc, b"card-1.0.0 issued")?,
        index: 0,
        touched: 0,
        replayed: false,
        why: Why::Marked,
    })
}

/// Whether a letter comes into the room that was made for it.
fn comes(alloc: Global, queue: &mut Queue) -> Result<bool, CaseFault> {
    let letter = letter(alloc)?;
    queue.room(slice::from_ref(&letter))?;
    Ok(is_done(queue.enqueue(letter)))
}

fn is_done(changed: Result<(), QueueFault>) -> bool {
    match changed {
        Ok(()) => true,
        Err(fault) => {
            drop(fault);
            false
        }
    }
}

/// Takes the card's sequence, where it has letters.
fn hold(alloc: Global, queue: &mut Queue) -> Result<(), CaseFault> {
    let by = name_of(alloc, b"w1")?;
    let sequence = name_of(alloc, b"card-1")?;
    put_take(
        queue,
        &sequence,
        Taken {
            by,
            since: 0,
            number: 2,
        },
    )
}

fn put_take(queue: &mut Queue, sequence: &Name, taken: Taken) -> Result<(), CaseFault> {
    if !queue.contains(sequence) {
        return Err(CaseFault::Line);
    }
    queue.hold(sequence, Some(taken));
    Ok(())
}

/// Whether a take is refused, with the name of who has taken the sequence.
fn is_refused(alloc: Global, queue: &Queue) -> bool {
    match queue.take(alloc, 30_000) {
        Ok(_) => false,
        Err(fault) => {
            let named = matches!(&fault, QueueFault::LettersTaken { .. });
            drop(fault);
            named
        }
    }
}

#[test]
fn a_letter_comes_and_is_taken(rt: HostRuntime) -> Result<(), Fail> {
    let alloc = rt.alloc();
    let mut queue = Queue::new(alloc, None);
    assert!(rt; comes(alloc, &mut queue)?);
    hold(alloc, &mut queue)?;
    assert!(rt; is_refused(alloc, &queue));
    Ok(())
}
