use crate::letters::letter;
use crate::written::write_changed;
use ax_case_lines::{CaseFault, CaseLine, item_of, u32_of};
use ax_letters::{Queue, QueueFault};
use ax_rules::Why;
use ax_values::{ItemName, write_u32};
use std::alloc::Global;

/// Adds so many letters, up to the first that is refused: each of a sequence of its own, `a-0` and so on, or all of the sequence `a`.
/// Says after how many one was refused, and why.
pub(crate) fn fill(queue: &mut Queue, wide: bool, line: &mut CaseLine) -> Result<(), CaseFault> {
    for number in 0..u32_of(&line.text)? {
        if let Err(fault) = add(line.alloc, queue, wide, number)? {
            return write_stopped(number, fault, &mut line.out);
        }
    }
    Ok(())
}

/// Adds the letter of this number, parked at 0.
fn add(
    alloc: Global,
    queue: &mut Queue,
    wide: bool,
    number: u32,
) -> Result<Result<(), QueueFault>, CaseFault> {
    let name = numbered(alloc, wide, number)?;
    let letter = letter(alloc, name, 0, Why::Marked)?;
    Ok(queue.enqueue(letter))
}

/// The item `a-NUMBER.0.0`, or `a.NUMBER.0`.
fn numbered(alloc: Global, wide: bool, number: u32) -> Result<ItemName, CaseFault> {
    let mut text = Vec::new(alloc);
    text.extend_from_slice(if wide { b"a-" } else { b"a." })?;
    write_u32(number, &mut text)?;
    text.extend_from_slice(if wide {
        b".0.0".as_slice()
    } else {
        b".0".as_slice()
    })?;
    item_of(alloc, &text)
}

fn write_stopped(number: u32, fault: QueueFault, out: &mut Vec<u8>) -> Result<(), CaseFault> {
    write_u32(number, out)?;
    out.extend_from_slice(b" and then ")?;
    write_changed(Err(fault), out)
}
