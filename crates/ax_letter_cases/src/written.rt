use ax_case_lines::{CaseFault, CaseLine, name_of, u64_of};
use ax_letters::{Letter, Queue, QueueFault, Taken};
use ax_values::{Name, NoMemory, write_number, write_u32};

/// Shows who took a sequence, or its letters.
pub(crate) fn ask_sequence(
    queue: &Queue,
    is_taken: bool,
    line: &mut CaseLine,
) -> Result<(), CaseFault> {
    let sequence = name_of(line.alloc, &line.text)?;
    let written = if is_taken {
        write_taken(queue.taken(&sequence), &mut line.out)
    } else {
        write_letters(queue.letters_of(&sequence), &mut line.out)
    };
    drop(sequence);
    Ok(written?)
}

/// The sequence that was touched the longest time ago, of those that are free at a moment.
pub(crate) fn ask_oldest(queue: &Queue, line: &mut CaseLine) -> Result<(), CaseFault> {
    let now = u64_of(&line.text)?;
    Ok(write_name(queue.oldest_free(now), &mut line.out)?)
}

/// The sequence that a take at a moment gets.
pub(crate) fn ask_take(queue: &Queue, line: &mut CaseLine) -> Result<(), CaseFault> {
    let now = u64_of(&line.text)?;
    match queue.take(line.alloc, now) {
        Ok(next) => Ok(write_name(next, &mut line.out)?),
        Err(fault) => write_changed(Err(fault), &mut line.out),
    }
}

fn write_name(name: Option<&Name>, out: &mut Vec<u8>) -> Result<(), NoMemory> {
    match name {
        Some(name) => name.write(out),
        None => Ok(out.extend_from_slice(b"none")?),
    }
}

/// How many sequences there are, and their names up to the tenth.
pub(crate) fn write_sequences(queue: &Queue, out: &mut Vec<u8>) -> Result<(), NoMemory> {
    write_u32(queue.sequence_count(), out)?;
    out.push(b':')?;
    for place in 0..10 {
        if let Some(name) = queue.sequence_at(place) {
            out.push(b' ')?;
            name.write(out)?;
        }
    }
    Ok(())
}

/// How many letters there are, and what they are up to the tenth.
fn write_letters(letters: &[Letter], out: &mut Vec<u8>) -> Result<(), NoMemory> {
    write_number(letters.len() as u64, out)?;
    out.push(b':')?;
    for letter in letters.iter().take(10) {
        out.push(b' ')?;
        write_letter(letter, out)?;
        out.push(b';')?;
    }
    Ok(())
}

/// A letter as `ITEM touched T why WHY`.
pub(crate) fn write_letter(letter: &Letter, out: &mut Vec<u8>) -> Result<(), NoMemory> {
    letter.item.name.write(out)?;
    out.extend_from_slice(b" touched ")?;
    write_number(letter.touched, out)?;
    out.extend_from_slice(b" why ")?;
    letter.why.write(out)
}

/// A take as `by ACTOR since T number N`.
fn write_taken(taken: Option<&Taken>, out: &mut Vec<u8>) -> Result<(), NoMemory> {
    let Some(taken) = taken else {
        return Ok(out.extend_from_slice(b"none")?);
    };
    out.extend_from_slice(b"by ")?;
    taken.by.write(out)?;
    out.extend_from_slice(b" since ")?;
    write_number(taken.since, out)?;
    out.extend_from_slice(b" number ")?;
    write_number(taken.number, out)
}

/// Adds `done`, or why the queue stays.
pub(crate) fn write_changed(
    changed: Result<(), QueueFault>,
    out: &mut Vec<u8>,
) -> Result<(), CaseFault> {
    match changed {
        Ok(()) => Ok(out.extend_from_slice(b"done")?),
        Err(fault) => {
            let written = write_fault(&fault, out);
            drop(fault);
            written
        }
    }
}

fn write_fault(fault: &QueueFault, out: &mut Vec<u8>) -> Result<(), CaseFault> {
    match fault {
        QueueFault::SequencesFull => out.extend_from_slice(b"sequences full")?,
        QueueFault::SequenceFull => out.extend_from_slice(b"sequence full")?,
        QueueFault::NoLetter => out.extend_from_slice(b"no letter")?,
        QueueFault::LettersTaken { by, since } => {
            out.extend_from_slice(b"taken by ")?;
            by.write(out)?;
            out.extend_from_slice(b" since ")?;
            write_number(*since, out)?;
        }
        QueueFault::Memory => return Err(CaseFault::Memory),
    }
    Ok(())
}
