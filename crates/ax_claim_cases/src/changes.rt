use crate::written::{segment_of, token_of, write_changed, write_refused};
use ax_case_lines::{CaseFault, CaseLine, name_of, three_words, two_words, u64_of};
use ax_claims::Rows;

/// A fence that is held; `-` stands for none.
pub(crate) fn held_of(text: &[u8]) -> Result<Option<u64>, CaseFault> {
    if text == b"-".as_slice() {
        return Ok(None);
    }
    Ok(Some(u64_of(text)?))
}

/// The claim `SEGMENT OWNER NOW FENCE`; a refusal is followed by the name that it gives back.
pub(crate) fn claim(rows: &mut Rows, line: &mut CaseLine) -> Result<(), CaseFault> {
    let (segment, owner, now, fence) = three_words(&line.text);
    let segment = segment_of(segment)?;
    let (now, fence) = (u64_of(now)?, u64_of(fence)?);
    let owner = name_of(line.alloc, owner)?;
    match rows.claim(segment, owner, now, fence) {
        Ok(()) => Ok(line.out.extend_from_slice(b"done")?),
        Err((refused, owner)) => {
            write_refused(&refused, &mut line.out)?;
            line.out.extend_from_slice(b" to ")?;
            Ok(owner.write(&mut line.out)?)
        }
    }
}

/// The store `SEGMENT HELD TOKEN NOW`.
pub(crate) fn store(rows: &mut Rows, line: &mut CaseLine) -> Result<(), CaseFault> {
    let (segment, held, token, now) = three_words(&line.text);
    let segment = segment_of(segment)?;
    let (held, now) = (u64_of(held)?, u64_of(now)?);
    let token = token_of(line.alloc, token)?;
    let changed = match rows.store(segment, held, token, now) {
        Ok(()) => Ok(()),
        Err((refused, token)) => {
            drop(token);
            Err(refused)
        }
    };
    write_changed(changed, &mut line.out)
}

/// The extension `SEGMENT HELD NOW`.
pub(crate) fn extend(rows: &mut Rows, line: &mut CaseLine) -> Result<(), CaseFault> {
    let (segment, held, now) = two_words(&line.text);
    let changed = rows.extend(segment_of(segment)?, held_of(held)?, u64_of(now)?);
    write_changed(changed, &mut line.out)
}

/// The release `SEGMENT HELD FENCE`.
pub(crate) fn release(rows: &mut Rows, line: &mut CaseLine) -> Result<(), CaseFault> {
    let (segment, held, fence) = two_words(&line.text);
    let changed = rows.release(segment_of(segment)?, held_of(held)?, u64_of(fence)?);
    write_changed(changed, &mut line.out)
}
