use crate::segments::segment_of;
use ax_case_lines::{CaseFault, first_word, item_of, name_of, u32_of, u64_of};
use ax_journal::Reply;
use ax_values::{Line, Seen, cut_at, line_words};
use std::alloc::Global;

/// The reply that a line declares: a word for its kind, and what it names.
pub(crate) fn reply_of(alloc: Global, text: &[u8]) -> Result<Reply, CaseFault> {
    let (word, rest) = first_word(text);
    if let Some(reply) = plain_reply(word) {
        return Ok(reply);
    }
    if word == b"stale".as_slice() {
        return stale(rest);
    }
    if word == b"halves".as_slice() {
        return halves(rest);
    }
    if word == b"changed".as_slice() {
        return changed(alloc, rest);
    }
    if word == b"not-applied".as_slice() {
        return not_applied(alloc, rest);
    }
    if word == b"letters-taken".as_slice() {
        return letters_taken(alloc, rest);
    }
    numbered_reply(word, numbers_of(alloc, rest)?).ok_or(CaseFault::Line)
}

fn plain_reply(word: &[u8]) -> Option<Reply> {
    if word == b"done".as_slice() {
        return Some(Reply::Done);
    }
    if word == b"keeper-failed".as_slice() {
        return Some(Reply::KeeperFailed);
    }
    if word == b"no-letters".as_slice() {
        return Some(Reply::NoLetters);
    }
    None
}

/// Up to four numbers, and 0 for those that are not given.
fn numbers_of(alloc: Global, text: &[u8]) -> Result<[u32; 4], CaseFault> {
    let mut numbers = [0; 4];
    for (number, word) in numbers.iter_mut().zip(line_words(alloc, text)?) {
        *number = u32_of(word)?;
    }
    Ok(numbers)
}

fn numbered_reply(word: &[u8], numbers: [u32; 4]) -> Option<Reply> {
    let [first, second, third, fourth] = numbers;
    if word == b"reserved".as_slice() {
        return Some(Reply::Reserved {
            cell: first,
            count: second,
            first: third,
        });
    }
    if word == b"conflict".as_slice() {
        return Some(Reply::Conflict {
            expected: first,
            found: second,
        });
    }
    if word == b"committed".as_slice() {
        return Some(Reply::Committed {
            applied: first,
            parked: second,
            dropped: third,
        });
    }
    if word == b"advanced".as_slice() {
        return Some(Reply::Advanced {
            records: first,
            started: second,
            ended: third,
            sent: u64::from(fourth),
        });
    }
    None
}

/// `HELD`, or `HELD FOUND`.
fn stale(text: &[u8]) -> Result<Reply, CaseFault> {
    let (held, found) = first_word(text);
    let held = u64_of(held)?;
    let found = if found.is_empty() {
        None
    } else {
        Some(u64_of(found)?)
    };
    Ok(Reply::Stale { held, found })
}

/// `LOWER UPPER`.
fn halves(text: &[u8]) -> Result<Reply, CaseFault> {
    let (lower, upper) = first_word(text);
    Ok(Reply::Halves {
        lower: segment_of(lower)?,
        upper: segment_of(upper)?,
    })
}

/// `AGGREGATE READ/FOUND`: what was read and what was found.
fn changed(alloc: Global, text: &[u8]) -> Result<Reply, CaseFault> {
    let (aggregate, rest) = first_word(text);
    let (read, found) = cut_at(b'/', rest).ok_or(CaseFault::Line)?;
    Ok(Reply::Changed {
        aggregate: name_of(alloc, aggregate)?,
        read: seen_of(alloc, read)?,
        found: seen_of(alloc, found)?,
    })
}

fn seen_of(alloc: Global, text: &[u8]) -> Result<Seen, CaseFault> {
    let words = line_words(alloc, text)?;
    Seen::read(alloc, &words)?.ok_or(CaseFault::Line)
}

/// `ITEM WHY`.
fn not_applied(alloc: Global, text: &[u8]) -> Result<Reply, CaseFault> {
    let (item, why) = first_word(text);
    Ok(Reply::NotApplied {
        item: item_of(alloc, item)?,
        why: Line::of(why.to_vec(alloc)?),
    })
}

/// `BY SINCE`.
fn letters_taken(alloc: Global, text: &[u8]) -> Result<Reply, CaseFault> {
    let (by, since) = first_word(text);
    Ok(Reply::LettersTaken {
        by: name_of(alloc, by)?,
        since: u64_of(since)?,
    })
}
