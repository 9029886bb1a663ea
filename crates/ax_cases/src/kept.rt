use ax_case_lines::{CaseFault, CaseLine, case_named, first_word, two_words, u32_of};
use ax_ports::{Change, Keeper, KeeperFault, MemoryKeeper, TableRow};
use ax_values::{Line, line_words, write_number, write_u32};
use std::alloc::Global;

/// What is done with a keeper in memory.
#[derive(Clone, Copy)]
pub(crate) enum KeptCase {
    Start,
    Put,
    Remove,
    Commit,
    Load,
    Count,
}

impl KeptCase {
    pub(crate) fn named(word: &[u8]) -> Option<KeptCase> {
        case_named!(word;
            b"keeper" => KeptCase::Start,
            b"put" => KeptCase::Put,
            b"remove" => KeptCase::Remove,
            b"commit" => KeptCase::Commit,
            b"load" => KeptCase::Load,
            b"rows" => KeptCase::Count
        )
    }
}

/// A keeper, and the changes of its next commit.
#[derive(Drop)]
pub(crate) struct Kept {
    keeper: MemoryKeeper,
    changes: Vec<Change>,
}

impl Kept {
    pub(crate) fn new(alloc: Global) -> Kept {
        Kept {
            keeper: MemoryKeeper::new(Vec::new(alloc), Vec::new(alloc)),
            changes: Vec::new(alloc),
        }
    }

    pub(crate) fn perform(&mut self, case: KeptCase, line: &mut CaseLine) -> Result<(), CaseFault> {
        let (alloc, text, out) = (line.alloc, line.text.as_slice(), &mut line.out);
        match case {
            KeptCase::Start => {
                self.keeper = MemoryKeeper::new(Vec::new(alloc), numbers_of(alloc, text)?);
                self.changes.clear();
                Ok(())
            }
            KeptCase::Put => Ok(self.changes.push(put_of(alloc, text)?)?),
            KeptCase::Remove => Ok(self.changes.push(removal_of(alloc, text)?)?),
            KeptCase::Commit => {
                let answered = self.keeper.commit(alloc, &self.changes);
                self.changes.clear();
                write_answer(answered, out)
            }
            KeptCase::Load => self.write_rows(alloc, out),
            KeptCase::Count => Ok(write_number(self.keeper.rows().len() as u64, out)?),
        }
    }

    /// The rows as `TABLE KEY VALUE;` each.
    fn write_rows(&mut self, alloc: Global, out: &mut Vec<u8>) -> Result<(), CaseFault> {
        let mut rows = Vec::new(alloc);
        let answered = self.keeper.load(alloc, &mut rows);
        write_answer(answered, out)?;
        for row in rows.iter() {
            out.push(b' ')?;
            write_row(row, out)?;
        }
        Ok(())
    }
}

fn write_row(row: &TableRow, out: &mut Vec<u8>) -> Result<(), CaseFault> {
    write_u32(u32::from(row.table), out)?;
    out.push(b' ')?;
    out.extend_from_slice(row.key.parts())?;
    out.push(b' ')?;
    out.extend_from_slice(row.value.parts())?;
    out.push(b';')?;
    Ok(())
}

fn write_answer(answered: Result<(), KeeperFault>, out: &mut Vec<u8>) -> Result<(), CaseFault> {
    match answered {
        Ok(()) => out.extend_from_slice(b"done")?,
        Err(KeeperFault::Failed) => out.extend_from_slice(b"failed")?,
        Err(KeeperFault::Memory) => return Err(CaseFault::Memory),
    }
    Ok(())
}

/// The numbers of the calls that fail.
fn numbers_of(alloc: Global, text: &[u8]) -> Result<Vec<u32>, CaseFault> {
    let mut numbers = Vec::new(alloc);
    if text.is_empty() {
        return Ok(numbers);
    }
    for word in line_words(alloc, text)? {
        numbers.push(u32_of(word)?)?;
    }
    Ok(numbers)
}

fn line_of(alloc: Global, text: &[u8]) -> Result<Line, CaseFault> {
    Ok(Line::of(text.to_vec(alloc)?))
}

fn table_of(text: &[u8]) -> Result<u8, CaseFault> {
    u8::try_from(u32_of(text)?).map_err(|_| CaseFault::Line)
}

/// The put `TABLE KEY VALUE`.
fn put_of(alloc: Global, text: &[u8]) -> Result<Change, CaseFault> {
    let (table, key, value) = two_words(text);
    Ok(Change::Put(TableRow {
        table: table_of(table)?,
        key: line_of(alloc, key)?,
        value: line_of(alloc, value)?,
    }))
}

/// The removal `TABLE KEY`.
fn removal_of(alloc: Global, text: &[u8]) -> Result<Change, CaseFault> {
    let (table, key) = first_word(text);
    Ok(Change::Remove {
        table: table_of(table)?,
        key: line_of(alloc, key)?,
    })
}
