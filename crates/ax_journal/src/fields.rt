ghost use Rattle.std.specs.Prelude.{◌≡◌, map, option_map, IfOk};
ghost use Rattle.ax_values.specs.Grammar.{number_from};
ghost use Rattle.ax_journal.specs.Fields.{given_of, fields_in, only_in, pair_in, policy_in, policy_text, moment_in, cell_in, named_in, of_processor, segment_after, up_to_after, item_after, policy_after, after_processor, command_in};

use crate::arguments::Arguments;
use crate::form::Shape;
use crate::segment::read_segment;
use ax_segments::Segment;
use ax_values::{Duplicate, ItemName, Name, NoMemory, Payload, read_number_to, read_u32};
use std::alloc::Global;

/// The fields of an order's line, by their shape.
#[derive(Drop)]
pub(crate) enum Fields {
    Nothing,
    Moment(u64),
    Cell(u32),
    Name(Name),
    Segment {
        processor: Name,
        segment: Segment,
    },
    UpTo {
        processor: Name,
        segment: Segment,
        max: u32,
    },
    Item {
        processor: Name,
        item: ItemName,
    },
    Policy {
        processor: Name,
        keep: bool,
    },
    Command {
        aggregate: Name,
        command: Name,
        args: Payload,
    },
}

/// The fields of an order's line, by their shape, which stand in the order.
#[derive(Drop)]
pub(crate) enum BorrowedFields<'a> {
    Nothing,
    Moment(u64),
    Cell(u32),
    Name(&'a Name),
    Segment {
        processor: &'a Name,
        segment: Segment,
    },
    UpTo {
        processor: &'a Name,
        segment: Segment,
        max: u32,
    },
    Item {
        processor: &'a Name,
        item: &'a ItemName,
    },
    Policy {
        processor: &'a Name,
        keep: bool,
    },
    Command {
        aggregate: &'a Name,
        command: &'a Name,
        args: &'a Payload,
    },
}

impl BorrowedFields<'_> {
    /// Equal fields of their own.
    pub(crate) fn own(self, alloc: Global) -> Result<Fields, NoMemory>
        ensures { IfOk result (λ fields. fields ≡ given_of self.entry) }
    {
        match self {
            BorrowedFields::Nothing => Ok(Fields::Nothing),
            BorrowedFields::Moment(ms) => Ok(Fields::Moment(ms)),
            BorrowedFields::Cell(cell) => Ok(Fields::Cell(cell)),
            BorrowedFields::Name(name) => Ok(Fields::Name(name.copy(alloc)?)),
            BorrowedFields::Segment { processor, segment } => Ok(Fields::Segment {
                processor: processor.copy(alloc)?,
                segment,
            }),
            BorrowedFields::UpTo {
                processor,
                segment,
                max,
            } => Ok(Fields::UpTo {
                processor: processor.copy(alloc)?,
                segment,
                max,
            }),
            BorrowedFields::Item { processor, item } => Ok(Fields::Item {
                processor: processor.copy(alloc)?,
                item: item.copy(alloc)?,
            }),
            BorrowedFields::Policy { processor, keep } => Ok(Fields::Policy {
                processor: processor.copy(alloc)?,
                keep,
            }),
            BorrowedFields::Command {
                aggregate,
                command,
                args,
            } => Ok(Fields::Command {
                aggregate: aggregate.copy(alloc)?,
                command: command.copy(alloc)?,
                args: args.copy(alloc)?,
            }),
        }
    }
}

/// The fields that the words are. None comes exactly where they have another shape.
pub(crate) fn read_fields(
    alloc: Global,
    shape: Shape,
    words: &[&[u8]],
    args: Arguments,
) -> Result<Option<Fields>, NoMemory>
    ensures { IfOk result (λ read. read ≡ fields_in args shape (map (λ w. w.now) words.now)) }
{
    match shape {
        Shape::Nothing => Ok(words.is_empty().then_some(Fields::Nothing)),
        Shape::Moment => Ok(read_moment(words)),
        Shape::Cell => Ok(read_cell(words)),
        Shape::Name => read_named(alloc, words),
        Shape::Segment | Shape::UpTo | Shape::Item | Shape::Policy => {
            read_of_processor(alloc, shape, words)
        }
        Shape::Command => read_command(alloc, words, args),
    }
}

fn read_from(low: u64, top: u64, word: &[u8]) -> Option<u64>
    ensures { result ≡ number_from low top word.now }
{
    let number = read_number_to(top, word)?;
    if number >= low { Some(number) } else { None }
}

fn read_policy(word: &[u8]) -> Option<bool>
    ensures { result ≡ policy_in word.now }
{
    if word == b"keep".as_slice() {
        Some(true)
    } else if word == b"drop".as_slice() {
        Some(false)
    } else {
        None
    }
}

pub(crate) fn policy_word(keep: bool) -> &'static [u8]
    ensures { result.now ≡ policy_text keep }
{
    if keep { b"keep" } else { b"drop" }
}

fn only_of<'a>(words: &'a [&'a [u8]]) -> Option<&'a [u8]>
    ensures { option_map (λ w. w.now) result ≡ only_in (map (λ w. w.now) words.now) }
{
    match words {
        [word] => Some(word),
        _ => None,
    }
}

fn pair_of<'a>(words: &'a [&'a [u8]]) -> Option<(&'a [u8], &'a [u8])>
    ensures { option_map (λ t. record { first = t.0.now; second = t.1.now }) result ≡ pair_in (map (λ w. w.now) words.now) }
{
    match words {
        [first, second] => Some((first, second)),
        _ => None,
    }
}

fn read_moment(words: &[&[u8]]) -> Option<Fields>
    ensures { result ≡ moment_in (map (λ w. w.now) words.now) }
{
    let ms = only_of(words)?;
    Some(Fields::Moment(read_from(1, 1_000_000_000, ms)?))
}

fn read_cell(words: &[&[u8]]) -> Option<Fields>
    ensures { result ≡ cell_in (map (λ w. w.now) words.now) }
{
    let cell = only_of(words)?;
    Some(Fields::Cell(read_u32(cell)?))
}

fn read_named(alloc: Global, words: &[&[u8]]) -> Result<Option<Fields>, NoMemory>
    ensures { IfOk result (λ read. read ≡ named_in (map (λ w. w.now) words.now)) }
{
    let Some(name) = only_of(words) else {
        return Ok(None);
    };
    Ok(Name::read(alloc, name)?.map(Fields::Name))
}

/// A processor, and the fields that the words after it are, by a shape that begins with a processor.
fn read_of_processor(
    alloc: Global,
    shape: Shape,
    words: &[&[u8]],
) -> Result<Option<Fields>, NoMemory>
    ensures { IfOk result (λ read. read ≡ of_processor (after_processor shape) (map (λ w. w.now) words.now)) }
{
    let [processor, rest @ ..] = words else {
        return Ok(None);
    };
    let Some(processor) = Name::read(alloc, processor)? else {
        return Ok(None);
    };
    match shape {
        Shape::Segment => Ok(segment_after(processor, rest)),
        Shape::UpTo => Ok(up_to_after(processor, rest)),
        Shape::Item => item_after(alloc, processor, rest),
        Shape::Policy => Ok(policy_after(processor, rest)),
        _ => Ok(None),
    }
}

fn segment_after(processor: Name, words: &[&[u8]]) -> Option<Fields>
    ensures { result ≡ segment_after processor (map (λ w. w.now) words.now) }
{
    let segment = read_segment(only_of(words)?)?;
    Some(Fields::Segment { processor, segment })
}

fn up_to_after(processor: Name, words: &[&[u8]]) -> Option<Fields>
    ensures { result ≡ up_to_after processor (map (λ w. w.now) words.now) }
{
    let (segment, max) = pair_of(words)?;
    let segment = read_segment(segment)?;
    let max = read_from(1, 10_000, max)?;
    Some(Fields::UpTo {
        processor,
        segment,
        max: max as u32,
    })
}

fn item_after(alloc: Global, processor: Name, words: &[&[u8]]) -> Result<Option<Fields>, NoMemory>
    ensures { IfOk result (λ read. read ≡ item_after processor (map (λ w. w.now) words.now)) }
{
    let Some(item) = only_of(words) else {
        return Ok(None);
    };
    match ItemName::read(alloc, item)? {
        Some(item) => Ok(Some(Fields::Item { processor, item })),
        None => Ok(None),
    }
}

fn policy_after(processor: Name, words: &[&[u8]]) -> Option<Fields>
    ensures { result ≡ policy_after processor (map (λ w. w.now) words.now) }
{
    let keep = read_policy(only_of(words)?)?;
    Some(Fields::Policy { processor, keep })
}

fn read_command(alloc: Global, words: &[&[u8]], args: Arguments) -> Result<Option<Fields>, NoMemory>
    ensures { IfOk result (λ read. read ≡ command_in args (map (λ w. w.now) words.now)) }
{
    let [aggregate, command, rest @ ..] = words else {
        return Ok(None);
    };
    let Some(aggregate) = Name::read(alloc, aggregate)? else {
        return Ok(None);
    };
    let Some(command) = Name::read(alloc, command)? else {
        return Ok(None);
    };
    let Some(args) = args.read(alloc, rest)? else {
        return Ok(None);
    };
    Ok(Some(Fields::Command {
        aggregate,
        command,
        args,
    }))
}
