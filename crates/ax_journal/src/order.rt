ghost use Rattle.std.specs.Prelude.{◌≡◌, ◌++◌, length, take, OnOk, OnErr};
ghost use Rattle.ax_values.specs.Words.{words, spaced};
ghost use Rattle.ax_journal.specs.Form.{form_words};
ghost use Rattle.ax_journal.specs.Orders.{form_of, fields_of, order_words};
ghost use Rattle.ax_journal.specs.Fields.{given_of, fields_words};

use crate::fields::{BorrowedFields, policy_word};
use crate::form::{Form, each_order};
use crate::part::{Part, write_parts};
use ax_segments::Segment;
use ax_values::{ItemName, ListOf, Name, NoMemory, Payload, undo_on_error};

/// One atomic step that an actor asks for.
#[derive(Drop)]
pub enum Order {
    /// Lets the clock rise by milliseconds, 1 to 1,000,000,000 in the grammar.
    Tick {
        ms: u64,
    },
    Send {
        aggregate: Name,
        command: Name,
        args: Payload,
    },
    Append,
    Void {
        cell: u32,
    },
    Snapshot {
        aggregate: Name,
    },
    Deliver,
    Claim {
        processor: Name,
        segment: Segment,
    },
    Extend {
        processor: Name,
        segment: Segment,
    },
    Release {
        processor: Name,
        segment: Segment,
    },
    Split {
        processor: Name,
        segment: Segment,
    },
    Merge {
        processor: Name,
        segment: Segment,
    },
    Reset {
        processor: Name,
    },
    /// Of at most `max` records, 1 to 10,000 in the grammar.
    Fetch {
        processor: Name,
        segment: Segment,
        max: u32,
    },
    Commit,
    Take {
        processor: Name,
    },
    Settle,
    Evict {
        processor: Name,
        item: ItemName,
    },
    /// To keep letters, or to drop them.
    Policy {
        processor: Name,
        keep: bool,
    },
    Mark {
        processor: Name,
        item: ItemName,
    },
    Heal {
        processor: Name,
        item: ItemName,
    },
    /// Of at most `max` records, 1 to 10,000 in the grammar.
    Advance {
        processor: Name,
        segment: Segment,
        max: u32,
    },
    Stop,
    ShowRows {
        processor: Name,
    },
    ShowTokens {
        processor: Name,
    },
    ShowLetters {
        processor: Name,
    },
    ShowSagas {
        processor: Name,
    },
    ShowLog,
    ShowSent,
}

pub type Orders = ListOf<Order>;

/// The form of an order by its name, which both have.
macro_rules! form_by_name {
    ($order:expr; $($name:ident)*) => {
        match $order {
            $(Order::$name { .. } => Form::$name,)*
        }
    };
}

/// The fields of an order, which stand in it: the table names the orders of each shape that several have.
macro_rules! borrowed_fields {
    (
        $order:expr;
        name: $($named:ident $field:ident),*;
        segment: $($on_segment:ident),*;
        up_to: $($up_to:ident),*;
        item: $($on_item:ident),*
    ) => {
        match $order {
            Order::Tick { ms } => BorrowedFields::Moment(*ms),
            Order::Void { cell } => BorrowedFields::Cell(*cell),
            Order::Send { aggregate, command, args } =>
                BorrowedFields::Command { aggregate, command, args },
            Order::Policy { processor, keep } => BorrowedFields::Policy { processor, keep: *keep },
            $(Order::$named { $field: name })|* => BorrowedFields::Name(name),
            $(Order::$on_segment { processor, segment })|* =>
                BorrowedFields::Segment { processor, segment: *segment },
            $(Order::$up_to { processor, segment, max })|* =>
                BorrowedFields::UpTo { processor, segment: *segment, max: *max },
            $(Order::$on_item { processor, item })|* => BorrowedFields::Item { processor, item },
            _ => BorrowedFields::Nothing,
        }
    };
}

impl Order {
    /// The form of the order's line.
    pub fn form(&self) -> Form
        ensures { result ≡ form_of self.now }
    {
        each_order!(form_by_name self;)
    }

    /// The order's fields, by their shape.
    pub(crate) fn fields(&self) -> BorrowedFields<'_>
        ensures { given_of result ≡ fields_of self.now }
    {
        borrowed_fields! { self;
            name: Snapshot aggregate, Reset processor, Take processor, ShowRows processor,
                ShowTokens processor, ShowLetters processor, ShowSagas processor;
            segment: Claim, Extend, Release, Split, Merge;
            up_to: Fetch, Advance;
            item: Evict, Mark, Heal
        }
    }
}

/// Adds the order's words. Where memory is wanting, nothing is added.
pub fn write_order(order: &Order, out: &mut Vec<u8>) -> Result<(), NoMemory>
    ensures ok { OnOk result (out.new.items ≡ out.old.items ++ words (order_words order.now)) }
    ensures err { OnErr result (out.new.items ≡ out.old.items) }
{
    let start = out.len();
    let written = write_words(order, out);
    undo_on_error(out, start, written)
}

fn write_form(form: Form, out: &mut Vec<u8>) -> Result<(), NoMemory>
    ensures ok { OnOk result (out.new.items ≡ out.old.items ++ words (form_words form)) }
    ensures front { OnErr result (take (length out.old.items) out.new.items ≡ out.old.items) }
{
    let kind = form.kind();
    if kind.shown {
        out.extend_from_slice(b"show ")?;
    }
    out.extend_from_slice(kind.word)?;
    Ok(())
}

/// Adds the words of the order's fields, a space in front of each. Where memory is wanting, nothing is added.
fn write_fields(order: &Order, out: &mut Vec<u8>) -> Result<(), NoMemory>
    ensures ok { OnOk result (out.new.items ≡ out.old.items ++ spaced (fields_words (fields_of order.now))) }
    ensures err { OnErr result (out.new.items ≡ out.old.items) }
{
    match order.fields() {
        BorrowedFields::Nothing => Ok(()),
        BorrowedFields::Moment(ms) => write_parts(&[Part::Number(ms)], out),
        BorrowedFields::Cell(cell) => write_parts(&[Part::Small(cell)], out),
        BorrowedFields::Name(name) => write_parts(&[Part::Name(name)], out),
        BorrowedFields::Segment { processor, segment } => {
            write_parts(&[Part::Name(processor), Part::Segment(segment)], out)
        }
        BorrowedFields::UpTo {
            processor,
            segment,
            max,
        } => write_parts(
            &[
                Part::Name(processor),
                Part::Segment(segment),
                Part::Small(max),
            ],
            out,
        ),
        BorrowedFields::Item { processor, item } => {
            write_parts(&[Part::Name(processor), Part::Item(item)], out)
        }
        BorrowedFields::Policy { processor, keep } => {
            write_parts(&[Part::Name(processor), Part::Word(policy_word(keep))], out)
        }
        BorrowedFields::Command {
            aggregate,
            command,
            args,
        } => write_parts(
            &[Part::Name(aggregate), Part::Name(command), Part::Args(args)],
            out,
        ),
    }
}

#[tactic(auto, using(crate::proofs::LineLaws::form_in_front))]
fn write_words(order: &Order, out: &mut Vec<u8>) -> Result<(), NoMemory>
    ensures ok { OnOk result (out.new.items ≡ out.old.items ++ words (order_words order.now)) }
    ensures front { OnErr result (take (length out.old.items) out.new.items ≡ out.old.items) }
{
    write_form(order.form(), out)?;
    write_fields(order, out)
}
