ghost use Rattle.std.specs.Prelude.{◌≡◌, [], ◌∷◌, map, Some, IfOk, IfSome, IsTrue};
ghost use Rattle.ax_journal.specs.Orders.{step_of, steps_of, step_in, steps_in, bare_step, named_step, segment_step, up_to_step, item_step, moment_step, cell_step, policy_step, command_step, do_steps, work_steps, retry_steps, stops_last};

use crate::arguments::Arguments;
use crate::fields::{Fields, read_fields};
use crate::form::Form;
use crate::order::{Order, Orders};
use ax_segments::Segment;
use ax_values::{Duplicate, ItemName, Name, NoMemory, Payload};
use std::alloc::Global;

/// The step that the words are, as fields in a line of the form. None comes exactly where they have another shape than the
/// form's, and for the forms of two steps.
pub fn read_step(
    alloc: Global,
    form: Form,
    fields: &[&[u8]],
    args: Arguments,
) -> Result<Option<Order>, NoMemory>
    ensures { IfOk result (λ read. read ≡ step_in args form (map (λ w. w.now) fields.now)) }
{
    match read_fields(alloc, form.kind().shape, fields, args)? {
        Some(fields) => Ok(fields.step(form)),
        None => Ok(None),
    }
}

/// The steps that the words are, as fields in a line of the form: send and append, fetch and commit, or take and settle of
/// the forms of two steps, and the one step of the others. None comes exactly where the fields have another shape than the
/// form's.
pub fn read_steps(
    alloc: Global,
    form: Form,
    fields: &[&[u8]],
    args: Arguments,
) -> Result<Option<Orders>, NoMemory>
    ensures value { IfOk result (λ read. read ≡ steps_in args form (map (λ w. w.now) fields.now)) }
    ensures stops { IfOk result (λ read. IfSome read (λ steps. IsTrue (stops_last steps))) }
{
    match read_fields(alloc, form.kind().shape, fields, args)? {
        Some(fields) => fields.steps(alloc, form),
        None => Ok(None),
    }
}

impl Fields {
    /// The step of the form that has these fields. None comes exactly where the form has others, or is of two steps.
    pub(crate) fn step(self, form: Form) -> Option<Order>
        ensures { result ≡ step_of self form }
    {
        match self {
            Fields::Nothing => bare_step(form),
            Fields::Moment(ms) => moment_step(ms, form),
            Fields::Cell(cell) => cell_step(cell, form),
            Fields::Name(name) => named_step(name, form),
            Fields::Segment { processor, segment } => segment_step(processor, segment, form),
            Fields::UpTo {
                processor,
                segment,
                max,
            } => up_to_step(processor, segment, max, form),
            Fields::Item { processor, item } => item_step(processor, item, form),
            Fields::Policy { processor, keep } => policy_step(processor, keep, form),
            Fields::Command {
                aggregate,
                command,
                args,
            } => command_step(aggregate, command, args, form),
        }
    }

    fn steps(self, alloc: Global, form: Form) -> Result<Option<Orders>, NoMemory>
        ensures { IfOk result (λ read. read ≡ steps_of form self) }
    {
        match form {
            Form::Do => self.do_steps(alloc),
            Form::Work => self.work_steps(alloc),
            Form::Retry => self.retry_steps(alloc),
            _ => match self.step(form) {
                Some(order) => one(alloc, order),
                None => Ok(None),
            },
        }
    }

    fn do_steps(self, alloc: Global) -> Result<Option<Orders>, NoMemory>
        ensures { IfOk result (λ read. read ≡ do_steps self) }
    {
        match self {
            Fields::Command {
                aggregate,
                command,
                args,
            } => two(
                alloc,
                Order::Send {
                    aggregate,
                    command,
                    args,
                },
                Order::Append,
            ),
            _ => Ok(None),
        }
    }

    fn work_steps(self, alloc: Global) -> Result<Option<Orders>, NoMemory>
        ensures { IfOk result (λ read. read ≡ work_steps self) }
    {
        match self {
            Fields::UpTo {
                processor,
                segment,
                max,
            } => two(
                alloc,
                Order::Fetch {
                    processor,
                    segment,
                    max,
                },
                Order::Commit,
            ),
            _ => Ok(None),
        }
    }

    fn retry_steps(self, alloc: Global) -> Result<Option<Orders>, NoMemory>
        ensures { IfOk result (λ read. read ≡ retry_steps self) }
    {
        match self {
            Fields::Name(processor) => two(alloc, Order::Take { processor }, Order::Settle),
            _ => Ok(None),
        }
    }
}

fn bare_step(form: Form) -> Option<Order>
    ensures { result ≡ bare_step form }
{
    match form {
        Form::Append => Some(Order::Append),
        Form::Deliver => Some(Order::Deliver),
        Form::Commit => Some(Order::Commit),
        Form::Settle => Some(Order::Settle),
        Form::Stop => Some(Order::Stop),
        Form::ShowLog => Some(Order::ShowLog),
        Form::ShowSent => Some(Order::ShowSent),
        _ => None,
    }
}

fn moment_step(ms: u64, form: Form) -> Option<Order>
    ensures { result ≡ moment_step ms form }
{
    match form {
        Form::Tick => Some(Order::Tick { ms }),
        _ => None,
    }
}

fn cell_step(cell: u32, form: Form) -> Option<Order>
    ensures { result ≡ cell_step cell form }
{
    match form {
        Form::Void => Some(Order::Void { cell }),
        _ => None,
    }
}

fn policy_step(processor: Name, keep: bool, form: Form) -> Option<Order>
    ensures { result ≡ policy_step processor keep form }
{
    match form {
        Form::Policy => Some(Order::Policy { processor, keep }),
        _ => None,
    }
}

fn command_step(aggregate: Name, command: Name, args: Payload, form: Form) -> Option<Order>
    ensures { result ≡ command_step aggregate command args form }
{
    match form {
        Form::Send => Some(Order::Send {
            aggregate,
            command,
            args,
        }),
        _ => None,
    }
}

fn named_step(name: Name, form: Form) -> Option<Order>
    ensures { result ≡ named_step name form }
{
    match form {
        Form::Snapshot => Some(Order::Snapshot { aggregate: name }),
        Form::Reset => Some(Order::Reset { processor: name }),
        Form::Take => Some(Order::Take { processor: name }),
        Form::ShowRows => Some(Order::ShowRows { processor: name }),
        Form::ShowTokens => Some(Order::ShowTokens { processor: name }),
        Form::ShowLetters => Some(Order::ShowLetters { processor: name }),
        Form::ShowSagas => Some(Order::ShowSagas { processor: name }),
        _ => None,
    }
}

fn segment_step(processor: Name, segment: Segment, form: Form) -> Option<Order>
    ensures { result ≡ segment_step processor segment form }
{
    match form {
        Form::Claim => Some(Order::Claim { processor, segment }),
        Form::Extend => Some(Order::Extend { processor, segment }),
        Form::Release => Some(Order::Release { processor, segment }),
        Form::Split => Some(Order::Split { processor, segment }),
        Form::Merge => Some(Order::Merge { processor, segment }),
        _ => None,
    }
}

fn up_to_step(processor: Name, segment: Segment, max: u32, form: Form) -> Option<Order>
    ensures { result ≡ up_to_step processor segment max form }
{
    match form {
        Form::Fetch => Some(Order::Fetch {
            processor,
            segment,
            max,
        }),
        Form::Advance => Some(Order::Advance {
            processor,
            segment,
            max,
        }),
        _ => None,
    }
}

fn item_step(processor: Name, item: ItemName, form: Form) -> Option<Order>
    ensures { result ≡ item_step processor item form }
{
    match form {
        Form::Evict => Some(Order::Evict { processor, item }),
        Form::Mark => Some(Order::Mark { processor, item }),
        Form::Heal => Some(Order::Heal { processor, item }),
        _ => None,
    }
}

fn one(alloc: Global, order: Order) -> Result<Option<Orders>, NoMemory>
    ensures { IfOk result (λ orders. orders ≡ Some (order ∷ [])) }
{
    let mut orders = Vec::with_capacity(alloc, 1)?;
    orders.push(order)?;
    Ok(Some(Orders::of(orders)))
}

fn two(alloc: Global, first: Order, second: Order) -> Result<Option<Orders>, NoMemory>
    ensures { IfOk result (λ orders. orders ≡ Some (first ∷ second ∷ [])) }
{
    let mut orders = Vec::with_capacity(alloc, 2)?;
    orders.push(first)?;
    orders.push(second)?;
    Ok(Some(Orders::of(orders)))
}

impl Duplicate for Order {
    #[tactic(auto, using(crate::proofs::OrderLaws::step_again))]
    fn copy(&self, alloc: Global) -> Result<Order, NoMemory> {
        let fields = self.fields().own(alloc)?;
        Ok(fields.step(self.form()).unwrap())
    }
}
