ghost use Rattle.std.specs.Prelude.{◌≡◌, ◌≤◌, ◌<◌, ◌^◌, ◌&&◌, [], ◌∷◌, length, map, option_copied, IfOk};
ghost use Rattle.std.specs.List.{list_all};
ghost use Rattle.ax_values.specs.Words.{same_name};
ghost use Rattle.ax_sheet.specs.Declarations.{is_of_sheet, same_flag};
ghost use Rattle.ax_journal.specs.Form.{is_built};
ghost use Rattle.ax_journal.specs.Orders.{is_stop};
ghost use Rattle.ax_script.specs.Queues.{times_of, schedule_fits};
ghost use Rattle.ax_script.specs.Judging.{actor_place, is_later, is_no_sheet, is_declared, is_twice, is_processor, has_processor, is_command, is_known, is_unknown, is_past_limit, is_show, shows_in, ends_in_stop, is_after_stop, is_wrong_schedule, first_kind};

use crate::kind::ScriptKind;
use crate::line::ScriptLine;
use crate::reading::Reading;
use ax_journal::{Form, Order, Orders};
use ax_sheet::{Processor, Sheet, fits_command};
use ax_values::{Name, NoMemory, Payload};
use std::alloc::Global;

/// The most actors of a script.
const MOST_ACTORS: usize = 64;

/// The most processors of a script, sagas counted.
const MOST_PROCESSORS: usize = 16;

/// The most steps of a script.
const MOST_STEPS: usize = 100_000;

/// The most show orders of a script.
const MOST_SHOWS: usize = 8;

/// The first kind of fault of a line whose form is right.
#[tactic(auto, unfolding(crate::specs::Judging::first_kind))]
pub(crate) fn first_kind(
    alloc: Global,
    reading: &Reading,
    line: &ScriptLine,
) -> Result<Option<ScriptKind>, NoMemory>
    ensures { IfOk result (λ kind. kind ≡ first_kind is_built reading.now line.now) }
{
    if is_later(line) {
        return Ok(Some(ScriptKind::Later));
    }
    if is_no_sheet(line) {
        return Ok(Some(ScriptKind::Sheet));
    }
    if is_twice(reading, line) {
        return Ok(Some(ScriptKind::Twice));
    }
    if is_unknown(reading, line) {
        return Ok(Some(ScriptKind::Unknown));
    }
    if is_past_limit(reading, line) {
        return Ok(Some(ScriptKind::Limit));
    }
    if is_after_stop(reading, line) {
        return Ok(Some(ScriptKind::Stopped));
    }
    if is_wrong_schedule(alloc, reading, line)? {
        return Ok(Some(ScriptKind::Schedule));
    }
    Ok(None)
}

fn is_later(line: &ScriptLine) -> bool
    ensures { result ≡ is_later is_built line.now }
{
    match line {
        ScriptLine::Order { form, .. } => !form.is_built(),
        ScriptLine::Schedule(_) => !Form::Fetch.is_built(),
        ScriptLine::Processor(processor) => {
            if processor.saga {
                !Form::Advance.is_built()
            } else {
                processor.segments != 1 && !Form::Fetch.is_built()
            }
        }
        _ => false,
    }
}

fn is_no_sheet(line: &ScriptLine) -> bool
    ensures { result ≡ is_no_sheet line.now }
{
    match line {
        ScriptLine::Sheet(sheet) => sheet.is_none(),
        _ => false,
    }
}

fn is_twice(reading: &Reading, line: &ScriptLine) -> bool
    ensures { result ≡ is_twice reading.now line.now }
{
    match line {
        ScriptLine::Processor(processor) => is_processor(reading.processors(), &processor.name),
        ScriptLine::Actor(name) => is_declared(reading.actors(), name),
        _ => false,
    }
}

fn is_unknown(reading: &Reading, line: &ScriptLine) -> bool
    ensures { result ≡ is_unknown reading.now line.now }
{
    match line {
        ScriptLine::Processor(processor) => match reading.sheet() {
            Some(sheet) => !is_of_sheet(sheet, processor),
            None => true,
        },
        ScriptLine::Order { actor, steps, .. } => {
            !(is_declared(reading.actors(), actor)
                && are_known(reading.sheet(), reading.processors(), steps.parts()))
        }
        ScriptLine::Schedule(names) => !are_declared(reading.actors(), names.parts()),
        _ => false,
    }
}

fn is_past_limit(reading: &Reading, line: &ScriptLine) -> bool
    ensures { result ≡ is_past_limit reading.now line.now }
{
    match line {
        ScriptLine::Processor(_) => reading.processors().len() >= MOST_PROCESSORS,
        ScriptLine::Actor(_) => reading.actors().len() >= MOST_ACTORS,
        ScriptLine::Order { steps, .. } => {
            MOST_STEPS - reading.steps() < steps.parts().len()
                || MOST_SHOWS - reading.shows() < count_shows(steps.parts())
        }
        _ => false,
    }
}

fn is_after_stop(reading: &Reading, line: &ScriptLine) -> bool
    ensures { result ≡ is_after_stop reading.now line.now }
{
    match line {
        ScriptLine::Order { actor, .. } => {
            let place = actor_place(reading.actors(), actor);
            match reading.orders().get(place) {
                Some(queue) => ends_in_stop(queue.parts()),
                None => false,
            }
        }
        _ => false,
    }
}

fn is_wrong_schedule(alloc: Global, reading: &Reading, line: &ScriptLine) -> Result<bool, NoMemory>
    ensures { IfOk result (λ wrong. wrong ≡ is_wrong_schedule reading.now line.now) }
{
    match line {
        ScriptLine::Schedule(names) => {
            let places = places_of(alloc, reading.actors(), names.parts())?;
            Ok(!schedule_fits(reading.orders(), &places))
        }
        _ => Ok(false),
    }
}

/// The number of an actor, or that of all actors where the name is none's.
pub(crate) fn actor_place(actors: &[Name], name: &Name) -> usize
    ensures value { result ≡ actor_place actors.now name.now }
    ensures within { result ≤ length actors.now }
{
    for (place, actor) in actors.iter().enumerate() {
        if actor.same(name) {
            return place;
        }
    }
    actors.len()
}

/// The numbers of the actors of these names, in order.
pub(crate) fn places_of(
    alloc: Global,
    actors: &[Name],
    names: &[Name],
) -> Result<Vec<u32>, NoMemory>
    requires { length actors.now < 2 ^ 32 }
    ensures { IfOk result (λ places. places.items ≡ map (actor_place actors.now) names.now) }
{
    let mut places = Vec::with_capacity(alloc, names.len())?;
    for name in names {
        places.push(actor_place(actors, name) as u32)?;
    }
    Ok(places)
}

fn is_declared(actors: &[Name], name: &Name) -> bool
    ensures { result ≡ is_declared actors.now name.now }
{
    actors.iter().any(|actor| actor.same(name))
}

fn are_declared(actors: &[Name], names: &[Name]) -> bool
    ensures { result ≡ list_all (is_declared actors.now) names.now }
{
    names.iter().all(|name| is_declared(actors, name))
}

fn is_processor(processors: &[Processor], name: &Name) -> bool
    ensures { result ≡ is_processor processors.now name.now }
{
    processors.iter().any(|processor| processor.name.same(name))
}

fn is_of_kind(processor: &Processor, saga: bool, name: &Name) -> bool
    ensures { result ≡ (same_name processor.now.name name.now && same_flag processor.now.saga saga) }
{
    processor.name.same(name) && processor.saga == saga
}

fn has_processor(processors: &[Processor], saga: bool, name: &Name) -> bool
    ensures { result ≡ has_processor processors.now saga name.now }
{
    processors
        .iter()
        .any(|processor| is_of_kind(processor, saga, name))
}

fn is_command(sheet: Option<&Sheet>, name: &Name, args: &Payload) -> bool
    ensures { result ≡ is_command (option_copied sheet.entry) name.now args.now }
{
    match sheet {
        Some(sheet) => match sheet.command(name) {
            Some(command) => fits_command(command, args),
            None => false,
        },
        None => false,
    }
}

/// Whether the processor has the name of a saga of the sheet, or of a projection.
fn is_of_sheet(sheet: &Sheet, processor: &Processor) -> bool
    ensures { result ≡ is_of_sheet sheet.now processor.now }
{
    if processor.saga {
        sheet.saga(&processor.name).is_some()
    } else {
        sheet.projection(&processor.name).is_some()
    }
}

/// Whether the names of a step are declared, each of the right kind.
#[tactic(auto, unfolding(crate::specs::Judging::is_known))]
fn is_known(sheet: Option<&Sheet>, processors: &[Processor], order: &Order) -> bool
    ensures { result ≡ is_known (option_copied sheet.entry) processors.now order.now }
{
    match order {
        Order::Send { command, args, .. } => is_command(sheet, command, args),
        Order::Claim { processor, .. }
        | Order::Extend { processor, .. }
        | Order::Release { processor, .. }
        | Order::Split { processor, .. }
        | Order::Merge { processor, .. }
        | Order::ShowTokens { processor } => is_processor(processors, processor),
        Order::Advance { processor, .. } | Order::ShowSagas { processor } => {
            has_processor(processors, true, processor)
        }
        Order::Reset { processor }
        | Order::Fetch { processor, .. }
        | Order::Take { processor }
        | Order::Evict { processor, .. }
        | Order::Policy { processor, .. }
        | Order::Mark { processor, .. }
        | Order::Heal { processor, .. }
        | Order::ShowRows { processor }
        | Order::ShowLetters { processor } => has_processor(processors, false, processor),
        _ => true,
    }
}

fn are_known(sheet: Option<&Sheet>, processors: &[Processor], steps: &[Order]) -> bool
    ensures { result ≡ list_all (is_known (option_copied sheet.entry) processors.now) steps.now }
{
    steps.iter().all(|order| is_known(sheet, processors, order))
}

#[tactic(auto, unfolding(crate::specs::Judging::is_show))]
fn is_show(order: &Order) -> bool
    ensures { result ≡ is_show order.now }
{
    matches!(
        order,
        Order::ShowRows { .. }
            | Order::ShowTokens { .. }
            | Order::ShowLetters { .. }
            | Order::ShowSagas { .. }
            | Order::ShowLog
            | Order::ShowSent
    )
}

/// 1 for a show order, else 0.
fn show_count(order: &Order) -> usize
    ensures { result ≡ shows_in (order.now ∷ []) }
{
    if is_show(order) { 1 } else { 0 }
}

/// How many of the steps are show orders.
pub(crate) fn count_shows(steps: &[Order]) -> usize
    ensures { result ≡ shows_in steps.now }
{
    let mut shows = 0;
    for order in steps {
        shows += show_count(order);
    }
    shows
}

#[tactic(auto, unfolding(ax_journal::specs::Orders::is_stop))]
fn is_stop(order: &Order) -> bool
    ensures { result ≡ is_stop order.now }
{
    matches!(order, Order::Stop)
}

#[tactic(auto, using(crate::proofs::Standing::ends_at_last))]
fn ends_in_stop(queue: &[Order]) -> bool
    ensures { result ≡ ends_in_stop queue.now }
{
    match queue.last() {
        Some(order) => is_stop(order),
        None => false,
    }
}

fn times_of(place: u32, places: &[u32]) -> usize
    ensures { result ≡ times_of place places.now }
{
    places.iter().filter(|other| **other == place).count()
}

fn schedule_fits(queues: &[Orders], places: &[u32]) -> bool
    requires { length queues.now < 2 ^ 32 }
    ensures { result ≡ schedule_fits 0 queues.now places.now }
{
    for (place, queue) in queues.iter().enumerate() {
        if times_of(place as u32, places) != queue.parts().len() {
            return false;
        }
    }
    true
}
