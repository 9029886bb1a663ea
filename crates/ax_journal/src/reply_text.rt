ghost use Rattle.std.specs.Prelude.{◌≡◌, [], ◌∷◌, ◌++◌, length, take, OnOk, OnErr};
ghost use Rattle.ax_values.specs.Words.{words, spaced};
ghost use Rattle.ax_journal.specs.Parts.{part_words};
ghost use Rattle.ax_journal.specs.Replies.{reply_words, found_text, log_values, work_values, refusal_values};

use crate::part::{Part, write_parts};
use crate::reply::Reply;
use ax_values::{NoMemory, undo_on_error, write_u32};

/// Adds the reply's number and its words. Where memory is wanting, nothing is added.
pub fn write_reply(reply: &Reply, out: &mut Vec<u8>) -> Result<(), NoMemory>
    ensures ok { OnOk result (out.new.items ≡ out.old.items ++ words (reply_words reply.now)) }
    ensures err { OnErr result (out.new.items ≡ out.old.items) }
{
    let start = out.len();
    let written = write_reply_words(reply, out);
    undo_on_error(out, start, written)
}

#[tactic(auto, using(crate::proofs::LineLaws::values_in_front))]
fn write_reply_words(reply: &Reply, out: &mut Vec<u8>) -> Result<(), NoMemory>
    ensures ok { OnOk result (out.new.items ≡ out.old.items ++ words (reply_words reply.now)) }
    ensures front { OnErr result (take (length out.old.items) out.new.items ≡ out.old.items) }
{
    write_u32(reply.number(), out)?;
    write_log_values(reply, out)?;
    write_work_values(reply, out)?;
    write_refusal_values(reply, out)
}

/// Writes labels, and after each its value, as parts of a line.
macro_rules! write_labelled {
    ($out:ident; $($label:literal $part:ident $value:expr),*) => {
        write_parts(&[$(Part::Word($label), Part::$part($value)),*], $out)
    };
}

/// Writes values as parts of a line.
macro_rules! write_each {
    ($out:ident; $($part:ident $value:expr),*) => {
        write_parts(&[$(Part::$part($value)),*], $out)
    };
}

fn write_log_values(reply: &Reply, out: &mut Vec<u8>) -> Result<(), NoMemory>
    ensures ok { OnOk result (out.new.items ≡ out.old.items ++ spaced (log_values reply.now)) }
    ensures err { OnErr result (out.new.items ≡ out.old.items) }
{
    match reply {
        Reply::Now { moment } => write_labelled!(out; b"now" Number *moment),
        Reply::Reserved { cell, count, first } => {
            write_labelled!(out; b"cell" Small *cell, b"count" Small *count, b"first" Small *first)
        }
        Reply::Appended { seq, count } =>
            write_labelled!(out; b"seq" Small *seq, b"count" Small *count),
        Reply::Voided { cell } => write_labelled!(out; b"cell" Small *cell),
        Reply::Snapshot { events } => write_labelled!(out; b"events" Small *events),
        Reply::Delivered { sent, cell, count } => {
            write_labelled!(out; b"sent" Number *sent, b"cell" Small *cell, b"count" Small *count)
        }
        Reply::Rejected { sent, guard } =>
            write_labelled!(out; b"sent" Number *sent, b"rejected" Small *guard),
        Reply::Lines { count } => write_labelled!(out; b"lines" Number *count),
        _ => Ok(()),
    }
}

fn write_work_values(reply: &Reply, out: &mut Vec<u8>) -> Result<(), NoMemory>
    ensures ok { OnOk result (out.new.items ≡ out.old.items ++ spaced (work_values reply.now)) }
    ensures err { OnErr result (out.new.items ≡ out.old.items) }
{
    match reply {
        Reply::Fenced { fence } => write_labelled!(out; b"fence" Number *fence),
        Reply::Halves { lower, upper } =>
            write_labelled!(out; b"lower" Segment *lower, b"upper" Segment *upper),
        Reply::Merged { segment } => write_labelled!(out; b"merged" Segment *segment),
        Reply::Segments { count } => write_labelled!(out; b"segments" Small *count),
        Reply::Fetched { records } => write_labelled!(out; b"records" Small *records),
        Reply::Committed {
            applied,
            parked,
            dropped,
        } => {
            write_labelled!(out; b"applied" Small *applied, b"parked" Small *parked, b"dropped" Small *dropped)
        }
        Reply::Letters { count, aggregate } =>
            write_labelled!(out; b"letters" Small *count, b"of" Name aggregate),
        Reply::NoLetters => write_labelled!(out; b"letters" Small 0),
        Reply::Settled { settled, left } =>
            write_labelled!(out; b"settled" Small *settled, b"left" Small *left),
        Reply::Dropped { item } => write_labelled!(out; b"dropped" Item item),
        Reply::Advanced {
            records,
            started,
            ended,
            sent,
        } => {
            write_labelled!(out; b"records" Small *records, b"started" Small *started, b"ended" Small *ended, b"sent" Number *sent)
        }
        _ => Ok(()),
    }
}

fn write_refusal_values(reply: &Reply, out: &mut Vec<u8>) -> Result<(), NoMemory>
    ensures ok { OnOk result (out.new.items ≡ out.old.items ++ spaced (refusal_values reply.now)) }
    ensures err { OnErr result (out.new.items ≡ out.old.items) }
{
    match reply {
        Reply::GuardFails { guard } => write_labelled!(out; b"guard" Small *guard),
        Reply::Conflict { expected, found } => {
            write_labelled!(out; b"expected" Small *expected, b"found" Small *found)
        }
        Reply::VoidedCell { cell } => write_labelled!(out; b"cell" Small *cell),
        Reply::Young { since } => write_labelled!(out; b"since" Number *since),
        Reply::Claimed { owner, since } =>
            write_labelled!(out; b"owner" Name owner, b"since" Number *since),
        Reply::Stale { held, found } => {
            write_parts(
                &[
                    Part::Word(b"held"),
                    Part::Number(*held),
                    Part::Word(b"found"),
                    fence_part(*found),
                ],
                out,
            )
        }
        Reply::Changed {
            aggregate,
            read,
            found,
        } => write_each!(out; Name aggregate, Word b"read", Seen read, Word b"found", Seen found),
        Reply::SequenceFull { aggregate } => write_parts(&[Part::Name(aggregate)], out),
        Reply::LettersTaken { by, since } =>
            write_labelled!(out; b"by" Name by, b"since" Number *since),
        Reply::NotApplied { item, why } => write_parts(&[Part::Item(item), Part::Line(why)], out),
        _ => Ok(()),
    }
}

fn fence_part(found: Option<u64>) -> Part<'static>
    ensures { part_words result ≡ found_text found ∷ [] }
{
    match found {
        Some(fence) => Part::Number(fence),
        None => Part::Word(b"none"),
    }
}
