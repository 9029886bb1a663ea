ghost use Rattle.std.specs.Prelude.{◌≡◌, ℕ, ◌<◌, ◌≤◌, false, length, nat_le, IsTrue, IfOk};
ghost use Rattle.std.specs.Option.{option_copied};
ghost use Rattle.ax_log.specs.Log.{events, is_reserved, first_reserved};
ghost use Rattle.ax_log.specs.Order.{max_cells};
ghost use Rattle.ax_tokens.specs.Nodes.{token_of};
ghost use Rattle.ax_tokens.specs.Tokens.{advanced, gaps_fit, max_gaps};
ghost use Rattle.ax_state.specs.Batches.{is_fetched};
ghost use Rattle.ax_step_work.specs.Reach.{HasSettled, event_is};
ghost use Rattle.ax_step_work.specs.Working.{is_new, new_below, fetch_limit, fetched_token};

use crate::reach::next_open;
use ax_segments::{Segment, hash_in};
use ax_tokens::{Plain, Token};
use ax_values::{Cell, Name, NoMemory, Record};
use std::alloc::Global;

/// How many gaps a plain part of a token may have.
const MAX_GAPS: usize = 1000;

/// Whether the event, at its index, is of the segment and the token does not cover it. Where the processor is whole,
/// `whole` is its name, here and below.
fn is_new(whole: Option<&Name>, segment: Segment, token: &Token, index: u32, event: &Record) -> bool
    ensures { result ≡ is_new (option_copied whole.entry) segment (token_of token.now) (record { index = index; record_of = event.now }) }
{
    let hash = hash_in(whole, &event.aggregate);
    segment.matches(hash) && !token.covers(segment, hash, index)
}

/// Whether the event, at its index, is of the segment, and the new token covers it and the old one does not.
pub(crate) fn is_fetched(
    whole: Option<&Name>,
    segment: Segment,
    old: &Token,
    new: &Token,
    index: u32,
    event: &Record,
) -> bool
    ensures { result ≡ is_fetched (option_copied whole.entry) segment (token_of old.now) (token_of new.now) (record { index = index; record_of = event.now }) }
{
    let hash = hash_in(whole, &event.aggregate);
    segment.matches(hash) && (new.covers(segment, hash, index) && !old.covers(segment, hash, index))
}

fn few_gaps(part: &Plain) -> bool
    ensures { result ≡ nat_le (length part.now.gaps) max_gaps }
{
    part.gaps().len() <= MAX_GAPS
}

/// Whether no plain part has more than 1,000 gaps.
fn gaps_fit(token: &Token) -> bool
    ensures { result ≡ gaps_fit (token_of token.now) }
{
    match token {
        Token::Plain(part) => few_gaps(part),
        Token::Merged(lower, upper) => gaps_fit(lower.get()) && gaps_fit(upper.get()),
        Token::Replay { at_reset, current } => few_gaps(at_reset) && few_gaps(current),
    }
}

fn is_reserved(cell: &Cell) -> bool
    ensures { result ≡ is_reserved cell.now }
{
    match cell {
        Cell::Reserved { .. } => true,
        Cell::Event(_) | Cell::Void => false,
    }
}

/// The index of the first reserved cell, or the log's length. Only cells that the token does not cover for some hash are
/// looked at, since what it covers is not reserved.
fn first_reserved(token: &Token, cells: &[Cell]) -> u32
    requires size { length cells.now ≤ max_cells }
    requires settled { HasSettled (token_of token.now) cells.now }
    ensures { result ≡ first_reserved cells.now }
{
    let end = cells.len() as u32;
    let mut index = next_open(token, 0);
    while index < end {
        if is_reserved(&cells[index as usize]) {
            return index;
        }
        index = next_open(token, index + 1);
    }
    end
}

/// How far a fetch may go: to the log's end, or to the first reserved cell where the processor is whole.
fn fetch_limit(whole: Option<&Name>, token: &Token, cells: &[Cell]) -> u32
    requires size { length cells.now ≤ max_cells }
    requires settled { HasSettled (token_of token.now) cells.now }
    ensures { result ≡ fetch_limit (option_copied whole.entry) cells.now }
{
    match whole {
        None => cells.len() as u32,
        Some(_) => first_reserved(token, cells),
    }
}

/// Whether the cell, at its index, has an event that is new.
fn has_new(whole: Option<&Name>, segment: Segment, token: &Token, index: u32, cell: &Cell) -> bool
    ensures { result ≡ event_is (is_new (option_copied whole.entry) segment (token_of token.now)) index cell.now }
{
    match cell {
        Cell::Event(event) => is_new(whole, segment, token, index, event),
        Cell::Reserved { .. } | Cell::Void => false,
    }
}

/// The largest bound, at most the limit, below which at most so many events are new.
fn bound_of(
    whole: Option<&Name>,
    segment: Segment,
    token: &Token,
    cells: &[Cell],
    limit: u32,
    most: u32,
) -> u32
    requires limit { limit ≤ length cells.now }
    requires size { length cells.now ≤ max_cells }
    ensures within { result ≤ limit }
    ensures few { length (new_below (option_copied whole.entry) segment (token_of token.now) (events cells.now) result) ≤ most }
    ensures above { (b : ℕ) → result < b → b ≤ limit → most < length (new_below (option_copied whole.entry) segment (token_of token.now) (events cells.now) b) }
{
    let mut count = 0;
    let mut index = next_open(token, 0);
    while index < limit {
        if has_new(whole, segment, token, index, &cells[index as usize]) {
            if count == most {
                return index;
            }
            count += 1;
        }
        index = next_open(token, index + 1);
    }
    limit
}

/// Whether the token, advanced to the bound, has no part with more than 1,000 gaps.
fn fits_to(alloc: Global, token: &Token, cells: &[Cell], bound: u32) -> Result<bool, NoMemory>
    requires { bound ≤ length cells.now }
    ensures { IfOk result (λ fits. fits ≡ gaps_fit (advanced cells.now bound (token_of token.now))) }
{
    Ok(gaps_fit(&token.advance(alloc, cells, bound)?))
}

/// The largest bound below `high` to which the token, advanced, has no part with more than 1,000 gaps. It is found by
/// halves: whatever lies below a bound to which the token fits is one too.
fn bound_by_halves(
    alloc: Global,
    token: &Token,
    cells: &[Cell],
    mut high: u32,
) -> Result<u32, NoMemory>
    requires fits { IsTrue (gaps_fit (token_of token.now)) }
    requires some { 0 < high }
    requires high { high ≤ length cells.now }
    requires size { length cells.now ≤ max_cells }
    requires over { gaps_fit (advanced cells.now high (token_of token.now)) ≡ false }
    ensures below { IfOk result (λ low. low < high) }
    ensures fits { IfOk result (λ low. IsTrue (gaps_fit (advanced cells.now low (token_of token.now)))) }
    ensures over { IfOk result (λ low. (b : ℕ) → low < b → b ≤ high → gaps_fit (advanced cells.now b (token_of token.now)) ≡ false) }
{
    token.facts();
    let mut low = 0;
    while low + 1 < high {
        let middle = low + (high - low) / 2;
        if fits_to(alloc, token, cells, middle)? {
            low = middle;
        } else {
            high = middle;
        }
    }
    Ok(low)
}

/// The token advanced as far as a fetch of at most so many records goes.
pub(crate) fn fetched_token(
    alloc: Global,
    whole: Option<&Name>,
    segment: Segment,
    token: &Token,
    cells: &[Cell],
    most: u32,
) -> Result<Token, NoMemory>
    requires fits { IsTrue (gaps_fit (token_of token.now)) }
    requires settled { HasSettled (token_of token.now) cells.now }
    requires size { length cells.now ≤ max_cells }
    ensures { IfOk result (λ new. token_of new ≡ fetched_token (option_copied whole.entry) segment (token_of token.now) cells.now most) }
{
    token.facts();
    let limit = fetch_limit(whole, token, cells);
    let bound = bound_of(whole, segment, token, cells, limit, most);
    let new = token.advance(alloc, cells, bound)?;
    if gaps_fit(&new) {
        return new.collapse(alloc);
    }
    let bound = bound_by_halves(alloc, token, cells, bound)?;
    token.advance(alloc, cells, bound)?.collapse(alloc)
}
