ghost use Rattle.std.specs.Prelude.{◌≡◌, ◌+◌, ◌<◌, ◌≤◌, ◌^◌, ◌==◌, true, false, insert, remove, length, position, slice_set, Some, None, IfOk, IfSome, IfNone, OnErr, OnOk, nat_lt, if◌then◌else◌};
ghost use Rattle.ax_values.specs.Words.{place_where};
ghost use Rattle.ax_segments.specs.Segments.{max_mask, partner, merged};
ghost use Rattle.ax_tokens.specs.Nodes.{token_of};
ghost use Rattle.ax_claims.specs.Rows.{AreRows, row_at, place_at};
ghost use Rattle.ax_claims.specs.Changes.{free_row, lower_row, upper_row, merged_token, reset_rows, is_claimed, partner_row};

use crate::TokenRow;
use crate::rows::place_of;
use ax_segments::Segment;
use ax_tokens::Token;
use ax_values::{Duplicate, Name, NoMemory};
use std::alloc::Global;

/// The rows of the two halves of a segment.
#[derive(Drop)]
pub(crate) struct HalfRows {
    lower: TokenRow,
    upper: TokenRow,
}

/// The place of the partner's row, and the segment that both are halves of.
#[derive(Clone, Copy)]
pub(crate) struct Partner {
    pub(crate) place: usize,
    pub(crate) whole: Segment,
}

impl TokenRow {
    /// A row without owner.
    pub(crate) fn free(segment: Segment, token: Token, fence: u64) -> TokenRow
        ensures { result ≡ free_row segment (token_of token) fence }
    {
        TokenRow {
            segment,
            token,
            owner: None,
            since: 0,
            fence,
        }
    }

    /// The rows of the two halves, without owner. None comes exactly at a full mask.
    pub(crate) fn halves(&self, alloc: Global, fence: u64) -> Result<Option<HalfRows>, NoMemory>
        requires { fence + 1 < 2 ^ 64 }
        ensures lower { IfOk result (λ found. IfSome found (λ halves. halves.lower ≡ lower_row self.now fence)) }
        ensures upper { IfOk result (λ found. IfSome found (λ halves. halves.upper ≡ upper_row self.now fence)) }
        ensures some { IfOk result (λ found. IfSome found (λ _. (self.now.segment.mask == max_mask) ≡ false)) }
        ensures none { IfOk result (λ found. IfNone found ((self.now.segment.mask == max_mask) ≡ true)) }
    {
        let Ok((lower, upper)) = self.segment.split() else {
            return Ok(None);
        };
        let (lower_token, upper_token) = self.token.split_token(alloc)?;
        Ok(Some(HalfRows {
            lower: TokenRow::free(lower, lower_token.collapse(alloc)?, fence),
            upper: TokenRow::free(upper, upper_token.collapse(alloc)?, fence + 1),
        }))
    }
}

/// Puts the rows of the halves in: the upper one before the first row of a greater id, and the lower one at the place. Where
/// memory is wanting, all rows stay.
pub(crate) fn put_halves(
    rows: &mut Vec<TokenRow>,
    place: usize,
    halves: HalfRows,
) -> Result<(), NoMemory>
    requires { place < length rows.old.items }
    ensures ok { OnOk result (rows.new.items ≡ slice_set (insert rows.old.items (place_where (λ r. nat_lt halves.upper.segment.id r.segment.id) rows.old.items) halves.upper) place halves.lower) }
    ensures err { OnErr result (rows.new.items ≡ rows.old.items) }
{
    let HalfRows { lower, upper } = halves;
    let end = place_above(rows, upper.segment.id);
    rows.insert(end, upper)?;
    rows[place] = lower;
    Ok(())
}

/// The place of the first row of a greater id, or the number of rows.
fn place_above(rows: &[TokenRow], id: u32) -> usize
    ensures place { result ≡ place_where (λ r. nat_lt id r.segment.id) rows.now }
    ensures within { result ≤ length rows.now }
{
    for (place, row) in rows.iter().enumerate() {
        if id < row.segment.id {
            return place;
        }
    }
    rows.len()
}

/// The partner's row. None comes exactly where the segment has no partner, or this one has no row.
pub(crate) fn partner_place(rows: &[TokenRow], segment: Segment) -> Option<Partner>
    requires { AreRows rows.now }
    ensures none { IfNone result (partner_row (partner segment) rows.now ≡ None) }
    ensures place { IfSome result (λ found. IfSome (partner segment) (λ other. place_at other rows.now ≡ Some found.place)) }
    ensures whole { IfSome result (λ found. IfSome (partner segment) (λ other. merged segment other ≡ Some found.whole)) }
    ensures some { IfSome result (λ _. IfNone (partner segment) ⊥) }
{
    let other = segment.partner()?;
    let place = place_of(rows, other)?;
    let whole = segment.merged_with(other)?;
    Some(Partner { place, whole })
}

/// The token whose halves are those of the two rows, that of the smaller id as the lower one.
pub(crate) fn merged_token(
    alloc: Global,
    row: &TokenRow,
    other: &TokenRow,
) -> Result<Token, NoMemory>
    ensures { IfOk result (λ token. token_of token ≡ merged_token row.now other.now) }
{
    let (lower, upper) = if row.segment.id < other.segment.id {
        (row, other)
    } else {
        (other, row)
    };
    let lower = lower.token.copy(alloc)?;
    let upper = upper.token.copy(alloc)?;
    Token::merge(alloc, lower, upper)?.collapse(alloc)
}

/// Puts the row in the lower of the two places, and takes the other row out.
pub(crate) fn put_whole(rows: &mut Vec<TokenRow>, low: usize, high: usize, whole: TokenRow)
    requires low { low < high }
    requires high { high < length rows.old.items }
    ensures { rows.new.items ≡ slice_set (remove rows.old.items high) low whole }
{
    rows.remove(high);
    rows[low] = whole;
}

/// The place of the first row that another than the actor owns.
pub(crate) fn first_claimed(rows: &[TokenRow], actor: &Name, now: u64) -> Option<usize>
    ensures { result ≡ position (is_claimed actor.now now) rows.now }
{
    rows.iter().position(|row| row.is_claimed(actor, now))
}

/// The rows, each of which begins anew and belongs to the actor.
pub(crate) fn reset_rows(
    alloc: Global,
    rows: &[TokenRow],
    actor: &Name,
    now: u64,
    fence: u64,
) -> Result<Vec<TokenRow>, NoMemory>
    requires { fence + length rows.now ≤ 2 ^ 64 }
    ensures { IfOk result (λ anew. anew.items ≡ reset_rows actor.now now fence rows.now) }
{
    let mut anew = Vec::with_capacity(alloc, rows.len())?;
    for (place, row) in rows.iter().enumerate() {
        let token = row.token.reset(alloc)?.collapse(alloc)?;
        anew.push(TokenRow {
            segment: row.segment,
            token,
            owner: Some(actor.copy(alloc)?),
            since: now,
            fence: fence + place as u64,
        })?;
    }
    Ok(anew)
}
