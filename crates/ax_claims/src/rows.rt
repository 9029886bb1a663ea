ghost use Rattle.std.specs.Prelude.{◌≡◌, ◌+◌, ◌<◌, ◌≤◌, ◌^◌, ◌==◌, length, slice_get, Some, None, IsTrue, IfOk, IfErr, IfSome};
ghost use Rattle.std.specs.Option.{option_copied};
ghost use Rattle.std.specs.Int.{is_power_of_two};
ghost use Rattle.ax_tokens.specs.Nodes.{token_of};
ghost use Rattle.ax_claims.specs.Rows.{AreRows, row_at, place_at, starting};
ghost use Rattle.ax_claims.specs.Changes.{claimed, stored, extended, released, split, merge, all_reset, held_check, is_expired, is_claimed, IsChange, IsChanged, IsChangedUnlessMemory};

use crate::changes::{
    first_claimed, merged_token, partner_place, put_halves, put_whole, reset_rows,
};
use crate::{ClaimFault, Refused, TokenRow};
use ax_segments::Segment;
use ax_tokens::Token;
use ax_values::{Duplicate, Name, NoMemory, copy_all};
use std::alloc::Global;
use std::marker::Model;

/// For how long a claim stands without an extension, in milliseconds.
const CLAIM_PERIOD: u64 = 10_000;

/// The token rows of a processor, by id: their segments match each hash once.
#[derive(Drop)]
pub struct Rows {
    rows: Vec<TokenRow>,
}

impl Model for Rows {
    ghost use Rattle.std.specs.Prelude.{List};
    ghost use Rattle.std.specs.Coded.{codes};
    ghost use Rattle.ax_tokens.specs.TokenCode.{coded_token};
    ghost use Rattle.ax_claims.specs.Rows.{TokenRow as Row, AreRows};

    ghost Value = { List Row };

    ghost coded = { Prim.hlevel (codes, coded_token) };

    ghost view = { λ rows. rows.rows.items };

    ghost invariant = { λ rows. AreRows rows.rows.items };
}

impl Rows {
    /// The rows of as many segments, which have covered nothing and have no owner, with fences from one on.
    pub fn start(alloc: Global, segments: u32, fence: u64) -> Result<Rows, NoMemory>
        requires power { IsTrue (is_power_of_two segments) }
        requires few { segments ≤ 65536 }
        requires fences { fence + segments ≤ 2 ^ 64 }
        ensures { IfOk result (λ rows. rows ≡ starting segments fence) }
    {
        let mut rows = Vec::with_capacity(alloc, segments as usize)?;
        for id in 0..segments {
            rows.push(TokenRow {
                segment: Segment {
                    id,
                    mask: segments - 1,
                },
                token: Token::start(alloc),
                owner: None,
                since: 0,
                fence: fence + id as u64,
            })?;
        }
        Ok(Rows { rows })
    }

    /// These rows, which stand by id and match each hash once.
    pub fn of(rows: Vec<TokenRow>) -> Rows
        requires { AreRows rows.items }
        ensures { result ≡ rows.items }
    {
        Rows { rows }
    }

    /// The rows, by id.
    pub fn rows(&self) -> &[TokenRow]
        ensures value { result.now ≡ self.now }
        ensures kept { AreRows self.now }
    {
        &self.rows
    }

    /// The row of the segment. None comes exactly where there is none.
    pub fn get(&self, segment: Segment) -> Option<&TokenRow>
        ensures { option_copied result ≡ row_at segment self.now }
    {
        self.rows.iter().find(|row| row.segment == segment)
    }

    /// Gives the segment's row an owner at the moment `now`, in milliseconds, with this fence.
    /// NoSegment comes exactly where there is no row; Claimed exactly where it has another owner whose claim was made or
    /// extended at most 10,000 ms ago. A refusal gives the name back.
    pub fn claim(
        &mut self,
        segment: Segment,
        owner: Name,
        now: u64,
        fence: u64,
    ) -> Result<(), (Refused, Name)>
        ensures { IsChange (claimed segment owner now fence self.old) owner self.old self.new result }
    {
        let Some(place) = place_of(&self.rows, segment) else {
            return Err((Refused::NoSegment, owner));
        };
        if self.rows[place].is_claimed(&owner, now) {
            let place = place as u32;
            return Err((Refused::Claimed { place }, owner));
        }
        let row = &mut self.rows[place];
        row.owner = Some(owner);
        row.since = now;
        row.fence = fence;
        Ok(())
    }

    /// Keeps how far the segment is, and renews its claim at the moment `now`, in milliseconds.
    /// Stale comes exactly where there is no row or it has another fence than the one held. A refusal gives the token back.
    pub fn store(
        &mut self,
        segment: Segment,
        held: u64,
        token: Token,
        now: u64,
    ) -> Result<(), (Refused, Token)>
        ensures { IsChange (stored segment held (token_of token) now self.old) token self.old self.new result }
    {
        let Some(place) = place_of(&self.rows, segment) else {
            return Err((Refused::Stale { held, found: None }, token));
        };
        let found = self.rows[place].fence;
        if found != held {
            let found = Some(found);
            return Err((Refused::Stale { held, found }, token));
        }
        let row = &mut self.rows[place];
        row.token = token;
        row.since = now;
        Ok(())
    }

    /// Renews the claim of the segment's row at the moment `now`, in milliseconds, where it is held.
    /// The row is held where it has the fence that is held: without one, NoSegment comes exactly where there is no row and
    /// NotHeld exactly where there is one; Stale comes exactly where the row is gone or has another fence.
    pub fn extend(&mut self, segment: Segment, held: Option<u64>, now: u64) -> Result<(), Refused>
        ensures { IsChanged (extended segment held now self.old) self.old self.new result }
    {
        let place = held_place(&self.rows, segment, held)?;
        self.rows[place].since = now;
        Ok(())
    }

    /// Takes the owner of the segment's row away, where it is held, and gives the row this fence. It is refused as `extend`.
    pub fn release(
        &mut self,
        segment: Segment,
        held: Option<u64>,
        fence: u64,
    ) -> Result<(), Refused>
        ensures { IsChanged (released segment held fence self.old) self.old self.new result }
    {
        let place = held_place(&self.rows, segment, held)?;
        let row = &mut self.rows[place];
        row.owner = None;
        row.since = 0;
        row.fence = fence;
        Ok(())
    }

    /// Puts two rows without owner in the place of the segment's row, where it is held: one for each of its halves, the lower
    /// one with this fence and the upper one with the next. Each hash keeps what is covered for it.
    /// It is refused as `extend`, and then with MaskFull exactly where the mask is 65,535.
    pub fn split(
        &mut self,
        alloc: Global,
        segment: Segment,
        held: Option<u64>,
        fence: u64,
    ) -> Result<(), ClaimFault>
        requires fences { fence + 1 < 2 ^ 64 }
        ensures { IsChangedUnlessMemory (split segment held fence self.old) self.old self.new result }
    {
        let place = held_place(&self.rows, segment, held)?;
        let Some(halves) = self.rows[place].halves(alloc, fence)? else {
            return Err(ClaimFault::Refused(Refused::MaskFull));
        };
        put_halves(&mut self.rows, place, halves)?;
        Ok(())
    }

    /// Puts one row without owner, with this fence, in the place of the segment's row, where it is held, and of its partner's.
    /// Both tokens stay, as the halves of one. It is refused as `extend`, and then with Alone exactly where the segment is the
    /// root or its partner has no row, and then with Claimed exactly where the partner's row has another owner than the actor,
    /// whose claim was made or extended at most 10,000 ms before `now`.
    pub fn merge(
        &mut self,
        alloc: Global,
        segment: Segment,
        held: Option<u64>,
        actor: &Name,
        now: u64,
        fence: u64,
    ) -> Result<(), ClaimFault>
        ensures { IsChangedUnlessMemory (merge segment held actor.now now fence self.old) self.old self.new result }
    {
        let place = held_place(&self.rows, segment, held)?;
        let Some(partner) = partner_place(&self.rows, segment) else {
            return Err(ClaimFault::Refused(Refused::Alone));
        };
        let other = partner.place;
        if self.rows[other].is_claimed(actor, now) {
            let place = other as u32;
            return Err(ClaimFault::Refused(Refused::Claimed { place }));
        }
        let token = merged_token(alloc, &self.rows[place], &self.rows[other])?;
        let whole = TokenRow::free(partner.whole, token, fence);
        if place < other {
            put_whole(&mut self.rows, place, other, whole);
        } else {
            put_whole(&mut self.rows, other, place, whole);
        }
        Ok(())
    }

    /// Gives each row to the actor at the moment `now`, in milliseconds, with fences from this one on, and lets each token begin
    /// anew: it covers nothing, and what any of its halves had covered is read again as a replay.
    /// Claimed comes exactly where a row has another owner whose claim was made or extended at most 10,000 ms ago, with the
    /// place of the first such.
    pub fn reset_all(
        &mut self,
        alloc: Global,
        actor: &Name,
        now: u64,
        fence: u64,
    ) -> Result<(), ClaimFault>
        requires fences { fence + length self.old ≤ 2 ^ 64 }
        ensures { IsChangedUnlessMemory (all_reset actor.now now fence self.old) self.old self.new result }
    {
        if let Some(place) = first_claimed(&self.rows, actor, now) {
            let first = place as u32;
            return Err(ClaimFault::Refused(Refused::Claimed { place: first }));
        }
        let rows = reset_rows(alloc, &self.rows, actor, now, fence)?;
        self.rows = rows;
        Ok(())
    }
}

impl Duplicate for Rows {
    fn copy(&self, alloc: Global) -> Result<Rows, NoMemory> {
        Ok(Rows {
            rows: copy_all(alloc, self.rows())?,
        })
    }
}

impl TokenRow {
    /// Whether the claim was made or extended more than 10,000 ms before `now`.
    pub fn is_expired(&self, now: u64) -> bool
        ensures { result ≡ is_expired now self.now }
    {
        now.saturating_sub(self.since) > CLAIM_PERIOD
    }

    /// Whether the row has another owner, whose claim is not expired.
    pub fn is_claimed(&self, actor: &Name, now: u64) -> bool
        ensures { result ≡ is_claimed actor.now now self.now }
    {
        match &self.owner {
            Some(owner) => !owner.same(actor) && !self.is_expired(now),
            None => false,
        }
    }
}

impl TokenRow {
    /// Why a change of the row under the fence that is held is refused, if it is.
    fn refused(&self, held: Option<u64>) -> Option<Refused>
        ensures { result ≡ held_check held (Some self.now) }
    {
        let Some(held) = held else {
            return Some(Refused::NotHeld);
        };
        if self.fence == held {
            return None;
        }
        let found = Some(self.fence);
        Some(Refused::Stale { held, found })
    }
}

/// The place of the segment's row, where it has the fence that is held.
fn held_place(rows: &[TokenRow], segment: Segment, held: Option<u64>) -> Result<usize, Refused>
    requires { AreRows rows.now }
    ensures place { IfOk result (λ place. place_at segment rows.now ≡ Some place) }
    ensures held { IfOk result (λ _. held_check held (row_at segment rows.now) ≡ None) }
    ensures refused { IfErr result (λ refused. held_check held (row_at segment rows.now) ≡ Some refused) }
{
    let Some(place) = place_of(rows, segment) else {
        return Err(refused_without(held));
    };
    match rows[place].refused(held) {
        Some(refused) => Err(refused),
        None => Ok(place),
    }
}

/// Why a change of a row that is not there is refused.
fn refused_without(held: Option<u64>) -> Refused
    ensures { held_check held None ≡ Some result }
{
    match held {
        Some(held) => Refused::Stale { held, found: None },
        None => Refused::NoSegment,
    }
}

/// The place of the segment's row.
pub(crate) fn place_of(rows: &[TokenRow], segment: Segment) -> Option<usize>
    requires { AreRows rows.now }
    ensures value { result ≡ place_at segment rows.now }
    ensures low { IfSome result (λ place. place ≤ segment.id) }
{
    for (place, row) in rows.iter().enumerate() {
        if row.segment == segment {
            return Some(place);
        }
    }
    None
}
