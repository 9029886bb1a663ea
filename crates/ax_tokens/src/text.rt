ghost use Rattle.std.specs.Prelude.{◌≡◌, ◌≤◌, ◌++◌, ◌∷◌, suc, map, nat_lt, length, take, option_map, IsTrue, IfOk, IfSome, OnOk, OnErr};
ghost use Rattle.ax_values.specs.Grammar.{IsReadBack, each_in, pieces, u32_in};
ghost use Rattle.std.specs.List.{list_all};
ghost use Rattle.std.specs.Fmt.{decimal};
ghost use Rattle.ax_values.specs.Seen.{comma_led};
ghost use Rattle.ax_values.specs.Words.{rises};
ghost use Rattle.ax_tokens.specs.Plain.{is_canonical_plain};
ghost use Rattle.ax_tokens.specs.Tokens.{depth, IsKept};
ghost use Rattle.ax_tokens.specs.Nodes.{token_of};
ghost use Rattle.ax_tokens.specs.TokenText.{gaps_text, plain_text, token_text, digits_at, after_byte, gaps_at, plain_at, token_at, half_at, halves_at, replay_at, max_depth, token_in};

use crate::{Half, Plain, Token};
use ax_values::{ListOf, NoMemory, cut_at, read_u32, undo_on_error, write_u32};
use std::alloc::Global;

impl Token {
    /// The token that the text is: plain as `next` or `next[gap,..]`, merged as `(lower|upper)`, a replay as
    /// `{at_reset>current}`, with halves nested at most 16 deep. None comes exactly outside this.
    pub fn read(alloc: Global, text: &[u8]) -> Result<Option<Token>, NoMemory>
        ensures value { IfOk result (λ read. option_map (λ token. token_of token) read ≡ token_in text.now) }
        ensures written { IfOk result (λ read. IfSome read (λ token. token_text (token_of token) ≡ text.now)) }
        ensures deep { IfOk result (λ read. IfSome read (λ token. depth (token_of token) ≤ max_depth)) }
        ensures kept { IfOk result (λ read. IfSome read (λ token. IsKept (token_of token))) }
    {
        match token_at(alloc, 16, text)? {
            Some((token, [])) => {
                token.facts();
                Ok(Some(token))
            }
            _ => Ok(None),
        }
    }

    /// Adds the token's text. Where memory is wanting, nothing is added.
    pub fn write(&self, out: &mut Vec<u8>) -> Result<(), NoMemory>
        requires { depth (token_of self.now) ≤ max_depth }
        ensures ok { OnOk result (out.new.items ≡ out.old.items ++ token_text (token_of self.now)) }
        ensures err { OnErr result (out.new.items ≡ out.old.items) }
        ensures again { IsReadBack token_in (token_text (token_of self.now)) (token_of self.now) }
    {
        self.facts();
        let start = out.len();
        let written = self.write_parts(out);
        undo_on_error(out, start, written)
    }

    fn write_parts(&self, out: &mut Vec<u8>) -> Result<(), NoMemory>
        ensures ok { OnOk result (out.new.items ≡ out.old.items ++ token_text (token_of self.now)) }
        ensures front { OnErr result (take (length out.old.items) out.new.items ≡ out.old.items) }
    {
        match self {
            Token::Plain(plain) => write_plain(plain, out),
            Token::Merged(lower, upper) => {
                out.push(b'(')?;
                lower.get().write_parts(out)?;
                out.push(b'|')?;
                upper.get().write_parts(out)?;
                out.push(b')')?;
                Ok(())
            }
            Token::Replay { at_reset, current } => {
                out.push(b'{')?;
                write_plain(at_reset, out)?;
                out.push(b'>')?;
                write_plain(current, out)?;
                out.push(b'}')?;
                Ok(())
            }
        }
    }
}

fn write_plain(plain: &Plain, out: &mut Vec<u8>) -> Result<(), NoMemory>
    ensures ok { OnOk result (out.new.items ≡ out.old.items ++ plain_text plain.now) }
    ensures front { OnErr result (take (length out.old.items) out.new.items ≡ out.old.items) }
{
    write_u32(plain.next(), out)?;
    write_gaps(plain.gaps(), out)
}

fn write_gaps(gaps: &[u32], out: &mut Vec<u8>) -> Result<(), NoMemory>
    ensures ok { OnOk result (out.new.items ≡ out.old.items ++ gaps_text gaps.now) }
    ensures front { OnErr result (take (length out.old.items) out.new.items ≡ out.old.items) }
{
    match gaps {
        [] => Ok(()),
        [first, rest @ ..] => {
            out.push(b'[')?;
            write_u32(*first, out)?;
            write_led(rest, out)?;
            out.push(b']')?;
            Ok(())
        }
    }
}

fn write_led(gaps: &[u32], out: &mut Vec<u8>) -> Result<(), NoMemory>
    ensures ok { OnOk result (out.new.items ≡ out.old.items ++ comma_led (map decimal gaps.now)) }
    ensures front { OnErr result (take (length out.old.items) out.new.items ≡ out.old.items) }
{
    for &gap in gaps {
        out.push(b',')?;
        write_u32(gap, out)?;
    }
    Ok(())
}

/// The token at the front of the text, with at most `room` halves within one another, and what follows it.
#[cycle(read)]
fn token_at(alloc: Global, room: u32, text: &[u8]) -> Result<Option<(Token, &[u8])>, NoMemory>
    ensures { IfOk result (λ read. option_map (λ t. record { value = token_of t.0; rest = t.1.now }) read ≡ token_at room text.now) }
{
    match text {
        [] => Ok(None),
        [b'(', rest @ ..] => halves_at(alloc, room, rest),
        [b'{', rest @ ..] => replay_at(alloc, rest),
        [_, ..] => match plain_at(alloc, text)? {
            Some((plain, rest)) => Ok(Some((Token::Plain(plain), rest))),
            None => Ok(None),
        },
    }
}

#[cycle(read)]
fn half_at(alloc: Global, room: u32, text: &[u8]) -> Result<Option<(Token, &[u8])>, NoMemory>
    ensures { IfOk result (λ read. option_map (λ t. record { value = token_of t.0; rest = t.1.now }) read ≡ half_at room text.now) }
{
    if room == 0 {
        return Ok(None);
    }
    token_at(alloc, room - 1, text)
}

#[cycle(read)]
fn halves_at(alloc: Global, room: u32, text: &[u8]) -> Result<Option<(Token, &[u8])>, NoMemory>
    ensures { IfOk result (λ read. option_map (λ t. record { value = token_of t.0; rest = t.1.now }) read ≡ halves_at (λ half. half_at room half) text.now) }
{
    let Some((lower, rest)) = half_at(alloc, room, text)? else {
        return Ok(None);
    };
    let Some(rest) = after_byte(b'|', rest) else {
        return Ok(None);
    };
    let Some((upper, rest)) = half_at(alloc, room, rest)? else {
        return Ok(None);
    };
    let Some(rest) = after_byte(b')', rest) else {
        return Ok(None);
    };
    let token = Token::Merged(Half::of(alloc, lower)?, Half::of(alloc, upper)?);
    Ok(Some((token, rest)))
}

fn replay_at(alloc: Global, text: &[u8]) -> Result<Option<(Token, &[u8])>, NoMemory>
    ensures { IfOk result (λ read. option_map (λ t. record { value = token_of t.0; rest = t.1.now }) read ≡ replay_at text.now) }
{
    let Some((at_reset, rest)) = plain_at(alloc, text)? else {
        return Ok(None);
    };
    let Some(rest) = after_byte(b'>', rest) else {
        return Ok(None);
    };
    let Some((current, rest)) = plain_at(alloc, rest)? else {
        return Ok(None);
    };
    let Some(rest) = after_byte(b'}', rest) else {
        return Ok(None);
    };
    Ok(Some((Token::Replay { at_reset, current }, rest)))
}

fn plain_at(alloc: Global, text: &[u8]) -> Result<Option<(Plain, &[u8])>, NoMemory>
    ensures { IfOk result (λ read. option_map (λ t. record { value = t.0; rest = t.1.now }) read ≡ plain_at text.now) }
{
    let (digits, rest) = digits_at(text);
    let Some(next) = read_u32(digits) else {
        return Ok(None);
    };
    let Some((gaps, rest)) = gaps_at(alloc, rest)? else {
        return Ok(None);
    };
    if is_canonical(next, &gaps) {
        Ok(Some((Plain::of(next, ListOf::of(gaps)), rest)))
    } else {
        Ok(None)
    }
}

fn is_canonical(next: u32, gaps: &[u32]) -> bool
    ensures { result ≡ is_canonical_plain (record { next = next; gaps = gaps.now }) }
{
    are_rising(gaps) && are_within(next, gaps)
}

fn are_rising(gaps: &[u32]) -> bool
    ensures { result ≡ rises nat_lt gaps.now }
{
    gaps.is_sorted_by(|gap, next| gap < next)
}

fn are_within(next: u32, gaps: &[u32]) -> bool
    ensures { result ≡ list_all (λ gap. nat_lt (suc gap) next) gaps.now }
{
    gaps.iter().all(|&gap| gap < next.saturating_sub(1))
}

fn gaps_at(alloc: Global, text: &[u8]) -> Result<Option<(Vec<u32>, &[u8])>, NoMemory>
    ensures { IfOk result (λ read. option_map (λ t. record { value = t.0.items; rest = t.1.now }) read ≡ gaps_at text.now) }
{
    let [b'[', rest @ ..] = text else {
        return Ok(Some((Vec::new(alloc), text)));
    };
    let Some((inner, rest)) = cut_at(b']', rest) else {
        return Ok(None);
    };
    match read_gaps(alloc, inner)? {
        Some(gaps) => Ok(Some((gaps, rest))),
        None => Ok(None),
    }
}

fn read_gaps(alloc: Global, text: &[u8]) -> Result<Option<Vec<u32>>, NoMemory>
    ensures { IfOk result (λ read. option_map (λ gaps. gaps.items) read ≡ each_in u32_in (pieces 44 text.now)) }
{
    let mut gaps = Vec::new(alloc);
    let mut rest = text;
    while let Some((first, after)) = cut_at(b',', rest) {
        let Some(gap) = read_u32(first) else {
            return Ok(None);
        };
        gaps.push(gap)?;
        rest = after;
    }
    let Some(gap) = read_u32(rest) else {
        return Ok(None);
    };
    gaps.push(gap)?;
    Ok(Some(gaps))
}

/// The digits at the front, and what stands after them.
fn digits_at(text: &[u8]) -> (&[u8], &[u8])
    ensures { record { before = result.0.now; after = result.1.now } ≡ digits_at text.now }
{
    for i in 0..text.len() {
        if !text[i].is_ascii_digit() {
            return (&text[..i], &text[i..]);
        }
    }
    (text, &[])
}

/// What follows a byte that must come.
fn after_byte(byte: u8, text: &[u8]) -> Option<&[u8]>
    ensures { option_map (λ t. t.now) result ≡ after_byte byte text.now }
{
    match text {
        [first, rest @ ..] if *first == byte => Some(rest),
        _ => None,
    }
}
