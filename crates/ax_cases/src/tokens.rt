use crate::answers::{write_none, write_whether};
use crate::segments::segment_of;
use ax_case_lines::{CaseFault, CaseLine, case_named, name_of, two_words, u32_of};
use ax_segments::Segment;
use ax_tokens::Token;
use ax_values::{Cell, Duplicate, Payload, Record, Same, line_words};
use std::alloc::Global;

/// What is done with a token, or asked of it.
#[derive(Clone, Copy)]
pub(crate) enum TokenCase {
    Read,
    Start,
    Is,
    Advance,
    Collapse,
    Reset,
    Merge,
    Lower,
    Upper,
    Union,
    Copy,
    At,
    Covers,
    Replays,
}

impl TokenCase {
    pub(crate) fn named(word: &[u8]) -> Option<TokenCase> {
        case_named!(word;
            b"token" => TokenCase::Read,
            b"start" => TokenCase::Start,
            b"is" => TokenCase::Is,
            b"advance" => TokenCase::Advance,
            b"collapse" => TokenCase::Collapse,
            b"reset" => TokenCase::Reset,
            b"merge" => TokenCase::Merge,
            b"lower" => TokenCase::Lower,
            b"upper" => TokenCase::Upper,
            b"unite" => TokenCase::Union,
            b"copy" => TokenCase::Copy,
            b"at" => TokenCase::At,
            b"covers" => TokenCase::Covers,
            b"replays" => TokenCase::Replays
        )
    }
}

pub(crate) fn perform(
    token: &mut Token,
    case: TokenCase,
    line: &mut CaseLine,
) -> Result<(), CaseFault> {
    let (alloc, text, out) = (line.alloc, line.text.as_slice(), &mut line.out);
    match case {
        TokenCase::Read => read(alloc, token, text, out),
        TokenCase::Is => write_whether(is_token(alloc, token, text)?, out),
        TokenCase::At => write_whether(is_served_by(alloc, token, text)?, out),
        TokenCase::Covers => {
            let (segment, hash, index) = place_of(text)?;
            write_whether(token.covers(segment, hash, index), out)
        }
        TokenCase::Replays => {
            let (segment, hash, index) = place_of(text)?;
            write_whether(token.replayed(segment, hash, index), out)
        }
        change => {
            *token = changed(alloc, token, change, text)?;
            Ok(())
        }
    }
}

/// The token that a text is. It stays as it was where the text is none.
fn read(alloc: Global, token: &mut Token, text: &[u8], out: &mut Vec<u8>) -> Result<(), CaseFault> {
    match Token::read(alloc, text)? {
        Some(read) => {
            read.write(out)?;
            *token = read;
            Ok(())
        }
        None => write_none(out),
    }
}

fn token_of(alloc: Global, text: &[u8]) -> Result<Token, CaseFault> {
    Token::read(alloc, text)?.ok_or(CaseFault::Line)
}

fn is_token(alloc: Global, token: &Token, text: &[u8]) -> Result<bool, CaseFault> {
    let other = token_of(alloc, text)?;
    let same = token.same(&other);
    drop(other);
    Ok(same)
}

/// What a change makes of the token.
fn changed(
    alloc: Global,
    token: &Token,
    change: TokenCase,
    rest: &[u8],
) -> Result<Token, CaseFault> {
    match change {
        TokenCase::Start => Ok(Token::start(alloc)),
        TokenCase::Advance => advanced(alloc, token, rest),
        TokenCase::Collapse => Ok(token.copy(alloc)?.collapse(alloc)?),
        TokenCase::Reset => Ok(token.reset(alloc)?),
        TokenCase::Merge => merged(alloc, token, rest),
        TokenCase::Lower => {
            let (lower, _) = token.split_token(alloc)?;
            Ok(lower)
        }
        TokenCase::Upper => {
            let (_, upper) = token.split_token(alloc)?;
            Ok(upper)
        }
        TokenCase::Union => united(alloc, token, rest),
        _ => Ok(token.copy(alloc)?),
    }
}

/// The token after the cells of these words: `void`, `reserved` and `event`.
fn advanced(alloc: Global, token: &Token, text: &[u8]) -> Result<Token, CaseFault> {
    let cells = cells_of(alloc, text)?;
    advanced_over(alloc, token, &cells)
}

fn advanced_over(alloc: Global, token: &Token, cells: &[Cell]) -> Result<Token, CaseFault> {
    if cells.len() > 16 {
        return Err(CaseFault::Line);
    }
    Ok(token.advance(alloc, cells, cells.len() as u32)?)
}

fn cells_of(alloc: Global, text: &[u8]) -> Result<Vec<Cell>, CaseFault> {
    let mut cells = Vec::new(alloc);
    for word in line_words(alloc, text)? {
        cells.push(cell_of(alloc, word)?)?;
    }
    Ok(cells)
}

fn cell_of(alloc: Global, word: &[u8]) -> Result<Cell, CaseFault> {
    if word == b"void".as_slice() {
        return Ok(Cell::Void);
    }
    if word == b"reserved".as_slice() {
        return Ok(Cell::Reserved {
            aggregate: name_of(alloc, b"card-1")?,
            first_seq: 0,
            actor: name_of(alloc, b"card-1")?,
            at: 0,
        });
    }
    if word != b"event".as_slice() {
        return Err(CaseFault::Line);
    }
    Ok(Cell::Event(Record {
        aggregate: name_of(alloc, b"card-1")?,
        seq: 0,
        kind: name_of(alloc, b"card-1")?,
        revision: 1,
        payload: Payload::of(Vec::new(alloc)),
    }))
}

fn merged(alloc: Global, lower: &Token, text: &[u8]) -> Result<Token, CaseFault> {
    let upper = token_of(alloc, text)?;
    Ok(Token::merge(alloc, lower.copy(alloc)?, upper)?)
}

/// The union of two plain tokens.
fn united(alloc: Global, token: &Token, text: &[u8]) -> Result<Token, CaseFault> {
    match (token, token_of(alloc, text)?) {
        (Token::Plain(one), Token::Plain(other)) => Ok(Token::Plain(one.union(alloc, &other)?)),
        _ => Err(CaseFault::Line),
    }
}

/// A segment, a hash and an index.
fn place_of(text: &[u8]) -> Result<(Segment, u32, u32), CaseFault> {
    let (segment, hash, index) = two_words(text);
    Ok((segment_of(segment)?, u32_of(hash)?, u32_of(index)?))
}

/// Whether the hash is served by the half of the text, in the token of a segment: `SEGMENT HASH TOKEN`.
fn is_served_by(alloc: Global, token: &Token, text: &[u8]) -> Result<bool, CaseFault> {
    let (segment, hash, half) = two_words(text);
    is_token(alloc, token.at(segment_of(segment)?, u32_of(hash)?), half)
}
