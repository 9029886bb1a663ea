ghost use Rattle.std.specs.Prelude.{◌≡◌, ◌-◌, ◌^◌, ◌++◌, nat_lt, nat_le, Some, IsTrue, OnOk, OnErr, IfSome};
ghost use Rattle.std.specs.List.{list_all};
ghost use Rattle.std.specs.Fmt.{decimal, signed_decimal};
ghost use Rattle.ax_values.specs.Grammar.{IsReadBack, is_digit, is_numeral, digit_step, digits_value, when, number_to, number_in, u32_in, int_in, negated};

use crate::NoMemory;
use itoa::Buffer;

/// The number of 64 bits that the text is: `0`, or digits of which the first is not `0`. None comes exactly outside this.
pub fn read_number(text: &[u8]) -> Option<u64>
    ensures value { result ≡ number_in text.now }
    ensures written { IfSome result (λ number. decimal number ≡ text.now) }
{
    if is_numeral(text) {
        value_of(text)
    } else {
        None
    }
}

/// The number of at most `top` that the text is. None comes exactly outside this.
pub fn read_number_to(top: u64, text: &[u8]) -> Option<u64>
    ensures value { result ≡ number_to top text.now }
    ensures written { IfSome result (λ number. decimal number ≡ text.now) }
{
    let value = read_number(text)?;
    if value <= top { Some(value) } else { None }
}

/// The number of 32 bits that the text is. None comes exactly outside this.
pub fn read_u32(text: &[u8]) -> Option<u32>
    ensures value { result ≡ u32_in text.now }
    ensures written { IfSome result (λ number. decimal number ≡ text.now) }
{
    let number = read_number_to((1 << 32) - 1, text)?;
    Some(number as u32)
}

/// The whole number of 64 bits with sign that the text is: a number, or `-` and a number other than 0.
/// None comes exactly outside this.
pub fn read_int(text: &[u8]) -> Option<i64>
    ensures value { result ≡ int_in text.now }
    ensures written { IfSome result (λ int. signed_decimal int ≡ text.now) }
{
    match text {
        [] => None,
        [b'-', digits @ ..] => negated(read_number_to(1 << 63, digits)?),
        [_, ..] => {
            let number = read_number_to((1 << 63) - 1, text)?;
            Some(number as i64)
        }
    }
}

/// Adds the number's digits. Where memory is wanting, nothing is added.
pub fn write_number(number: u64, out: &mut Vec<u8>) -> Result<(), NoMemory>
    ensures ok { OnOk result (out.new.items ≡ out.old.items ++ decimal number) }
    ensures err { OnErr result (out.new.items ≡ out.old.items) }
    ensures again { IsReadBack number_in (decimal number) number }
{
    let mut digits = Buffer::new();
    out.extend_from_slice(digits.format(number).as_bytes())?;
    Ok(())
}

/// Adds the digits of a number of 32 bits. Where memory is wanting, nothing is added.
#[tactic(auto, unfolding(crate::specs::Grammar::IsReadBack))]
pub fn write_u32(number: u32, out: &mut Vec<u8>) -> Result<(), NoMemory>
    ensures ok { OnOk result (out.new.items ≡ out.old.items ++ decimal number) }
    ensures err { OnErr result (out.new.items ≡ out.old.items) }
    ensures again { IsReadBack u32_in (decimal number) number }
{
    write_number(u64::from(number), out)
}

/// Adds the int's digits, after a `-` where it is below 0. Where memory is wanting, nothing is added.
pub fn write_int(int: i64, out: &mut Vec<u8>) -> Result<(), NoMemory>
    ensures ok { OnOk result (out.new.items ≡ out.old.items ++ signed_decimal int) }
    ensures err { OnErr result (out.new.items ≡ out.old.items) }
    ensures again { IsReadBack int_in (signed_decimal int) int }
{
    let mut digits = Buffer::new();
    out.extend_from_slice(digits.format(int).as_bytes())?;
    Ok(())
}

fn negated(number: u64) -> Option<i64>
    requires { IsTrue (nat_le number (2 ^ 63)) }
    ensures { result ≡ negated number }
{
    if number == 0 {
        return None;
    }
    0i64.checked_sub_unsigned(number)
}

fn is_digit(byte: u8) -> bool
    ensures { result ≡ is_digit byte }
{
    byte.is_ascii_digit()
}

fn are_digits(text: &[u8]) -> bool
    ensures { result ≡ list_all is_digit text.now }
{
    text.iter().all(|&byte| is_digit(byte))
}

fn is_numeral(text: &[u8]) -> bool
    ensures { result ≡ is_numeral text.now }
{
    match text {
        [] => false,
        [byte] => is_digit(*byte),
        [byte, ..] => *byte > b'0' && are_digits(text),
    }
}

fn with_digit(value: u64, byte: u8) -> Option<u64>
    ensures { result ≡ when (nat_lt (digit_step value byte) (2 ^ 64)) (digit_step value byte) }
{
    value
        .checked_mul(10)?
        .checked_add(u64::from(byte.saturating_sub(48)))
}

fn value_of(text: &[u8]) -> Option<u64>
    ensures { result ≡ when (nat_lt (digits_value text.now) (2 ^ 64)) (digits_value text.now) }
{
    let mut value: u64 = 0;
    for &byte in text {
        match with_digit(value, byte) {
            Some(next) => value = next,
            None => return None,
        }
    }
    Some(value)
}
