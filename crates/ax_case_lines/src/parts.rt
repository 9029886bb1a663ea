ghost use Rattle.std.specs.Prelude.{◌≡◌, ◌++◌, None, Some, IfOk, IfErr, OnOk, if◌then◌else◌};
ghost use Rattle.ax_values.specs.Grammar.{name_in, number_in, u32_in, int_in};
ghost use Rattle.ax_values.specs.Readers.{item_in, payload_of};
ghost use Rattle.ax_case_lines.specs.Parted.{ints_text, whole_item_in};
ghost use Rattle.ax_case_lines.specs.declared.fault.CaseFault.TheVariants.{Line};

use crate::{CaseFault, two_words};
use ax_values::{
    Item, ItemName, Name, NoMemory, Payload, read_int, read_number, read_u32, write_int,
};
use std::alloc::Global;

/// Adds a word, or another one.
pub fn write_either(
    holds: bool,
    word: &[u8],
    other: &[u8],
    out: &mut Vec<u8>,
) -> Result<(), CaseFault>
    ensures { OnOk result (out.new.items ≡ out.old.items ++ (if holds then word.now else other.now)) }
{
    out.extend_from_slice(if holds { word } else { other })?;
    Ok(())
}

/// Adds the numbers, each after a space. Where memory is wanting, what was added before that stays.
pub fn write_ints(numbers: &[i64], out: &mut Vec<u8>) -> Result<(), NoMemory>
    ensures { OnOk result (out.new.items ≡ out.old.items ++ ints_text numbers.now) }
{
    for number in numbers {
        out.push(b' ')?;
        write_int(*number, out)?;
    }
    Ok(())
}

/// The name that a text is.
pub fn name_of(alloc: Global, text: &[u8]) -> Result<Name, CaseFault>
    ensures ok { IfOk result (λ read. name_in text.now ≡ Some read) }
    ensures err { IfErr result (λ fault. fault ≡ Line → name_in text.now ≡ None) }
{
    Name::read(alloc, text)?.ok_or(CaseFault::Line)
}

/// The payload that a text is.
pub fn payload_of(alloc: Global, text: &[u8]) -> Result<Payload, CaseFault>
    ensures ok { IfOk result (λ read. payload_of text.now ≡ Some read) }
    ensures err { IfErr result (λ fault. fault ≡ Line → payload_of text.now ≡ None) }
{
    Payload::read(alloc, text)?.ok_or(CaseFault::Line)
}

/// The item that a text names.
pub fn item_of(alloc: Global, text: &[u8]) -> Result<ItemName, CaseFault>
    ensures ok { IfOk result (λ read. item_in text.now ≡ Some read) }
    ensures err { IfErr result (λ fault. fault ≡ Line → item_in text.now ≡ None) }
{
    ItemName::read(alloc, text)?.ok_or(CaseFault::Line)
}

/// The item `NAME KIND PAYLOAD`, in which the payload may have spaces, or be absent.
pub fn whole_item_of(alloc: Global, text: &[u8]) -> Result<Item, CaseFault>
    ensures ok { IfOk result (λ read. whole_item_in text.now ≡ Some read) }
    ensures err { IfErr result (λ fault. fault ≡ Line → whole_item_in text.now ≡ None) }
{
    let (name, kind, payload) = two_words(text);
    let name = item_of(alloc, name)?;
    let kind = name_of(alloc, kind)?;
    let payload = payload_of(alloc, payload)?;
    Ok(Item {
        name,
        kind,
        payload,
    })
}

/// The number of 32 bits that a text is.
pub fn u32_of(text: &[u8]) -> Result<u32, CaseFault>
    ensures ok { IfOk result (λ read. u32_in text.now ≡ Some read) }
    ensures err { IfErr result (λ fault. fault ≡ Line → u32_in text.now ≡ None) }
{
    read_u32(text).ok_or(CaseFault::Line)
}

/// The number of 64 bits that a text is, without sign.
pub fn u64_of(text: &[u8]) -> Result<u64, CaseFault>
    ensures ok { IfOk result (λ read. number_in text.now ≡ Some read) }
    ensures err { IfErr result (λ fault. fault ≡ Line → number_in text.now ≡ None) }
{
    read_number(text).ok_or(CaseFault::Line)
}

/// The number of 64 bits that a text is, with sign.
pub fn int_of(text: &[u8]) -> Result<i64, CaseFault>
    ensures ok { IfOk result (λ read. int_in text.now ≡ Some read) }
    ensures err { IfErr result (λ fault. fault ≡ Line → int_in text.now ≡ None) }
{
    read_int(text).ok_or(CaseFault::Line)
}
