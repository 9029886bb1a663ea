ghost use Rattle.std.specs.Prelude.{◌≡◌, option_map, IfSome, IsTrue};
ghost use Rattle.std.specs.Fmt.{signed_decimal};
ghost use Rattle.ax_values.specs.Grammar.{is_content};
ghost use Rattle.ax_sagas.specs.Sagas.{source_key, source_value};

use ax_rules::Source;
use ax_values::{Item, Value};
use itoa::Buffer;

/// The key under which a source's value is associated.
pub(crate) fn key_of(source: &Source) -> &[u8]
    ensures { result.now ≡ source_key source.now }
{
    match source {
        Source::Aggregate => b"@",
        Source::Property(name) => name.parts(),
    }
}

/// What an item gives for a source: an identifier or a text as it is, and an int as its decimal text, which is written into
/// `digits`. None comes exactly where the item has no such field.
pub(crate) fn value_of<'a>(
    source: &Source,
    item: &'a Item,
    digits: &'a mut Buffer,
) -> Option<&'a [u8]>
    ensures value { option_map (λ value. value.now) result ≡ source_value source.now item.now }
    ensures content { IfSome result (λ value. IsTrue (is_content value.now)) }
{
    match source {
        Source::Aggregate => Some(item.name.aggregate.parts()),
        Source::Property(name) => match item.payload.get(name)? {
            Value::Int(int) => Some(decimal_of(*int, digits)),
            Value::Text(text) => Some(text.parts()),
        },
    }
}

/// The decimal text of an int, which is written into `digits`.
fn decimal_of(int: i64, digits: &mut Buffer) -> &[u8]
    ensures value { result.now ≡ signed_decimal int }
    ensures content { IsTrue (is_content result.now) }
{
    digits.format(int).as_bytes()
}
