ghost use Rattle.std.specs.Prelude.{◌≡◌, ◌∷◌, ◌++◌, IfOk, OnOk};
ghost use Rattle.std.specs.Fmt.{signed_decimal};
ghost use Rattle.ax_values.specs.Words.{spaced};
ghost use Rattle.ax_report.specs.Reports.{field_words, line_of, processor_line};

use ax_projections::Positioned;
use ax_rules::Initial;
use ax_sheet::Processor;
use ax_values::{Line, Name, NoMemory, write_int, write_u32};
use std::alloc::Global;

/// Adds a space, and a field with its value.
fn write_field(name: &Name, value: i64, out: &mut Vec<u8>) -> Result<(), NoMemory>
    ensures { OnOk result (out.new.items ≡ out.old.items ++ 32 ∷ (name.now ++ 61 ∷ signed_decimal value)) }
{
    out.push(b' ')?;
    name.write(out)?;
    out.push(b'=')?;
    write_int(value, out)
}

/// Adds the fields with their values, a space in front of each.
fn write_fields(fields: &[Initial], row: &[i64], out: &mut Vec<u8>) -> Result<(), NoMemory>
    ensures { OnOk result (out.new.items ≡ out.old.items ++ spaced (field_words fields.now row.now)) }
{
    for (place, field) in fields.iter().enumerate() {
        let Some(value) = row.get(place) else {
            return Ok(());
        };
        write_field(&field.name, *value, out)?;
    }
    Ok(())
}

/// The line of a row: its aggregate, how many items it has taken, and its fields.
pub(crate) fn row_line(
    alloc: Global,
    fields: &[Initial],
    aggregate: &Name,
    value: &Positioned,
) -> Result<Line, NoMemory>
    ensures { IfOk result (λ line. line ≡ line_of fields.now (record { aggregate = aggregate.now; position = value.now.position; row = value.now.row })) }
{
    let mut out = Vec::with_capacity(alloc, 64)?;
    out.extend_from_slice(b"row ")?;
    aggregate.write(&mut out)?;
    out.extend_from_slice(b" items ")?;
    write_u32(value.position, &mut out)?;
    write_fields(fields, value.row.parts(), &mut out)?;
    Ok(Line::of(out))
}

/// The line above the rows of a processor.
pub(crate) fn processor_line(alloc: Global, processor: &Processor) -> Result<Line, NoMemory>
    ensures { IfOk result (λ line. line ≡ processor_line processor.now) }
{
    let mut out = Vec::new(alloc);
    out.extend_from_slice(b"processor ")?;
    processor.name.write(&mut out)?;
    Ok(Line::of(out))
}
