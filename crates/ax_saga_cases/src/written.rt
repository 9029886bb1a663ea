use ax_case_lines::{CaseFault, write_either};
use ax_rules::{Initial, Row};
use ax_sagas::{Link, Received, Saga, Sending};
use ax_values::{NoMemory, write_int};

/// Adds the saga, and, each after a `;`, the commands that it sends.
pub(crate) fn write_received(
    fields: &[Initial],
    received: &Received,
    out: &mut Vec<u8>,
) -> Result<(), CaseFault> {
    write_saga(fields, &received.saga, out)?;
    for sending in received.sends.parts() {
        write_sending(sending, out)?;
    }
    Ok(())
}

/// Adds `ITEM live FIELDS with LINKS`, or `ended` in the place of `live`.
fn write_saga(fields: &[Initial], saga: &Saga, out: &mut Vec<u8>) -> Result<(), CaseFault> {
    saga.name.write(out)?;
    write_either(saga.live, b" live", b" ended", out)?;
    write_fields(fields, &saga.row, out)?;
    write_links(saga.links.parts(), out)?;
    Ok(())
}

fn write_fields(fields: &[Initial], row: &Row, out: &mut Vec<u8>) -> Result<(), NoMemory> {
    for (field, value) in fields.iter().zip(row.parts()) {
        out.push(b' ')?;
        field.name.write(out)?;
        out.push(b'=')?;
        write_int(*value, out)?;
    }
    Ok(())
}

fn write_links(links: &[Link], out: &mut Vec<u8>) -> Result<(), NoMemory> {
    out.extend_from_slice(b" with")?;
    for link in links {
        out.push(b' ')?;
        out.extend_from_slice(link.key.parts())?;
        out.push(b'=')?;
        link.value.write(out)?;
    }
    Ok(())
}

/// Adds `AGGREGATE COMMAND ARGS`; without arguments the space before them is absent, too.
fn write_sending(sending: &Sending, out: &mut Vec<u8>) -> Result<(), NoMemory> {
    out.extend_from_slice(b"; ")?;
    sending.aggregate.write(out)?;
    out.push(b' ')?;
    sending.command.write(out)?;
    if sending.args.parts().is_empty() {
        return Ok(());
    }
    out.push(b' ')?;
    sending.args.write(out)
}
