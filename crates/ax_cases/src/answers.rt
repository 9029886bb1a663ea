use ax_case_lines::{CaseFault, write_either};

/// Adds `none`.
pub(crate) fn write_none(out: &mut Vec<u8>) -> Result<(), CaseFault> {
    out.extend_from_slice(b"none")?;
    Ok(())
}

/// Adds `yes` or `no`.
pub(crate) fn write_whether(holds: bool, out: &mut Vec<u8>) -> Result<(), CaseFault> {
    write_either(holds, b"yes", b"no", out)
}
