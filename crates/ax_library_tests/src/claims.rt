use ax_case_lines::{CaseFault, name_of};
use ax_claims::{ClaimFault, Rows};
use ax_segments::root;
use ax_values::Duplicate;
use std::alloc::Global;
use std::test::Fail;

/// Rows with fences from 1 on.
fn started(alloc: Global, segments: u32) -> Result<Rows, CaseFault> {
    if !segments.is_power_of_two() || segments > 65_536 {
        return Err(CaseFault::Line);
    }
    Ok(Rows::start(alloc, segments, 1)?)
}

fn is_done(changed: Result<(), ClaimFault>) -> bool {
    match changed {
        Ok(()) => true,
        Err(fault) => {
            drop(fault);
            false
        }
    }
}

/// Whether a row is split, and the rows are copied.
fn is_split(alloc: Global) -> Result<bool, CaseFault> {
    let mut rows = started(alloc, 1)?;
    let done = is_done(rows.split(alloc, root(), Some(1), 2));
    let copied = rows.copy(alloc)?;
    Ok(done && copied.rows().len() == 2)
}

/// Whether two rows are merged.
fn is_merged(alloc: Global) -> Result<bool, CaseFault> {
    let mut rows = started(alloc, 2)?;
    let actor = name_of(alloc, b"w1")?;
    let Ok((lower, _)) = root().split() else {
        return Err(CaseFault::Line);
    };
    Ok(is_done(rows.merge(alloc, lower, Some(1), &actor, 0, 3)))
}

/// Whether a row is reset.
fn is_reset(alloc: Global) -> Result<bool, CaseFault> {
    let mut rows = started(alloc, 1)?;
    let actor = name_of(alloc, b"w1")?;
    if rows.rows().len() > 1 {
        return Ok(false);
    }
    Ok(is_done(rows.reset_all(alloc, &actor, 5, 2)))
}

#[test]
fn rows_are_split_merged_and_reset(rt: HostRuntime) -> Result<(), Fail> {
    let alloc = rt.alloc();
    assert!(rt; is_split(alloc)?);
    assert!(rt; is_merged(alloc)?);
    assert!(rt; is_reset(alloc)?);
    Ok(())
}
