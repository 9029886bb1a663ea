use crate::{Status, run_script};
use ax_ports::{MemoryKeeper, MemorySink, MemorySource};
use std::test::Fail;

/// A source that fails at its second read ends the call, and nothing is printed.
#[test]
fn second_read_fails(rt: HostRuntime) -> Result<(), Fail> {
    let alloc = rt.alloc();
    let mut words = Vec::new(alloc);
    words.push(String::from_str(alloc, "run")?)?;
    let script = b"axon 1\nsheet cards\norders\n".to_vec(alloc)?;
    let mut source = MemorySource::new(script, [1u32].to_vec(alloc)?);
    let mut sink = MemorySink::new(alloc, Vec::new(alloc));
    let keeper = MemoryKeeper::new(Vec::new(alloc), Vec::new(alloc));
    let (status, _) = run_script(alloc, &words, &mut source, &mut sink, keeper);
    assert_eq!(rt; status, Status::ReadFault);
    assert_eq!(rt; sink.bytes().len(), 0);
    Ok(())
}
