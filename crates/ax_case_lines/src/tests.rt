use crate::{first_word, u32_of};
use std::test::Fail;

/// The first word ends before the first space, and what follows it begins after that space.
#[test]
fn first_word_ends_at_a_space(rt: HostRuntime) -> Result<(), Fail> {
    let (word, rest) = first_word(b"take 12");
    assert_eq!(rt; word, b"take".as_slice());
    assert!(rt; u32_of(rest) == Ok(12));
    Ok(())
}
