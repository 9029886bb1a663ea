use crate::Sheet;
use std::test::Fail;

#[test]
fn cards_is_read_again(rt: HostRuntime) -> Result<(), Fail> {
    let alloc = rt.alloc();
    let text = Sheet::cards(alloc)?.text(alloc)?;
    let cards = Sheet::read(alloc, text.parts())?;
    assert_eq!(rt; cards.commands().len(), 5);
    assert_eq!(rt; cards.projections().len(), 2);
    assert_eq!(rt; cards.sagas().len(), 1);
    Ok(())
}
