//! A list that is changed.
use rail_base::ItemList;
use std::test::Fail;

#[test]
fn lists_are_changed(rt: HostRuntime) -> Result<(), Fail> {
    let mut list = ItemList::new(rt.alloc());
    assert!(rt; list.items().len() == 0);
    list.push(7)?;
    list.push(7)?;
    list.set(1, 9);
    assert!(rt; list.items() == [7, 9].as_slice());
    let mut copy = list.copy(rt.alloc())?;
    copy.set(0, 8);
    assert!(rt; copy.items() == [8, 9].as_slice());
    assert!(rt; list.items() == [7, 9].as_slice());
    Ok(())
}
