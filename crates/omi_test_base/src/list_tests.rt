//! Each call of a list once, with memory at hand.

use omi_list::{List, OutOfMemory};
use std::rt::HostRuntime;

#[test]
fn lists_hold_their_elements(rt: HostRuntime) -> Result<(), OutOfMemory> {
    let mut list = List::new(rt.alloc());
    list.push(1000u64)?;
    list.push(1001)?;
    assert_eq!(rt; list.len(), 2);
    assert_eq!(rt; *list.get(1), 1001);
    assert!(rt; list.find(2).is_none());
    assert_eq!(rt; list.exchange(0, 7), 1000);
    let mut copy = list.same(rt.alloc())?;
    assert_eq!(rt; copy.pop(), Some(1001));
    assert_eq!(rt; copy.as_slice().len(), 1);
    assert_eq!(rt; *list.get(0), 7);
    Ok(())
}
