//! Handles made, found and released, in the orders that matter.

use omi_handle::{Handles, Held, Kind};
use std::test::Fail;

/// What a handle to some record stands for.
fn held(kind: Kind, addr: u64) -> Held {
    Held {
        kind,
        addr,
        life: 1,
    }
}

#[test]
fn a_pair_is_found_until_its_release(rt: HostRuntime) -> Result<(), Fail> {
    let mut handles = Handles::new(rt.alloc());
    let task = held(Kind::Task, 0x109b0);
    let (key, serial) = handles.make(task)?;
    assert_eq!(rt; serial, 0);
    assert_eq!(rt; handles.find(key, serial), Some(task));
    assert!(rt; handles.release(key, serial));
    assert_eq!(rt; handles.find(key, serial), None);
    let again = handles.release(key, serial);
    assert!(rt; !again);
    assert_eq!(rt; handles.made(), 1);
    Ok(())
}

#[test]
fn a_key_that_is_used_again_revives_no_pair(rt: HostRuntime) -> Result<(), Fail> {
    let mut handles = Handles::new(rt.alloc());
    let thread = held(Kind::Thread, 0x10380);
    let region = held(Kind::Region, 0x103b0);
    let (old_key, old_serial) = handles.make(thread)?;
    assert!(rt; handles.release(old_key, old_serial));
    let (key, serial) = handles.make(region)?;
    assert_eq!(rt; key, old_key);
    assert_eq!(rt; serial, 1);
    assert_eq!(rt; handles.find(old_key, old_serial), None);
    let revived = handles.release(old_key, old_serial);
    assert!(rt; !revived);
    assert_eq!(rt; handles.find(key, serial), Some(region));
    Ok(())
}

#[test]
fn room_for_three(rt: HostRuntime) -> Result<(), Fail> {
    let mut handles = Handles::new(rt.alloc());
    handles.reserve(3)?;
    let task = held(Kind::Task, 0x109b0);
    let first = handles.make(task).ok().unwrap();
    let second = handles.make(task).ok().unwrap();
    let third = handles.make(task).ok().unwrap();
    assert_eq!(rt; (first.1, second.1, third.1), (0, 1, 2));
    assert_eq!(rt; handles.find(second.0, second.1), Some(task));
    assert_eq!(rt; handles.made(), 3);
    Ok(())
}

#[test]
fn without_memory_no_pair_is_made(rt: HostRuntime) -> Result<(), Fail> {
    let mut handles = Handles::without_memory();
    let task = held(Kind::Task, 0x109b0);
    assert!(rt; handles.make(task).is_err());
    assert!(rt; handles.reserve(1).is_err());
    assert_eq!(rt; handles.find(0, 0), None);
    let released = handles.release(0, 0);
    assert!(rt; !released);
    assert_eq!(rt; handles.made(), 0);
    Ok(())
}
