//! Examples of operations, and the edges of an image.

use omi_word::{Image, Op};
use std::test::Fail;

#[test]
fn operations_on_one_word(rt: HostRuntime) -> Result<(), Fail> {
    let mut image = Image::zeroed(rt.alloc(), 3)?;
    assert_eq!(rt; image.len(), 3);
    let at = 0x10008;
    let table = [
        (Op::Store { at, new: 5 }, 0, 5),
        (Op::Load { at }, 5, 5),
        (Op::Cas { at, old: 4, new: 9 }, 5, 5),
        (Op::Cas { at, old: 5, new: 9 }, 5, 9),
        (Op::Sub { at, by: 10 }, 9, u64::MAX),
        (Op::Add { at, by: 3 }, u64::MAX, 2),
    ];
    for (op, before, after) in table {
        let found = image.get(at).is_some();
        assert!(rt; found);
        assert_eq!(rt; image.len(), 3);
        assert_eq!(rt; apply(&mut image, op), Some(before));
        assert_eq!(rt; image.get(at), Some(after));
    }
    assert_eq!(rt; image.get(0x10000), Some(0));
    assert_eq!(rt; image.get(0x10010), Some(0));
    Ok(())
}

/// The operation where its address lies in the image.
fn apply(image: &mut Image, op: Op) -> Option<u64> {
    image.get(op.address())?;
    Some(image.apply(op).old)
}

#[test]
fn words_past_the_ends_are_not_there(rt: HostRuntime) -> Result<(), Fail> {
    let image = Image::zeroed(rt.alloc(), 2)?;
    for address in [0, 0xfff8, 0x10001, 0x10004, 0x10010, u64::MAX] {
        assert_eq!(rt; image.get(address), None);
    }
    assert_eq!(rt; Image::zeroed(rt.alloc(), 0)?.len(), 0);
    Ok(())
}
