//! Each call of files and of the output that fails in turn.

use crate::calls::call;
use omi_fixture_rows::A_TEAM_OF_TWO;
use omi_outside::{Call, Status};
use std::test::Fail;

/// A text is put in pieces of so many bytes.
const PIECE: usize = 4096;

/// A read of the script that fails, whose line can be put or not.
#[test]
fn each_read(rt: HostRuntime) -> Result<(), Fail> {
    let alloc = rt.alloc();
    for (kind, puts, put) in [
        (Call::Size, &[] as &[u64], "read fault s\n"),
        (Call::ReadAt, &[], "read fault s\n"),
        (Call::Size, &[1], ""),
        (Call::ReadAt, &[1], ""),
    ] {
        for words in [
            &["at", "5", "s"] as &[&str],
            &["when", "0", "idle", "5", "s"],
        ] {
            let failing = [(kind, 1)];
            let done = call(alloc, words, Some(A_TEAM_OF_TWO), &failing, puts)?;
            assert_eq!(rt; done.status, Status::ReadFault);
            assert_eq!(rt; done.out.bytes(), put.as_bytes());
            assert!(rt; done.holds("s", A_TEAM_OF_TWO.as_bytes()));
        }
    }
    Ok(())
}

/// Each piece of the text that can't be put, in turn: those before it stay. There are no more puts.
#[test]
fn each_put(rt: HostRuntime) -> Result<(), Fail> {
    let alloc = rt.alloc();
    let words = ["at", "0,1,2,3,4,5,6,7,8,9,10,11,12,13,14,1000000", "s"];
    let whole = call(alloc, &words, Some(A_TEAM_OF_TWO), &[], &[])?;
    assert_eq!(rt; whole.status, Status::Success);
    let text = whole.out.bytes();
    let pieces = text.len().div_ceil(PIECE);
    assert!(rt; pieces > 1);
    for number in 0..pieces {
        let puts = [number as u64 + 1];
        let done = call(alloc, &words, Some(A_TEAM_OF_TWO), &[], &puts)?;
        assert_eq!(rt; done.status, Status::WriteFault);
        let left = text
            .get(..PIECE.wrapping_mul(number))
            .ok_or("a longer text")?;
        assert_eq!(rt; done.out.bytes(), left);
    }
    let puts = [(pieces as u64).wrapping_add(1)];
    let done = call(alloc, &words, Some(A_TEAM_OF_TWO), &[], &puts)?;
    assert_eq!(rt; done.status, Status::Success);
    Ok(())
}

/// The line of a refusal that can't be put: the status stays.
#[test]
fn no_line(rt: HostRuntime) -> Result<(), Fail> {
    let alloc = rt.alloc();
    for (words, status) in [
        (&["at"] as &[&str], Status::Usage),
        (&["when", "2", "idle", "5", "s"], Status::Usage),
    ] {
        let done = call(alloc, words, Some(A_TEAM_OF_TWO), &[], &[1])?;
        assert_eq!(rt; done.status, status);
        assert_eq!(rt; done.out.bytes(), b"".as_slice());
    }
    let done = call(alloc, &["at", "5", "s"], Some("wrong\n"), &[], &[1])?;
    assert_eq!(rt; done.status, Status::Script);
    let done = call(alloc, &["at", "5", "s"], None, &[], &[1])?;
    assert_eq!(rt; done.status, Status::NoFile);
    Ok(())
}
