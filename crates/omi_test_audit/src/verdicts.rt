//! Verdicts on the words of stopped runs, and on an empty run's with one word changed.

use crate::asking::{Case, NO_CHANGE, first_wrong, yes};
use crate::stops::{forked, nested, opened};
use omi_audit::Verdict;
use omi_layout::Field;
use omi_word::FIRST_ADDRESS;
use std::test::Fail;

/// A word of an empty run by its number, what it is set to, and the verdict.
fn set(number: u64, word: u64, addr: u64, field: Field, clause: u8) -> Case {
    let place = number.wrapping_mul(8).wrapping_add(FIRST_ADDRESS);
    Case {
        changes: [(place, Some(word)), NO_CHANGE],
        verdict: Verdict::No {
            addr,
            field: field.number(),
            clause,
        },
    }
}

#[test]
fn an_empty_run(rt: HostRuntime) -> Result<(), Fail> {
    let words = opened(rt.alloc())?;
    let cases = [
        yes(2),
        set(321, 5, 0x1_0a08, Field::TaskNthreadsLength, 6),
        set(336, 5, 0x1_0a80, Field::TaskSlots, 6),
        set(337, 5, 0x1_0a88, Field::TaskSlots, 6),
        set(120, 0x1_03b0, 0x1_03b0, Field::RegionEnclosing, 8),
        set(123, 300, 0x1_03d8, Field::RegionLevels, 5),
        set(114, 0x1_09b8, 0x1_0390, Field::ThreadCurrent, 4),
        set(122, 2, 0x1_03d0, Field::RegionSize, 5),
        set(129, 0, 0x1_0408, Field::RegionTeam, 4),
        set(310, 2, 0x1_0390, Field::ThreadCurrent, 4),
        set(113, 7, 0x1_0388, Field::ThreadNative, 3),
    ];
    assert_eq!(rt; first_wrong(rt.alloc(), &words, &cases)?, None);
    Ok(())
}

/// In layouts of several families.
#[test]
fn a_fork(rt: HostRuntime) -> Result<(), Fail> {
    for family in 0..4u8 {
        let words = forked(rt.alloc(), family)?;
        let wrong = first_wrong(rt.alloc(), &words, &[yes(5)])?;
        assert_eq!(rt; wrong, None, "family {family}");
    }
    Ok(())
}

#[test]
fn a_nested_chain(rt: HostRuntime) -> Result<(), Fail> {
    for family in [0, 7] {
        let words = nested(rt.alloc(), family)?;
        let wrong = first_wrong(rt.alloc(), &words, &[yes(8)])?;
        assert_eq!(rt; wrong, None, "family {family}");
    }
    Ok(())
}
