//! Audits of which a call of the debugger fails, and how many words an audit reads.

use crate::asking::audit_twice;
use crate::stops::forked;
use omi_audit::{AuditFault, Verdict};
use std::test::Fail;

/// The calls that open a session: a look-up, and the reads of the layout's table.
const OPENING: u64 = 57;

/// Each word of a fork that is judged is read once, and the life word of each record: 5 of the runtime, 4 of each thread, 7 and 8 of the regions, 18
/// of each task, and 5 life words.
const READS: u64 = 5 + 2 * 4 + 7 + 8 + 3 * 18 + 5;

const YES: Result<Verdict, AuditFault> = Ok(Verdict::Yes { records: 5 });

/// A read that fails ends the audit, and the next one answers.
#[test]
fn a_failing_read(rt: HostRuntime) -> Result<(), Fail> {
    let words = forked(rt.alloc(), 0)?;
    for read in [1, 6, 8, 14, 15, 40, READS] {
        let [first, second] = audit_twice(rt.alloc(), &words, OPENING + read)?;
        assert_eq!(rt; first, (Err(AuditFault::Callback), read));
        assert_eq!(rt; second, (YES, READS));
    }
    Ok(())
}

#[test]
fn no_word_is_read_twice(rt: HostRuntime) -> Result<(), Fail> {
    let words = forked(rt.alloc(), 0)?;
    let [first, second] = audit_twice(rt.alloc(), &words, 0)?;
    assert_eq!(rt; first, (YES, READS));
    assert_eq!(rt; second, first);
    Ok(())
}
