//! Tests of words that are refused, of a thread that the program doesn't have, and of the order of refusals.

use crate::calls::{call, expect};
use omi_fixture_rows::A_TEAM_OF_TWO;
use omi_outside::Status;
use std::test::Fail;

const USAGE: &str = "usage\n";

#[test]
fn refused_words(rt: HostRuntime) -> Result<(), Fail> {
    let alloc = rt.alloc();
    for words in [
        &[] as &[&str],
        &["at"],
        &["at", "1"],
        &["at", "s"],
        &["at", "1", "s", "t"],
        &["at", "", "s"],
        &["at", ",", "s"],
        &["at", "1,", "s"],
        &["at", ",1", "s"],
        &["at", "1,,2", "s"],
        &["at", "1, 2", "s"],
        &["at", "01", "s"],
        &["at", "1000001", "s"],
        &["at", "1,1000001", "s"],
        &["at", "0,1,2,3,4,5,6,7,8,9,10,11,12,13,14,15,16", "s"],
        &["at", "1", "s", "--seed", "1"],
        &["at", "1", "s", "--layout=0"],
        &["when", "0", "idle", "1000"],
        &["when", "0", "idle", "1000", "s", "t"],
        &["when", "x", "idle", "1000", "s"],
        &["when", "00", "idle", "1000", "s"],
        &["when", "18446744073709551616", "idle", "1000", "s"],
        &["when", "0", "asleep", "1000", "s"],
        &["when", "0", "undefined", "1000", "s"],
        &["when", "0", "Idle", "1000", "s"],
        &["when", "0", "idle", "1000001", "s"],
        &["when", "0", "idle", "", "s"],
        &["when", "0", "idle", "1000", "s", "--count", "1"],
        &["show", "s"],
        &["AT", "1", "s"],
    ] {
        expect(&rt, alloc, words, A_TEAM_OF_TWO, Status::Usage, USAGE)?;
    }
    Ok(())
}

#[test]
fn no_such_thread(rt: HostRuntime) -> Result<(), Fail> {
    let alloc = rt.alloc();
    for thread in ["2", "3", "18446744073709551615"] {
        let words = ["when", thread, "idle", "1000", "s"];
        expect(&rt, alloc, &words, A_TEAM_OF_TWO, Status::Usage, USAGE)?;
        expect(
            &rt,
            alloc,
            &words,
            "threads 2\nwrong\n",
            Status::Script,
            "script 2 2 UnknownWord\n",
        )?;
        let done = call(alloc, &words, None, &[], &[])?;
        assert_eq!(rt; done.status, Status::NoFile);
        assert_eq!(rt; done.out.bytes(), b"no file s\n".as_slice());
    }
    Ok(())
}
