//! Runs of `stop` through the top call: words of its cores, failing calls, and refusals whose line can or can't be put.

use omi_fixture_calls::{CHANGED, EMPTY, call, core_of, run};
use omi_fixture_rows::A_GROUPS_DESCENDANTS;
use omi_outside::{Call, Status};
use std::alloc::{AllocError, Global};
use std::process::Abort;
use std::test::Fail;

/// The word at a place of the one segment of a core with one context.
fn word_at(core: &[u8], place: usize) -> Option<u64> {
    if place > 8501 {
        return None;
    }
    let at = 40 + 8 * place;
    if at + 8 > core.len() {
        return None;
    }
    let mut bytes = [0u8; 8];
    bytes.copy_from_slice(&core[at..at + 8]);
    Some(u64::from_le_bytes(bytes))
}

/// The core of one thread has these words at these places.
fn expect_words(rt: &impl Abort, core: &[u8], words: &[(usize, u64)]) {
    assert_eq!(rt; core.len(), 68_056);
    for (place, word) in words {
        assert_eq!(rt; word_at(core, *place), Some(*word), "word {place}");
    }
}

/// The first bytes of the core of one thread.
const FRONT: &[u8] =
    b"OMPDCOR1\x01\x00\x01\x00\x01\x00\x00\x00\xe8\x03\x00\x00\x00\x00\x00\x00\x00\x00\x01\x00\x00\x00\x00\x00\x36\x21";

/// Words of the core of an empty run: symbols, entry point, layout table, runtime record, thread 0, r0.0.0, k0.0.0.
const EMPTY_WORDS: [(usize, u64); 34] = [
    (0, 8),
    (5, 0x10148),
    (40, 0x10158),
    (41, 0x10150),
    (42, 0),
    (43, 2),
    (44, 0x10318),
    (98, 22),
    (99, 201_811),
    (100, 1),
    (101, 4),
    (102, 1),
    (103, 8),
    (112, 1),
    (113, 1000),
    (114, 0x109b0),
    (115, 0),
    (118, 1),
    (119, 0x40_0000),
    (122, 1),
    (126, 0),
    (129, 0x109b0),
    (310, 1),
    (311, 1),
    (312, 0x103b0),
    (313, 0x10380),
    (315, 0),
    (316, 0),
    (318, 0x7f00_000f_ffc0),
    (320, 0),
    (321, 1),
    (322, 1),
    (328, 1),
    (8501, 0),
];

#[test]
fn an_empty_run(rt: HostRuntime) -> Result<(), Fail> {
    let done = run(rt.alloc(), &["stop", "0", "s", "c"], EMPTY)?;
    assert_eq!(rt; done.status, Status::Success);
    let text = b"end steps 0 events 0 by steps\n";
    assert_eq!(rt; done.out.bytes(), text.as_slice());
    assert_eq!(rt; done.files.bytes("other"), Some(b"stays".as_slice()));
    let core = done.files.bytes("c").ok_or("no core")?;
    assert!(rt; core.starts_with(FRONT));
    expect_words(&rt, core, &EMPTY_WORDS);
    Ok(())
}

/// Words of the thread, of its region and of its task in the core of the whole run, and in that of its first step.
const CHANGED_WORDS: [(usize, u64); 7] = [
    (115, 0x11),
    (125, 1),
    (126, 1),
    (320, 1),
    (321, 2),
    (328, 3),
    (329, 2),
];

const CUT_WORDS: [(usize, u64); 3] = [(115, 0), (320, 0), (328, 3)];

#[test]
fn a_list_with_a_changed_head(rt: HostRuntime) -> Result<(), Fail> {
    for (steps, words) in [
        ("15", CHANGED_WORDS.as_slice()),
        ("1000", CHANGED_WORDS.as_slice()),
        ("1000000", CHANGED_WORDS.as_slice()),
        ("1", CUT_WORDS.as_slice()),
    ] {
        let core = core_of(rt.alloc(), steps, CHANGED)?;
        expect_words(&rt, &core, words);
    }
    Ok(())
}

/// The events of a group of a task that makes a task: at its end its task starts, and then the task of this task.
const THE_GROUP: &str = "\
1 t0 group_begin
2 t0 call 2
3 t0 enter
51 t0 defer k0.1.0
52 t0 leave
53 t0 ret
54 t0 enter
55 t0 state wait_taskgroup 0
67 t0 start k0.1.0
68 t0 state work_serial 0
69 t0 enter
119 t0 defer k0.2.0
120 t0 leave
121 t0 finish k0.1.0
128 t0 state wait_taskgroup 0
140 t0 start k0.2.0
141 t0 state work_serial 0
142 t0 work
143 t0 finish k0.2.0
149 t0 free k0.2.0
154 t0 free k0.1.0
158 t0 state wait_taskgroup 0
165 t0 group_end
166 t0 state work_serial 0
167 t0 leave
168 t0 state wait_barrier_implicit_parallel 0
169 t0 arrive
177 t0 release
178 t0 pass
179 t0 done
end steps 179 events 30 by done
";

#[test]
fn descendants_of_a_group(rt: HostRuntime) -> Result<(), Fail> {
    let done = run(
        rt.alloc(),
        &["stop", "1000000", "s", "c"],
        A_GROUPS_DESCENDANTS,
    )?;
    assert_eq!(rt; done.status, Status::Success);
    assert_eq!(rt; done.out.bytes(), THE_GROUP.as_bytes());
    Ok(())
}

#[test]
fn a_layout_by_its_option(rt: HostRuntime) -> Result<(), Fail> {
    let line = ["stop", "1000", "s", "c", "--layout", "7"];
    let done = run(rt.alloc(), &line, CHANGED)?;
    assert_eq!(rt; done.status, Status::Success);
    assert_eq!(rt; done.files.bytes("c").ok_or("no core")?.len(), 72_440);
    Ok(())
}

#[test]
fn failing_appends_leave_a_prefix(rt: HostRuntime) -> Result<(), Fail> {
    let line = ["stop", "0", "s", "c"];
    for append in 1..18u64 {
        let failing = [(Call::Append, append)];
        let done = call(rt.alloc(), &line, (EMPTY, None), &[], &failing, &[])?;
        assert_eq!(rt; done.status, Status::WriteFault);
        assert_eq!(rt; done.out.bytes(), b"".as_slice());
        let core = done.files.bytes("c").ok_or("no core")?;
        assert_eq!(rt; core.len() as u64, 4096 * (append - 1));
    }
    Ok(())
}

/// A line, a first call that may fail, a script, and the status and the line that they end with.
type Refused<'a> = (&'a [&'a str], &'a [(Call, u64)], &'a str, Status, &'a str);

/// The line writes nothing, and the status stays where its line can't be put.
fn expect_refusal(rt: &impl Abort, alloc: Global, row: &Refused<'_>) -> Result<(), AllocError> {
    let (line, reads, script, status, text) = *row;
    let done = call(alloc, line, (script, None), reads, &[], &[])?;
    assert_eq!(rt; done.status, status);
    assert_eq!(rt; done.out.bytes(), text.as_bytes());
    assert!(rt; done.files.bytes("c").is_none());
    let silent = call(alloc, line, (script, None), reads, &[], &[1])?;
    assert_eq!(rt; silent.status, status);
    assert_eq!(rt; silent.out.bytes(), b"".as_slice());
    Ok(())
}

/// One more group in others than a task may have open.
const FIVE_GROUPS: &str =
    "func g0\nwork\nend\nfunc g1\ntaskgroup g0\nend\nfunc g2\ntaskgroup g1\nend\nfunc g3\ntaskgroup g2\nend\nfunc g4\ntaskgroup g3\nend\nfunc g5\ntaskgroup g4\nend\n";

/// A file that is missing or of which a call fails, a script that is no program, and words that make no command.
const REFUSED: [Refused<'static>; 8] = [
    (
        &["stop", "0", "gone", "c"],
        &[],
        EMPTY,
        Status::NoFile,
        "no file gone\n",
    ),
    (
        &["stop", "0", "", "c"],
        &[],
        EMPTY,
        Status::NoFile,
        "no file \n",
    ),
    (
        &["stop", "0", "s", "c"],
        &[(Call::Size, 1)],
        EMPTY,
        Status::ReadFault,
        "read fault s\n",
    ),
    (
        &["stop", "0", "s", "c"],
        &[(Call::ReadAt, 1)],
        EMPTY,
        Status::ReadFault,
        "read fault s\n",
    ),
    (
        &["stop", "0", "s", "c"],
        &[],
        "func main\nset_num_threads 65\nend\n",
        Status::Script,
        "script 2 3 BadNumber\n",
    ),
    (
        &["stop", "0", "s", "c"],
        &[],
        FIVE_GROUPS,
        Status::Script,
        "script 17 8 OverLimit\n",
    ),
    (
        &["stop", "0", "s", "c"],
        &[],
        "func b\nbarrier\nend\nfunc main\ntaskgroup b\nend\n",
        Status::Script,
        "script 5 7 BarrierNested\n",
    ),
    (
        &["stop", "1000001", "s", "c"],
        &[],
        EMPTY,
        Status::Usage,
        "usage\n",
    ),
];

#[test]
fn refusals(rt: HostRuntime) -> Result<(), Fail> {
    for row in &REFUSED {
        expect_refusal(&rt, rt.alloc(), row)?;
    }
    Ok(())
}

#[test]
fn a_failing_output(rt: HostRuntime) -> Result<(), Fail> {
    let line = ["stop", "0", "s", "c"];
    let done = call(rt.alloc(), &line, (EMPTY, None), &[], &[], &[1])?;
    assert_eq!(rt; done.status, Status::WriteFault);
    assert_eq!(rt; done.files.bytes("c").ok_or("no core")?.len(), 68_056);
    Ok(())
}
