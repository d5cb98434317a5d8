//! Rows of lines and texts, each accepted or refused as the documents say.
use omi_script::limits::MAX_THREADS;
use omi_script::{OutOfMemory, ScriptError, Why, parse};
use std::alloc::Global;
use std::process::Abort;
use std::test::Fail;

/// The text is refused at this line, counted from 1, with this fault.
pub fn refuses(rt: &impl Abort, alloc: Global, text: &[u8], line: u32, why: Why, note: &str) {
    match parse(alloc, text) {
        Err(ScriptError::Fault(fault)) => {
            assert_eq!(rt; fault.line, line, "{note}");
            assert_eq!(rt; fault.why, why, "{note}");
        }
        Err(ScriptError::OutOfMemory) => panic!(rt; "out of memory: {note}"),
        Ok(_) => panic!(rt; "accepted: {note}"),
    }
}

/// The text is a program.
pub fn accepts(rt: &impl Abort, alloc: Global, text: &[u8], note: &str) {
    match parse(alloc, text) {
        Ok(_) => {}
        Err(error) => panic!(rt; "{error}: {note}"),
    }
}

/// Each line is accepted between two texts, or refused there, at this line.
fn each(
    rt: &impl Abort,
    alloc: Global,
    before: &str,
    line: u32,
    after: &str,
    why: Option<Why>,
    lines: &[&str],
) -> Result<(), OutOfMemory> {
    for row in lines {
        let text = format!(in alloc; "{before}{row}\n{after}")?;
        match why {
            None => accepts(rt, alloc, text.as_bytes(), row),
            Some(why) => refuses(rt, alloc, text.as_bytes(), line, why, row),
        }
    }
    Ok(())
}

/// Each line is accepted or refused as a head line.
fn head_lines(
    rt: &impl Abort,
    alloc: Global,
    why: Option<Why>,
    lines: &[&str],
) -> Result<(), OutOfMemory> {
    each(rt, alloc, "", 1, "func main\nend\n", why, lines)
}

/// Each line is accepted or refused as a statement, where a function `f` is closed above.
fn statements(
    rt: &impl Abort,
    alloc: Global,
    why: Option<Why>,
    lines: &[&str],
) -> Result<(), OutOfMemory> {
    each(
        rt,
        alloc,
        "func f\nend\nfunc main\n",
        4,
        "end\n",
        why,
        lines,
    )
}

/// Head lines with their numbers at the ends of the ranges, and each fixed word.
const HEAD_LINES: [&str; 18] = [
    "threads 1",
    "env num_threads 1",
    "env num_threads 64",
    "env num_threads 64,1,2,64",
    "env dynamic true",
    "env dynamic false",
    "env max_active_levels 0",
    "env max_active_levels 255",
    "env schedule static,0",
    "env schedule dynamic,65535",
    "env schedule guided,1",
    "env schedule auto,10",
    "env device 0",
    "env device 255",
    "env debug enabled",
    "env debug disabled",
    "env procs 1",
    "env procs 65535",
];

/// Head lines with a number that is in no range, or is none.
const HEAD_NUMBERS: [&str; 21] = [
    "threads 0",
    "threads 01",
    "threads x",
    "threads 1x",
    "threads +1",
    "threads -1",
    "threads 18446744073709551617",
    "env num_threads 0",
    "env num_threads 65",
    "env num_threads 4,65",
    "env num_threads 04",
    "env num_threads 4;2",
    "env num_threads 1,2,3,4,5",
    "env max_active_levels 256",
    "env max_active_levels 00",
    "env schedule static,65536",
    "env schedule static,00",
    "env schedule auto,x",
    "env device 256",
    "env procs 0",
    "env procs 65536",
];

/// No head lines, by their first word, their count of words or their fixed words.
const NO_HEAD_LINES: [&str; 28] = [
    "threads",
    "threads 1 1",
    "env",
    "env procs",
    "env procs 4 4",
    "env threads 4",
    "num_threads 4",
    "env num_threads ,",
    "env num_threads 4,",
    "env num_threads ,4",
    "env num_threads 4,,2",
    "env num_threads 4 2",
    "env num_threads x,",
    "env dynamic 1",
    "env dynamic True",
    "env dynamic enabled",
    "env debug true",
    "env debug 0",
    "env schedule static",
    "env schedule static 1",
    "env schedule static,",
    "env schedule ,1",
    "env schedule ,",
    "env schedule static,1,",
    "env schedule static,1,2",
    "env schedule 1,1",
    "env schedule Static,1",
    "env schedule none,x",
];

#[test]
fn head_rows(rt: HostRuntime) -> Result<(), Fail> {
    let alloc = rt.alloc();
    head_lines(&rt, alloc, None, &HEAD_LINES)?;
    head_lines(&rt, alloc, Some(Why::BadNumber), &HEAD_NUMBERS)?;
    head_lines(&rt, alloc, Some(Why::UnknownWord), &NO_HEAD_LINES)?;
    let most = format!(in alloc; "threads {MAX_THREADS}\nfunc main\nend")?;
    accepts(&rt, alloc, most.as_bytes(), "the most threads");
    let over = u64::from(MAX_THREADS).saturating_add(1);
    let more = format!(in alloc; "threads {over}\nfunc main\nend")?;
    refuses(
        &rt,
        alloc,
        more.as_bytes(),
        1,
        Why::BadNumber,
        "one more thread",
    );
    Ok(())
}

/// Each statement, with its numbers at the ends of the ranges.
const STATEMENTS: [&str; 36] = [
    "parallel f",
    "parallel f num 1",
    "parallel f num 64",
    "task f",
    "task f if 0",
    "task f if 1",
    "task f final 0",
    "task f final 1",
    "task f if 0 final 0",
    "task f if 1 final 1",
    "taskwait",
    "taskyield",
    "barrier",
    "work",
    "critical 0 f",
    "critical 7 f",
    "taskgroup f",
    "call f",
    "only 0 f",
    "only 63 f",
    "repeat 0 f",
    "repeat 1000 f",
    "set_num_threads 1",
    "set_num_threads 64",
    "set_dynamic 0",
    "set_dynamic 1",
    "set_max_active_levels 0",
    "set_max_active_levels 255",
    "set_schedule static 0",
    "set_schedule dynamic 1",
    "set_schedule guided 10",
    "set_schedule auto 65535",
    "set_default_device 0",
    "set_default_device 255",
    "tool 0",
    "tool 18446744073709551615",
];

/// Statements with a number that is in no range, or is none.
const STATEMENT_NUMBERS: [&str; 25] = [
    "parallel f num 0",
    "parallel f num 65",
    "parallel f num 04",
    "task f if 2",
    "task f if 00",
    "task f final 2",
    "task f final true",
    "task f if 2 final 0",
    "task f if 0 final 2",
    "critical 8 f",
    "critical f 0",
    "only 64 f",
    "repeat 1001 f",
    "repeat 01 f",
    "set_num_threads 0",
    "set_num_threads 65",
    "set_dynamic 2",
    "set_dynamic true",
    "set_max_active_levels 256",
    "set_schedule static 65536",
    "set_schedule auto 01",
    "set_default_device 256",
    "tool 18446744073709551616",
    "tool 00",
    "tool 0x1",
];

/// No statements, by their first word, their count of words or their fixed words.
const NO_STATEMENTS: [&str; 45] = [
    "work 1",
    "Work",
    "taskwait f",
    "taskyield f",
    "barrier 0",
    "parallel",
    "parallel f 4",
    "parallel f num",
    "parallel f if 1",
    "parallel f num 4 4",
    "parallel f num 4 if 1",
    "task",
    "task f if",
    "task f 0",
    "task f num 4",
    "task f if 0 final",
    "task f if 0 if 0",
    "task f final 1 if 0",
    "task f final 1 final 1",
    "task f if 0 final 1 work",
    "taskgroup",
    "taskgroup f f",
    "taskgroup 0 f",
    "call",
    "call f f",
    "critical f",
    "critical 0",
    "critical 0 f f",
    "only f",
    "only 0 f f",
    "repeat f",
    "repeat 2 f f",
    "set_num_threads",
    "set_num_threads 4 2",
    "set_dynamic",
    "set_max_active_levels",
    "set_schedule static",
    "set_schedule static,1",
    "set_schedule static 1 1",
    "set_schedule none 1",
    "set_schedule 1 1",
    "set_default_device",
    "tool",
    "tool 1 2",
    "nothing",
];

/// Statements over a function that is not there.
const NO_FUNCTIONS: [&str; 12] = [
    "parallel g",
    "parallel g num 4",
    "task g",
    "task g if 0",
    "task g final 1",
    "task g if 0 final 1",
    "critical 0 g",
    "taskgroup g",
    "call g",
    "call 9",
    "only 0 g",
    "repeat 2 g",
];

#[test]
fn statement_rows(rt: HostRuntime) -> Result<(), Fail> {
    let alloc = rt.alloc();
    statements(&rt, alloc, None, &STATEMENTS)?;
    statements(&rt, alloc, Some(Why::BadNumber), &STATEMENT_NUMBERS)?;
    statements(&rt, alloc, Some(Why::UnknownWord), &NO_STATEMENTS)?;
    statements(&rt, alloc, Some(Why::UnknownName), &NO_FUNCTIONS)?;
    Ok(())
}

/// Functions of which `direct`, `called` and `repeated` reach a barrier, and `forked` reaches none.
const BARRIERS: &str =
    "func direct\nbarrier\nend\nfunc called\ncall direct\nend\nfunc repeated\nwork\nrepeat 0 called\nend\nfunc forked\nparallel direct\nend\nfunc main\n";

/// Each line is accepted or refused behind these functions.
fn over_barriers(
    rt: &impl Abort,
    alloc: Global,
    why: Option<Why>,
    lines: &[&str],
) -> Result<(), OutOfMemory> {
    each(rt, alloc, BARRIERS, 15, "end\n", why, lines)
}

#[test]
fn barrier_rows(rt: HostRuntime) -> Result<(), Fail> {
    let alloc = rt.alloc();
    let lines = [
        "task direct",
        "task called if 0",
        "task repeated final 1",
        "task repeated if 1 final 0",
    ];
    over_barriers(&rt, alloc, Some(Why::BarrierInTask), &lines)?;
    let lines = [
        "only 0 direct",
        "only 0 called",
        "only 63 repeated",
        "critical 0 direct",
        "critical 0 called",
        "critical 7 repeated",
        "taskgroup direct",
        "taskgroup called",
        "taskgroup repeated",
    ];
    over_barriers(&rt, alloc, Some(Why::BarrierNested), &lines)?;
    let lines = [
        "barrier",
        "call direct",
        "repeat 3 repeated",
        "parallel direct",
        "parallel repeated num 2",
        "task forked",
        "only 0 forked",
        "critical 0 forked",
        "taskgroup forked",
        "call forked",
    ];
    over_barriers(&rt, alloc, None, &lines)?;
    Ok(())
}

/// Whole texts, each with its first faulty line and the least fault of that line.
const NOT_TEXT: [(u32, &str); 6] = [
    (1, "\0"),
    (2, "func main\nwo\0rk\nend\n"),
    (3, "func main\nend\n# \u{7f}"),
    (3, "\n\nfunc main\u{e9}\n"),
    (1, "nothing \u{7f}\n"),
    (2, "func main\nset_num_threads 65 \u{7f}\nend\n"),
];

const UNKNOWN_WORD: [(u32, &str); 20] = [
    (1, "work\nfunc main\nend\n"),
    (1, "end\n"),
    (3, "func main\nend\nend\n"),
    (3, "func main\nend\nwork\n"),
    (2, "func main\nfunc f\nend\nend\n"),
    (2, "func main\nthreads 1\nend\n"),
    (3, "func main\nend\nthreads 1\n"),
    (3, "func main\nend\nenv procs 4\n"),
    (1, "func\n"),
    (1, "func main end\n"),
    (1, "func main main\nend\n"),
    (1, "func\rmain\rend\r"),
    (1, "FUNC main\nend\n"),
    (1, "funcs main\nend\n"),
    (1, "fun main\nend\n"),
    (2, "func main\nend end\n"),
    (2, "func main\nthreads 65\nend\n"),
    (3, "threads 1\nfunc main\nthreads 1\nend\n"),
    (1, "nothing\n# \u{7f}\n"),
    (3, "func main\nend\nwork\nnothing\n"),
];

const BAD_NUMBER: [(u32, &str); 4] = [
    (2, "threads 1\nthreads 65\n"),
    (2, "func main\ntask g if 2\nend\n"),
    (5, "func b\nbarrier\nend\nfunc main\ncritical 8 b\nend\n"),
    (2, "func main\nset_dynamic 2\ncall g\n"),
];

const UNKNOWN_NAME: [(u32, &str); 11] = [
    (1, "func Main\nend\n"),
    (1, "func 1main\nend\n"),
    (1, "func a-b\nend\n"),
    (1, "func #\nend\n"),
    (3, "func main\nend\nfunc a.b\nend\n"),
    (1, "func a23456789_123456789_123456789_123\nend\n"),
    (2, "func main\ncall main\nend\n"),
    (2, "func main\ncall later\nend\nfunc later\nend\n"),
    (4, "func f\nend\nfunc main\ncall ff\nend\n"),
    (2, "func main\ncall g\nset_num_threads 65\nend\n"),
    (1, "func A\n"),
];

const REPEATED: [(u32, &str); 13] = [
    (2, "threads 1\nthreads 2\n"),
    (3, "threads 1\nenv procs 4\nthreads 1\n"),
    (2, "env num_threads 2\nenv num_threads 4,2\n"),
    (2, "env dynamic true\nenv dynamic false\n"),
    (2, "env max_active_levels 1\nenv max_active_levels 1\n"),
    (2, "env schedule auto,1\nenv schedule static,0\n"),
    (2, "env device 1\nenv device 0\n"),
    (2, "env debug enabled\nenv debug enabled\n"),
    (3, "env procs 4\n\nenv procs 5\n"),
    (3, "func main\nend\nfunc main\nend\n"),
    (5, "func f\nend\nfunc main\nend\nfunc f\nend\n"),
    (2, "threads 1\nthreads 1\nnothing\n"),
    (3, "func f\nend\nfunc f\n"),
];

const BARRIER_IN_TASK: [(u32, &str); 1] = [(5, "func b\nbarrier\nend\nfunc c\ntask b\nonly 0 b\n")];

const BARRIER_NESTED: [(u32, &str); 1] = [(
    5,
    "func b\nbarrier\nend\nfunc main\ntaskgroup b\nend\n",
)];

/// Taskgroup regions of one task that are nested a fifth time.
const OVER_LIMIT: [(u32, &str); 1] = [(
    17,
    "func g0\nwork\nend\nfunc g1\ntaskgroup g0\nend\nfunc g2\ntaskgroup g1\nend\nfunc g3\ntaskgroup g2\nend\n\
    func g4\ntaskgroup g3\nend\nfunc g5\ntaskgroup g4\nend\n",
)];

const NO_MAIN: [(u32, &str); 10] = [
    (1, ""),
    (2, "\n"),
    (2, "# func main"),
    (3, "threads 1\n\n"),
    (3, "func f\nend\n"),
    (3, "func f\nend"),
    (4, "func f\nend\n\n"),
    (3, "func mai\nend\n"),
    (3, "func main_\nend\n"),
    (2, "func f\n"),
];

const UNCLOSED: [(u32, &str); 5] = [
    (2, "func main\n"),
    (2, "func main"),
    (3, "func main\nwork\n"),
    (4, "func main\nend\nfunc f\n"),
    (5, "func main\nend\nfunc f\n# end\n"),
];

/// Each text is refused with this fault, at its line.
fn refuse_all(rt: &impl Abort, alloc: Global, why: Why, rows: &[(u32, &str)]) {
    for (line, text) in rows {
        refuses(rt, alloc, text.as_bytes(), *line, why, text);
    }
}

/// Texts with blanks where they may stand, and names of 1 and 32 bytes.
const ACCEPTED: [&str; 4] = [
    "threads 2\r\nfunc main\r\n\twork\r\nend\r\n",
    " \t# one\n\n \r\n\tfunc\r \tmain\t\n#\n\r\rend \n\n",
    "# !~ \t\r\nfunc main\nend",
    "func _\nend\nfunc a23456789_123456789_123456789_12\nend\nfunc main\ncall _\ncall a23456789_123456789_123456789_12\nend\n",
];

#[test]
fn text_rows(rt: HostRuntime) {
    let alloc = rt.alloc();
    refuse_all(&rt, alloc, Why::NotText, &NOT_TEXT);
    refuse_all(&rt, alloc, Why::UnknownWord, &UNKNOWN_WORD);
    refuse_all(&rt, alloc, Why::BadNumber, &BAD_NUMBER);
    refuse_all(&rt, alloc, Why::UnknownName, &UNKNOWN_NAME);
    refuse_all(&rt, alloc, Why::Repeated, &REPEATED);
    refuse_all(&rt, alloc, Why::BarrierInTask, &BARRIER_IN_TASK);
    refuse_all(&rt, alloc, Why::BarrierNested, &BARRIER_NESTED);
    refuse_all(&rt, alloc, Why::OverLimit, &OVER_LIMIT);
    refuse_all(&rt, alloc, Why::NoMain, &NO_MAIN);
    refuse_all(&rt, alloc, Why::Unclosed, &UNCLOSED);
    for text in ACCEPTED {
        accepts(&rt, alloc, text.as_bytes(), text);
    }
}
