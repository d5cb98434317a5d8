//! Each public call once on its happy path, and each limit on both sides.
use crate::row_tests::{accepts, refuses};
use omi_numbers::{kind_name, kind_number};
use omi_script::limits::{MAX_BYTES, MAX_DEPTH, MAX_FUNCTIONS, MAX_STATEMENTS};
use omi_script::{OutOfMemory, Sched, Stmt, Why, number, parse, print};
use std::alloc::Global;
use std::process::Abort;
use std::test::Fail;

/// Texts, each with its canonical text.
const CANONICAL: [(&str, &str); 6] = [
    // each head line and each statement, in the canonical spelling
    (
        "threads 16\nenv num_threads 4,2\nenv dynamic true\nenv max_active_levels 3\nenv schedule guided,7\n\
         env device 1\nenv debug disabled\nenv procs 8\nfunc leaf\n  work\nend\nfunc main\n  parallel leaf\n  \
         parallel leaf num 4\n  task leaf\n  task leaf if 0\n  task leaf final 1\n  task leaf if 0 final 1\n  \
         taskwait\n  taskyield\n  barrier\n  critical 7 leaf\n  taskgroup leaf\n  call leaf\n  only 63 leaf\n  repeat 1000 leaf\n  \
         set_num_threads 64\n  set_dynamic 1\n  set_max_active_levels 255\n  set_schedule auto 65535\n  \
         set_default_device 255\n  tool 18446744073709551615\n  work\n\
         end\n",
        "threads 16\nenv num_threads 4,2\nenv dynamic true\nenv max_active_levels 3\nenv schedule guided,7\n\
         env device 1\nenv debug disabled\nenv procs 8\nfunc leaf\n  work\nend\nfunc main\n  parallel leaf\n  \
         parallel leaf num 4\n  task leaf\n  task leaf if 0\n  task leaf final 1\n  task leaf if 0 final 1\n  \
         taskwait\n  taskyield\n  barrier\n  critical 7 leaf\n  taskgroup leaf\n  call leaf\n  only 63 leaf\n  repeat 1000 leaf\n  \
         set_num_threads 64\n  set_dynamic 1\n  set_max_active_levels 255\n  set_schedule auto 65535\n  \
         set_default_device 255\n  tool 18446744073709551615\n  work\n\
         end\n",
    ),
    // clauses that are left out
    (
        "func f\nend\nfunc main\ntask f if 1\ntask f final 0\ntask f if 0 final 0\ntask f if 1 final 1\nend",
        "threads 1\nenv num_threads 1\nenv dynamic false\nenv max_active_levels 8\nenv schedule static,0\n\
         env device 0\nenv debug enabled\nenv procs 4\nfunc f\nend\nfunc main\n  task f\n  task f\n  task f if 0\n  task f final 1\n\
         end\n",
    ),
    // nthreads-var is the number of threads
    (
        "threads 4\nfunc main\nend\n",
        "threads 4\nenv num_threads 4\nenv dynamic false\nenv max_active_levels 8\nenv schedule static,0\n\
         env device 0\nenv debug enabled\nenv procs 4\nfunc main\nend\n",
    ),
    // head lines in any order
    (
        "env procs 8\nenv debug disabled\n# one\nenv device 2\nenv schedule dynamic,1\nenv max_active_levels 0\n\
         env dynamic true\nenv num_threads 64,1\nthreads 2\nfunc main\nend\n",
        "threads 2\nenv num_threads 64,1\nenv dynamic true\nenv max_active_levels 0\nenv schedule dynamic,1\n\
         env device 2\nenv debug disabled\nenv procs 8\nfunc main\nend\n",
    ),
    // a chain of ten tasks, as a user would write it
    (
        "# a chain of ten tasks\nthreads 8\nenv num_threads 4,2\n\nfunc t0\n\twork\nend\nfunc t1\n task  t0\n taskwait\n\
         end\nfunc t2\n task t1 if 1\n taskwait\nend\nfunc t3\n task t2\n taskwait\nend\nfunc t4\n task t3\n taskwait\n\
         end\nfunc t5\n task t4\n taskwait\nend\nfunc t6\n task t5\n taskwait\nend\nfunc t7\n task t6\n taskwait\n\
         end\nfunc t8\n task t7\n taskwait\nend\nfunc t9\n task t8\n taskwait\nend\n\
         # four chains by each thread of an inner region\nfunc spawn\n task t9\nend\nfunc inner\n repeat 4 spawn\n\
         end\nfunc outer\n parallel inner\nend\nfunc main\n parallel outer\nend",
        "threads 8\nenv num_threads 4,2\nenv dynamic false\nenv max_active_levels 8\nenv schedule static,0\n\
         env device 0\nenv debug enabled\nenv procs 4\nfunc t0\n  work\nend\nfunc t1\n  task t0\n  taskwait\nend\n\
         func t2\n  task t1\n  taskwait\nend\nfunc t3\n  task t2\n  taskwait\nend\nfunc t4\n  task t3\n  taskwait\n\
         end\nfunc t5\n  task t4\n  taskwait\nend\nfunc t6\n  task t5\n  taskwait\nend\nfunc t7\n  task t6\n  taskwait\n\
         end\nfunc t8\n  task t7\n  taskwait\nend\nfunc t9\n  task t8\n  taskwait\nend\nfunc spawn\n  task t9\nend\n\
         func inner\n  repeat 4 spawn\nend\nfunc outer\n  parallel inner\nend\nfunc main\n  parallel outer\nend\n",
    ),
    // the workload that `make 10` writes
    (
        "threads 4\nfunc leaf\n  work\nend\nfunc node\n  task leaf\n  task leaf\n  taskwait\nend\nfunc team\n  \
         repeat 10 node\nend\nfunc main\n  parallel team num 4\nend\n",
        "threads 4\nenv num_threads 4\nenv dynamic false\nenv max_active_levels 8\nenv schedule static,0\n\
         env device 0\nenv debug enabled\nenv procs 4\nfunc leaf\n  work\nend\nfunc node\n  task leaf\n  task leaf\n  taskwait\n\
         end\nfunc team\n  repeat 10 node\nend\nfunc main\n  parallel team num 4\nend\n",
    ),
];

/// Each text has its canonical text.
fn print_all(rt: &impl Abort, alloc: Global, rows: &[(&str, &str)]) -> Result<(), Fail> {
    for (text, canonical) in rows {
        let printed = print(alloc, &parse(alloc, text.as_bytes())?)?;
        assert_eq!(rt; printed[..], *canonical.as_bytes(), "{text}");
    }
    Ok(())
}

#[test]
fn canonical(rt: HostRuntime) -> Result<(), Fail> {
    print_all(&rt, rt.alloc(), &CANONICAL)
}

/// A value that threads may share and move.
fn crosses_threads<T: Send + Sync>(_value: &T) {}

#[test]
fn programs(rt: HostRuntime) -> Result<(), Fail> {
    let alloc = rt.alloc();
    let text = b"env num_threads 4,2\nfunc f\nend\nfunc main\nset_num_threads 3\ncall f\nend\n";
    let p = parse(alloc, text)?.same(alloc)?;
    crosses_threads(&p);
    let numbers = (p.threads, p.main, p.env.procs, p.funcs.len());
    assert_eq!(rt;
        (numbers, p.env.sched),
        ((1, 1, 4, 2), Sched { kind: 1, chunk: 0 })
    );
    assert_eq!(rt; *p.env.nthreads.as_slice(), [4, 2][..]);
    let main = p.funcs.get(1);
    assert!(rt; main.name.bytes.starts_with(b"main\0"));
    assert_eq!(rt;
        *main.body.as_slice(),
        [Stmt::SetNumThreads(3), Stmt::Call { f: 0 }][..]
    );
    Ok(())
}

#[test]
fn words(rt: HostRuntime) {
    let most = number(b"18446744073709551615", 0, u64::MAX);
    let numbers = (number(b"10", 0, 10), number(b"11", 0, 10), most);
    assert_eq!(rt; numbers, (Some(10), None, Some(u64::MAX)));
    let kinds = (kind_name(3), kind_name(5), kind_number(b"auto"));
    assert_eq!(rt; kinds, (Some("guided"), None, Some(4)));
    let names = (Why::NotText.number(), Why::Unclosed.text());
    assert_eq!(rt; names, (1, "Unclosed"));
}

/// A text, then the same piece so many times, and an end.
fn repeated(
    alloc: Global,
    start: &str,
    piece: &str,
    count: usize,
    end: &str,
) -> Result<String, OutOfMemory> {
    let mut text = String::from_str(alloc, start)?;
    for _ in 0..count {
        text.push_str(piece)?;
    }
    text.push_str(end)?;
    Ok(text)
}

#[test]
fn sizes_of_texts(rt: HostRuntime) -> Result<(), Fail> {
    let alloc = rt.alloc();
    let end = "\nfunc main\nend\n";
    let text = repeated(alloc, "", "#", MAX_BYTES - 15, end)?;
    assert_eq!(rt; text.len(), MAX_BYTES);
    accepts(&rt, alloc, text.as_bytes(), "a text of the greatest size");
    let text = repeated(alloc, "", "#", MAX_BYTES - 14, "\nfunc main\nend\n")?;
    refuses(
        &rt,
        alloc,
        text.as_bytes(),
        1,
        Why::OverLimit,
        "a byte more",
    );
    let text = repeated(alloc, "func main\n", " work", 10_000, "")?;
    refuses(
        &rt,
        alloc,
        text.as_bytes(),
        2,
        Why::UnknownWord,
        "10,000 words",
    );
    Ok(())
}

/// Functions `f0`, `f1` and so on, each with a line over the number of the one above, and a
/// `main` with this statement.
fn functions(alloc: Global, line: &str, count: usize, last: &str) -> Result<String, OutOfMemory> {
    let mut text = String::from_str(alloc, "func f0\nend\n")?;
    for above in 0..count {
        let below = above.saturating_add(1);
        text.push_str(&format!(in alloc; "func f{below}\n{line}{above}\nend\n")?)?;
    }
    text.push_str(&format!(in alloc; "func main\n{last}\nend\n")?)?;
    Ok(text)
}

#[test]
fn counts(rt: HostRuntime) -> Result<(), Fail> {
    let alloc = rt.alloc();
    let text = functions(alloc, "call f", MAX_FUNCTIONS - 2, "work")?;
    accepts(&rt, alloc, text.as_bytes(), "the most functions");
    let text = functions(alloc, "call f", MAX_FUNCTIONS - 1, "work")?;
    refuses(
        &rt,
        alloc,
        text.as_bytes(),
        192,
        Why::OverLimit,
        "one function more",
    );
    let start = "func f\nwork\nend\nfunc main\n";
    let text = repeated(alloc, start, "work\n", MAX_STATEMENTS - 1, "end\n")?;
    accepts(&rt, alloc, text.as_bytes(), "the most statements");
    let text = repeated(alloc, start, "work\n", MAX_STATEMENTS, "end\n")?;
    refuses(
        &rt,
        alloc,
        text.as_bytes(),
        4_100,
        Why::OverLimit,
        "one statement more",
    );
    Ok(())
}

/// Statements that are as deep as the function that they name.
const AS_DEEP: [&str; 6] = [
    "call",
    "task",
    "only 0",
    "critical 0",
    "repeat 0",
    "taskgroup",
];

#[test]
fn depths(rt: HostRuntime) -> Result<(), Fail> {
    let alloc = rt.alloc();
    for word in AS_DEEP {
        let last = format!(in alloc; "{word} f{MAX_DEPTH}")?;
        let text = functions(alloc, "parallel f", MAX_DEPTH, &last)?;
        accepts(&rt, alloc, text.as_bytes(), word);
        let last = format!(in alloc; "{last}\nend\nfunc over\nparallel main num 2")?;
        let text = functions(alloc, "parallel f", MAX_DEPTH, &last)?;
        refuses(&rt, alloc, text.as_bytes(), 52, Why::OverLimit, word);
    }
    Ok(())
}

/// Statements whose taskgroup regions are as deep as those of the function that they name.
const AS_DEEP_IN_GROUPS: [&str; 4] = ["call", "only 0", "critical 0", "repeat 0"];

/// Statements over a function whose taskgroup regions are those of other tasks.
const OF_OTHER_TASKS: [&str; 2] = ["task", "parallel"];

#[test]
fn group_depths(rt: HostRuntime) -> Result<(), Fail> {
    let alloc = rt.alloc();
    for word in AS_DEEP_IN_GROUPS {
        let last = format!(in alloc; "{word} f4")?;
        let text = functions(alloc, "taskgroup f", 4, &last)?;
        accepts(&rt, alloc, text.as_bytes(), word);
        let last = format!(in alloc; "{last}\nend\nfunc over\ntaskgroup main")?;
        let text = functions(alloc, "taskgroup f", 4, &last)?;
        refuses(&rt, alloc, text.as_bytes(), 19, Why::OverLimit, word);
    }
    for word in OF_OTHER_TASKS {
        let last = format!(in alloc; "{word} f4\nend\nfunc over\ntaskgroup main")?;
        let text = functions(alloc, "taskgroup f", 4, &last)?;
        accepts(&rt, alloc, text.as_bytes(), word);
    }
    Ok(())
}
