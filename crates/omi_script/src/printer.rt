//! The canonical text of a program.
ghost use Rattle.std.specs.Prelude.{◌≡◌, ◌≤◌, ◌∷◌, [], ◌++◌, length, take, flat_map, IfOk, OnOk, codes};
ghost use Rattle.std.specs.Fmt.{decimal};
ghost use Rattle.omi_script.specs.Canonical.{kind_text, truth_word, debug_word, flag_word, listed_behind, list_text, setting_words, task_words, schedule_text, statement_words, line_text, env_words, last_head_words, head_words, statement_text, function_text, canonical};
ghost use Rattle.omi_script.specs.Bodies.{name_at};
ghost use Rattle.omi_script.specs.Grammar.{Grammar};
ghost use Rattle.std.specs.List.{join_with_byte};

use crate::limits::MAX_BYTES;
use crate::{Env, Func, FuncList, NumList, OutOfMemory, Program, Sched, Stmt};
use omi_numbers::kind_name;
use std::alloc::Global;

/// The name of a kind, none for a number that is no kind's.
fn kind_text(kind: u8) -> &'static [u8]
    ensures { result.now ≡ kind_text kind }
{
    match kind_name(kind.into()) {
        Some(name) => name.as_bytes(),
        None => &[],
    }
}

fn truth(b: bool) -> &'static [u8]
    ensures { result.now ≡ truth_word b }
{
    if b { b"true" } else { b"false" }
}

fn debug(b: bool) -> &'static [u8]
    ensures { result.now ≡ debug_word b }
{
    if b { b"enabled" } else { b"disabled" }
}

fn flag(b: bool) -> &'static [u8]
    ensures { result.now ≡ flag_word b }
{
    if b { b"1" } else { b"0" }
}

/// The name of the function with a number, none past the last.
fn name_of(funcs: &FuncList, f: u8) -> &[u8]
    ensures { result.now ≡ name_at funcs.now f }
{
    let at = usize::from(f);
    if at < funcs.len() {
        funcs.get(at).name.text()
    } else {
        &[]
    }
}

/// Adds a word and a number in decimal.
fn push_number(alloc: Global, text: &mut Vec<u8>, word: &[u8], n: u64) -> Result<(), OutOfMemory>
    ensures { OnOk result (text.new.items ≡ text.old.items ++ (word.now ++ decimal n)) }
{
    let digits = format!(in alloc; "{n}")?;
    text.extend_from_slice(word)?;
    text.extend_from_slice(digits.as_bytes())
}

/// Adds a word and the name of a function.
fn push_name(text: &mut Vec<u8>, word: &[u8], funcs: &FuncList, f: u8) -> Result<(), OutOfMemory>
    ensures { OnOk result (text.new.items ≡ text.old.items ++ (word.now ++ name_at funcs.now f)) }
{
    text.extend_from_slice(word)?;
    text.extend_from_slice(name_of(funcs, f))
}

/// Adds a word, a number and the name of a function.
fn push_counted(
    alloc: Global,
    text: &mut Vec<u8>,
    word: &[u8],
    n: u64,
    funcs: &FuncList,
    f: u8,
) -> Result<(), OutOfMemory>
    ensures { OnOk result (text.new.items
        ≡ text.old.items ++ (word.now ++ (decimal n ++ (codes " " ++ name_at funcs.now f)))) }
{
    push_number(alloc, text, word, n)?;
    push_name(text, b" ", funcs, f)
}

/// Adds a word and its value.
fn push_value(text: &mut Vec<u8>, word: &[u8], value: &[u8]) -> Result<(), OutOfMemory>
    ensures { OnOk result (text.new.items ≡ text.old.items ++ (word.now ++ value.now)) }
{
    text.extend_from_slice(word)?;
    text.extend_from_slice(value)
}

/// Adds numbers, each behind a comma.
fn push_behind(alloc: Global, text: &mut Vec<u8>, list: &[u64]) -> Result<(), OutOfMemory>
    ensures { OnOk result (text.new.items ≡ text.old.items ++ listed_behind list.now) }
{
    for n in list {
        push_number(alloc, text, b",", *n)?;
    }
    Ok(())
}

/// Adds numbers, joined by commas.
fn push_list(alloc: Global, text: &mut Vec<u8>, list: &[u64]) -> Result<(), OutOfMemory>
    ensures { OnOk result (text.new.items ≡ text.old.items ++ list_text list.now) }
{
    match list {
        [] => Ok(()),
        [first, rest @ ..] => {
            push_number(alloc, text, b"", *first)?;
            push_behind(alloc, text, rest)
        }
    }
}

/// Adds the words of a task.
fn push_task(
    text: &mut Vec<u8>,
    name: &[u8],
    undeferred: bool,
    is_final: bool,
) -> Result<(), OutOfMemory>
    ensures { OnOk result (text.new.items
        ≡ text.old.items ++ join_with_byte 32 (task_words name.now undeferred is_final)) }
{
    text.extend_from_slice(b"task ")?;
    text.extend_from_slice(name)?;
    match (undeferred, is_final) {
        (false, false) => Ok(()),
        (true, false) => text.extend_from_slice(b" if 0"),
        (false, true) => text.extend_from_slice(b" final 1"),
        (true, true) => text.extend_from_slice(b" if 0 final 1"),
    }
}

/// Adds a schedule as two words.
fn push_kind_and_chunk(alloc: Global, text: &mut Vec<u8>, sched: Sched) -> Result<(), OutOfMemory>
    ensures { OnOk result (text.new.items
        ≡ text.old.items ++ (kind_text sched.kind ++ 32 ∷ decimal sched.chunk)) }
{
    text.extend_from_slice(kind_text(sched.kind))?;
    push_number(alloc, text, b" ", sched.chunk.into())
}

/// Adds the words of a statement that names no function.
fn push_setting(alloc: Global, text: &mut Vec<u8>, s: &Stmt) -> Result<(), OutOfMemory>
    ensures { OnOk result (text.new.items
        ≡ text.old.items ++ join_with_byte 32 (setting_words s.now)) }
{
    match *s {
        Stmt::Taskwait => text.extend_from_slice(b"taskwait"),
        Stmt::Taskyield => text.extend_from_slice(b"taskyield"),
        Stmt::Barrier => text.extend_from_slice(b"barrier"),
        Stmt::SetNumThreads(n) => push_number(alloc, text, b"set_num_threads ", n.into()),
        Stmt::SetDynamic(b) => push_value(text, b"set_dynamic ", flag(b)),
        Stmt::SetMaxActive(n) => push_number(alloc, text, b"set_max_active_levels ", n.into()),
        Stmt::SetSchedule(sched) => {
            text.extend_from_slice(b"set_schedule ")?;
            push_kind_and_chunk(alloc, text, sched)
        }
        Stmt::SetDevice(n) => push_number(alloc, text, b"set_default_device ", n.into()),
        Stmt::Tool(x) => push_number(alloc, text, b"tool ", x),
        Stmt::Work => text.extend_from_slice(b"work"),
        _ => Ok(()),
    }
}

/// Adds the words of a statement.
fn push_words(
    alloc: Global,
    text: &mut Vec<u8>,
    funcs: &FuncList,
    s: &Stmt,
) -> Result<(), OutOfMemory>
    ensures { OnOk result (text.new.items
        ≡ text.old.items ++ join_with_byte 32 (statement_words funcs.now s.now)) }
{
    match *s {
        Stmt::Parallel { f, num: None } => push_name(text, b"parallel ", funcs, f),
        Stmt::Parallel { f, num: Some(n) } => {
            push_name(text, b"parallel ", funcs, f)?;
            push_number(alloc, text, b" num ", n.into())
        }
        Stmt::Task {
            f,
            undeferred,
            is_final,
        } => push_task(text, name_of(funcs, f), undeferred, is_final),
        Stmt::Critical { k, f } => push_counted(alloc, text, b"critical ", k.into(), funcs, f),
        Stmt::Taskgroup { f } => push_name(text, b"taskgroup ", funcs, f),
        Stmt::Call { f } => push_name(text, b"call ", funcs, f),
        Stmt::Only { m, f } => push_counted(alloc, text, b"only ", m.into(), funcs, f),
        Stmt::Repeat { n, f } => push_counted(alloc, text, b"repeat ", n.into(), funcs, f),
        _ => push_setting(alloc, text, s),
    }
}

/// Adds the line of a statement.
#[tactic(auto, unfolding(crate::specs::Canonical::line_text))]
fn push_statement(
    alloc: Global,
    text: &mut Vec<u8>,
    funcs: &FuncList,
    s: &Stmt,
) -> Result<(), OutOfMemory>
    ensures { OnOk result (text.new.items ≡ text.old.items ++ statement_text funcs.now s.now) }
{
    text.extend_from_slice(b"  ")?;
    push_words(alloc, text, funcs, s)?;
    text.extend_from_slice(b"\n")
}

/// Adds the lines of statements.
fn push_body(
    alloc: Global,
    text: &mut Vec<u8>,
    funcs: &FuncList,
    body: &[Stmt],
) -> Result<(), OutOfMemory>
    ensures { OnOk result (text.new.items
        ≡ text.old.items ++ flat_map (statement_text funcs.now) body.now) }
{
    for s in body {
        push_statement(alloc, text, funcs, s)?;
    }
    Ok(())
}

/// Adds a function.
#[tactic(auto, unfolding(crate::specs::Canonical::line_text))]
fn push_function(
    alloc: Global,
    text: &mut Vec<u8>,
    funcs: &FuncList,
    f: &Func,
) -> Result<(), OutOfMemory>
    ensures { OnOk result (text.new.items ≡ text.old.items ++ function_text funcs.now f.now) }
{
    text.extend_from_slice(b"func ")?;
    text.extend_from_slice(f.name.text())?;
    text.extend_from_slice(b"\n")?;
    push_body(alloc, text, funcs, f.body.as_slice())?;
    text.extend_from_slice(b"end\n")
}

/// Adds all functions.
fn push_functions(alloc: Global, text: &mut Vec<u8>, funcs: &FuncList) -> Result<(), OutOfMemory>
    ensures { OnOk result (text.new.items
        ≡ text.old.items ++ flat_map (function_text funcs.now) funcs.now) }
{
    for f in funcs.as_slice() {
        push_function(alloc, text, funcs, f)?;
    }
    Ok(())
}

/// Adds a head line `env NAME VALUE`.
#[tactic(auto, unfolding(crate::specs::Canonical::line_text))]
fn push_env(text: &mut Vec<u8>, name: &[u8], value: &[u8]) -> Result<(), OutOfMemory>
    ensures { OnOk result (text.new.items
        ≡ text.old.items ++ line_text (env_words name.now value.now)) }
{
    text.extend_from_slice(b"env ")?;
    text.extend_from_slice(name)?;
    text.extend_from_slice(b" ")?;
    text.extend_from_slice(value)?;
    text.extend_from_slice(b"\n")
}

/// Adds a head line `env NAME N`.
fn push_env_number(
    alloc: Global,
    text: &mut Vec<u8>,
    name: &[u8],
    n: u64,
) -> Result<(), OutOfMemory>
    ensures { OnOk result (text.new.items
        ≡ text.old.items ++ line_text (env_words name.now (decimal n))) }
{
    let digits = format!(in alloc; "{n}")?;
    push_env(text, name, digits.as_bytes())
}

/// Adds the head line of nthreads-var.
fn push_sizes(alloc: Global, text: &mut Vec<u8>, list: &NumList) -> Result<(), OutOfMemory>
    ensures { OnOk result (text.new.items
        ≡ text.old.items ++ line_text (env_words (codes "num_threads") (list_text list.now))) }
{
    let mut sizes = Vec::new(alloc);
    push_list(alloc, &mut sizes, list.as_slice())?;
    push_env(text, b"num_threads", &sizes)
}

/// Adds the head line of run-sched-var.
fn push_schedule(alloc: Global, text: &mut Vec<u8>, sched: Sched) -> Result<(), OutOfMemory>
    ensures { OnOk result (text.new.items
        ≡ text.old.items ++ line_text (env_words (codes "schedule") (schedule_text sched))) }
{
    let mut value = Vec::from_slice(alloc, kind_text(sched.kind))?;
    push_number(alloc, &mut value, b",", sched.chunk.into())?;
    push_env(text, b"schedule", &value)
}

/// Adds the head line of the number of threads.
#[tactic(auto, unfolding(crate::specs::Canonical::line_text))]
fn push_threads(alloc: Global, text: &mut Vec<u8>, threads: u8) -> Result<(), OutOfMemory>
    ensures { OnOk result (text.new.items
        ≡ text.old.items ++ line_text (codes "threads" ∷ decimal threads ∷ [])) }
{
    push_number(alloc, text, b"threads ", threads.into())?;
    text.extend_from_slice(b"\n")
}

/// Adds the last four head lines.
fn push_last_head(alloc: Global, text: &mut Vec<u8>, env: &Env) -> Result<(), OutOfMemory>
    ensures { OnOk result (text.new.items
        ≡ text.old.items ++ flat_map line_text (last_head_words env.now)) }
{
    push_schedule(alloc, text, env.sched)?;
    let device = env.device;
    push_env_number(alloc, text, b"device", device.into())?;
    push_env(text, b"debug", debug(env.debug))?;
    let procs = env.procs;
    push_env_number(alloc, text, b"procs", procs.into())
}

/// Adds the head lines.
fn push_head(alloc: Global, text: &mut Vec<u8>, threads: u8, env: &Env) -> Result<(), OutOfMemory>
    ensures { OnOk result (text.new.items
        ≡ text.old.items ++ flat_map line_text (head_words threads env.now)) }
{
    push_threads(alloc, text, threads)?;
    push_sizes(alloc, text, &env.nthreads)?;
    push_env(text, b"dynamic", truth(env.dynamic))?;
    let max_active = env.max_active;
    push_env_number(alloc, text, b"max_active_levels", max_active.into())?;
    push_last_head(alloc, text, env)
}

/// The canonical text of a program: all eight head lines, then each function with its statements.
pub fn print(alloc: Global, p: &Program) -> Result<Vec<u8>, OutOfMemory>
    ensures text { IfOk result (λ text. text.items ≡ canonical p.now) }
    ensures again { IfOk result (λ text. length text.items ≤ MAX_BYTES → Grammar text.items p.now) }
{
    let mut text = Vec::new(alloc);
    push_head(alloc, &mut text, p.threads, &p.env)?;
    push_functions(alloc, &mut text, &p.funcs)?;
    Ok(text)
}
