//! What the statement in work says: the variable that it sets, the word of a tool, the lock of a critical region.

ghost use Rattle.std.specs.Prelude.{◌≡◌, ◌≤◌};
ghost use Rattle.omi_script.specs.declared.limits.TheConstants.{MAX_LOCK};
ghost use Rattle.omi_step_words.specs.Placed.{HasTask};
ghost use Rattle.omi_plain.specs.Statements;
ghost use Rattle.omi_plain.specs.Statements.{in_work, set_address};

use omi_layout::{Field, Layout};
use omi_model::Shape;
use omi_numbers::{
    DEFAULT_DEVICE_VAR, DYN_VAR, MAX_ACTIVE_LEVELS_VAR, NTHREADS_VAR, RUN_SCHED_VAR,
};
use omi_pc::Actor;
use omi_script::{Program, Stmt, program_rules};
use omi_step_words::{of_runtime, of_task};

/// The number of the variable that a statement sets, and 0 where it sets none.
pub fn set_number(s: Option<Stmt>) -> u32
    ensures { result ≡ Statements.set_number s }
{
    let Some(s) = s else {
        return 0;
    };
    match Shape::of(&s) {
        Shape::Sets { variable, .. } => variable,
        _ => 0,
    }
}

/// The word to which a statement sets its variable, and 0 where it sets none.
pub fn set_word(s: Option<Stmt>) -> u64
    ensures { result ≡ Statements.set_word s }
{
    let Some(s) = s else {
        return 0;
    };
    match Shape::of(&s) {
        Shape::Sets { word, .. } => word,
        _ => 0,
    }
}

/// The address of the word of the variable that a statement sets, and 0 where it sets none.
pub fn set_address(l: &Layout, a: &Actor, s: Option<Stmt>) -> u64
    requires { HasTask l.now.table a.now.context.task }
    ensures { result ≡ set_address l.now.table a.now s }
{
    let task = a.context.task;
    match set_number(s) {
        NTHREADS_VAR => of_task(l, task, Field::TaskNthreads),
        DYN_VAR => of_task(l, task, Field::TaskDynamic),
        MAX_ACTIVE_LEVELS_VAR => of_runtime(l, Field::RuntimeMaxActive),
        RUN_SCHED_VAR => of_task(l, task, Field::TaskSchedule),
        DEFAULT_DEVICE_VAR => of_task(l, task, Field::TaskDevice),
        _ => 0,
    }
}

/// The word that the statement in work stores for a tool, and 0 for any other statement.
pub fn tool_word(p: &Program, a: &Actor) -> u64
    ensures { result ≡ Statements.tool_in (in_work p.now a.now) }
{
    match a.statement(p) {
        Some(Stmt::Tool(x)) => x,
        _ => 0,
    }
}

/// The lock of the critical region in work, and 0 for any other statement.
pub fn lock(p: &Program, a: &Actor) -> u8
    ensures value { result ≡ Statements.lock_in (in_work p.now a.now) }
    ensures range { result ≤ MAX_LOCK }
{
    program_rules();
    match a.statement(p) {
        Some(Stmt::Critical { k, .. }) => k,
        _ => 0,
    }
}
