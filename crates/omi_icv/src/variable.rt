//! The control variables: where the value of each stands, and how it is spelled.

ghost use Rattle.std.specs.Prelude.{◌≡◌, option_map};
ghost use Rattle.omi_icv.specs.Table.{row_of, variable_in};

use crate::scoped::Scope;
use crate::scoped::Scope::{AddressSpace, Parallel, Task, Thread};
use crate::variable::Source::{Elements, MemberNumber, TeamSize, Word};
use crate::variable::Spelling::{Decimal, Schedule, Switch};
use omi_layout::Field;
use omi_numbers::{
    ACTIVE_LEVELS_VAR, DEBUG_VAR, DEFAULT_DEVICE_VAR, DYN_VAR, FINAL_TASK_VAR, IMPLICIT_TASK_VAR,
    LEVELS_VAR, MAX_ACTIVE_LEVELS_VAR, NTHREADS_VAR, NUM_PROCS_VAR, RUN_SCHED_VAR, TEAM_SIZE_VAR,
    THREAD_NUM_VAR,
};
use omi_session::Rc;

/// Where the value of a variable stands.
#[derive(Clone, Copy)]
pub enum Source {
    /// In a field of the record of what is asked about.
    Word(Field),
    /// In region.size, which has to be from 1 to the number of threads.
    TeamSize,
    /// In task.nthn and as many words of task.nth.
    Elements,
    /// In task.number of a thread's current task.
    MemberNumber,
}

/// How a number of a variable's value is spelled.
#[derive(Clone, Copy)]
pub enum Spelling {
    Decimal,
    /// As the kind of a schedule and its chunk.
    Schedule,
    /// As disabled for 0, and else as enabled.
    Switch,
}

/// What is known of a variable besides its number and its name.
#[derive(Clone, Copy)]
pub struct Variable {
    pub scope: Scope,
    pub source: Source,
    pub spelling: Spelling,
}

/// The variable with a number.
fn find_variable(icv: u32) -> Option<Variable>
    ensures { result ≡ option_map (λ row. row.variable) (row_of icv) }
{
    let (scope, source, spelling) = match icv {
        DYN_VAR => (Task, Word(Field::TaskDynamic), Decimal),
        NTHREADS_VAR => (Task, Elements, Decimal),
        RUN_SCHED_VAR => (Task, Word(Field::TaskSchedule), Schedule),
        DEFAULT_DEVICE_VAR => (Task, Word(Field::TaskDevice), Decimal),
        FINAL_TASK_VAR => (Task, Word(Field::TaskFinal), Decimal),
        IMPLICIT_TASK_VAR => (Task, Word(Field::TaskImplicit), Decimal),
        MAX_ACTIVE_LEVELS_VAR => (AddressSpace, Word(Field::RuntimeMaxActive), Decimal),
        DEBUG_VAR => (AddressSpace, Word(Field::RuntimeDebug), Switch),
        NUM_PROCS_VAR => (AddressSpace, Word(Field::RuntimeProcs), Decimal),
        LEVELS_VAR => (Parallel, Word(Field::RegionLevels), Decimal),
        ACTIVE_LEVELS_VAR => (Parallel, Word(Field::RegionActive), Decimal),
        TEAM_SIZE_VAR => (Parallel, TeamSize, Decimal),
        THREAD_NUM_VAR => (Thread, MemberNumber, Decimal),
        _ => return None,
    };
    Some(Variable {
        scope,
        source,
        spelling,
    })
}

/// The variable with a number, which has to have this scope. Unsupported where there is none.
pub fn variable_in(scope: Scope, icv: u32) -> Result<Variable, Rc>
    ensures { result ≡ variable_in scope icv }
{
    match find_variable(icv) {
        Some(variable) if variable.scope.number() == scope.number() => Ok(variable),
        _ => Err(Rc::Unsupported),
    }
}

/// The scope of the variable with a number.
pub fn variable_scope(icv: u32) -> Option<Scope>
    ensures { result ≡ option_map (λ row. row.variable.scope) (row_of icv) }
{
    let variable = find_variable(icv)?;
    Some(variable.scope)
}
