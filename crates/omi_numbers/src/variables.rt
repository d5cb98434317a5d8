//! The internal control variables of this profile, by number and by the name of OpenMP 5.0.

ghost use Rattle.std.specs.Prelude.{◌≡◌};
ghost use Rattle.std.specs.Option.{option_copied};
ghost use Rattle.omi_numbers.specs.Names.{name_in};
ghost use Rattle.omi_numbers.specs.Variables.{variables};

/// No variable: the enumeration of variables begins behind it.
pub const UNDEFINED_VARIABLE: u32 = 0;

pub const DYN_VAR: u32 = 1;

pub const NTHREADS_VAR: u32 = 2;

pub const RUN_SCHED_VAR: u32 = 3;

pub const DEFAULT_DEVICE_VAR: u32 = 4;

pub const FINAL_TASK_VAR: u32 = 5;

pub const IMPLICIT_TASK_VAR: u32 = 6;

pub const MAX_ACTIVE_LEVELS_VAR: u32 = 7;

pub const DEBUG_VAR: u32 = 8;

pub const NUM_PROCS_VAR: u32 = 9;

pub const LEVELS_VAR: u32 = 10;

pub const ACTIVE_LEVELS_VAR: u32 = 11;

pub const TEAM_SIZE_VAR: u32 = 12;

/// The last variable: numbers are from 1 to this.
pub const THREAD_NUM_VAR: u32 = 13;

/// The name of a variable. None for a number that this profile gives no variable.
pub fn variable_name(icv: u32) -> Option<&'static str>
    ensures { option_copied result ≡ name_in variables icv }
{
    match icv {
        DYN_VAR => Some("dyn-var"),
        NTHREADS_VAR => Some("nthreads-var"),
        RUN_SCHED_VAR => Some("run-sched-var"),
        DEFAULT_DEVICE_VAR => Some("default-device-var"),
        FINAL_TASK_VAR => Some("final-task-var"),
        IMPLICIT_TASK_VAR => Some("implicit-task-var"),
        MAX_ACTIVE_LEVELS_VAR => Some("max-active-levels-var"),
        DEBUG_VAR => Some("debug-var"),
        NUM_PROCS_VAR => Some("num-procs-var"),
        LEVELS_VAR => Some("levels-var"),
        ACTIVE_LEVELS_VAR => Some("active-levels-var"),
        TEAM_SIZE_VAR => Some("team-size-var"),
        THREAD_NUM_VAR => Some("thread-num-var"),
        _ => None,
    }
}
