//! The states of a thread by OpenMP 5.0, by number and by name.

ghost use Rattle.std.specs.Prelude.{◌≡◌};
ghost use Rattle.std.specs.Option.{option_copied};
ghost use Rattle.omi_numbers.specs.Names.{name_in};
ghost use Rattle.omi_numbers.specs.States.{states};

/// Works in the initial region.
pub const WORK_SERIAL: u32 = 0x000;

/// Works in a region other than the initial one.
pub const WORK_PARALLEL: u32 = 0x001;

/// Waits at the implicit barrier at the end of a parallel region.
pub const WAIT_BARRIER_IMPLICIT_PARALLEL: u32 = 0x011;

/// Waits at an explicit barrier.
pub const WAIT_BARRIER_EXPLICIT: u32 = 0x014;

/// Waits for the children of its task.
pub const WAIT_TASKWAIT: u32 = 0x020;

/// Waits for the tasks of a taskgroup at its end.
pub const WAIT_TASKGROUP: u32 = 0x021;

/// Waits for a lock.
pub const WAIT_CRITICAL: u32 = 0x042;

/// Has no task.
pub const IDLE: u32 = 0x100;

/// Makes a team.
pub const OVERHEAD: u32 = 0x101;

/// No state: the enumeration of states begins behind it.
pub const UNDEFINED_STATE: u32 = 0x102;

/// The name of a state. None for a number that this profile gives no state.
pub fn state_name(state: u32) -> Option<&'static str>
    ensures { option_copied result ≡ name_in states state }
{
    match state {
        WORK_SERIAL => Some("work_serial"),
        WORK_PARALLEL => Some("work_parallel"),
        WAIT_BARRIER_IMPLICIT_PARALLEL => Some("wait_barrier_implicit_parallel"),
        WAIT_BARRIER_EXPLICIT => Some("wait_barrier_explicit"),
        WAIT_TASKWAIT => Some("wait_taskwait"),
        WAIT_TASKGROUP => Some("wait_taskgroup"),
        WAIT_CRITICAL => Some("wait_critical"),
        IDLE => Some("idle"),
        OVERHEAD => Some("overhead"),
        _ => None,
    }
}
