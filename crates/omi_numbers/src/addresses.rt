//! The addresses of functions and of the frames of tasks. Each thread has a stack, and each task that runs there a frame below
//! that of the task that it was scheduled from.

ghost use Rattle.std.specs.Prelude.{◌≡◌, ◌≤◌, ◌*◌};
ghost use Rattle.omi_numbers.specs.declared.addresses.TheConstants.{FIRST_STACK, FRAME_SIZE};
ghost use Rattle.omi_numbers.specs.Addresses;

/// The entry address of function 0.
pub const FIRST_FUNCTION: u64 = 0x40_0000;

/// The bytes from the entry address of a function to that of the next one.
pub const FUNCTION_SIZE: u64 = 16;

/// The byte address at which the stack of thread 0 begins. Those of the other threads follow.
pub const FIRST_STACK: u64 = 0x7f00_0000_0000;

/// The bytes of a thread's stack.
pub const STACK_SIZE: u64 = 0x10_0000;

/// How far the exit frame of a task lies below that of the task that it was scheduled from.
pub const FRAME_SIZE: u64 = 64;

/// How far the enter frame of a task lies below its exit frame.
pub const ENTER_BELOW_EXIT: u64 = 32;

/// The entry address of a function, by its number.
pub fn entry_address(f: u8) -> u64
    ensures { result ≡ Addresses.entry_address f }
{
    FIRST_FUNCTION + FUNCTION_SIZE * u64::from(f)
}

/// The number of the function with an entry address.
pub fn function_at(address: u64) -> u8
    ensures { result ≡ Addresses.function_at address }
{
    (address.saturating_sub(FIRST_FUNCTION) / FUNCTION_SIZE % 256) as u8
}

/// The exit frame of a thread's task, where so many tasks are on the thread's chain, this one included.
pub fn exit_frame(thread: u8, depth: u64) -> u64
    requires { FRAME_SIZE * depth ≤ FIRST_STACK }
    ensures { result ≡ Addresses.exit_frame thread depth }
{
    FIRST_STACK + STACK_SIZE * (u64::from(thread) + 1) - FRAME_SIZE * depth
}

/// The exit frame of a task that is scheduled from a task with this exit frame.
pub fn exit_below(exit: u64) -> u64
    ensures { result ≡ Addresses.exit_below exit }
{
    exit.saturating_sub(FRAME_SIZE)
}

/// The enter frame of a task with this exit frame.
pub fn enter_frame(exit: u64) -> u64
    ensures { result ≡ Addresses.enter_frame exit }
{
    exit.saturating_sub(ENTER_BELOW_EXIT)
}
