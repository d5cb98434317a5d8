//! The native ids that the core of a process lists.

use omi_word::Natives;

/// The native ids that the core of a process lists.
#[derive(Drop)]
pub enum Listed {
    /// Those of the note of ours: the threads of OpenMP, whose ids rise.
    Contexts(Natives),
    /// Those of all threads that the kernel or a debugger wrote, in the file's order. There is no note of ours.
    Threads(Natives),
}
