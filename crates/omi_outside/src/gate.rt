// What threads pass before their steps.
/// What threads pass before their steps: a test's hold on them, or a program's.
pub trait Gate: Sync {
    /// Called once, before the first step of any thread, with the number of threads and the most steps that each makes. It always
    /// returns.
    fn open(&self, _threads: u8, _budget: u64) {}

    /// Called before step number `step` of thread number `thread`, from 1. It always returns.
    fn pass(&self, thread: u8, step: u64);
}

/// Lets everything through.
#[derive(Clone, Copy, Debug, Default)]
pub struct FreeGate;

impl Gate for FreeGate {
    fn pass(&self, _thread: u8, _step: u64) {}
}
