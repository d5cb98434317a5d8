//! The head of a program.
ghost use Rattle.std.specs.Prelude.{◌≡◌, IfOk};

use crate::{NumList, OutOfMemory, Sched};
use std::alloc::Global;

/// The initial values of the internal control variables, and what else stands before the first
/// function.
#[derive(Drop)]
pub struct Env {
    /// nthreads-var: 1 to `MAX_SIZES` numbers, each 1 to `MAX_SIZE`.
    pub nthreads: NumList,
    /// dyn-var.
    pub dynamic: bool,
    /// max-active-levels-var.
    pub max_active: u8,
    /// run-sched-var.
    pub sched: Sched,
    /// default-device-var.
    pub device: u8,
    /// debug-var: whether what a tool reads is kept.
    pub debug: bool,
    /// The number of processors, at least 1.
    pub procs: u16,
}

impl Env {
    /// An equal head.
    pub fn same(&self, alloc: Global) -> Result<Env, OutOfMemory>
        ensures { IfOk result (λ env. env ≡ self.now) }
    {
        Ok(Env {
            nthreads: self.nthreads.same(alloc)?,
            dynamic: self.dynamic,
            max_active: self.max_active,
            sched: self.sched,
            device: self.device,
            debug: self.debug,
            procs: self.procs,
        })
    }
}
