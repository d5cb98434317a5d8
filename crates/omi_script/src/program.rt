//! Programs.
ghost use Rattle.std.specs.Prelude.{IsTrue};
ghost use Rattle.omi_script.specs.Program.{is_program};

use crate::{Env, FuncList, OutOfMemory};
use std::alloc::Global;

/// What a script says. `main` is the number of the function with the name `main`.
pub struct Program {
    /// The number of threads, 1 to `MAX_THREADS`.
    pub threads: u8,
    pub env: Env,
    pub funcs: FuncList,
    pub main: u8,
    /// Every rule of the language but for the size of a text.
    pub ghost accepted: { IsTrue (is_program threads env funcs main) },
}

// Written out: docs/DECISIONS.md, "A drop written out".
impl Drop for Program {
    fn drop(self) {
        let Program {
            threads: _threads,
            env: _env,
            funcs: _funcs,
            main: _main,
        } = self;
    }
}

impl Program {
    ghost use Rattle.std.specs.Prelude.{IfOk};
    ghost use Rattle.omi_script.specs.Grammar.{AreEqual};

    /// An equal program.
    pub fn same(&self, alloc: Global) -> Result<Program, OutOfMemory>
        ensures { IfOk result (λ p. AreEqual p self.now) }
    {
        let env = self.env.same(alloc)?;
        let funcs = self.funcs.same(alloc)?;
        Ok(Program {
            threads: self.threads,
            env,
            funcs,
            main: self.main,
        })
    }
}
