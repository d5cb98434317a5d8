//! Functions, and lists of them.

use crate::{Name, StmtList};
use omi_list::{List, OutOfMemory, Same};
use std::alloc::Global;

/// A function of a script.
#[derive(Drop)]
pub struct Func {
    pub name: Name,
    pub body: StmtList,
}

impl Same for Func {
    fn same(&self, alloc: Global) -> Result<Func, OutOfMemory> {
        Ok(Func {
            name: self.name,
            body: self.body.same(alloc)?,
        })
    }
}

/// The functions of a script, numbered from 0 in the order of the text.
pub type FuncList = List<Func>;
