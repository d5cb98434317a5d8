//! Why there are no lines: the message, and the status of the program.

use omi::{ChainError, OpenError, Rc};
use std::alloc::AllocError;
use thiserror::Error;

#[derive(Clone, Copy, Debug, PartialEq, Eq, Error)]
pub enum Failure {
    #[error("no core is named: teams CORE")]
    NoName,
    #[error("more than one core is named: teams CORE")]
    MoreNames,
    #[error("a word is no text in UTF-8: teams CORE")]
    NoText,
    #[error("{0}")]
    NotOpened(#[from] OpenError),
    /// An inquiry was refused.
    #[error("{0}")]
    Refused(#[from] Rc),
    #[error("{0}")]
    Chain(#[from] ChainError),
    #[error("out of memory")]
    OutOfMemory(#[from(alloc)] AllocError),
}

impl Failure {
    /// 1 for no such command, 2 for a file that cannot be read, 3 for a core that is none or is damaged, and 4 for want of memory.
    pub fn status(&self) -> u8 {
        match self {
            Failure::NoName | Failure::MoreNames | Failure::NoText => 1,
            Failure::NotOpened(OpenError::NoFile | OpenError::NotRead) => 2,
            Failure::NotOpened(OpenError::OutOfMemory) => 4,
            Failure::Refused(Rc::NoMem) | Failure::Chain(ChainError::Refused(Rc::NoMem)) => 4,
            Failure::OutOfMemory(_) => 4,
            _ => 3,
        }
    }
}
