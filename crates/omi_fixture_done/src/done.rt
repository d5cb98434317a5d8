//! What a call leaves.

use omi_outside::{MemFiles, MemSink, Status};
use std::alloc::Global;
use std::test::Fail;

/// The status of a call, the files that it wrote or may have written, and its output.
pub struct Done {
    pub status: Status,
    pub files: MemFiles,
    pub out: MemSink,
}

// Written out: docs/DECISIONS.md, "A drop written out".
impl Drop for Done {
    fn drop(self) {
        let Done {
            status: _status,
            files: _files,
            out: _out,
        } = self;
    }
}

impl Done {
    /// The bytes that a call left under a name. An error where it didn't succeed or left nothing there.
    pub fn left(&self, alloc: Global, name: &str) -> Result<Vec<u8>, Fail> {
        if self.status != Status::Success {
            return Err(Fail::from("no success"));
        }
        let bytes = self.files.bytes(name).ok_or("no such file")?;
        Ok(bytes.to_vec(alloc)?)
    }

    /// The bytes under the name `c`, if any.
    pub fn core(&self) -> Option<&[u8]> {
        self.files.bytes("c")
    }

    /// Whether a file has just these bytes.
    pub fn holds(&self, name: &str, wanted: &[u8]) -> bool {
        match self.files.bytes(name) {
            Some(held) => held == wanted,
            None => false,
        }
    }

    /// What was printed.
    pub fn printed(&self, alloc: Global) -> Result<String, Fail> {
        Ok(String::from_utf8(self.out.bytes().to_vec(alloc)?).map_err(|_| "no text")?)
    }
}
