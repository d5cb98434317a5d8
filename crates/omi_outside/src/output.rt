// The thin edge over standard output. It tells no bytes, counts each fault, and keeps the reason of the last one.
ghost use Rattle.std.specs.Prelude.{◌≡◌, None};

use crate::{Fault, Place, Refused, Sink};
use std::fs;
use std::os::fd::AsRawFd;

/// The greatest descriptor of standard input, output and error.
const LAST_STANDARD: i32 = 2;

/// Takes the least descriptor that is free, if it is one of standard input, output and error. A
/// program that was started with some of them closed would get one for a file that it opens, and
/// would print into that file. So it calls this three times before it opens any, and keeps what it
/// gets. A put to a descriptor that was taken so is a fault.
pub fn hold_standard<R: fs::Files>(rt: &R) -> Option<R::File>
where
    R::File: AsRawFd,
{
    let file = fs::open(rt, "/").ok()?;
    if file.as_raw_fd() > LAST_STANDARD {
        return None;
    }
    Some(file)
}

/// Standard output.
pub struct StdSink<R: Print + Drop> {
    rt: R,
    faults: u64,
    fault: Option<Fault>,
}

// Written out: docs/DECISIONS.md, "A drop written out".
impl<R: Print + Drop> Drop for StdSink<R> {
    fn drop(self) {
        let StdSink {
            rt: _rt,
            faults: _faults,
            fault: _fault,
        } = self;
    }
}

impl<R: Print + Drop> StdSink<R> {
    /// The count is 0.
    pub fn new(rt: R) -> StdSink<R>
        ensures told { ⟦<StdSink<R> as Sink>⟧.told result ≡ None }
        ensures faults { ⟦<StdSink<R> as Sink>⟧.faults result ≡ 0 }
        ensures wants { ⟦<StdSink<R> as Sink>⟧.wants result ≡ 0 }
    {
        StdSink {
            rt,
            faults: 0,
            fault: None,
        }
    }

    /// The put that the system refused last.
    pub fn fault(&self) -> Option<&Fault> {
        self.fault.as_ref()
    }
}

impl<R: Print + Drop> Sink for StdSink<R> {
    ghost told = { λ _. None };

    ghost faults = { λ sink. sink.faults };

    ghost wants = { λ _. 0 };

    fn put(&mut self, bytes: &[u8]) -> Result<(), Refused> {
        match self.rt.write_all(bytes) {
            Ok(()) => Ok(()),
            Err(reason) => {
                self.faults = self.faults.saturating_add(1);
                self.fault = Some(Fault {
                    place: Place::Output,
                    reason,
                });
                Err(Refused::Failed)
            }
        }
    }
}
