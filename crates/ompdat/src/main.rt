//! The program: `rewind_top` over real files and standard output.
#![tactic(auto)]

use omi_frame::{tell_fault, words_of};
use omi_outside::{DiskFiles, Status, StdSink, hold_standard};
use omi_rewind_top::{rewind_complaint, rewind_forms, rewind_top};
use omi_usage::{Program, explain};
use std::process::ExitCode;

fn main(rt: HostRuntime) -> ExitCode {
    // While these are held, no file gets a descriptor of standard output.
    let _held = (hold_standard(&rt), hold_standard(&rt), hold_standard(&rt));
    let Ok(words) = words_of(&rt) else {
        return ExitCode::from(Status::OutOfMemory.code());
    };
    let mut files = DiskFiles::new(&rt);
    let mut out = StdSink::new(&rt);
    let status = rewind_top(rt.alloc(), &words, &mut files, &mut out);
    if status == Status::Usage {
        let program = Program {
            name: "ompdat",
            forms: &rewind_forms(),
        };
        explain(&rt, program, &words, rewind_complaint(&words));
    }
    tell_fault(&rt, "ompdat", status, out.fault());
    ExitCode::from(status.code())
}
