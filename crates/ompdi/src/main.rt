// The program: `run_top` over real files and standard output.
#![tactic(auto)]

use omi_frame::{handed_over, tell_fault, words_of};
use omi_outside::{DiskFiles, Status, StdSink, hold_standard};
use omi_top::{run_complaint, run_forms, run_top};
use omi_usage::{Program, explain};
use std::process::ExitCode;

fn main(rt: HostRuntime) -> ExitCode {
    // While these are held, no file gets a descriptor of standard output.
    let _held = (hold_standard(&rt), hold_standard(&rt), hold_standard(&rt));
    let Ok(words) = words_of(&rt) else {
        return ExitCode::from(Status::OutOfMemory.code());
    };
    let mut files = DiskFiles::new(&rt);
    let mut dest = DiskFiles::new(&rt);
    let mut out = StdSink::new(&rt);
    let status = run_top(rt.alloc(), &words, &mut files, &mut dest, &mut out);
    if status == Status::Usage {
        let program = Program {
            name: "ompdi",
            forms: &run_forms(),
        };
        explain(&rt, program, &words, run_complaint(&words));
    }
    let status = handed_over(status, &mut dest);
    tell_fault(&rt, "ompdi", status, dest.fault().or(out.fault()));
    ExitCode::from(status.code())
}
