// The program: `live_top` over real files and standard output.
#![tactic(auto)]

use omi_frame::{handed_over, tell_fault, words_of};
use omi_live::{live_complaint, live_form, live_top};
use omi_outside::{DiskFiles, Status, StdSink, hold_standard};
use omi_seat::{MOST_TURNS, StartGate};
use omi_usage::{Program, explain};
use std::process::ExitCode;

fn main(rt: HostRuntime) -> ExitCode {
    // While these are held, no file gets a descriptor of standard output.
    let _held = (hold_standard(&rt), hold_standard(&rt), hold_standard(&rt));
    let Ok(words) = words_of(&rt) else {
        return ExitCode::from(Status::OutOfMemory.code());
    };
    let mut files = DiskFiles::new(&rt);
    let mut out = StdSink::new(&rt);
    let status = live_top(
        &rt,
        rt.alloc(),
        &words,
        &mut files,
        &mut out,
        &StartGate::of(MOST_TURNS),
    );
    if status == Status::Usage {
        let program = Program {
            name: "ompdlive",
            forms: &[live_form()],
        };
        explain(&rt, program, &words, live_complaint(&words));
    }
    let status = handed_over(status, &mut files);
    tell_fault(&rt, "ompdlive", status, files.fault().or(out.fault()));
    ExitCode::from(status.code())
}
