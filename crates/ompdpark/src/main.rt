// The program: `park_top` over real files and standard output.
#![tactic(auto)]

use omi_frame::{handed_over, tell_fault, words_of};
use omi_outside::{DiskFiles, Status, StdSink, hold_standard};
use omi_park::{park_complaint, park_form, park_top};
use omi_seat::{MOST_TURNS, StartGate};
use omi_usage::{Program, explain};
use std::process::ExitCode;

fn main(rt: HostRuntime) -> ExitCode {
    // While these are held, no file gets a descriptor of standard output.
    let _held = (hold_standard(&rt), hold_standard(&rt), hold_standard(&rt));
    let Ok(words) = words_of(&rt) else {
        return ExitCode::from(Status::OutOfMemory.code());
    };
    let mut files = DiskFiles::new(&rt);
    let mut out = StdSink::new(&rt);
    let status = park_top(
        &rt,
        rt.alloc(),
        &words,
        &mut files,
        &mut out,
        &StartGate::of(MOST_TURNS),
    );
    if status == Status::Usage {
        let program = Program {
            name: "ompdpark",
            forms: &[park_form()],
        };
        explain(&rt, program, &words, park_complaint(&words));
    }
    let status = handed_over(status, &mut files);
    tell_fault(&rt, "ompdpark", status, files.fault().or(out.fault()));
    ExitCode::from(status.code())
}
