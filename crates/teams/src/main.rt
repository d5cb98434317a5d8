// `teams CORE`: what each thread of a stopped program does, by the library alone. docs/LIBRARY.md walks through it.
#![tactic(auto)]

mod failure;
mod lines;

use crate::failure::Failure;
use crate::lines::Lines;
use omi::{DiskFiles, look_into};
use std::alloc::AllocError;
use std::env;
use std::env::Env;
use std::io::ErrorKind;
use std::process::ExitCode;

/// The name of the core: the one word behind the program's name.
fn name_of<R: Env + AllocGlobal>(rt: &R) -> Result<String, Failure> {
    let words = match env::args(rt) {
        Ok(words) => words,
        Err(e) if e.kind() == ErrorKind::OutOfMemory => {
            return Err(Failure::OutOfMemory(AllocError));
        }
        Err(_) => return Err(Failure::NoText),
    };
    let mut words = words.skip(1);
    match (words.next(), words.next()) {
        (Some(name), None) => Ok(name),
        (None, _) => Err(Failure::NoName),
        _ => Err(Failure::MoreNames),
    }
}

/// The lines of the core of this name.
fn lines_of(rt: &HostRuntime, name: &str) -> Result<String, Failure> {
    let mut lines = Lines {
        alloc: rt.alloc(),
        text: String::new(rt.alloc()),
        end: Ok(()),
    };
    look_into(rt.alloc(), &mut DiskFiles::new(rt), name, &mut lines)?;
    lines.end?;
    Ok(lines.text)
}

fn main(rt: HostRuntime) -> ExitCode {
    let name = match name_of(&rt) {
        Ok(name) => name,
        Err(failure) => {
            let _ = eprintln!(rt; "teams: {failure}");
            return ExitCode::from(failure.status());
        }
    };
    match lines_of(&rt, &name) {
        Ok(text) => match print!(rt; "{text}") {
            Ok(()) => ExitCode::SUCCESS,
            Err(error) => {
                let _ = eprintln!(rt; "teams: standard output: {error}");
                ExitCode::from(5)
            }
        },
        Err(failure) => {
            let _ = eprintln!(rt; "teams: {name:?}: {failure}");
            ExitCode::from(failure.status())
        }
    }
}
