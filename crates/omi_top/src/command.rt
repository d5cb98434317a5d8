//! What a command line asks for.

ghost use Rattle.std.specs.Prelude.{◌≡◌, IfSome};
ghost use Rattle.std.specs.List.{All};
ghost use Rattle.std.specs.Str.{IsUtf8};
ghost use Rattle.omi_line.specs.Line.{IsText};
ghost use Rattle.omi_top.specs.Command.{audit_by, command_by, elf_by, follow_by, has_option, make_by, recode_by, run_by, show_by, stop_by, verb_by};
ghost use Rattle.omi_top.specs.Asked.{asked, IsBounded};
ghost use Rattle.omi_top.specs.CommandVerbs.{verb_of};
ghost use Rattle.omi_frame.specs.Refusal.{named};

use crate::limits::MOST_NODES;
use crate::plan::{Plan, plan_of};
use omi_frame::{Names, text_of};
use omi_line::{Line, Text, number};

/// What a command line asks for.
#[derive(Clone, Copy)]
pub enum Request<'a> {
    Stop {
        plan: Plan,
        script: &'a str,
        core: &'a str,
    },
    Make {
        nodes: u16,
        script: &'a str,
    },
    Show {
        core: &'a str,
    },
    Run {
        plan: Plan,
        script: &'a str,
        core: &'a str,
    },
    Recode {
        order: u8,
        core: &'a str,
        copy: &'a str,
    },
    Elf {
        core: &'a str,
        copy: &'a str,
    },
    Audit {
        core: &'a str,
    },
    Follow {
        core: &'a str,
        later: &'a str,
    },
    Faulty,
}

/// Whether a line has an option.
fn has_option(line: &Line) -> bool
    ensures { result ≡ has_option line.now }
{
    line.seed.is_some() || line.on.is_some() || line.count.is_some() || line.layout.is_some()
}

/// What `stop` is asked for, by the names behind it.
fn stop_by<'a>(names: &'a [Text], line: &Line) -> Request<'a>
    requires names { All IsUtf8 names.now }
    requires line { IsText line.now }
    ensures asked { asked result ≡ stop_by names.entry.now line.now }
    ensures bounded { IsBounded result }
{
    let [steps, script, core] = names else {
        return Request::Faulty;
    };
    match plan_of(steps, line) {
        Some(plan) => Request::Stop {
            plan,
            script: text_of(script),
            core: text_of(core),
        },
        None => Request::Faulty,
    }
}

/// What `make` is asked for, by the names behind it.
fn make_by<'a>(names: &'a [Text], line: &Line) -> Request<'a>
    requires { All IsUtf8 names.now }
    ensures asked { asked result ≡ make_by names.entry.now line.now }
    ensures bounded { IsBounded result }
{
    let [nodes, script] = names else {
        return Request::Faulty;
    };
    match number(nodes, 1, MOST_NODES) {
        Some(nodes) if !has_option(line) => Request::Make {
            nodes: nodes as u16,
            script: text_of(script),
        },
        _ => Request::Faulty,
    }
}

/// What `show` is asked for, by the names behind it.
fn show_by<'a>(names: &'a [Text], line: &Line) -> Request<'a>
    requires { All IsUtf8 names.now }
    ensures asked { asked result ≡ show_by names.entry.now line.now }
    ensures bounded { IsBounded result }
{
    match names {
        [core] if !has_option(line) => Request::Show {
            core: text_of(core),
        },
        _ => Request::Faulty,
    }
}

/// What `run` is asked for, by the names behind it: a run as of `stop`, and the report of its core.
fn run_by<'a>(names: &'a [Text], line: &Line) -> Request<'a>
    requires names { All IsUtf8 names.now }
    requires line { IsText line.now }
    ensures asked { asked result ≡ run_by names.entry.now line.now }
    ensures bounded { IsBounded result }
{
    match stop_by(names, line) {
        Request::Stop { plan, script, core } => Request::Run { plan, script, core },
        other => other,
    }
}

/// What `recode` is asked for, by the names behind it.
fn recode_by<'a>(names: &'a [Text], line: &Line) -> Request<'a>
    requires { All IsUtf8 names.now }
    ensures asked { asked result ≡ recode_by names.entry.now line.now }
    ensures bounded { IsBounded result }
{
    let [order, core, copy] = names else {
        return Request::Faulty;
    };
    match number(order, 0, 1) {
        Some(order) if !has_option(line) => Request::Recode {
            order: order as u8,
            core: text_of(core),
            copy: text_of(copy),
        },
        _ => Request::Faulty,
    }
}

/// What `elf` is asked for, by the names behind it.
fn elf_by<'a>(names: &'a [Text], line: &Line) -> Request<'a>
    requires { All IsUtf8 names.now }
    ensures asked { asked result ≡ elf_by names.entry.now line.now }
    ensures bounded { IsBounded result }
{
    match names {
        [core, copy] if !has_option(line) => Request::Elf {
            core: text_of(core),
            copy: text_of(copy),
        },
        _ => Request::Faulty,
    }
}

/// What `audit` is asked for, by the names behind it.
fn audit_by<'a>(names: &'a [Text], line: &Line) -> Request<'a>
    requires { All IsUtf8 names.now }
    ensures asked { asked result ≡ audit_by names.entry.now line.now }
    ensures bounded { IsBounded result }
{
    match names {
        [core] if !has_option(line) => Request::Audit {
            core: text_of(core),
        },
        _ => Request::Faulty,
    }
}

/// What `follow` is asked for, by the names behind it.
fn follow_by<'a>(names: &'a [Text], line: &Line) -> Request<'a>
    requires { All IsUtf8 names.now }
    ensures asked { asked result ≡ follow_by names.entry.now line.now }
    ensures bounded { IsBounded result }
{
    match names {
        [core, later] if !has_option(line) => Request::Follow {
            core: text_of(core),
            later: text_of(later),
        },
        _ => Request::Faulty,
    }
}

/// What a line asks for, by its verb: its first positional word.
fn verb_by(line: &Line) -> Request<'_>
    requires { IsText line.now }
    ensures asked { asked result ≡ verb_by line.now.words line.now }
    ensures bounded { IsBounded result }
{
    let [verb, names @ ..] = line.words.as_slice() else {
        return Request::Faulty;
    };
    match text_of(verb) {
        "stop" => stop_by(names, line),
        "make" => make_by(names, line),
        "show" => show_by(names, line),
        "run" => run_by(names, line),
        "recode" => recode_by(names, line),
        "elf" => elf_by(names, line),
        "audit" => audit_by(names, line),
        "follow" => follow_by(names, line),
        _ => Request::Faulty,
    }
}

/// The request that a line makes, where words make one.
pub fn request_of(line: &Option<Line>) -> Request<'_>
    requires { IfSome line.now IsText }
    ensures asked { asked result ≡ command_by line.now }
    ensures bounded { IsBounded result }
{
    match line {
        Some(line) => verb_by(line),
        None => Request::Faulty,
    }
}

/// The names of files in a request.
pub fn names_of(request: Request<'_>) -> Names<'_>
    ensures { named result ≡ (verb_of (asked request.entry)).names }
{
    let (script, core, later) = match request {
        Request::Stop { script, core, .. } | Request::Run { script, core, .. } => {
            (script, core, "")
        }
        Request::Make { script, .. } => (script, "", ""),
        Request::Show { core }
        | Request::Recode { core, .. }
        | Request::Elf { core, .. }
        | Request::Audit { core } => ("", core, ""),
        Request::Follow { core, later } => ("", core, later),
        Request::Faulty => ("", "", ""),
    };
    Names {
        script,
        core,
        later,
    }
}
