//! From a text to its program.
ghost use Rattle.std.specs.Prelude.{IfOk, IfErr};
ghost use Rattle.omi_script.specs.declared.program.Program.{Program};
ghost use Rattle.omi_script.specs.Errors.{IfFault};
ghost use Rattle.omi_script.specs.Rules.{Rules};
ghost use Rattle.omi_script.specs.Grammar.{Grammar, Refused};

use crate::fault::LineError;
use crate::limits::MAX_BYTES;
use crate::parser::Parser;
use crate::pieces::{Separator, cut};
use crate::{Program, ScriptError, Why};
use std::alloc::Global;

/// The program that a text says. Where it says none: its first faulty line, counted from 1, and
/// the least fault of that line. The end of the text is a line of its own.
pub fn parse(alloc: Global, bytes: &[u8]) -> Result<Program, ScriptError>
    ensures accepted { IfOk result (λ p. Grammar bytes.now p) }
    ensures refused { IfErr result (λ e. IfFault (Refused bytes.now) e) }
{
    if bytes.len() > MAX_BYTES {
        return Err(LineError::Fault(Why::OverLimit).at(1));
    }
    let mut parser = Parser::first(alloc);
    let mut number = 1;
    let mut rest = bytes;
    'lines: while !rest.is_empty() {
        let (line, below) = cut(Separator::LineFeed, rest);
        match parser.read(alloc, line) {
            Ok(after) => parser = after,
            Err(e) => return Err(e.at(number)),
        }
        number += 1;
        rest = below;
    }
    match parser.program(alloc) {
        Ok(program) => Ok(program),
        Err(e) => Err(e.at(number)),
    }
}

/// Each program meets the rules of the language.
pub fn program_rules()
    ensures { (p : Program) → Rules p }
{}
