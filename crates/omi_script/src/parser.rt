//! The parser: its state between two lines, and what it answers at each line and at the end of
//! the text.
ghost use Rattle.omi_script.specs.Counts.{AreCounted};

use crate::closed::Closed;
use crate::fault::LineError;
use crate::head::Head;
use crate::limits::MAX_FUNCTIONS;
use crate::line::{HeadLine, SourceLine, line_of};
use crate::pieces::are_text;
use crate::statement::Construct;
use crate::statement_faults::statement_fault;
use crate::{Func, Name, Program, Stmt, StmtList, Why};
use std::alloc::Global;

/// The name of the function that a program begins with.
const MAIN: &[u8] = b"main";

/// What the lines above say, none of which has a fault.
#[derive(Drop)]
pub struct ParserState {
    pub head: Head,
    /// The functions whose `end` was read.
    pub closed: Closed,
    /// The function whose `end` was not read yet.
    pub opened: Option<Func>,
}

/// The state behind some lines, with the number of statements above.
#[derive(Drop)]
pub struct Parser {
    pub state: ParserState,
    pub statements: usize,
    pub ghost counted: { AreCounted state.closed statements state.opened },
}

impl Parser {
    ghost use Rattle.std.specs.Prelude.{◌≡◌, position, codes, IfOk, IfErr};
    ghost use Rattle.omi_script.specs.ParserState.{first_state, parser_after, is_called};
    ghost use Rattle.omi_script.specs.LineFaults.{has_fault, has_end_fault, least};
    ghost use Rattle.omi_script.specs.ParserAnswers.{Answers, AnswersSaid, AnswersStatement, MayEnd, EndAnswers};
    ghost use Rattle.omi_script.specs.declared.line.SourceLine.TheVariants as says;

    /// The state before the first line.
    pub fn first(alloc: Global) -> Parser
        ensures { result.state ≡ first_state }
    {
        Parser {
            state: ParserState {
                head: Head::new(),
                closed: Closed::new(alloc),
                opened: None,
            },
            statements: 0,
        }
    }

    /// Reads a head line, which stands above the functions, once of its kind.
    fn head(self, line: HeadLine) -> Result<Parser, LineError>
        ensures { AnswersSaid self.state (says.Head line) result }
    {
        if self.state.opened.is_some() || self.state.closed.len() > 0 {
            return Err(LineError::Fault(Why::UnknownWord));
        }
        if !line.has_number() {
            return Err(LineError::Fault(Why::BadNumber));
        }
        if self.state.head.has(&line) {
            return Err(LineError::Fault(Why::Repeated));
        }
        let statements = self.statements;
        let state = self.state;
        Ok(Parser {
            state: ParserState {
                head: state.head.after(line),
                closed: state.closed,
                opened: state.opened,
            },
            statements,
        })
    }

    /// Reads the line of a function.
    fn function(self, alloc: Global, word: &[u8]) -> Result<Parser, LineError>
        ensures { AnswersSaid self.state (says.Function word.now) result }
    {
        if self.state.opened.is_some() {
            return Err(LineError::Fault(Why::UnknownWord));
        }
        let Some(name) = Name::of(word) else {
            return Err(LineError::Fault(Why::UnknownName));
        };
        if self.state.closed.has(word) {
            return Err(LineError::Fault(Why::Repeated));
        }
        if self.state.closed.len() >= MAX_FUNCTIONS {
            return Err(LineError::Fault(Why::OverLimit));
        }
        let statements = self.statements;
        let state = self.state;
        let function = Func {
            name,
            body: StmtList::new(alloc),
        };
        Ok(Parser {
            state: ParserState {
                head: state.head,
                closed: state.closed,
                opened: Some(function),
            },
            statements,
        })
    }

    /// Reads a statement of the open function, with the number of the function that it names.
    fn statement(self, statement: Stmt) -> Result<Parser, LineError>
        ensures { AnswersStatement self.state statement result }
    {
        let above = self.state.closed.reaches();
        if let Some(why) = statement_fault(above, self.statements, &statement) {
            return Err(LineError::Fault(why));
        }
        let mut parser = self;
        if let Some(function) = &mut parser.state.opened {
            function.body.push(statement)?;
            parser.statements += 1;
        }
        Ok(parser)
    }

    /// Reads a statement that names no function. None where a number is not in its range.
    fn stand_alone(self, statement: Option<Stmt>) -> Result<Parser, LineError>
        ensures { AnswersSaid self.state (says.StandAlone statement) result }
    {
        if self.state.opened.is_none() {
            return Err(LineError::Fault(Why::UnknownWord));
        }
        let Some(statement) = statement else {
            return Err(LineError::Fault(Why::BadNumber));
        };
        self.statement(statement)
    }

    /// Reads a statement over the function with a name. None where a number is not in its range.
    fn construct(self, name: &[u8], construct: Option<Construct>) -> Result<Parser, LineError>
        ensures { AnswersSaid self.state (says.Construct name.now construct) result }
    {
        if self.state.opened.is_none() {
            return Err(LineError::Fault(Why::UnknownWord));
        }
        let Some(construct) = construct else {
            return Err(LineError::Fault(Why::BadNumber));
        };
        let Some(f) = self.state.closed.number_of(name) else {
            return Err(LineError::Fault(Why::UnknownName));
        };
        self.statement(construct.over(f))
    }

    /// Reads an `end`.
    fn end(self) -> Result<Parser, LineError>
        ensures { AnswersSaid self.state says.End result }
    {
        let statements = self.statements;
        let state = self.state;
        let opened = state.opened;
        let Some(function) = opened else {
            return Err(LineError::Fault(Why::UnknownWord));
        };
        Ok(Parser {
            state: ParserState {
                head: state.head,
                closed: state.closed.with(function)?,
                opened: None,
            },
            statements,
        })
    }

    /// Reads a line that says this.
    fn line(self, alloc: Global, line: SourceLine) -> Result<Parser, LineError>
        ensures { AnswersSaid self.state line.entry result }
    {
        match line {
            SourceLine::Blank => Ok(self),
            SourceLine::Head(line) => self.head(line),
            SourceLine::Function(name) => self.function(alloc, name.bytes()),
            SourceLine::Construct(name, construct) => self.construct(name.bytes(), construct),
            SourceLine::StandAlone(statement) => self.stand_alone(statement),
            SourceLine::End => self.end(),
        }
    }

    /// Reads a line: the state after it, or its least fault.
    pub fn read(self, alloc: Global, bytes: &[u8]) -> Result<Parser, LineError>
        ensures { Answers (has_fault self.state bytes.now) (parser_after self.state bytes.now)
            result }
    {
        if !are_text(bytes) {
            return Err(LineError::Fault(Why::NotText));
        }
        match line_of(alloc, bytes)? {
            Some(line) => self.line(alloc, line),
            None => Err(LineError::Fault(Why::UnknownWord)),
        }
    }

    /// The least fault at the end of the text, where this function is open.
    fn unclosed(&self, function: &Func) -> Why
        ensures { self.now.state.opened ≡ Some function.now
            → least (has_end_fault self.now.state) ≡ Some result }
    {
        if function.name.text() == MAIN || self.state.closed.has(MAIN) {
            Why::Unclosed
        } else {
            Why::NoMain
        }
    }

    /// The number of `main` at the end of the text, or the least fault of the end.
    fn main(&self) -> Result<u8, Why>
        ensures main { IfOk result (λ main.
            Some main ≡ position (is_called (codes "main")) self.now.state.closed) }
        ensures none { IfOk result (λ _. least (has_end_fault self.now.state) ≡ None) }
        ensures fault { IfErr result (λ why. least (has_end_fault self.now.state) ≡ Some why) }
    {
        if let Some(function) = &self.state.opened {
            return Err(self.unclosed(function));
        }
        match self.state.closed.number_of(MAIN) {
            Some(main) => Ok(main),
            None => Err(Why::NoMain),
        }
    }

    /// The program that the lines above say, at the end of the text, or the least fault of the end.
    pub fn program(self, alloc: Global) -> Result<Program, LineError>
        requires { MayEnd self.state }
        ensures { EndAnswers self.state result }
    {
        let main = match self.main() {
            Ok(main) => main,
            Err(why) => return Err(LineError::Fault(why)),
        };
        let state = self.state;
        let threads = state.head.threads();
        let env = state.head.env(alloc)?;
        Ok(Program {
            threads,
            env,
            funcs: state.closed.into_funcs(),
            main,
        })
    }
}
