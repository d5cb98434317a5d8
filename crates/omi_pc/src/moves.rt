//! Moves that several steps have in common.

ghost use Rattle.std.specs.Prelude.{◌≡◌, ◌<◌, length};
ghost use Rattle.omi_pc.specs.Frames.{statement_of, without_top};
ghost use Rattle.omi_pc.specs.declared.limits.TheConstants.{STACK_ROOM};
ghost use Rattle.omi_pc.specs.Moves.{begun_explicit, begun_master, begun_task, begun_worker, closed, next_round, returned, worked, back_to_work};
ghost use Rattle.omi_pc.specs.OpenBodies.{AreOpen};

use crate::settle::statement_at;
use crate::{Actor, Context, Frame, Opened, PlainCounter, Wait};
use omi_script::{Program, Stmt};

impl Actor {
    /// The statement in work. None where no body is open, or the innermost one has not begun.
    pub fn statement(&self, p: &Program) -> Option<Stmt>
        ensures { result ≡ statement_of p.now self.now.stack }
    {
        let top = self.stack.top()?;
        let at = top.next.checked_sub(1)?;
        statement_at(p, top.function, at)
    }

    /// Another task is current. Takes no memory.
    fn begin_task(&mut self, f: u8, opened: Opened, context: Context)
        requires { length self.old.stack < STACK_ROOM }
        ensures { self.new ≡ begun_task f opened context self.old }
    {
        self.stack.push(Frame {
            function: f,
            next: 0,
            opened,
        });
        self.context = context;
    }

    /// The implicit task of a member but member 0 is current, over a function. Takes no memory.
    pub fn begin_worker(&mut self, f: u8, context: Context)
        requires { length self.old.stack < STACK_ROOM }
        ensures { self.new ≡ begun_worker f context self.old }
    {
        self.begin_task(f, Opened::Worker, context);
    }

    /// The implicit task of member 0 is current, on top of the encountering task. Takes no memory.
    pub fn begin_master(&mut self, f: u8, context: Context)
        requires { length self.old.stack < STACK_ROOM }
        ensures { self.new ≡ begun_master f context self.old }
    {
        let saved = self.context;
        self.begin_task(f, Opened::Master { saved }, context);
    }

    /// An explicit task is current, on top of the task that it is scheduled from: `wait` is where that one waits, none
    /// for a task that starts at once. Takes no memory.
    pub fn begin_explicit(&mut self, f: u8, wait: Option<Wait>, context: Context)
        requires { length self.old.stack < STACK_ROOM }
        ensures { self.new ≡ begun_explicit f wait context self.old }
    {
        let saved = self.context;
        self.begin_task(f, Opened::Task { wait, saved }, context);
    }

    /// The innermost body is closed. Where it was a task's, the task below is current again.
    pub fn close(&mut self)
        ensures { self.new ≡ closed self.old }
    {
        let Some(top) = self.stack.top() else {
            return;
        };
        match top.opened {
            Opened::Master { saved } | Opened::Task { saved, .. } => self.context = saved,
            _ => {}
        }
        self.stack.pop();
    }

    /// A round of a `repeat` has returned. `left` counts it.
    fn next_round(&mut self, left: u16, top: Frame)
        requires { 0 < length self.old.stack }
        ensures { self.new ≡ next_round left top (without_top self.old.stack) self.old }
    {
        if left > 1 {
            self.stack.set_top(Frame {
                next: 0,
                opened: Opened::Repeat { left: left - 1 },
                ..top
            });
            self.go_to(PlainCounter::Call);
        } else {
            self.stack.pop();
            self.go_to(PlainCounter::Skip);
        }
    }

    /// A function has returned. Does nothing where a task began with the innermost body. Takes no memory, and makes no step.
    pub fn return_from(&mut self, p: &Program)
        requires { AreOpen p.now self.old.context self.old.stack }
        ensures { self.new ≡ returned p.now self.old }
    {
        let Some(top) = self.stack.top() else {
            return;
        };
        match top.opened {
            Opened::Call => {
                self.stack.pop();
                self.settle(p);
            }
            Opened::Repeat { left } => self.next_round(left, top),
            Opened::Critical { .. } => {
                self.stack.pop();
                self.go_to(PlainCounter::Unlock);
            }
            Opened::Taskgroup => {
                self.stack.pop();
                self.go_to(PlainCounter::Enter);
            }
            _ => {}
        }
    }

    /// The thread has stored a working state, or keeps none: a body that has not begun goes on, and the current task
    /// leaves the runtime where a statement is in work. Takes no memory, and makes no step.
    pub fn go_on(&mut self, p: &Program)
        requires { AreOpen p.now self.old.context self.old.stack }
        ensures { self.new ≡ worked p.now self.old }
    {
        let Some(top) = self.stack.top() else {
            return;
        };
        if top.next == 0 {
            self.settle(p);
        } else {
            self.go_to(PlainCounter::Leave);
        }
    }

    /// The thread works again: it stores a working state where states are kept, and goes on. Takes no memory, and makes no
    /// step.
    pub fn work(&mut self, p: &Program)
        requires { AreOpen p.now self.old.context self.old.stack }
        ensures { self.new ≡ back_to_work p.now self.old }
    {
        if p.env.debug {
            self.go_to(PlainCounter::WorkState);
        } else {
            self.go_on(p);
        }
    }
}
