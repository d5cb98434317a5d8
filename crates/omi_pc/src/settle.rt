//! The pure move between statements. It is no step: the counter that it sets names the next one.

ghost use Rattle.std.specs.Prelude.{◌≡◌, ◌<◌, length, slice_get};
ghost use Rattle.omi_script.specs.Bodies.{body_of};
ghost use Rattle.omi_pc.specs.declared.limits.TheConstants.{STACK_ROOM};
ghost use Rattle.omi_pc.specs.OpenBodies.{AreOpen};
ghost use Rattle.omi_pc.specs.Settle.{statement_begun, calling, ended, ending_member, goes_to, repeating, settled, calling_only};

use crate::{Actor, Barrier, BarrierCounter, Counter, FinishCounter, Frame, Opened, PlainCounter};
use omi_model::Shape;
use omi_script::{Program, Stmt};

/// The statement at a position in the body of a function. None behind the body, or where there is no such function.
pub fn statement_at(p: &Program, f: u8, at: u16) -> Option<Stmt>
    ensures { result ≡ slice_get (body_of p.now.funcs f) at }
{
    p.funcs.find(f as usize)?.body.find(at as usize).copied()
}

impl Actor {
    /// A counter of the plain family comes next.
    pub fn go_to(&mut self, c: PlainCounter)
        ensures { self.new ≡ goes_to c self.old }
    {
        self.counter = Counter::Plain(c);
    }

    /// A function is called. Takes no memory, and makes no step.
    pub fn call(&mut self, f: u8, opened: Opened)
        requires { length self.old.stack < STACK_ROOM }
        ensures { self.new ≡ calling f opened self.old }
    {
        self.stack.push(Frame {
            function: f,
            next: 0,
            opened,
        });
        self.go_to(PlainCounter::Call);
    }

    /// `only M F`.
    fn call_only(&mut self, m: u8, f: u8)
        requires { length self.old.stack < STACK_ROOM }
        ensures { self.new ≡ calling_only m f self.old }
    {
        if self.context.number == u64::from(m) {
            self.call(f, Opened::Call);
        } else {
            self.go_to(PlainCounter::Skip);
        }
    }

    /// `repeat N F`.
    fn repeat(&mut self, n: u16, f: u8)
        requires { length self.old.stack < STACK_ROOM }
        ensures { self.new ≡ repeating n f self.old }
    {
        if n == 0 {
            self.go_to(PlainCounter::Skip);
        } else {
            self.call(f, Opened::Repeat { left: n });
        }
    }

    /// A statement begins.
    fn begin(&mut self, s: Stmt)
        requires { length self.old.stack < STACK_ROOM }
        ensures { self.new ≡ statement_begun s self.old }
    {
        match Shape::of(&s) {
            Shape::Parallel { .. }
            | Shape::Task { .. }
            | Shape::Taskwait
            | Shape::Taskyield
            | Shape::Barrier
            | Shape::Critical { .. } => self.go_to(PlainCounter::Enter),
            Shape::Call { f } => self.call(f, Opened::Call),
            Shape::Only { m, f } => self.call_only(m, f),
            Shape::Repeat { n, f } => self.repeat(n, f),
            Shape::Taskgroup { .. } => self.go_to(PlainCounter::GroupBegin),
            Shape::Sets { .. } => self.go_to(PlainCounter::Set),
            Shape::Tool(_) => self.go_to(PlainCounter::Tool),
            Shape::Work => self.go_to(PlainCounter::Work),
        }
    }

    /// A body has ended that was opened in this way.
    fn end(&mut self, debug: bool, opened: Opened)
        ensures { self.new ≡ ended debug opened self.old }
    {
        let barrier = Barrier::Implicit;
        match opened {
            Opened::Main | Opened::Worker | Opened::Master { .. } => {
                self.counter = Counter::Barrier(if debug {
                    BarrierCounter::State { barrier }
                } else {
                    BarrierCounter::Arrive { barrier }
                });
            }
            Opened::Task { .. } => self.counter = Counter::Finish(FinishCounter::Finish),
            Opened::Call | Opened::Repeat { .. } | Opened::Critical { .. } | Opened::Taskgroup => {
                self.go_to(PlainCounter::Return)
            }
        }
    }

    /// Moves to the next statement of the innermost body, or to what follows the end of the body. Takes no memory, and makes
    /// no step. Does nothing where no body is open.
    pub fn settle(&mut self, p: &Program)
        requires { AreOpen p.now self.old.context self.old.stack }
        ensures { self.new ≡ settled p.now self.old }
    {
        let Some(top) = self.stack.top() else {
            return;
        };
        match statement_at(p, top.function, top.next) {
            Some(s) => {
                self.stack.set_top(Frame {
                    next: top.next + 1,
                    ..top
                });
                self.begin(s);
            }
            None => self.end(p.env.debug, top.opened),
        }
    }
}
