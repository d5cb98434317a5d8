//! Tests of omi_pc: a walk through the bodies of a script.

ghost use Rattle.std.specs.Prelude.{◌≡◌, ◌<◌, length, IfOk};
ghost use Rattle.omi_pc.specs.OpenBodies.{AreOpen};

use omi_model::{Id, OutOfMemory, Rid, Tid};
use omi_pc::limits::STACK_ROOM;
use omi_pc::{
    Actor, Barrier, BarrierCounter, Context, Counter, Opened, PlainCounter, WorkerCounter,
};
use omi_script::{Program, Stmt, parse};
use std::alloc::Global;
use std::process::Abort;
use std::test::Fail;

const SCRIPT: &str = "threads 2
env debug disabled
func leaf
  work
end
func inner
  call leaf
  repeat 2 leaf
  repeat 0 leaf
  only 1 leaf
  only 0 leaf
  critical 3 leaf
end
func main
  parallel inner
  tool 7
  set_dynamic 1
end
";

/// The name of a counter.
fn told(c: Counter) -> &'static str {
    match c {
        Counter::Worker(WorkerCounter::Begin) => "begin",
        Counter::Barrier(
            BarrierCounter::Arrive {
                barrier: Barrier::Implicit,
            },
        ) => "arrive",
        Counter::Plain(PlainCounter::Work) => "work",
        Counter::Plain(PlainCounter::Call) => "call",
        Counter::Plain(PlainCounter::Skip) => "skip",
        Counter::Plain(PlainCounter::Return) => "return",
        Counter::Plain(PlainCounter::Set) => "set",
        Counter::Plain(PlainCounter::Tool) => "tool",
        Counter::Plain(PlainCounter::Enter) => "enter",
        Counter::Plain(PlainCounter::Leave) => "leave",
        Counter::Plain(PlainCounter::Unlock) => "unlock",
        _ => "another",
    }
}

fn opening(alloc: Global, p: &Program) -> Result<Actor, OutOfMemory>
    requires { 0 < p.now.threads }
    ensures { IfOk result (λ a. AreOpen p.now a.context a.stack) }
{
    Actor::opening(alloc, p, 0)
}

fn settle(p: &Program, a: &mut Actor)
    requires { AreOpen p.now a.old.context a.old.stack }
    ensures { AreOpen p.now a.new.context a.new.stack }
{
    a.settle(p);
}

fn return_from(p: &Program, a: &mut Actor)
    requires { AreOpen p.now a.old.context a.old.stack }
    ensures { AreOpen p.now a.new.context a.new.stack }
{
    a.return_from(p);
}

fn work(p: &Program, a: &mut Actor)
    requires { AreOpen p.now a.old.context a.old.stack }
    ensures { AreOpen p.now a.new.context a.new.stack }
{
    a.work(p);
}

fn close(p: &Program, a: &mut Actor)
    requires { AreOpen p.now a.old.context a.old.stack }
    ensures { AreOpen p.now a.new.context a.new.stack }
{
    a.close();
}

/// Enters the body of the `critical` construct in work, if there is one.
fn enter_critical(p: &Program, a: &mut Actor)
    requires { AreOpen p.now a.old.context a.old.stack }
    ensures { AreOpen p.now a.new.context a.new.stack }
{
    let Some(Stmt::Critical { k, f }) = a.statement(p) else {
        return;
    };
    if a.stack.len() < STACK_ROOM {
        a.call(f, Opened::Critical { lock: k });
    }
}

/// Makes a team of two of the `parallel` construct in work, if there is one, in which this thread is member 0.
fn begin_region(p: &Program, a: &mut Actor)
    requires threads { p.now.threads ≡ 2 }
    requires bodies { AreOpen p.now a.old.context a.old.stack }
    ensures { AreOpen p.now a.new.context a.new.stack }
{
    let Some(Stmt::Parallel { f, .. }) = a.statement(p) else {
        return;
    };
    let id = Id {
        creator: 0,
        slot: 1,
        generation: 0,
    };
    if a.stack.len() < STACK_ROOM && a.context.depth < 10 {
        let context = Context {
            task: Tid(id),
            region: Rid(id),
            row: Tid(id),
            number: 0,
            size: 2,
            arrivals: 0,
            implicit: true,
            is_final: false,
            open_groups: 0,
            depth: a.context.depth + 1,
        };
        a.begin_master(f, context);
    }
}

/// The counter and the number of open bodies.
fn stands(rt: &impl Abort, a: &Actor, counter: &str, bodies: usize) {
    assert_eq!(rt; told(a.counter), counter);
    assert_eq!(rt; a.stack.len(), bodies);
}

/// Work of a leaf that was called, and its return.
fn leaf(rt: &impl Abort, p: &Program, a: &mut Actor, bodies: usize)
    requires { AreOpen p.now a.old.context a.old.stack }
    ensures { AreOpen p.now a.new.context a.new.stack }
{
    stands(rt, a, "call", bodies);
    settle(p, a);
    stands(rt, a, "work", bodies);
    settle(p, a);
    stands(rt, a, "return", bodies);
    return_from(p, a);
}

#[test]
fn bodies_are_walked(rt: HostRuntime) -> Result<(), Fail> {
    let alloc = rt.alloc();
    let p = parse(alloc, SCRIPT.as_bytes())?;
    assert_eq!(rt; p.threads, 2);
    let mut a = opening(alloc, &p)?;
    stands(&rt, &a, "enter", 1);
    begin_region(&p, &mut a);
    work(&p, &mut a);
    leaf(&rt, &p, &mut a, 3);
    leaf(&rt, &p, &mut a, 3);
    leaf(&rt, &p, &mut a, 3);
    stands(&rt, &a, "skip", 2);
    settle(&p, &mut a);
    stands(&rt, &a, "skip", 2);
    settle(&p, &mut a);
    stands(&rt, &a, "skip", 2);
    settle(&p, &mut a);
    leaf(&rt, &p, &mut a, 3);
    stands(&rt, &a, "enter", 2);
    enter_critical(&p, &mut a);
    leaf(&rt, &p, &mut a, 3);
    stands(&rt, &a, "unlock", 2);
    settle(&p, &mut a);
    stands(&rt, &a, "arrive", 2);
    assert_eq!(rt; a.context.depth, 2);
    close(&p, &mut a);
    assert_eq!(rt; a.context.depth, 1);
    work(&p, &mut a);
    stands(&rt, &a, "leave", 1);
    settle(&p, &mut a);
    stands(&rt, &a, "tool", 1);
    settle(&p, &mut a);
    stands(&rt, &a, "set", 1);
    let mut b = a.same(alloc)?;
    a.settle(&p);
    stands(&rt, &a, "arrive", 1);
    stands(&rt, &b, "set", 1);
    b.settle(&p);
    stands(&rt, &b, "arrive", 1);
    Ok(())
}

/// A value that may move to another thread.
fn moves<T: Send>(_value: &T) {}

#[test]
fn workers_wait(rt: HostRuntime) -> Result<(), Fail> {
    let alloc = rt.alloc();
    let p = parse(alloc, SCRIPT.as_bytes())?;
    assert_eq!(rt; p.threads, 2);
    let a = Actor::opening(alloc, &p, 1)?;
    moves(&a);
    stands(&rt, &a, "begin", 0);
    assert_eq!(rt; a.thread, 1);
    Ok(())
}
