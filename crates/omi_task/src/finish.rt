//! The steps of the end of an explicit task, and those that give records back.

ghost use Rattle.std.specs.Prelude.{◌≡◌};
ghost use Rattle.omi_layout.specs.Table.{thread_count};
ghost use Rattle.omi_pc.specs.Fits.{Fits};
ghost use Rattle.omi_pc.specs.declared.counter.Counter.TheVariants as counter;
ghost use Rattle.omi_step_words.specs.Moving.{to_finish};
ghost use Rattle.omi_step_words.specs.Outcomes.{outcome_of};
ghost use Rattle.omi_step_words.specs.Placed.{HasGroupWords, IsPlaced};
ghost use Rattle.omi_task.specs.FinishSteps.{behind_finish, behind_group, behind_references, finish_moved, finish_next, finish_outcome, past_finish, wait_in};

use omi_layout::{Field, GROUP_PLACE, Layout};
use omi_model::Tid;
use omi_pc::{
    Actor, Ancestor, Counter, FinishCounter, LookCounter, Opened, Place, PlainCounter, Wait,
};
use omi_run_lists::CompactEvent;
use omi_script::Program;
use omi_step_words::{
    CompactOutcome, load, object_in, of_group_count, of_groups, of_place, of_region, of_task,
    store, store_under, task_place, unused_word,
};
use omi_word::Op;

/// The operation that a thread makes next behind the end of an explicit task.
pub fn finish_next(p: &Program, l: &Layout, a: &Actor, c: FinishCounter) -> Op
    requires fits { Fits p.now a.now }
    requires threads { p.now.threads ≡ thread_count l.now.table }
    requires placed { IsPlaced l.now.table a.now }
    requires groups { HasGroupWords l.now.table }
    requires at { a.now.counter ≡ counter.Finish c }
    ensures { result ≡ finish_next l.now.table a.now c }
{
    match c {
        FinishCounter::Finish => store_under(l, a),
        FinishCounter::LoadGenerating { task, .. } => load(of_task(l, task, Field::TaskGenerating)),
        FinishCounter::SubtractChildren { generating, .. } => Op::Sub {
            at: of_place(l, generating, Field::TaskChildren),
            by: 1,
        },
        FinishCounter::LoadGroup { task, .. } => load(of_groups(l, task, GROUP_PLACE)),
        FinishCounter::SubtractCount { group, .. } => Op::Sub {
            at: of_group_count(l, group),
            by: 1,
        },
        FinishCounter::SubtractReferences { task, .. } => Op::Sub {
            at: of_task(l, task, Field::TaskReferences),
            by: 1,
        },
        FinishCounter::Free { task, .. } => {
            store(of_task(l, task, Field::TaskLife), unused_word(task.0))
        }
        FinishCounter::LoadImplicit { generating, .. } => {
            load(of_place(l, generating, Field::TaskImplicit))
        }
        FinishCounter::LoadNext { generating, .. } => {
            load(of_place(l, generating, Field::TaskGenerating))
        }
        FinishCounter::LoadLife { generating, .. } => {
            load(of_place(l, generating, Field::TaskLife))
        }
        FinishCounter::SubtractGenerating { generating, .. } => Op::Sub {
            at: of_place(l, generating, Field::TaskReferences),
            by: 1,
        },
        FinishCounter::SubtractPending { .. } => Op::Sub {
            at: of_region(l, a.context.region, Field::RegionPending),
            by: 1,
        },
    }
}

/// Where the task waits from which the current one was scheduled, none for a task that started at once.
fn wait_of(a: &Actor) -> Option<Wait>
    ensures { result ≡ wait_in a.now.stack }
{
    match a.stack.top()?.opened {
        Opened::Task { wait, .. } => wait,
        _ => None,
    }
}

/// A counter of the end of an explicit task comes next.
fn to_finish(a: &mut Actor, c: FinishCounter)
    ensures { a.new ≡ to_finish c a.old }
{
    a.counter = Counter::Finish(c);
}

/// The current task has finished.
fn finish(a: &mut Actor)
    ensures { a.new ≡ past_finish a.old }
{
    let wait = wait_of(a);
    let task = a.context.task;
    a.close();
    to_finish(a, FinishCounter::LoadGenerating { wait, task });
}

/// The counter behind the load of a finished task's group: this word.
fn behind_group(wait: Option<Wait>, task: Tid, generating: Place, group: u64) -> FinishCounter
    ensures { result ≡ behind_group wait task generating group }
{
    if group == 0 {
        FinishCounter::SubtractReferences {
            wait,
            task,
            generating,
        }
    } else {
        FinishCounter::SubtractCount {
            wait,
            task,
            generating,
            group,
        }
    }
}

/// The counter behind the subtraction from a generating task's references.
fn behind_references(
    l: &Layout,
    wait: Option<Wait>,
    explicit: Option<Ancestor>,
    old: u64,
) -> FinishCounter
    ensures { result ≡ behind_references l.now.table wait explicit old }
{
    match explicit {
        Some(x) if old == 1 => FinishCounter::Free {
            wait,
            task: x.task,
            generating: task_place(l, x.generating),
        },
        _ => FinishCounter::SubtractPending { wait },
    }
}

/// The counter behind the last subtraction.
fn behind_finish(p: &Program, wait: Option<Wait>) -> Counter
    ensures { result ≡ behind_finish p.now wait }
{
    match wait {
        None => Counter::Plain(PlainCounter::Leave),
        Some(Wait::Taskyield) => Counter::Look(LookCounter::Yield { look: 0 }),
        Some(wait) => Counter::Look(if p.env.debug {
            LookCounter::State { wait }
        } else {
            LookCounter::LoadRow { wait, look: 0 }
        }),
    }
}

/// Moves a thread on, behind the operation of its counter.
pub fn finish_move(p: &Program, l: &Layout, a: &mut Actor, c: FinishCounter, old: u64)
    ensures { a.new ≡ finish_moved p.now l.now.table a.old c old }
{
    let next = match c {
        FinishCounter::Finish => {
            finish(a);
            return;
        }
        FinishCounter::LoadGenerating { wait, task } => FinishCounter::SubtractChildren {
            wait,
            task,
            generating: task_place(l, old),
        },
        FinishCounter::SubtractChildren {
            wait,
            task,
            generating,
        } => FinishCounter::LoadGroup {
            wait,
            task,
            generating,
        },
        FinishCounter::LoadGroup {
            wait,
            task,
            generating,
        } => behind_group(wait, task, generating, old),
        FinishCounter::SubtractCount {
            wait,
            task,
            generating,
            ..
        } => FinishCounter::SubtractReferences {
            wait,
            task,
            generating,
        },
        FinishCounter::SubtractReferences {
            wait,
            task,
            generating,
        } => {
            if old == 1 {
                FinishCounter::Free {
                    wait,
                    task,
                    generating,
                }
            } else {
                FinishCounter::SubtractPending { wait }
            }
        }
        FinishCounter::Free {
            wait,
            generating,
            ..
        } => FinishCounter::LoadImplicit { wait, generating },
        FinishCounter::LoadImplicit { wait, generating } => {
            if old == 0 {
                FinishCounter::LoadNext { wait, generating }
            } else {
                FinishCounter::SubtractGenerating {
                    wait,
                    generating,
                    explicit: None,
                }
            }
        }
        FinishCounter::LoadNext { wait, generating } => FinishCounter::LoadLife {
            wait,
            generating,
            next: old,
        },
        FinishCounter::LoadLife {
            wait,
            generating,
            next,
        } => FinishCounter::SubtractGenerating {
            wait,
            generating,
            explicit: Some(Ancestor {
                task: Tid(object_in(generating, old)),
                generating: next,
            }),
        },
        FinishCounter::SubtractGenerating { wait, explicit, .. } => {
            behind_references(l, wait, explicit, old)
        }
        FinishCounter::SubtractPending { wait } => {
            a.counter = behind_finish(p, wait);
            return;
        }
    };
    to_finish(a, next);
}

/// What a step of the end of an explicit task answers.
pub fn finish_outcome(a: &Actor, c: FinishCounter) -> CompactOutcome
    ensures { outcome_of a.now result ≡ finish_outcome a.now c }
{
    match c {
        FinishCounter::Finish => CompactOutcome::Event(CompactEvent::Finish {
            task: a.context.task,
        }),
        FinishCounter::Free { task, .. } => CompactOutcome::Event(CompactEvent::FreeTask { task }),
        _ => CompactOutcome::Quiet,
    }
}
