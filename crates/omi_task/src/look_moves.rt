//! How a step of a wait moves a thread on.

ghost use Rattle.std.specs.Prelude.{◌≡◌, ◌<◌, ◌≤◌, length};
ghost use Rattle.omi_layout.specs.Table.{thread_count};
ghost use Rattle.omi_pc.specs.declared.counter.Counter.TheVariants as counter;
ghost use Rattle.omi_pc.specs.declared.limits.TheConstants.{START_WORDS};
ghost use Rattle.omi_pc.specs.Fits.{Fits, slots_of};
ghost use Rattle.omi_pc.specs.OpenBodies.{AreOpen, IsWaiting};
ghost use Rattle.omi_pc.specs.Stacks.{task_function};
ghost use Rattle.omi_step_words.specs.Moving.{to_look};
ghost use Rattle.omi_step_words.specs.Placed.{IsPlaced};
ghost use Rattle.omi_task.specs.LookSteps.{behind_code, behind_look, behind_start_word, look_at, look_moved, look_outcome, looking_on, next_look, past_group_end, past_start};

use crate::groups::innermost_word;
use crate::look::look_outcome;
use crate::slots::coded_task;
use crate::starts::task_context;
use omi_layout::Layout;
use omi_model::Tid;
use omi_numbers::{OWN_SLOTS, function_at};
use omi_pc::limits::START_WORDS;
use omi_pc::{
    Actor, BarrierCounter, Counter, LookCounter, Place, PlainCounter, Wait, bodies_stand,
    stacks_have_room,
};
use omi_script::Program;
use omi_step_words::task_place;

/// The slots of all members.
fn slots(p: &Program, a: &Actor) -> u64
    requires fits { Fits p.now a.now }
    requires some { 0 < length a.now.stack }
    ensures value { result ≡ slots_of a.now }
    ensures small { result ≤ 256 }
{
    u64::from(OWN_SLOTS) * a.context.size
}

/// A counter of a wait comes next.
fn to_look(a: &mut Actor, c: LookCounter)
    ensures { a.new ≡ to_look c a.old }
{
    a.counter = Counter::Look(c);
}

/// The counter behind the look at the last slot.
fn behind_look(a: &Actor, wait: Wait, slots: u16) -> Counter
    requires { slots ≡ slots_of a.now }
    ensures { result ≡ behind_look a.now wait }
{
    match wait {
        Wait::Barrier { barrier } => Counter::Barrier(if a.context.number == 0 {
            BarrierCounter::LoadArrived { barrier }
        } else {
            BarrierCounter::LoadReleased { barrier }
        }),
        Wait::Taskwait => Counter::Look(LookCounter::LoadChildren),
        Wait::Taskyield => Counter::Look(LookCounter::Yield { look: slots }),
        Wait::Taskgroup => Counter::Look(LookCounter::LoadCount),
    }
}

/// The counter at which the slot with this number is looked at.
fn look_at(wait: Wait, look: u16, row: Place) -> LookCounter
    ensures { result ≡ look_at wait look row }
{
    if look % u16::from(OWN_SLOTS) == 0 {
        LookCounter::LoadRow { wait, look }
    } else {
        LookCounter::LoadSlot { wait, look, row }
    }
}

/// Looks on at the slot behind this one.
fn look_on(p: &Program, a: &mut Actor, wait: Wait, look: u16, row: Place)
    requires fits { Fits p.now a.old }
    requires some { 0 < length a.old.stack }
    requires within { look < slots_of a.old }
    ensures { a.new ≡ looking_on wait look row a.old }
{
    let slots = slots(p, a) as u16;
    let next = look + 1;
    a.counter = if next < slots {
        Counter::Look(look_at(wait, next, row))
    } else {
        behind_look(a, wait, slots)
    };
}

/// The counter behind the load of a slot that names a task.
fn behind_code(wait: Wait, look: u16, row: Place, code: u64) -> LookCounter
    ensures { result ≡ behind_code wait look row code }
{
    match wait {
        Wait::Barrier { .. } => LookCounter::Take {
            wait,
            look,
            row,
            code,
        },
        Wait::Taskgroup => LookCounter::LoadGroup { look, row, code },
        _ => LookCounter::LoadGenerating {
            wait,
            look,
            row,
            code,
        },
    }
}

/// The counter behind the store of a word of a started task's place.
fn behind_start_word(
    wait: Wait,
    look: u16,
    code: u64,
    task: Tid,
    function: u8,
    is_final: bool,
    word: u8,
) -> LookCounter
    requires { word < START_WORDS }
    ensures { result ≡ behind_start_word wait look code task function is_final word }
{
    let next = word + 1;
    if next < START_WORDS {
        LookCounter::Fill {
            wait,
            look,
            code,
            task,
            function,
            is_final,
            word: next,
        }
    } else {
        LookCounter::Start {
            wait,
            look,
            code,
            task,
            function,
            is_final,
        }
    }
}

/// A deferred task starts.
fn start(p: &Program, a: &mut Actor, wait: Wait, task: Tid, function: u8, is_final: bool)
    requires fits { Fits p.now a.old }
    requires waits { IsWaiting p.now a.old.context a.old.stack wait }
    requires maker { task.0.creator < p.now.threads }
    requires below { function < task_function a.old.stack }
    ensures { a.new ≡ past_start p.now wait task function is_final a.old }
{
    stacks_have_room();
    bodies_stand();
    let context = task_context(a, task, is_final);
    a.begin_explicit(function, Some(wait), context);
    match wait {
        Wait::Taskyield => a.settle(p),
        _ => a.work(p),
    }
}

/// The current task has ended its innermost group.
fn end_group(p: &Program, a: &mut Actor)
    requires { AreOpen p.now a.old.context a.old.stack }
    ensures { a.new ≡ past_group_end p.now a.old }
{
    bodies_stand();
    a.context.open_groups = a.context.open_groups.saturating_sub(1);
    a.work(p);
}

/// Moves a thread on, behind the operation of its counter.
pub fn look_move(p: &Program, l: &Layout, a: &mut Actor, c: LookCounter, old: u64)
    requires fits { Fits p.now a.old }
    requires threads { p.now.threads ≡ thread_count l.now.table }
    requires placed { IsPlaced l.now.table a.old }
    requires at { a.old.counter ≡ counter.Look c }
    ensures { a.new ≡ look_moved p.now l.now.table a.old c old }
{
    match c {
        LookCounter::State { wait } => to_look(a, LookCounter::LoadRow { wait, look: 0 }),
        LookCounter::LoadRow { wait, look } => {
            let row = task_place(l, old);
            to_look(a, LookCounter::LoadSlot { wait, look, row });
        }
        LookCounter::LoadSlot { wait, look, row } => {
            if old == 0 {
                look_on(p, a, wait, look, row);
            } else {
                to_look(a, behind_code(wait, look, row, old));
            }
        }
        LookCounter::LoadGenerating {
            wait,
            look,
            row,
            code,
        } => {
            let task = a.context.task.0;
            if old == l.task_at(task.creator, task.slot) {
                to_look(
                    a,
                    LookCounter::Take {
                        wait,
                        look,
                        row,
                        code,
                    },
                );
            } else {
                look_on(p, a, wait, look, row);
            }
        }
        LookCounter::LoadGroup { look, row, code } => {
            let wait = Wait::Taskgroup;
            if old == innermost_word(l, a) {
                to_look(
                    a,
                    LookCounter::Take {
                        wait,
                        look,
                        row,
                        code,
                    },
                );
            } else {
                look_on(p, a, wait, look, row);
            }
        }
        LookCounter::Take {
            wait,
            look,
            row,
            code,
        } => {
            if old == code {
                let task = coded_task(l, code);
                to_look(
                    a,
                    LookCounter::LoadFunction {
                        wait,
                        look,
                        code,
                        task,
                    },
                );
            } else {
                look_on(p, a, wait, look, row);
            }
        }
        LookCounter::LoadFunction {
            wait,
            look,
            code,
            task,
        } => to_look(
            a,
            LookCounter::LoadFinal {
                wait,
                look,
                code,
                task,
                function: function_at(old),
            },
        ),
        LookCounter::LoadFinal {
            wait,
            look,
            code,
            task,
            function,
        } => to_look(
            a,
            LookCounter::Fill {
                wait,
                look,
                code,
                task,
                function,
                is_final: old != 0,
                word: 0,
            },
        ),
        LookCounter::Fill {
            wait,
            look,
            code,
            task,
            function,
            is_final,
            word,
        } => to_look(
            a,
            behind_start_word(wait, look, code, task, function, is_final, word),
        ),
        LookCounter::Start {
            wait,
            task,
            function,
            is_final,
            ..
        } => start(p, a, wait, task, function, is_final),
        LookCounter::LoadChildren => {
            if old == 0 {
                a.work(p);
            } else {
                to_look(
                    a,
                    LookCounter::LoadRow {
                        wait: Wait::Taskwait,
                        look: 0,
                    },
                );
            }
        }
        LookCounter::LoadCount => {
            if old == 0 {
                to_look(a, LookCounter::GroupEnd);
            } else {
                to_look(
                    a,
                    LookCounter::LoadRow {
                        wait: Wait::Taskgroup,
                        look: 0,
                    },
                );
            }
        }
        LookCounter::GroupEnd => end_group(p, a),
        LookCounter::Yield { .. } => a.go_to(PlainCounter::Leave),
    }
}
