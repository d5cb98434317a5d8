//! Inquiries for tasks.

ghost use Rattle.std.specs.Prelude.{◌≡◌};
ghost use Rattle.omi_calls.specs.Kept.{TakesAll, GivesNumbers};
ghost use Rattle.omi_asktask.specs.Tasks as tasks;
ghost use Rattle.omi_handle.specs.declared.handle.Kind.TheVariants as object;
ghost use Rattle.omi_session.specs.Inquiry as part;
ghost use Rattle.omi_c.specs.Answers.{found_of};
ghost use Rattle.omi_c.specs.Objects as objects;
ghost use Rattle.omi_c.specs.Replies.{asked_in};

use crate::answers::{Found, Object};
use crate::causes::{Cause, replied};
use crate::judged::Judged;
use crate::known::Known;
use crate::opening::{held_in, lowest_first, open};
use omi_asktask::{generating_task_of, scheduling_task_of};
use omi_calls::ToHost;
use omi_handle::{Held, Kind};
use omi_session::{current_task_of, member_of};

/// The current task of a thread. By a conversion of a word's bytes.
fn curr_task<H: ToHost>(
    table: &Judged,
    known: &[Known],
    thread: Object,
    to_host: H,
) -> Result<Held, Cause>
    requires takes { TakesAll (H.takes to_host) }
    requires gives { GivesNumbers (H.gives to_host) 0 }
    ensures { result ≡ asked_in table.now known.now
        (λ w. part.current_task w (objects.held_in w object.Thread thread)) }
{
    let mut s = open(table, known, to_host)?;
    let thread = held_in(&s, Kind::Thread, thread);
    let task = current_task_of(&mut s, thread);
    replied(s, task)
}

/// The current task of a thread.
#[unsafe(no_mangle)]
pub extern "C" fn omi_curr_task(table: &Judged, known: &[Known], thread: Object) -> Found
    ensures { result ≡ found_of (asked_in table.now known.now
        (λ w. part.current_task w (objects.held_in w object.Thread thread))) }
{
    Found::of(curr_task(table, known, thread, lowest_first))
}

/// The task that made a task. By a conversion of a word's bytes.
fn generating_task<H: ToHost>(
    table: &Judged,
    known: &[Known],
    task: Object,
    to_host: H,
) -> Result<Held, Cause>
    requires takes { TakesAll (H.takes to_host) }
    requires gives { GivesNumbers (H.gives to_host) 0 }
    ensures { result ≡ asked_in table.now known.now
        (λ w. tasks.generating_task w (objects.held_in w object.Task task)) }
{
    let mut s = open(table, known, to_host)?;
    let task = held_in(&s, Kind::Task, task);
    let generating = generating_task_of(&mut s, task);
    replied(s, generating)
}

/// The task that made a task.
#[unsafe(no_mangle)]
pub extern "C" fn omi_generating_task(table: &Judged, known: &[Known], task: Object) -> Found
    ensures { result ≡ found_of (asked_in table.now known.now
        (λ w. tasks.generating_task w (objects.held_in w object.Task task))) }
{
    Found::of(generating_task(table, known, task, lowest_first))
}

/// The task that was left for a task on its thread. By a conversion of a word's bytes.
fn scheduling_task<H: ToHost>(
    table: &Judged,
    known: &[Known],
    task: Object,
    to_host: H,
) -> Result<Held, Cause>
    requires takes { TakesAll (H.takes to_host) }
    requires gives { GivesNumbers (H.gives to_host) 0 }
    ensures { result ≡ asked_in table.now known.now
        (λ w. tasks.scheduling_task w (objects.held_in w object.Task task)) }
{
    let mut s = open(table, known, to_host)?;
    let task = held_in(&s, Kind::Task, task);
    let scheduling = scheduling_task_of(&mut s, task);
    replied(s, scheduling)
}

/// The task that was left for a task on its thread.
#[unsafe(no_mangle)]
pub extern "C" fn omi_scheduling_task(table: &Judged, known: &[Known], task: Object) -> Found
    ensures { result ≡ found_of (asked_in table.now known.now
        (λ w. tasks.scheduling_task w (objects.held_in w object.Task task))) }
{
    Found::of(scheduling_task(table, known, task, lowest_first))
}

/// The implicit task of a member of a region, by the member's number. By a conversion of a word's bytes.
fn task_in_parallel<H: ToHost>(
    table: &Judged,
    known: &[Known],
    region: Object,
    member: u32,
    to_host: H,
) -> Result<Held, Cause>
    requires takes { TakesAll (H.takes to_host) }
    requires gives { GivesNumbers (H.gives to_host) 0 }
    ensures { result ≡ asked_in table.now known.now
        (λ w. part.member w (objects.held_in w object.Region region) member) }
{
    let mut s = open(table, known, to_host)?;
    let region = held_in(&s, Kind::Region, region);
    let task = member_of(&mut s, region, member);
    replied(s, task)
}

/// The implicit task of a member of a region, by the member's number.
#[unsafe(no_mangle)]
pub extern "C" fn omi_task_in_parallel(
    table: &Judged,
    known: &[Known],
    region: Object,
    member: u32,
) -> Found
    ensures { result ≡ found_of (asked_in table.now known.now
        (λ w. part.member w (objects.held_in w object.Region region) member)) }
{
    Found::of(task_in_parallel(table, known, region, member, lowest_first))
}
