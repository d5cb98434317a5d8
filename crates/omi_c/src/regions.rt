//! Inquiries for regions.

ghost use Rattle.std.specs.Prelude.{◌≡◌};
ghost use Rattle.omi_calls.specs.Kept.{TakesAll, GivesNumbers};
ghost use Rattle.omi_ask.specs.Regions as regions;
ghost use Rattle.omi_handle.specs.declared.handle.Kind.TheVariants as object;
ghost use Rattle.omi_c.specs.Answers.{found_of};
ghost use Rattle.omi_c.specs.Objects as objects;
ghost use Rattle.omi_c.specs.Replies.{asked_in};

use crate::answers::{Found, Object};
use crate::causes::{Cause, replied};
use crate::judged::Judged;
use crate::known::Known;
use crate::opening::{held_in, lowest_first, open};
use omi_ask::{current_region_of, enclosing_region_of, region_of_task_of};
use omi_calls::ToHost;
use omi_handle::{Held, Kind};

/// The region of a thread's current task. By a conversion of a word's bytes.
fn curr_parallel<H: ToHost>(
    table: &Judged,
    known: &[Known],
    thread: Object,
    to_host: H,
) -> Result<Held, Cause>
    requires takes { TakesAll (H.takes to_host) }
    requires gives { GivesNumbers (H.gives to_host) 0 }
    ensures { result ≡ asked_in table.now known.now
        (λ w. regions.current_region w (objects.held_in w object.Thread thread)) }
{
    let mut s = open(table, known, to_host)?;
    let thread = held_in(&s, Kind::Thread, thread);
    let region = current_region_of(&mut s, thread);
    replied(s, region)
}

/// The region of a thread's current task.
#[unsafe(no_mangle)]
pub extern "C" fn omi_curr_parallel(table: &Judged, known: &[Known], thread: Object) -> Found
    ensures { result ≡ found_of (asked_in table.now known.now
        (λ w. regions.current_region w (objects.held_in w object.Thread thread))) }
{
    Found::of(curr_parallel(table, known, thread, lowest_first))
}

/// The region that encloses a region. By a conversion of a word's bytes.
fn enclosing_parallel<H: ToHost>(
    table: &Judged,
    known: &[Known],
    region: Object,
    to_host: H,
) -> Result<Held, Cause>
    requires takes { TakesAll (H.takes to_host) }
    requires gives { GivesNumbers (H.gives to_host) 0 }
    ensures { result ≡ asked_in table.now known.now
        (λ w. regions.enclosing_region w (objects.held_in w object.Region region)) }
{
    let mut s = open(table, known, to_host)?;
    let region = held_in(&s, Kind::Region, region);
    let enclosing = enclosing_region_of(&mut s, region);
    replied(s, enclosing)
}

/// The region that encloses a region.
#[unsafe(no_mangle)]
pub extern "C" fn omi_enclosing_parallel(table: &Judged, known: &[Known], region: Object) -> Found
    ensures { result ≡ found_of (asked_in table.now known.now
        (λ w. regions.enclosing_region w (objects.held_in w object.Region region))) }
{
    Found::of(enclosing_parallel(table, known, region, lowest_first))
}

/// The region of a task. By a conversion of a word's bytes.
fn task_parallel<H: ToHost>(
    table: &Judged,
    known: &[Known],
    task: Object,
    to_host: H,
) -> Result<Held, Cause>
    requires takes { TakesAll (H.takes to_host) }
    requires gives { GivesNumbers (H.gives to_host) 0 }
    ensures { result ≡ asked_in table.now known.now
        (λ w. regions.region_of_task w (objects.held_in w object.Task task)) }
{
    let mut s = open(table, known, to_host)?;
    let task = held_in(&s, Kind::Task, task);
    let region = region_of_task_of(&mut s, task);
    replied(s, region)
}

/// The region of a task.
#[unsafe(no_mangle)]
pub extern "C" fn omi_task_parallel(table: &Judged, known: &[Known], task: Object) -> Found
    ensures { result ≡ found_of (asked_in table.now known.now
        (λ w. regions.region_of_task w (objects.held_in w object.Task task))) }
{
    Found::of(task_parallel(table, known, task, lowest_first))
}
