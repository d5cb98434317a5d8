//! The inquiry for the initial task.

ghost use Rattle.std.specs.Prelude.{◌≡◌};
ghost use Rattle.omi_calls.specs.Kept.{TakesAll, GivesNumbers};
ghost use Rattle.omi_session.specs.Reads.{Answers};
ghost use Rattle.omi_c.specs.Answers.{found_of};
ghost use Rattle.omi_c.specs.Calls.{told_of, asked_of};
ghost use Rattle.omi_c.specs.Initial as initial;
ghost use Rattle.omi_c.specs.Replies.{asked_in};

use crate::answers::Found;
use crate::calls::KnownCalls;
use crate::causes::{Cause, replied};
use crate::judged::Judged;
use crate::known::Known;
use crate::opening::{lowest_first, open};
use omi_calls::ToHost;
use omi_handle::{Held, Kind};
use omi_layout::Field;
use omi_session::{Rc, Session, object_at, word};

/// What the first record of thread 0's tasks holds. Unavailable where it is none of a live task.
fn first_task<'a, H: ToHost>(s: &mut Session<KnownCalls<'a>, H>) -> Result<Held, Rc>
    ensures { Answers told_of asked_of s.old s.new result (initial.initial_task s.old.layout) }
{
    let address = s.layout().task_at(0, 0);
    let life = word(s, address, Field::TaskLife, 0)?;
    object_at(s.layout(), Kind::Task, address, life).ok_or(Rc::Unavailable)
}

/// The initial task of the program. By a conversion of a word's bytes.
fn initial_task<H: ToHost>(table: &Judged, known: &[Known], to_host: H) -> Result<Held, Cause>
    requires takes { TakesAll (H.takes to_host) }
    requires gives { GivesNumbers (H.gives to_host) 0 }
    ensures { result ≡ asked_in table.now known.now initial.initial_task }
{
    let mut s = open(table, known, to_host)?;
    let task = first_task(&mut s);
    replied(s, task)
}

/// The initial task of the program, whose record is the first one of thread 0's tasks. Unavailable before it is made and behind its end.
#[unsafe(no_mangle)]
pub extern "C" fn omi_initial_task(table: &Judged, known: &[Known]) -> Found
    ensures { result ≡ found_of (asked_in table.now known.now initial.initial_task) }
{
    Found::of(initial_task(table, known, lowest_first))
}
