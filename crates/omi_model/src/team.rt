//! The members of a team, kept in place.

ghost use Rattle.std.specs.Prelude.{◌≡◌, ◌<◌, ◌≤◌, [], ◌∷◌, ◌++◌, length, slice_get, Some};
ghost use Rattle.omi_model.specs.Columns.{with_task};

use crate::{Id, MOST_MEMBERS, Tid};
use std::marker::Model;

/// The task that stands in the places past a team's length.
const NO_TASK: Tid = Tid(Id {
    creator: 0,
    slot: 0,
    generation: 0,
});

/// The members of a team in order, each an implicit task and its thread. At most 64, kept in place.
#[derive(Clone, Copy, Debug, PartialEq, Eq)]
pub struct Team {
    len: u8,
    tasks: [Tid; MOST_MEMBERS],
    threads: [u8; MOST_MEMBERS],
}

impl Model for Team {
    ghost use Rattle.std.specs.Prelude.{List, ℕ, take, length, map};
    ghost use Rattle.omi_model.specs.declared.id.Tid.{Tid};
    ghost use Rattle.omi_model.specs.Columns.{members, AreColumns, no_task, tasks_of, threads_of, padded};

    ghost Value = { List (record { 0 : Tid; 1 : ℕ }) };

    ghost use Rattle.omi_model.specs.TeamBack.{team_back};

    ghost view = { λ a. take a.len (members a.tasks a.threads) };

    ghost invariant = { λ a. AreColumns a.len a.tasks a.threads };

    ghost inverse = { λ ms. record {
      len = length ms;
      tasks = padded no_task (tasks_of ms);
      threads = padded 0 (threads_of ms);
    } };

    ghost inverse_ok = { team_back };
}

impl Team {
    /// A team without members.
    pub fn new() -> Team
        ensures { result ≡ [] }
    {
        Team {
            len: 0,
            tasks: [NO_TASK; MOST_MEMBERS],
            threads: [0; MOST_MEMBERS],
        }
    }

    /// The number of members.
    pub fn len(&self) -> usize
        ensures value { result ≡ length self.now }
        ensures limit { result ≤ MOST_MEMBERS }
    {
        self.len as usize
    }

    /// The member at a place, counted from 0: its implicit task and its thread.
    pub fn get(&self, at: usize) -> (Tid, u8)
        requires { at < length self.now }
        ensures { slice_get self.now at ≡ Some result }
    {
        let _len = self.len;
        (self.tasks[at], self.threads[at])
    }

    /// Adds a member at the end.
    pub fn push(&mut self, task: Tid, thread: u8)
        requires { length self.old < MOST_MEMBERS }
        ensures { self.new ≡ self.old ++ (task, thread) ∷ [] }
    {
        let at = self.len as usize;
        self.tasks[at] = task;
        self.threads[at] = thread;
        self.len += 1;
    }

    /// Puts a task in the place of a member's. Its thread stays.
    pub fn set_task(&mut self, at: usize, task: Tid)
        requires { at < length self.old }
        ensures { self.new ≡ with_task task at self.old }
    {
        let _len = self.len;
        self.tasks[at] = task;
    }
}
