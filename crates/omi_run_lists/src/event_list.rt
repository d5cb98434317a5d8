//! The list of committed events, in little room.

ghost use Rattle.std.specs.Prelude.{◌≡◌, ◌+◌, ◌<◌, ◌≤◌, ◌++◌, ◌∷◌, [], length, slice_get, Some, IsOk, IfOk, OnOk, OnErr};
ghost use Rattle.omi_run_lists.specs.Compact.{with_team};
ghost use Rattle.omi_run_lists.specs.Events.{team_in};

use crate::CompactEvent;
use crate::row::{EventRow, put_team};
use crate::teams::{seat, team_in};
use omi_list::OutOfMemory;
use omi_model::{Event, Team, Tid};
use std::alloc::Global;
use std::marker::Model;

/// Committed events in order, each with the number of its step and its thread. Contracts see them as a list, beside how
/// many more events, with how many members of teams, take no memory.
///
/// An event takes 40 bytes, and each member of its team 12 more.
pub struct EventList {
    rows: Vec<EventRow>,
    members: Vec<(Tid, u8)>,
}

// Written out: docs/DECISIONS.md, "A drop written out".
impl Drop for EventList {
    fn drop(self) {
        let EventList {
            rows: _rows,
            members: _members,
        } = self;
    }
}

impl Model for EventList {
    ghost use Rattle.omi_run_lists.specs.Events.{Events};

    ghost Value = { Events };

    ghost use Rattle.omi_run_lists.specs.Rows.{events_of, AreSeated};

    ghost view = { events_of };

    ghost invariant = { AreSeated };
}

impl EventList {
    /// An empty list, which keeps the allocator.
    pub fn new(alloc: Global) -> EventList
        ensures { result.items ≡ [] }
    {
        EventList {
            rows: Vec::new(alloc),
            members: Vec::new(alloc),
        }
    }

    /// The number of events.
    pub fn len(&self) -> usize
        ensures { result ≡ length self.now.items }
    {
        self.rows.len()
    }

    /// The event at a place, counted from 0: step, thread, event.
    pub fn get(&self, at: usize) -> (u64, u8, Event)
        requires { at < length self.now.items }
        ensures { slice_get self.now.items at ≡ Some result }
    {
        let mut team = Team::new();
        let (step, thread, event) = self.get_compact(at, &mut team);
        (step, thread, event.with_team(&team))
    }

    /// The event at a place, counted from 0, without its team: step, thread, event. A fork's team is put in place of `team`.
    pub fn get_compact(&self, at: usize, team: &mut Team) -> (u64, u8, CompactEvent)
        requires { at < length self.now.items }
        ensures { slice_get self.now.items at
            ≡ Some (result.0, result.1, with_team team.new result.2) }
    {
        let row = self.rows[at];
        put_team(row, &self.members, team);
        (row.step, row.thread, row.event)
    }

    /// How many more events take no memory, where their teams have seats.
    pub fn spare(&self) -> usize
        ensures { result ≡ self.now.spare }
    {
        self.rows.capacity() - self.rows.len()
    }

    /// How many more members of teams take no memory.
    pub fn seats(&self) -> usize
        ensures { result ≡ self.now.seats }
    {
        self.members.capacity() - self.members.len()
    }

    /// Makes room for so many more events, and seats for so many members of their teams in all.
    pub fn reserve(&mut self, events: usize, members: usize) -> Result<(), OutOfMemory>
        ensures items { self.new.items ≡ self.old.items }
        ensures spare { OnOk result (events ≤ self.new.spare) }
        ensures seats { OnOk result (members ≤ self.new.seats) }
        ensures no_fewer_spare { self.old.spare ≤ self.new.spare }
        ensures no_fewer_seats { self.old.seats ≤ self.new.seats }
        ensures had { events ≤ self.old.spare → members ≤ self.old.seats → IsOk result }
    {
        self.rows.reserve(events)?;
        self.members.reserve(members)?;
        Ok(())
    }

    /// Adds an event at the end, with the number of its step and its thread, in room that is there. A fork has this team. It takes no
    /// memory.
    pub fn push_compact(&mut self, step: u64, thread: u8, event: CompactEvent, team: &Team)
        requires spare { 1 ≤ self.old.spare }
        requires seats { length (team_in (with_team team.now event)) ≤ self.old.seats }
        ensures added { self.new.items
            ≡ self.old.items ++ (step, thread, with_team team.now event) ∷ [] }
        ensures spare { self.new.spare + 1 ≡ self.old.spare }
        ensures seats { self.new.seats + length (team_in (with_team team.now event))
            ≡ self.old.seats }
    {
        let first = self.members.len();
        let size = seat(&mut self.members, event, team);
        self.rows.push_reserved(EventRow {
            step,
            thread,
            size,
            first,
            event,
        });
    }

    /// Adds an event at the end, in room that is there. It takes no memory.
    pub fn push_reserved(&mut self, e: (u64, u8, Event))
        requires spare { 1 ≤ self.old.spare }
        requires seats { length (team_in e.2) ≤ self.old.seats }
        ensures added { self.new.items ≡ self.old.items ++ e ∷ [] }
        ensures spare { self.new.spare + 1 ≡ self.old.spare }
        ensures seats { self.new.seats + length (team_in e.2) ≡ self.old.seats }
    {
        let (step, thread, event) = e;
        let compact = CompactEvent::of(&event);
        self.push_compact(step, thread, compact, &team_in(&event));
    }

    /// Adds an event at the end. Where there is room for it, it takes no memory.
    pub fn push(&mut self, e: (u64, u8, Event)) -> Result<(), OutOfMemory>
        ensures added { OnOk result (self.new.items ≡ self.old.items ++ e ∷ []) }
        ensures refused { OnErr result (self.new.items ≡ self.old.items) }
        ensures had { 1 ≤ self.old.spare → length (team_in e.2) ≤ self.old.seats → IsOk result }
        ensures spare { self.old.spare ≤ self.new.spare + 1 }
        ensures seats { self.old.seats ≤ self.new.seats + length (team_in e.2) }
    {
        self.reserve(1, team_in(&e.2).len())?;
        self.push_reserved(e);
        Ok(())
    }

    /// A list of equal events. Its room may differ.
    pub fn same(&self, alloc: Global) -> Result<EventList, OutOfMemory>
        ensures { IfOk result (λ list. list.items ≡ self.now.items) }
    {
        let rows = Vec::from_slice(alloc, &self.rows)?;
        let members = Vec::from_slice(alloc, &self.members)?;
        Ok(EventList { rows, members })
    }
}
