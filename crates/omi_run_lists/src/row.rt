//! What a list keeps of an event: all but the members of its team, which stand beside.

ghost use Rattle.std.specs.Prelude.{◌≡◌, ◌≤◌, ◌+◌, length};
ghost use Rattle.omi_run_lists.specs.Compact.{with_team};
ghost use Rattle.omi_run_lists.specs.Rows.{team_at};

use crate::CompactEvent;
use crate::teams::team_of;
use omi_model::{MOST_MEMBERS, Team, Tid};
use std::mem::size_of;

/// A row of the list: an event with its step and its thread. Of its team it has the size, and the place of the first member, counted
/// from 0 among the members of all teams of the list.
#[derive(Clone, Copy)]
pub struct EventRow {
    pub step: u64,
    pub thread: u8,
    pub size: u8,
    pub first: usize,
    pub event: CompactEvent,
}

const _: () = prove!(size_of::<EventRow>() <= 40);

const _: () = prove!(size_of::<(Tid, u8)>() <= 12);

/// Puts a fork's team, which stands among these members, in place of a team. Every other event leaves it.
pub fn put_team(row: EventRow, members: &[(Tid, u8)], team: &mut Team)
    requires limit { row.size ≤ MOST_MEMBERS }
    requires within { row.first + row.size ≤ length members.now }
    ensures { with_team team.new row.event
        ≡ with_team (team_at members.now row.first row.size) row.event }
{
    match row.event {
        CompactEvent::Fork { region: _ } => {
            *team = team_of(&members[row.first..row.first + row.size as usize]);
        }
        _ => {}
    }
}
