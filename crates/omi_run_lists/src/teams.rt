//! The members of all teams of a list, kept in one list.

ghost use Rattle.std.specs.Prelude.{◌≡◌, ◌≤◌, ◌+◌, ◌++◌, length, vec_len, vec_capacity};
ghost use Rattle.omi_run_lists.specs.Compact.{with_team};
ghost use Rattle.omi_run_lists.specs.Events.{team_in};

use crate::CompactEvent;
use omi_model::{Event, MOST_MEMBERS, Team, Tid};

/// The team that an event holds: a fork's, and none else.
pub fn team_in(event: &Event) -> Team
    ensures { result ≡ team_in event.now }
{
    match event {
        Event::Fork { region: _, team } => *team,
        _ => Team::new(),
    }
}

/// Puts the members of an event with this team behind the others, in room that is there, and answers how many they are.
pub fn seat(members: &mut Vec<(Tid, u8)>, event: CompactEvent, team: &Team) -> u8
    requires { vec_len members.old + length (team_in (with_team team.now event))
        ≤ vec_capacity members.old }
    ensures items { members.new.items ≡ members.old.items ++ team_in (with_team team.now event) }
    ensures capacity { vec_capacity members.new ≡ vec_capacity members.old }
    ensures size { result ≡ length (team_in (with_team team.now event)) }
    ensures limit { result ≤ MOST_MEMBERS }
{
    match event {
        CompactEvent::Fork { region: _ } => {
            seat_team(members, team);
            team.len() as u8
        }
        _ => 0,
    }
}

fn seat_team(members: &mut Vec<(Tid, u8)>, team: &Team)
    requires { vec_len members.old + length team.now ≤ vec_capacity members.old }
    ensures items { members.new.items ≡ members.old.items ++ team.now }
    ensures capacity { vec_capacity members.new ≡ vec_capacity members.old }
{
    for at in 0..team.len() {
        members.push_reserved(team.get(at));
    }
}

/// The team of these members.
pub fn team_of(members: &[(Tid, u8)]) -> Team
    requires { length members.now ≤ MOST_MEMBERS }
    ensures { result ≡ members.now }
{
    let mut team = Team::new();
    for member in members {
        team.push(member.0, member.1);
    }
    team
}
