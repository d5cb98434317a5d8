//! The event rule of a fork, decided.

ghost use Rattle.std.specs.Prelude.{◌≡◌, ◌≢◌, ◌↔◌, ◌<◌, ◌∷◌, ℕ, IfSome, Some, length, map, slice_get, suc, true};
ghost use Rattle.std.specs.List.{All};
ghost use Rattle.omi_model.specs.Changes.{OfCurrentRegion};
ghost use Rattle.omi_machine_legal.specs.Decided.{AreAsksOverOf, IsNewAt};
ghost use Rattle.omi_model.specs.Fresh.{AreDistinct, IsFresh};
ghost use Rattle.omi_machine.specs.Kept.{state_of};
ghost use Rattle.omi_model.specs.Teams.{AreAsksOver, MayFork, got_threads};

use crate::ask_rules::{got_count, were_asked};
use crate::fresh::{is_fresh_region, is_fresh_task};
use omi_machine::State;
use omi_model::{Rid, Team, Thread, Tid};

/// Whether the threads that joined and the asker are as many as wanted.
fn has_wanted_size(h: &Thread) -> bool
    ensures { (result ≡ true) ↔ (suc (length (got_threads h.now.asks)) ≡ h.now.wanted) }
{
    let wanted = h.wanted as usize;
    wanted > 0 && got_count(h) == wanted - 1
}

/// Whether the asks of one of so many threads are over.
fn are_asks_over(h: &Thread, i: usize, count: usize) -> bool
    ensures { (result ≡ true) ↔ AreAsksOverOf h.now i count }
{
    has_wanted_size(h) || were_asked(h, i, count)
}

/// The thread that joined at a place in the order of asking.
fn got_thread(h: &Thread, at: usize) -> Option<u8>
    ensures { result ≡ slice_get (got_threads h.now.asks) at }
{
    h.asks
        .as_slice()
        .iter()
        .filter_map(|a| if a.1 { Some(a.0) } else { None })
        .nth(at)
}

/// The thread of a member at a place: the asker, and then those that joined.
fn team_thread(h: &Thread, i: usize, at: usize) -> Option<usize>
    ensures { result ≡ slice_get (i ∷ got_threads h.now.asks) at }
{
    if at == 0 {
        return Some(i);
    }
    match got_thread(h, at - 1) {
        Some(w) => Some(w as usize),
        None => None,
    }
}

/// The thread of a member.
fn thread_at(team: &Team, at: usize) -> u8
    requires { at < length team.now }
    ensures { slice_get (map (λ m. m.1) team.now) at ≡ Some result }
{
    team.get(at).1
}

/// The task of a member.
fn task_at(team: &Team, at: usize) -> Tid
    requires { at < length team.now }
    ensures { slice_get (map (λ m. m.0) team.now) at ≡ Some result }
{
    team.get(at).0
}

/// Whether a member has the thread that is its place's.
fn has_team_thread(h: &Thread, i: usize, team: &Team, at: usize) -> bool
    requires { at < length team.now }
    ensures { (result ≡ true) ↔ (slice_get (map (λ m. m.1) team.now) at
        ≡ slice_get (i ∷ got_threads h.now.asks) at) }
{
    match team_thread(h, i, at) {
        Some(w) => thread_at(team, at) as usize == w,
        None => false,
    }
}

/// Whether a member's task is new.
fn is_member_fresh(s: &State, i: usize, team: &Team, at: usize) -> bool
    requires { at < length team.now }
    ensures { (result ≡ true)
        ↔ IfSome (slice_get team.now at) (λ m. IsFresh (state_of s.now).tasks i m.0.0) }
{
    is_fresh_task(s, i, team.get(at).0)
}

/// Whether two members have different tasks.
fn differ(team: &Team, j: usize, at: usize) -> bool
    requires one { j < length team.now }
    requires other { at < length team.now }
    ensures { (result ≡ true)
        ↔ (slice_get (map (λ m. m.0) team.now) j ≢ slice_get (map (λ m. m.0) team.now) at) }
{
    task_at(team, j) != task_at(team, at)
}

/// Whether each member has the thread that is its place's.
fn have_team_threads(h: &Thread, i: usize, team: &Team) -> bool
    ensures { (result ≡ true) ↔ ((k : ℕ) → k < length team.now
        → slice_get (map (λ m. m.1) team.now) k ≡ slice_get (i ∷ got_threads h.now.asks) k) }
{
    for at in 0..team.len() {
        if !has_team_thread(h, i, team, at) {
            return false;
        }
    }
    true
}

/// Whether each member's task is new.
fn are_members_fresh(s: &State, i: usize, team: &Team) -> bool
    ensures { (result ≡ true) ↔ ((k : ℕ) → k < length team.now
        → IfSome (slice_get team.now k) (λ m. IsFresh (state_of s.now).tasks i m.0.0)) }
{
    for at in 0..team.len() {
        if !is_member_fresh(s, i, team, at) {
            return false;
        }
    }
    true
}

/// Whether a member's task is that of no earlier member.
fn is_new_at(team: &Team, at: usize) -> bool
    requires { at < length team.now }
    ensures { (result ≡ true) ↔ IsNewAt (map (λ m. m.0) team.now) at }
{
    for j in 0..at {
        if !differ(team, j, at) {
            return false;
        }
    }
    true
}

/// Whether each member's task is that of no earlier member.
fn are_new(team: &Team) -> bool
    ensures { (result ≡ true)
        ↔ ((k : ℕ) → k < length team.now → IsNewAt (map (λ m. m.0) team.now) k) }
{
    for at in 0..team.len() {
        if !is_new_at(team, at) {
            return false;
        }
    }
    true
}

/// Whether the threads of a team are the asker and then those that joined.
fn are_team_threads(h: &Thread, i: usize, team: &Team) -> bool
    ensures { (result ≡ true) ↔ (map (λ m. m.1) team.now ≡ i ∷ got_threads h.now.asks) }
{
    if team.len() == 0 || team.len() - 1 != got_count(h) {
        return false;
    }
    have_team_threads(h, i, team)
}

/// Whether a thread has asked for a team, and these are its threads.
fn is_asked_team(s: &State, i: usize, team: &Team) -> bool
    requires { i < (state_of s.now).count }
    ensures { (result ≡ true) ↔ (AreAsksOver (state_of s.now) i
        × (map (λ m. m.1) team.now ≡ i ∷ got_threads ((state_of s.now).threads i).asks)) }
{
    let h = s.thread(i);
    are_asks_over(h, i, s.count()) && are_team_threads(h, i, team)
}

/// Whether the tasks of a team are new and distinct.
fn have_new_tasks(s: &State, i: usize, team: &Team) -> bool
    ensures { (result ≡ true) ↔ (All (λ m. IsFresh (state_of s.now).tasks i m.0.0) team.now
        × AreDistinct (map (λ m. m.0) team.now)) }
{
    are_members_fresh(s, i, team) && are_new(team)
}

/// Whether a thread forks a region of a team.
fn may_fork_team(s: &State, i: usize, region: Rid, team: &Team) -> bool
    requires { i < (state_of s.now).count }
    ensures { (result ≡ true) ↔ MayFork (state_of s.now) i region team.now }
{
    is_asked_team(s, i, team) && is_fresh_region(s, i, region) && have_new_tasks(s, i, team)
}

/// Whether a task forks a region of a team.
pub fn may_fork(s: &State, i: usize, region: Rid, team: &Team) -> bool
    requires { i < (state_of s.now).count }
    ensures { (result ≡ true) ↔ OfCurrentRegion (state_of s.now) i
        (λ k t r. MayFork (state_of s.now) i region team.now) }
{
    match s.current_region(i) {
        Some(_) => may_fork_team(s, i, region, team),
        None => false,
    }
}
