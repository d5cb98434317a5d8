//! What a `parallel` construct in the making asks for, and what it makes of what it has gathered.

ghost use Rattle.std.specs.Prelude.{◌≡◌, ◌<◌, ◌≤◌, ◌+◌, length};
ghost use Rattle.omi_pc.specs.Fits.{HasVariables};
ghost use Rattle.omi_step_words.specs.Members.{member_of};
ghost use Rattle.omi_fork.specs.TeamParts;
ghost use Rattle.omi_fork.specs.TeamParts.{master_context, new_member, planned_region, requested, size_to_want};

use omi_model::{Rid, Team, Tid};
use omi_numbers::exit_frame;
use omi_pc::{Actor, Context};
use omi_script::{Program, Stmt};
use omi_step_words::{NewRegion, NewTask, inherited_words};

/// The function of the `parallel` construct in work, and 0 where there is none.
pub fn region_function(p: &Program, a: &Actor) -> u8
    ensures { result ≡ TeamParts.region_function p.now a.now }
{
    match a.statement(p) {
        Some(Stmt::Parallel { f, .. }) => f,
        _ => 0,
    }
}

/// The size that the clause of the `parallel` construct in work asks for.
fn requested(p: &Program, a: &Actor) -> Option<u8>
    ensures { result ≡ requested p.now a.now }
{
    match a.statement(p) {
        Some(Stmt::Parallel { num, .. }) => num,
        _ => None,
    }
}

/// The size of the team that is wanted, by max-active-levels-var.
pub fn wanted_size(p: &Program, a: &Actor, most: u64) -> u8
    requires { HasVariables a.now }
    ensures { result ≡ size_to_want p.now a.now most }
{
    if most <= a.gathered.active {
        return 1;
    }
    let first = (a.gathered.variables[4] % 256) as u8;
    requested(p, a).unwrap_or(first)
}

/// A member by its number: its task, and its thread.
pub fn member_of(team: &Team, number: u8) -> (Tid, u8)
    requires { number < length team.now }
    ensures { result ≡ member_of team.now number }
{
    team.get(number as usize)
}

/// The region of a team, one level below the current one.
pub fn new_region(p: &Program, a: &Actor) -> NewRegion
    ensures { result ≡ planned_region p.now a.now }
{
    let size = a.gathered.team.len() as u64;
    let more = u64::from(size > 1);
    NewRegion {
        enclosing: a.context.region,
        encountering: a.context.task,
        function: region_function(p, a),
        size,
        levels: a.gathered.levels.wrapping_add(1),
        active: a.gathered.active.wrapping_add(more),
    }
}

/// The implicit task of a member.
pub fn new_member(p: &Program, a: &Actor, region: Rid, number: u8) -> NewTask
    requires variables { HasVariables a.now }
    requires member { number < length a.now.gathered.team }
    ensures { result ≡ new_member p.now a.now region number }
{
    let thread = member_of(&a.gathered.team, number).1;
    let task = a.context.task;
    let first = number == 0;
    let depth = if first {
        u64::from(a.context.depth) + 1
    } else {
        1
    };
    let scheduling = if first { Some(task) } else { None };
    NewTask {
        implicit: true,
        region,
        thread,
        number: u64::from(number),
        generating: task,
        scheduling,
        function: region_function(p, a),
        exit: exit_frame(thread, depth),
        is_final: false,
        references: 0,
        group: 0,
        variables: inherited_words(&a.gathered.variables),
    }
}

/// The context of member 0.
pub fn master_context(a: &Actor, region: Rid) -> Context
    requires member { 0 < length a.now.gathered.team }
    requires depth { a.now.context.depth < 65535 }
    ensures { result ≡ master_context a.now region }
{
    let task = member_of(&a.gathered.team, 0).0;
    Context {
        task,
        region,
        row: task,
        number: 0,
        size: a.gathered.team.len() as u64,
        arrivals: 0,
        open_groups: 0,
        implicit: true,
        is_final: false,
        depth: a.context.depth + 1,
    }
}
