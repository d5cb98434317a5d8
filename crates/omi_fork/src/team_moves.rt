//! How a step of a `parallel` construct moves a thread on.

ghost use Rattle.std.specs.Prelude.{◌≡◌, ◌<◌, ◌≤◌, length};
ghost use Rattle.omi_model.specs.declared.limits.TheConstants.{MOST_MEMBERS};
ghost use Rattle.omi_layout.specs.Field.{regions, tasks};
ghost use Rattle.omi_layout.specs.Table.{thread_count};
ghost use Rattle.omi_pc.specs.declared.counter.Counter.TheVariants as counter;
ghost use Rattle.omi_pc.specs.declared.limits.TheConstants.{REGION_WORDS, TASK_WORDS, VARIABLE_WORDS};
ghost use Rattle.omi_pc.specs.declared.team_counter.TeamCounter.TheVariants as team;
ghost use Rattle.omi_pc.specs.Fits.{Fits};
ghost use Rattle.omi_pc.specs.OpenBodies.{AreOpen};
ghost use Rattle.omi_step_words.specs.Moving.{to_team};
ghost use Rattle.omi_step_words.specs.Placed.{IsPlaced, Searches};
ghost use Rattle.omi_fork.specs.TeamSteps.{answered, asking, assigning_from, behind_member, behind_region_word, behind_task_word, behind_team_variable, past_fork, region_searched, task_searched, team_moved, team_outcome, past_want};

use crate::team::team_outcome;
use crate::team_parts::{master_context, region_function, wanted_size};
use omi_layout::Layout;
use omi_model::{Id, Rid, Team, Tid};
use omi_numbers::FREE_CLAIM;
use omi_pc::limits::{REGION_WORDS, TASK_WORDS, VARIABLE_WORDS};
use omi_pc::{Actor, Counter, TeamCounter, bodies_stand, stacks_have_room};
use omi_script::Program;
use omi_step_words::{is_free, next_region_slot, next_task_slot, object_in, own_place};

/// The task that stands for a member whose task is not made yet.
const NO_TASK: Tid = Tid(Id {
    creator: 0,
    slot: 0,
    generation: 0,
});

/// A counter of a `parallel` construct comes next.
fn to_team(a: &mut Actor, c: TeamCounter)
    ensures { a.new ≡ to_team c a.old }
{
    a.counter = Counter::Team(c);
}

/// The counter behind the load of a word of a data environment.
fn behind_variable(word: u8) -> TeamCounter
    requires { word < VARIABLE_WORDS }
    ensures { result ≡ behind_team_variable word }
{
    let next = word + 1;
    if (next as usize) < VARIABLE_WORDS {
        TeamCounter::LoadVariable { word: next }
    } else {
        TeamCounter::Want
    }
}

/// Asks this thread next, or the one behind it where it is the own one; behind the last ask the search for records begins.
fn ask(p: &Program, a: &mut Actor, thread: u8)
    requires own { a.old.thread < p.now.threads }
    requires asked { thread ≤ p.now.threads }
    ensures { a.new ≡ asking p.now thread a.old }
{
    let next = if thread == a.thread {
        thread + 1
    } else {
        thread
    };
    a.gathered.asked = next;
    let smaller = a.gathered.team.len() < a.gathered.wanted as usize;
    let asks = smaller && next < p.threads;
    to_team(
        a,
        if asks {
            TeamCounter::Ask
        } else {
            TeamCounter::LoadRegionLife { slot: 0 }
        },
    );
}

/// A team of this size is wanted.
fn want(p: &Program, a: &mut Actor, n: u8)
    requires { a.old.thread < p.now.threads }
    ensures { a.new ≡ past_want p.now n a.old }
{
    let mut team = Team::new();
    team.push(NO_TASK, a.thread);
    a.gathered.wanted = n;
    a.gathered.team = team;
    ask(p, a, 0);
}

/// A thread was asked, whose claim word was `old`.
fn answer(p: &Program, a: &mut Actor, old: u64)
    requires own { a.old.thread < p.now.threads }
    requires asked { a.old.gathered.asked < p.now.threads }
    requires room { length a.old.gathered.team < MOST_MEMBERS }
    ensures { a.new ≡ answered p.now old a.old }
{
    let thread = a.gathered.asked;
    if old == FREE_CLAIM {
        a.gathered.team.push(NO_TASK, thread);
    }
    ask(p, a, thread + 1);
}

/// The life word of a slot for a region was found.
fn search_region(l: &Layout, a: &mut Actor, slot: u16, old: u64)
    requires { Searches l.now.table regions slot }
    ensures { a.new ≡ region_searched l.now.table a.old slot old }
{
    let next = if is_free(old) {
        TeamCounter::TakeRegion {
            region: Rid(object_in(own_place(a, slot), old)),
        }
    } else {
        TeamCounter::LoadRegionLife {
            slot: next_region_slot(l, slot),
        }
    };
    to_team(a, next);
}

/// The life word of a slot for the task of a member was found.
fn search_task(l: &Layout, a: &mut Actor, region: Rid, member: u8, slot: u16, old: u64)
    requires { Searches l.now.table tasks slot }
    ensures { a.new ≡ task_searched l.now.table a.old region member slot old }
{
    let next = if is_free(old) {
        TeamCounter::TakeTask {
            region,
            member,
            task: Tid(object_in(own_place(a, slot), old)),
        }
    } else {
        TeamCounter::LoadTaskLife {
            region,
            member,
            slot: next_task_slot(l, slot),
        }
    };
    to_team(a, next);
}

/// The counter behind the store of a word of a region's record.
fn behind_region_word(region: Rid, word: u8) -> TeamCounter
    requires { word < REGION_WORDS }
    ensures { result ≡ behind_region_word region word }
{
    let next = word + 1;
    if next < REGION_WORDS {
        TeamCounter::FillRegion { region, word: next }
    } else {
        TeamCounter::LoadTaskLife {
            region,
            member: 0,
            slot: 0,
        }
    }
}

/// The counter behind the store of a word of a member's task.
fn behind_task_word(region: Rid, member: u8, task: Tid, word: u8) -> TeamCounter
    requires { word < TASK_WORDS }
    ensures { result ≡ behind_task_word region member task word }
{
    let next = word + 1;
    if next < TASK_WORDS {
        TeamCounter::FillTask {
            region,
            member,
            task,
            word: next,
        }
    } else {
        TeamCounter::StoreMember {
            region,
            member,
            task,
        }
    }
}

/// The counter behind the store of a member's task into the team of the region.
fn behind_member(a: &Actor, region: Rid, member: u8) -> TeamCounter
    requires { member < 255 }
    ensures { result ≡ behind_member a.now region member }
{
    let next = member + 1;
    if (next as usize) < a.gathered.team.len() {
        TeamCounter::LoadTaskLife {
            region,
            member: next,
            slot: 0,
        }
    } else {
        TeamCounter::Fork { region }
    }
}

/// Assigns the task of this member next, or works, where each member has its task.
fn assign_from(p: &Program, a: &mut Actor, member: u8)
    requires { AreOpen p.now a.old.context a.old.stack }
    ensures { a.new ≡ assigning_from p.now member a.old }
{
    if (member as usize) < a.gathered.team.len() {
        to_team(a, TeamCounter::Assign { member });
    } else {
        a.work(p);
    }
}

/// The region begins, and this thread goes on with member 0.
fn fork(p: &Program, l: &Layout, a: &mut Actor, region: Rid)
    requires fits { Fits p.now a.old }
    requires threads { p.now.threads ≡ thread_count l.now.table }
    requires placed { IsPlaced l.now.table a.old }
    requires at { a.old.counter ≡ counter.Team (team.Fork region) }
    ensures { a.new ≡ past_fork p.now region a.old }
{
    stacks_have_room();
    bodies_stand();
    let f = region_function(p, a);
    let context = master_context(a, region);
    a.begin_master(f, context);
    assign_from(p, a, 1);
}

/// Moves a thread on, behind the operation of its counter.
pub fn team_move(p: &Program, l: &Layout, a: &mut Actor, c: TeamCounter, old: u64)
    requires fits { Fits p.now a.old }
    requires threads { p.now.threads ≡ thread_count l.now.table }
    requires placed { IsPlaced l.now.table a.old }
    requires at { a.old.counter ≡ counter.Team c }
    ensures { a.new ≡ team_moved p.now l.now.table a.old c old }
{
    match c {
        TeamCounter::OverheadState => to_team(a, TeamCounter::LoadLevels),
        TeamCounter::LoadLevels => {
            a.gathered.levels = old;
            to_team(a, TeamCounter::LoadActive);
        }
        TeamCounter::LoadActive => {
            a.gathered.active = old;
            to_team(a, TeamCounter::LoadVariable { word: 0 });
        }
        TeamCounter::LoadVariable { word } => {
            a.gathered.variables[word as usize] = old;
            to_team(a, behind_variable(word));
        }
        TeamCounter::Want => {
            let n = wanted_size(p, a, old);
            want(p, a, n);
        }
        TeamCounter::Ask => answer(p, a, old),
        TeamCounter::LoadRegionLife { slot } => search_region(l, a, slot, old),
        TeamCounter::TakeRegion { region } => {
            to_team(a, TeamCounter::FillRegion { region, word: 0 })
        }
        TeamCounter::FillRegion { region, word } => to_team(a, behind_region_word(region, word)),
        TeamCounter::LoadTaskLife {
            region,
            member,
            slot,
        } => search_task(l, a, region, member, slot, old),
        TeamCounter::TakeTask {
            region,
            member,
            task,
        } => {
            a.gathered.team.set_task(member as usize, task);
            to_team(
                a,
                TeamCounter::FillTask {
                    region,
                    member,
                    task,
                    word: 0,
                },
            );
        }
        TeamCounter::FillTask {
            region,
            member,
            task,
            word,
        } => to_team(a, behind_task_word(region, member, task, word)),
        TeamCounter::StoreMember { region, member, .. } => {
            let next = behind_member(a, region, member);
            to_team(a, next);
        }
        TeamCounter::Fork { region } => fork(p, l, a, region),
        TeamCounter::Assign { member } => assign_from(p, a, member + 1),
    }
}
