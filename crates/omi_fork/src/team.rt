//! The operations and the outcomes of a `parallel` construct.

ghost use Rattle.std.specs.Prelude.{◌≡◌, ◌<◌};
ghost use Rattle.omi_layout.specs.Field.{tasks};
ghost use Rattle.omi_layout.specs.Place.{IsSlot};
ghost use Rattle.omi_layout.specs.Table.{thread_count};
ghost use Rattle.omi_pc.specs.Fits.{Fits};
ghost use Rattle.omi_pc.specs.declared.limits.TheConstants.{TASK_WORDS};
ghost use Rattle.omi_pc.specs.declared.counter.Counter.TheVariants as counter;
ghost use Rattle.omi_step_words.specs.Outcomes.{outcome_of};
ghost use Rattle.omi_step_words.specs.Placed.{HasGroupWords, HasOptionalTask, HasRegion, HasTask, IsPlaced};
ghost use Rattle.omi_step_words.specs.Plan.{filling, task_plan};
ghost use Rattle.omi_fork.specs.TeamSteps.{team_next, team_outcome};

use crate::team_parts::{member_of, new_member, new_region, wanted_size};
use omi_layout::{Field, Layout};
use omi_model::Id;
use omi_numbers::{FREE_CLAIM, OVERHEAD, claimed_word, state_word};
use omi_pc::{Actor, TeamCounter};
use omi_run_lists::CompactEvent;
use omi_script::Program;
use omi_step_words::{
    CompactOutcome, NewTask, fill, is_free, load, of_place, of_region, of_runtime, of_task,
    of_thread, of_variable, own_place, region_plan, search_outcome, store, task_plan, used_word,
};
use omi_word::Op;

/// The store of a word into the record of a new task.
fn fill_task(l: &Layout, task: Id, new: &NewTask, word: u8) -> Op
    requires word { word < TASK_WORDS }
    requires slot { IsSlot l.now.table tasks task.creator task.slot }
    requires region { HasRegion l.now.table new.now.region }
    requires thread { new.now.thread < thread_count l.now.table }
    requires generating { HasTask l.now.table new.now.generating }
    requires scheduling { HasOptionalTask l.now.table new.now.scheduling }
    requires groups { HasGroupWords l.now.table }
    ensures { result ≡ filling l.now.table task (task_plan l.now.table new.now word) }
{
    fill(l, task, task_plan(l, new, word))
}

/// The operation that a thread makes next in a `parallel` construct.
pub fn team_next(p: &Program, l: &Layout, a: &Actor, c: TeamCounter) -> Op
    requires fits { Fits p.now a.now }
    requires threads { p.now.threads ≡ thread_count l.now.table }
    requires placed { IsPlaced l.now.table a.now }
    requires groups { HasGroupWords l.now.table }
    requires at { a.now.counter ≡ counter.Team c }
    ensures { result ≡ team_next p.now l.now.table a.now c }
{
    let i = a.thread;
    match c {
        TeamCounter::OverheadState => store(
            of_thread(l, i, Field::ThreadState),
            state_word(OVERHEAD, 0),
        ),
        TeamCounter::LoadLevels => load(of_region(l, a.context.region, Field::RegionLevels)),
        TeamCounter::LoadActive => load(of_region(l, a.context.region, Field::RegionActive)),
        TeamCounter::LoadVariable { word } => { load(of_variable(l, a.context.task.0, word)) }
        TeamCounter::Want => load(of_runtime(l, Field::RuntimeMaxActive)),
        TeamCounter::Ask => Op::Cas {
            at: of_thread(l, a.gathered.asked, Field::ThreadClaim),
            old: FREE_CLAIM,
            new: claimed_word(i),
        },
        TeamCounter::LoadRegionLife { slot } => {
            load(of_place(l, own_place(a, slot), Field::RegionLife))
        }
        TeamCounter::TakeRegion { region } => {
            store(of_region(l, region, Field::RegionLife), used_word(region.0))
        }
        TeamCounter::FillRegion { region, word } => {
            fill(l, region.0, region_plan(l, &new_region(p, a), word))
        }
        TeamCounter::LoadTaskLife { slot, .. } => {
            load(of_place(l, own_place(a, slot), Field::TaskLife))
        }
        TeamCounter::TakeTask { task, .. } => {
            store(of_task(l, task, Field::TaskLife), used_word(task.0))
        }
        TeamCounter::FillTask {
            region,
            member,
            task,
            word,
        } => {
            let new = new_member(p, a, region, member);
            fill_task(l, task.0, &new, word)
        }
        TeamCounter::StoreMember {
            region,
            member,
            task,
        } => {
            let at = l.word_at(region.0.creator, region.0.slot, Field::RegionTeam, member);
            store(at, l.task_at(task.0.creator, task.0.slot))
        }
        TeamCounter::Fork { .. } => {
            let task = member_of(&a.gathered.team, 0).0;
            let record = l.task_at(task.0.creator, task.0.slot);
            store(of_thread(l, i, Field::ThreadCurrent), record)
        }
        TeamCounter::Assign { member } => {
            let (task, thread) = member_of(&a.gathered.team, member);
            let record = l.task_at(task.0.creator, task.0.slot);
            store(of_thread(l, thread, Field::ThreadAssign), record)
        }
    }
}

/// What a step of a `parallel` construct answers, by the word that it found.
pub fn team_outcome(p: &Program, l: &Layout, a: &Actor, c: TeamCounter, old: u64) -> CompactOutcome
    requires fits { Fits p.now a.now }
    requires threads { p.now.threads ≡ thread_count l.now.table }
    requires placed { IsPlaced l.now.table a.now }
    requires at { a.now.counter ≡ counter.Team c }
    ensures { outcome_of a.now result ≡ team_outcome p.now l.now.table a.now c old }
{
    match c {
        TeamCounter::OverheadState => CompactOutcome::Event(CompactEvent::State {
            state: OVERHEAD,
            wait: 0,
        }),
        TeamCounter::Want => CompactOutcome::Event(CompactEvent::Want {
            n: wanted_size(p, a, old),
        }),
        TeamCounter::Ask => CompactOutcome::Event(CompactEvent::Ask {
            w: a.gathered.asked,
            got: old == FREE_CLAIM,
        }),
        TeamCounter::LoadRegionLife { slot } => {
            search_outcome(l, a, slot, Field::RegionLife, old)
        }
        TeamCounter::LoadTaskLife { slot, .. } => search_outcome(l, a, slot, Field::TaskLife, old),
        TeamCounter::Fork { region } => CompactOutcome::Event(CompactEvent::Fork { region }),
        _ => CompactOutcome::Quiet,
    }
}
