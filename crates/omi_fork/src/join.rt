//! The steps of a join, and those that give records back.

ghost use Rattle.std.specs.Prelude.{◌≡◌, ◌<◌};
ghost use Rattle.omi_layout.specs.Table.{thread_count};
ghost use Rattle.omi_pc.specs.Fits.{Fits};
ghost use Rattle.omi_pc.specs.OpenBodies.{AreOpen};
ghost use Rattle.omi_pc.specs.declared.counter.Counter.TheVariants as counter;
ghost use Rattle.omi_fork.specs.JoinSteps;
ghost use Rattle.omi_fork.specs.JoinSteps.{behind_free, join_moved, join_next, join_outcome, past_join};
ghost use Rattle.omi_step_words.specs.Moving.{to_join};
ghost use Rattle.omi_step_words.specs.Outcomes.{outcome_of};
ghost use Rattle.omi_step_words.specs.Placed.{IsPlaced};

use omi_layout::{Field, Layout};
use omi_model::{Rid, Tid};
use omi_pc::{Actor, Context, Counter, JoinCounter, bodies_stand};
use omi_run_lists::CompactEvent;
use omi_script::Program;
use omi_step_words::{
    CompactOutcome, load, object_in, of_place, of_region, of_task, store, store_under, task_place,
    unused_word,
};
use omi_word::Op;

/// The operation that member 0 makes next in a join.
pub fn join_next(p: &Program, l: &Layout, a: &Actor, c: JoinCounter) -> Op
    requires fits { Fits p.now a.now }
    requires threads { p.now.threads ≡ thread_count l.now.table }
    requires placed { IsPlaced l.now.table a.now }
    requires at { a.now.counter ≡ counter.Join c }
    ensures { result ≡ join_next l.now.table a.now c }
{
    match c {
        JoinCounter::LoadLeft => load(of_region(l, a.context.region, Field::RegionLeft)),
        JoinCounter::Join => store_under(l, a),
        JoinCounter::LoadMember { region, member, .. } => {
            load(l.word_at(region.0.creator, region.0.slot, Field::RegionTeam, member))
        }
        JoinCounter::LoadLife { task, .. } => load(of_place(l, task, Field::TaskLife)),
        JoinCounter::FreeTask { task, .. } => {
            store(of_task(l, task, Field::TaskLife), unused_word(task.0))
        }
        JoinCounter::FreeRegion { region, .. } => {
            store(
                of_region(l, region, Field::RegionLife),
                unused_word(region.0),
            )
        }
    }
}

/// Whether some member but member 0 has not left.
fn some_inside(a: &Actor, old: u64) -> bool
    ensures { result ≡ JoinSteps.some_inside a.now old }
{
    old < a.context.size.saturating_sub(1)
}

/// A counter of a join comes next.
fn to_join(a: &mut Actor, c: JoinCounter)
    ensures { a.new ≡ to_join c a.old }
{
    a.counter = Counter::Join(c);
}

/// The region is over, and the encountering task is current again: the records are given back next.
fn join(p: &Program, a: &mut Actor)
    requires { AreOpen p.now a.old.context a.old.stack }
    ensures { a.new ≡ past_join a.old }
{
    bodies_stand();
    let Context { region, size, .. } = a.context;
    a.close();
    to_join(
        a,
        JoinCounter::LoadMember {
            region,
            size,
            member: 0,
        },
    );
}

/// The counter behind the store that gives the record of a member's task back.
fn behind_free(region: Rid, size: u64, member: u8) -> JoinCounter
    requires { member < 255 }
    ensures { result ≡ behind_free region size member }
{
    let next = member + 1;
    if u64::from(next) < size {
        JoinCounter::LoadMember {
            region,
            size,
            member: next,
        }
    } else {
        JoinCounter::FreeRegion { region, size }
    }
}

/// Moves member 0 on, behind the operation of its counter.
pub fn join_move(p: &Program, l: &Layout, a: &mut Actor, c: JoinCounter, old: u64)
    requires fits { Fits p.now a.old }
    requires at { a.old.counter ≡ counter.Join c }
    ensures { a.new ≡ join_moved p.now l.now.table a.old c old }
{
    match c {
        JoinCounter::LoadLeft => {
            if !some_inside(a, old) {
                to_join(a, JoinCounter::Join);
            }
        }
        JoinCounter::Join => join(p, a),
        JoinCounter::LoadMember {
            region,
            size,
            member,
        } => {
            let task = task_place(l, old);
            to_join(
                a,
                JoinCounter::LoadLife {
                    region,
                    size,
                    member,
                    task,
                },
            );
        }
        JoinCounter::LoadLife {
            region,
            size,
            member,
            task,
        } => {
            let task = Tid(object_in(task, old));
            to_join(
                a,
                JoinCounter::FreeTask {
                    region,
                    size,
                    member,
                    task,
                },
            );
        }
        JoinCounter::FreeTask {
            region,
            size,
            member,
            ..
        } => to_join(a, behind_free(region, size, member)),
        JoinCounter::FreeRegion { .. } => a.work(p),
    }
}

/// What a step of a join answers, by the word that it found.
pub fn join_outcome(p: &Program, l: &Layout, a: &Actor, c: JoinCounter, old: u64) -> CompactOutcome
    requires fits { Fits p.now a.now }
    requires threads { p.now.threads ≡ thread_count l.now.table }
    requires placed { IsPlaced l.now.table a.now }
    requires at { a.now.counter ≡ counter.Join c }
    ensures { outcome_of a.now result ≡ join_outcome l.now.table a.now c old }
{
    let region = a.context.region;
    match c {
        JoinCounter::LoadLeft => {
            if !some_inside(a, old) {
                return CompactOutcome::Quiet;
            }
            let addr = of_region(l, region, Field::RegionLeft);
            CompactOutcome::NotReady { addr, word: old }
        }
        JoinCounter::Join => CompactOutcome::Event(CompactEvent::Join { region }),
        JoinCounter::FreeTask { task, .. } => CompactOutcome::Event(CompactEvent::FreeTask {
            task,
        }),
        JoinCounter::FreeRegion { region, .. } => CompactOutcome::Event(CompactEvent::FreeRegion {
            region,
        }),
        _ => CompactOutcome::Quiet,
    }
}
