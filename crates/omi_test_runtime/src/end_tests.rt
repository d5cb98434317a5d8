//! Worked runs in the layouts of all families: one of no step, and runs to their end.

use crate::compare::Look;
use crate::lines::{begins, found, tells};
use crate::look::{Place, RUNTIME, region_word, task_word};
use crate::moves::follow;
use crate::places::{FIFTH, FIRST, SECOND};
use crate::scripts::{A_CHANGED_HEAD, A_CHANGED_HEAD_OF_TEAMS};
use crate::trial::{Looks, Trial, Wrong, core_of, program_in};
use omi_core::{Core, End, Schedule, Stop};
use omi_fixture_rows::{A_TEAM_OF_TWO, AN_EMPTY_RUN};
use omi_layout::{Field, Layout};
use omi_model::{Id, Rid, Tid};
use std::alloc::Global;
use std::test::Fail;

/// The initial region or task.
const INITIAL: Id = Id {
    creator: 0,
    slot: 0,
    generation: 0,
};

/// A run, its layout, and why it ended.
struct Ended {
    core: Core,
    layout: Layout,
    end: End,
}

impl Drop for Ended {
    fn drop(self) {
        let Ended {
            core: _core,
            layout: _layout,
            end: _end,
        } = self;
    }
}

/// A run of a script for so many steps, its threads in turn, in the layout of a family.
fn run(alloc: Global, script: &str, k: u8, steps: u64) -> Result<Ended, Wrong> {
    let (program, layout) = program_in(alloc, script, k)?;
    let mut core = core_of(alloc, program, layout)?;
    let stop = Stop { steps, on: None };
    let end = core.run(&Schedule::RoundRobin, stop)?;
    Ok(Ended { core, layout, end })
}

/// The opening words of a program without a statement, for one thread.
fn is_opening(l: &Layout, look: &Look) -> Result<(), Wrong> {
    let region = region_word(l, Some(Rid(INITIAL)));
    let task = task_word(l, Some(Tid(INITIAL)));
    look.are(
        RUNTIME,
        &[
            (Field::RuntimeVersion, Some(201811)),
            (Field::RuntimeThreads, Some(1)),
            (Field::RuntimeProcs, Some(4)),
            (Field::RuntimeDebug, Some(1)),
            (Field::RuntimeMaxActive, Some(8)),
            (Field::RuntimeLocks, Some(0)),
        ],
    )?;
    look.are(
        FIRST,
        &[
            (Field::ThreadLife, Some(1)),
            (Field::ThreadNative, Some(1000)),
            (Field::ThreadState, Some(0)),
            (Field::ThreadCurrent, task),
            (Field::RegionLife, Some(1)),
            (Field::RegionFunction, Some(0x40_0000)),
            (Field::RegionLevels, Some(0)),
            (Field::RegionActive, Some(0)),
            (Field::RegionSize, Some(1)),
            (Field::RegionEnclosing, Some(0)),
            (Field::RegionTeam, task),
            (Field::RegionArrived, Some(0)),
            (Field::RegionReleased, Some(0)),
            (Field::TaskLife, Some(1)),
            (Field::TaskImplicit, Some(1)),
            (Field::TaskRegion, region),
            (Field::TaskFunction, Some(0x40_0000)),
            (Field::TaskGenerating, Some(0)),
            (Field::TaskScheduling, Some(0)),
            (Field::TaskExit, Some(0x7f00_000f_ffc0)),
            (Field::TaskEnter, Some(0)),
            (Field::TaskTool, Some(0)),
            (Field::TaskDynamic, Some(0)),
            (Field::TaskNthreadsLength, Some(1)),
            (Field::TaskNthreads, Some(1)),
            (Field::TaskSchedule, Some(1)),
            (Field::TaskDevice, Some(0)),
            (Field::TaskFinal, Some(0)),
        ],
    )?;
    Ok(())
}

/// The elements of nthreads-var of a task.
fn has_list(look: &Look, task: Place, sizes: &[u64]) -> Result<(), Wrong> {
    look.is(task, Field::TaskNthreadsLength, sizes.len() as u64)?;
    for at in 0..sizes.len() {
        look.is_at(task, Field::TaskNthreads, (at % 4) as u8, Some(sizes[at]))?;
    }
    Ok(())
}

impl Ended {
    /// The words, read through the layout.
    fn look(&self) -> Look<'_> {
        Look {
            layout: &self.layout,
            image: self.core.image(),
        }
    }

    /// Whether the run is one of no step, whose words are the opening words.
    fn is_empty(&self) -> Result<bool, Wrong> {
        is_opening(&self.layout, &self.look())?;
        let core = &self.core;
        Ok(self.end == End::Steps && core.steps() == 0 && core.events().len() == 0)
    }
}

/// Whether a run of no step has the opening words.
fn is_empty(alloc: Global, k: u8) -> Result<bool, Wrong> {
    let ended = run(alloc, AN_EMPTY_RUN, k, 0)?;
    ended.is_empty()
}

/// The number of words of a run of no step in the layout of a family.
fn words_in(alloc: Global, k: u8) -> Result<usize, Wrong> {
    let ended = run(alloc, AN_EMPTY_RUN, k, 0)?;
    Ok(ended.core.image().len())
}

#[test]
fn an_empty_run(rt: HostRuntime) -> Result<(), Fail> {
    for k in 0..16u8 {
        assert!(rt; is_empty(rt.alloc(), k)?);
    }
    assert_eq!(rt; words_in(rt.alloc(), 0)?, 8502);
    assert_eq!(rt; words_in(rt.alloc(), 7)?, 9050);
    Ok(())
}

/// Whether a run to its end sets the head of a list, and leaves the rest.
fn has_a_changed_head(alloc: Global, ended: &Ended) -> Result<bool, Wrong> {
    ended.look().is(FIRST, Field::TaskDynamic, 1)?;
    has_list(&ended.look(), FIRST, &[3, 2])?;
    let lines =
        "set nthreads-var 3; set dyn-var 1; work; state wait_barrier_implicit_parallel 0; arrive; \
        release; pass; done";
    let tells = tells(alloc, &ended.core, 0, lines)?;
    Ok(tells && ended.end == End::Done)
}

/// The same in the layout of a family.
fn changes_the_head(alloc: Global, k: u8) -> Result<bool, Wrong> {
    let ended = run(alloc, A_CHANGED_HEAD, k, 1000)?;
    has_a_changed_head(alloc, &ended)
}

#[test]
fn a_list_with_a_changed_head(rt: HostRuntime) -> Result<(), Fail> {
    for k in 0..16u8 {
        assert!(rt; changes_the_head(rt.alloc(), k)?);
    }
    Ok(())
}

/// Two workers and more are idle; thread 0 forks a team, and its member 0 another one.
const NESTED_TEAMS: &str = "\
1 until offer
2 until offer
3 until offer
4 until offer
0 until want 3
0 until fork r0.1.0 size 3 team k0.1.0@0 k0.2.0@1 k0.3.0@2
0 until want 2
0 until fork r0.2.0 size 2 team k0.4.0@0 k0.5.0@3";

/// The members of a team have the list without its head, and so have the members of a team of theirs.
fn hands_on_the_list(t: &mut Trial) -> Result<(), Wrong> {
    follow(t, NESTED_TEAMS)?;
    has_list(&t.look(), FIRST, &[3, 2, 5])?;
    has_list(&t.look(), SECOND, &[2, 5])?;
    has_list(&t.look(), FIFTH, &[5])
}

/// The same in the layout of a family.
fn hands_on_in(alloc: Global, k: u8) -> Result<(), Wrong> {
    let mut t = Trial::opening(alloc, A_CHANGED_HEAD_OF_TEAMS, k, Looks::EachEvent)?;
    hands_on_the_list(&mut t)
}

#[test]
fn a_changed_head_in_front_of_a_team(rt: HostRuntime) -> Result<(), Fail> {
    for k in 0..16u8 {
        hands_on_in(rt.alloc(), k)?;
    }
    Ok(())
}

/// Whether the last event of a thread that is no state is an offer.
fn ends_with_an_offer(alloc: Global, core: &Core, i: u8) -> Result<bool, Wrong> {
    let events = core.events();
    let mut offers = false;
    for at in 0..events.len() {
        let (_, thread, e) = events.get(at);
        if thread == i && !begins(alloc, i, &e, "state ")? {
            offers = begins(alloc, i, &e, "offer")?;
        }
    }
    Ok(offers)
}

/// Whether a run to its end has one end of the other member, and behind it one join, and leaves the worker with its offer.
fn joins_once(alloc: Global, ended: &Ended) -> Result<bool, Wrong> {
    let core = &ended.core;
    let (ends, end) = found(alloc, core, 1, "implicit_end k0.2.0")?;
    let (joins, join) = found(alloc, core, 0, "join r0.1.0")?;
    let offers = ends_with_an_offer(alloc, core, 1)?;
    Ok(offers && (ends, joins) == (1, 1) && end < join && ended.end == End::Done)
}

/// The same in the layout of a family.
fn has_one_team(alloc: Global, k: u8) -> Result<bool, Wrong> {
    let ended = run(alloc, A_TEAM_OF_TWO, k, 100_000)?;
    joins_once(alloc, &ended)
}

#[test]
fn one_team(rt: HostRuntime) -> Result<(), Fail> {
    for k in 0..16u8 {
        assert!(rt; has_one_team(rt.alloc(), k)?);
    }
    Ok(())
}
