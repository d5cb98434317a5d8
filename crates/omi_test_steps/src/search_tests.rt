//! The search of a thread for a record of a task: what it answers to a life word, and where it goes on.

ghost use Rattle.std.specs.Prelude.{◌≡◌, ◌<◌, IfOk};
ghost use Rattle.omi_layout.specs.Table.{thread_count};
ghost use Rattle.omi_pc.specs.Fits.{Fits};
ghost use Rattle.omi_step_words.specs.Placed.{IsPlaced};

use omi_actor::resume;
use omi_layout::{Field, GROUP_VERSION, Layout};
use omi_model::{OutOfMemory, Tid};
use omi_pc::{Actor, Counter, TaskCounter};
use omi_rep::Outcome;
use omi_script::{Program, Stmt, parse};
use omi_word::Res;
use std::alloc::Global;
use std::test::Fail;

/// Thread 0 begins at a `task` construct whose task starts at once.
const SCRIPT: &str = "func t\nwork\nend\nfunc main\ntask t if 0\nend\n";

/// The life word of a record that is never taken again, 2^33.
const RETIRED: u64 = 8_589_934_592;

/// Thread 0 before its first step.
fn opening(alloc: Global, p: &Program, l: &Layout) -> Result<Actor, OutOfMemory>
    requires { 0 < p.now.threads }
    ensures fits { IfOk result (λ a. Fits p.now a) }
    ensures placed { IfOk result (λ a. IsPlaced l.now.table a) }
{
    Actor::opening(alloc, p, 0)
}

/// What a thread answers that stands at a `task` construct whose task starts at once, looks at the life word of a slot of its own and finds this word.
/// None where it stands at no `task` construct, or has no such slot, or the layout has no words for groups.
fn looks(p: &Program, l: &Layout, a: &mut Actor, slot: u16, word: u64) -> Option<Outcome>
    requires threads { p.now.threads ≡ thread_count l.now.table }
    requires fits { Fits p.now a.old }
    requires placed { IsPlaced l.now.table a.old }
{
    let Some(Stmt::Task { .. }) = a.statement(p) else {
        return None;
    };
    if slot >= l.tasks_per_thread() || l.version() != GROUP_VERSION {
        return None;
    }
    a.counter = Counter::Task(TaskCounter::LoadLife { place: None, slot });
    Some(resume(p, l, a, Res { old: word }))
}

/// The byte address and the word at which a thread isn't ready. None where it goes on.
fn waits(outcome: Option<Outcome>) -> Option<(u64, u64)> {
    match outcome {
        Some(Outcome::NotReady { addr, word }) => Some((addr, word)),
        _ => None,
    }
}

/// Whether a thread goes on without an event.
fn is_quiet(outcome: Option<Outcome>) -> bool {
    match outcome {
        Some(Outcome::Quiet) => true,
        _ => false,
    }
}

/// The byte address of the life word of a slot of thread 0, 0 where it has no such slot.
fn life_at(l: &Layout, slot: u16) -> u64 {
    if l.threads() >= 1 && slot < l.tasks_per_thread() {
        l.word_at(0, slot, Field::TaskLife, 0)
    } else {
        0
    }
}

/// The slot that is looked at next, and the generation of the record that is taken.
fn behind(a: &Actor) -> (Option<u16>, Option<u32>) {
    match a.counter {
        Counter::Task(TaskCounter::LoadLife { slot, .. }) => (Some(slot), None),
        Counter::Task(TaskCounter::Take { task: Tid(id), .. }) => (None, Some(id.generation)),
        _ => (None, None),
    }
}

/// Words at which the search isn't ready, each at a slot, and the slot behind it: a record that is never taken again, one in use in its last generation,
/// words that no record has, and the record of the initial task.
const NOT_READY: [(u16, u64, u16); 6] = [
    (1, RETIRED, 2),
    (255, RETIRED, 0),
    (2, RETIRED - 1, 3),
    (7, RETIRED + 1, 8),
    (8, RETIRED + 2, 9),
    (0, 1, 1),
];

/// Words of free records, each at a slot, and the generation that the record then has.
const FREE: [(u16, u64, u32); 3] = [(1, RETIRED - 2, u32::MAX), (255, 2, 1), (3, 0, 0)];

#[test]
fn words_of_records_that_are_not_free(rt: HostRuntime) -> Result<(), Fail> {
    let alloc = rt.alloc();
    let p = parse(alloc, SCRIPT.as_bytes())?;
    assert_eq!(rt; p.threads, 1);
    let l = Layout::family(0, 1);
    for (slot, word, next) in NOT_READY {
        let mut a = opening(alloc, &p, &l)?;
        let found = waits(looks(&p, &l, &mut a, slot, word));
        assert_eq!(rt; found, Some((life_at(&l, slot), word)));
        assert_eq!(rt; behind(&a), (Some(next), None));
    }
    Ok(())
}

#[test]
fn words_of_free_records(rt: HostRuntime) -> Result<(), Fail> {
    let alloc = rt.alloc();
    let p = parse(alloc, SCRIPT.as_bytes())?;
    assert_eq!(rt; p.threads, 1);
    let l = Layout::family(0, 1);
    for (slot, word, generation) in FREE {
        let mut a = opening(alloc, &p, &l)?;
        assert!(rt; is_quiet(looks(&p, &l, &mut a, slot, word)));
        assert_eq!(rt; behind(&a), (None, Some(generation)));
    }
    Ok(())
}
