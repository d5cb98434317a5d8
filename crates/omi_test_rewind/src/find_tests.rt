//! Tests of the search for the first step behind which a test holds.

ghost use Rattle.std.specs.Prelude.{◌≡◌, ◌≤◌, ◌<◌, ◌^◌, ◌%◌, ◌==◌, IsTrue, length};
ghost use Rattle.omi_layout.specs.Place.{fits};
ghost use Rattle.omi_layout.specs.Table.{thread_count};
ghost use Rattle.omi_rewind.specs.Rewound.{image_of};
ghost use Rattle.omi_rewind.specs.Tests.{AnswersTest, TakesImages, thread_of};
ghost use Rattle.omi_rewind.specs.declared.limits.TheConstants.{LAST_STEP};
ghost use Rattle.omi_word.specs.Memory.{IsWordOf, word_at};

use crate::runs::{Wrong, layout_of, rewind_of, stands_behind};
use omi_core::Schedule;
use omi_fixture_rows::A_TEAM_OF_TWO;
use omi_layout::{Field, Layout};
use omi_model::Event;
use omi_numbers::{IDLE, OVERHEAD, WAIT_TASKWAIT};
use omi_rewind::{ImageTest, Kept, Rewind, Test};
use omi_word::Image;
use std::alloc::Global;

/// The first step up to a last one behind which a closure answers a test.
fn first_by<Q: ImageTest>(
    alloc: Global,
    rewind: &mut Rewind,
    test: Test,
    layout: &Layout,
    answers: Q,
    last: u64,
) -> Result<Option<u64>, Wrong>
    requires turns { rewind.old.how ≡ Schedule.RoundRobin }
    requires few { last ≤ LAST_STEP }
    requires fits { IsTrue (fits layout.now.table (length (image_of rewind.old))) }
    requires thread { thread_of test < thread_count layout.now.table }
    requires takes { TakesImages layout.now.table (Q.takes answers) }
    requires answers { AnswersTest test layout.now.table (Q.gives answers) }
    ensures { rewind.new.how ≡ Schedule.RoundRobin }
{
    let kept = Kept::new(test, layout, answers);
    Ok(rewind.when(alloc, &kept, last)?)
}

/// The first step up to a last one behind which a thread of the layout has a state.
fn first_of_thread(
    alloc: Global,
    rewind: &mut Rewind,
    layout: &Layout,
    thread: u8,
    state: u32,
    last: u64,
) -> Result<Option<u64>, Wrong>
    requires turns { rewind.old.how ≡ Schedule.RoundRobin }
    requires few { last ≤ LAST_STEP }
    requires fits { IsTrue (fits layout.now.table (length (image_of rewind.old))) }
    requires thread { thread < thread_count layout.now.table }
    ensures { rewind.new.how ≡ Schedule.RoundRobin }
{
    let addr = layout.word_at(thread, 0, Field::ThreadState, 0);
    first_by(
        alloc,
        rewind,
        Test::State { thread, state },
        layout,
        move |image: &Image| -> bool
            requires { IsWordOf image.now addr }
            ensures { result ≡ (word_at image.now addr % 2 ^ 16 == state) }
        { image.get(addr).unwrap() % 65_536 == u64::from(state) },
        last,
    )
}

/// The first step up to a last one behind which a thread has a state. An error where the layout has no such thread.
fn first_in_state(
    alloc: Global,
    rewind: &mut Rewind,
    layout: &Layout,
    thread: u8,
    state: u32,
    last: u64,
) -> Result<Option<u64>, Wrong>
    requires turns { rewind.old.how ≡ Schedule.RoundRobin }
    requires few { last ≤ LAST_STEP }
    ensures { rewind.new.how ≡ Schedule.RoundRobin }
{
    if thread >= layout.threads() || !layout.fits(rewind.image().len()) {
        return Err(Wrong::NoProgram);
    }
    first_of_thread(alloc, rewind, layout, thread, state, last)
}

/// The step of the first event that says this state of thread 0.
fn step_of_state(rewind: &Rewind, state: u32) -> Option<u64> {
    let events = rewind.events();
    for at in 0..events.len() {
        let (step, thread, event) = events.get(at);
        if let Event::State { state: said, .. } = event {
            if thread == 0 && said == state {
                return Some(step);
            }
        }
    }
    None
}

#[test]
fn first_states(rt: HostRuntime) -> Result<(), Wrong> {
    let alloc = rt.alloc();
    let layout = layout_of(alloc, A_TEAM_OF_TWO)?;
    let mut rewind = rewind_of(alloc, A_TEAM_OF_TWO)?;
    assert_eq!(rt;
        first_in_state(alloc, &mut rewind, &layout, 1, IDLE, 1000)?,
        Some(0)
    );
    assert_eq!(rt; rewind.made(), 0);
    assert_eq!(rt;
        first_in_state(alloc, &mut rewind, &layout, 0, WAIT_TASKWAIT, 1000)?,
        None
    );
    let overhead = step_of_state(&rewind, OVERHEAD);
    assert!(rt; overhead.is_some());
    assert_eq!(rt;
        first_in_state(alloc, &mut rewind, &layout, 0, OVERHEAD, 1000)?,
        overhead
    );
    assert!(rt; stands_behind(alloc, &rewind, A_TEAM_OF_TWO, 0)?);
    let mut later = rewind_of(alloc, A_TEAM_OF_TWO)?;
    assert_eq!(rt;
        first_in_state(alloc, &mut later, &layout, 0, OVERHEAD, 1000)?,
        overhead
    );
    assert_eq!(rt; overhead, Some(later.made()));
    Ok(())
}
