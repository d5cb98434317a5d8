//! What `when` prints: the first step at which a thread is in a state, or that there is none.

ghost use Rattle.std.specs.Prelude.{◌≡◌, ◌≤◌, ◌<◌, ◌^◌, ◌%◌, ◌==◌, IfOk, IsTrue, length, string_bytes};
ghost use Rattle.omi_core.specs.declared.schedule.Schedule.TheVariants.{RoundRobin};
ghost use Rattle.omi_layout.specs.Place.{fits};
ghost use Rattle.omi_layout.specs.Table.{thread_count};
ghost use Rattle.omi_rewind.specs.Answers.{IsFirst};
ghost use Rattle.omi_rewind.specs.Rewound.{IsLater, image_of};
ghost use Rattle.omi_rewind.specs.Tests.{AnswersTest, TakesImages, thread_of};
ghost use Rattle.omi_rewind.specs.declared.limits.TheConstants.{LAST_STEP};
ghost use Rattle.omi_rewind.specs.declared.test.Test.TheVariants.{State};
ghost use Rattle.omi_rewind_top.specs.Turns.{IsWhenText};
ghost use Rattle.omi_word.specs.Memory.{IsWordOf, word_at};

use crate::lines::first_line;
use crate::turns::rewind_of;
use omi_layout::{Field, Layout};
use omi_rewind::{ImageTest, Kept, Rewind, Test};
use omi_script::Program;
use omi_word::{Image, OutOfMemory};
use std::alloc::Global;

/// The first step up to a last one behind which a closure answers a test.
fn first_by<Q: ImageTest>(
    alloc: Global,
    rewind: &mut Rewind,
    test: Test,
    layout: &Layout,
    answers: Q,
    last: u64,
) -> Result<Option<u64>, OutOfMemory>
    requires turns { rewind.old.how ≡ RoundRobin }
    requires few { last ≤ LAST_STEP }
    requires fits { IsTrue (fits layout.now.table (length (image_of rewind.old))) }
    requires thread { thread_of test < thread_count layout.now.table }
    requires takes { TakesImages layout.now.table (Q.takes answers) }
    requires answers { AnswersTest test layout.now.table (Q.gives answers) }
    ensures later { IsLater rewind.old rewind.new }
    ensures first { IfOk result (IsFirst rewind.new test layout.now.table last) }
{
    let kept = Kept::new(test, layout, answers);
    rewind.when(alloc, &kept, last)
}

/// The first step up to a last one behind which a thread is in a state.
fn first_in_state(
    alloc: Global,
    rewind: &mut Rewind,
    layout: &Layout,
    thread: u8,
    state: u32,
    last: u64,
) -> Result<Option<u64>, OutOfMemory>
    requires turns { rewind.old.how ≡ RoundRobin }
    requires few { last ≤ LAST_STEP }
    requires fits { IsTrue (fits layout.now.table (length (image_of rewind.old))) }
    requires thread { thread < thread_count layout.now.table }
    ensures later { IsLater rewind.old rewind.new }
    ensures first { IfOk result (IsFirst rewind.new (State thread state) layout.now.table last) }
{
    let addr = layout.word_at(thread, 0, Field::ThreadState, 0);
    first_by(
        alloc,
        rewind,
        Test::State { thread, state },
        layout,
        move |image: &Image| -> bool
            requires { IsWordOf image.now addr }
            ensures { result ≡ (word_at image.now addr % 2 ^ 16 == state) }
        { image.get(addr).unwrap() % 65_536 == u64::from(state) },
        last,
    )
}

/// All that `when` prints of a program, for a state of a thread.
pub fn when_text(
    alloc: Global,
    p: Program,
    thread: u8,
    state: u32,
    last: u64,
) -> Result<String, OutOfMemory>
    requires thread { thread < p.threads }
    requires few { last ≤ LAST_STEP }
    ensures { IfOk result
        (λ text. IsWhenText p (State thread state) last (string_bytes text)) }
{
    let layout = Layout::family(0, p.threads);
    let mut rewind = rewind_of(alloc, p, layout)?;
    let first = first_in_state(alloc, &mut rewind, &layout, thread, state, last)?;
    let _made = rewind.made();
    first_line(alloc, first)
}
