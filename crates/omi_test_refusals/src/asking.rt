//! The inquiries with handles that were made before the target's words changed, and how each is refused.

ghost use Rattle.omi_calls.specs.Kept.{GivesNumbers, TakesAll};

use omi_ask::{
    get_curr_parallel_handle, get_enclosing_parallel_handle, get_task_parallel_handle,
    get_thread_handle, get_thread_id, get_thread_in_parallel, parallel_handle_compare, region_id,
    rel_parallel_handle, rel_thread_handle, thread_handle_compare, thread_number,
};
use omi_asktask::{
    get_curr_task_handle, get_generating_task_handle, get_scheduling_task_handle, get_task_frame,
    get_task_function, get_task_in_parallel, rel_task_handle, task_handle_compare, task_id,
};
use omi_calls::ToHost;
use omi_fixture_rows::A_TEAM_OF_TWO;
use omi_fixture_targets::{
    Asked, Change, LITTLE, Opened, Stopped, Words, Wrong, at_fork, library, open,
};
use omi_handle::{RegionHandle, TaskHandle, ThreadHandle};
use omi_icv::{Scoped, get_icv_from_scope, get_state, get_tool_data};
use omi_session::Rc;
use std::alloc::Global;

/// Handles of thread 0, of the region that it is in and of its current task.
#[derive(Clone, Copy)]
pub struct Three {
    pub thread: ThreadHandle,
    pub region: RegionHandle,
    pub task: TaskHandle,
}

/// The inquiries that read words: for the thread with the id 1001 and that of member 1, the id of thread 0, its region, the region around
/// it and the region of its task; its task, the one that made that and the one that was left for it, the task of member 1, and the
/// function and the frames of its task; the thread's state and thread-num-var, the region's team-size-var, and the task's nthreads-var, as
/// one number, and tool word.
#[derive(Clone, Copy, Debug, PartialEq, Eq)]
pub enum Inquiry {
    ThreadWithId,
    ThreadOfMember,
    IdOfThread,
    CurrentRegion,
    Enclosing,
    RegionOfTask,
    CurrentTask,
    Generating,
    Scheduling,
    TaskOfMember,
    Function,
    Frames,
    State,
    MemberNumber,
    TeamSize,
    Nthreads,
    Tool,
}

/// How many they are.
pub const COUNT: usize = 17;

pub const EACH: [Inquiry; COUNT] = [
    Inquiry::ThreadWithId,
    Inquiry::ThreadOfMember,
    Inquiry::IdOfThread,
    Inquiry::CurrentRegion,
    Inquiry::Enclosing,
    Inquiry::RegionOfTask,
    Inquiry::CurrentTask,
    Inquiry::Generating,
    Inquiry::Scheduling,
    Inquiry::TaskOfMember,
    Inquiry::Function,
    Inquiry::Frames,
    Inquiry::State,
    Inquiry::MemberNumber,
    Inquiry::TeamSize,
    Inquiry::Nthreads,
    Inquiry::Tool,
];

/// How they are refused, in this order.
pub type Refusals = [Option<Rc>; COUNT];

/// The handles, made in this session.
pub fn make_three<F: ToHost>(s: &mut Stopped<'_, F>) -> Result<Three, Rc> {
    s.may_make()?;
    let thread = get_thread_handle(s, 0, 1000)?;
    s.may_make()?;
    let region = get_curr_parallel_handle(s, thread)?;
    s.may_make()?;
    let task = get_curr_task_handle(s, thread)?;
    Ok(Three {
        thread,
        region,
        task,
    })
}

/// How an inquiry about a thread or a region is refused.
fn refusal_of_finding<F: ToHost>(
    s: &mut Stopped<'_, F>,
    inquiry: Inquiry,
    h: Three,
) -> Result<Option<Rc>, Rc> {
    s.may_make()?;
    Ok(match inquiry {
        Inquiry::ThreadWithId => get_thread_handle(s, 0, 1001).err(),
        Inquiry::ThreadOfMember => get_thread_in_parallel(s, h.region, 1).err(),
        Inquiry::IdOfThread => get_thread_id(s, 0, h.thread).err(),
        Inquiry::CurrentRegion => get_curr_parallel_handle(s, h.thread).err(),
        Inquiry::Enclosing => get_enclosing_parallel_handle(s, h.region).err(),
        _ => get_task_parallel_handle(s, h.task).err(),
    })
}

/// How an inquiry for a control variable, a state or a tool word is refused, and None of another one.
fn refusal_of_word<F: ToHost>(
    s: &mut Stopped<'_, F>,
    inquiry: Inquiry,
    h: Three,
) -> Option<Option<Rc>> {
    match inquiry {
        Inquiry::State => Some(get_state(s, h.thread).err()),
        Inquiry::MemberNumber => Some(get_icv_from_scope(s, Scoped::Thread(h.thread), 13).err()),
        Inquiry::TeamSize => Some(get_icv_from_scope(s, Scoped::Parallel(h.region), 12).err()),
        Inquiry::Nthreads => Some(get_icv_from_scope(s, Scoped::Task(h.task), 2).err()),
        Inquiry::Tool => Some(get_tool_data(s, Scoped::Task(h.task)).err()),
        _ => None,
    }
}

/// How an inquiry is refused.
pub fn refusal<F: ToHost>(
    s: &mut Stopped<'_, F>,
    inquiry: Inquiry,
    h: Three,
) -> Result<Option<Rc>, Rc> {
    if let Some(refusal) = refusal_of_word(s, inquiry, h) {
        return Ok(refusal);
    }
    s.may_make()?;
    Ok(match inquiry {
        Inquiry::CurrentTask => get_curr_task_handle(s, h.thread).err(),
        Inquiry::Generating => get_generating_task_handle(s, h.task).err(),
        Inquiry::Scheduling => get_scheduling_task_handle(s, h.task).err(),
        Inquiry::TaskOfMember => get_task_in_parallel(s, h.region, 1).err(),
        Inquiry::Function => get_task_function(s, h.task).err(),
        Inquiry::Frames => get_task_frame(s, h.task).err(),
        _ => return refusal_of_finding(s, inquiry, h),
    })
}

/// How these inquiries are refused, one after the other.
pub fn refusals<F: ToHost>(
    s: &mut Stopped<'_, F>,
    inquiries: [Inquiry; COUNT],
    h: Three,
) -> Result<Refusals, Rc> {
    let mut refusals = [None; COUNT];
    for at in 0..COUNT {
        refusals[at] = refusal(s, inquiries[at], h)?;
    }
    Ok(refusals)
}

/// How the calls are refused that read no word: names and orders of a thread, a region and a task, the id of a thread of another kind,
/// and then the releases of all three.
pub fn unread<F: ToHost>(s: &mut Stopped<'_, F>, h: Three) -> [Option<Rc>; 10] {
    [
        thread_number(s, h.thread).err(),
        region_id(s, h.region).err(),
        task_id(s, h.task).err(),
        thread_handle_compare(s, h.thread, h.thread).err(),
        parallel_handle_compare(s, h.region, h.region).err(),
        task_handle_compare(s, h.task, h.task).err(),
        get_thread_id(s, 1, h.thread).err(),
        rel_thread_handle(s, h.thread).err(),
        rel_parallel_handle(s, h.region).err(),
        rel_task_handle(s, h.task).err(),
    ]
}

/// The words of the fork of a team of two, in the layout of a family.
pub fn forked(alloc: Global, family: u8) -> Result<Words, Wrong> {
    Words::of_two(alloc, A_TEAM_OF_TWO, family, at_fork())
}

/// A session over these words with the three handles, which goes on over the words with these changes. There the call of this number
/// fails; the first 57 are those of going on.
pub fn changed<'a, F: ToHost + Copy>(
    alloc: Global,
    words: &Words,
    changes: [Change; 2],
    failing: u64,
    asked: &'a Asked,
    to_host: F,
) -> Result<(Opened<'a, F>, Three), Wrong>
    requires takes { TakesAll (F.takes to_host) }
    requires gives { GivesNumbers (F.gives to_host) 0 }
{
    let first = words.core(alloc, [(0, Some(0)); 2])?;
    let session = open(alloc, first, LITTLE, to_host, asked)?;
    let mut s = Opened { session };
    let h = make_three(&mut s.session)?;
    let core = words.core(alloc, changes)?;
    let other = library(alloc, core, LITTLE, to_host, &[failing], asked)?;
    let s = s.over(other.finalize())?;
    Ok((s, h))
}
