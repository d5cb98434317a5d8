//! Views that are written by hand.

use omi_model::{
    HeadRow, Id, MemberRow, MemberRows, RegionRow, RegionRows, Rid, TaskRow, TaskRows, ThreadPart,
    ThreadRow, ThreadRows, Tid, View,
};
use omi_script::NumList;
use std::alloc::{AllocError, Global};

pub fn task(creator: u8, slot: u16) -> Tid {
    Tid(Id {
        creator,
        slot,
        generation: 0,
    })
}

pub fn region(creator: u8, slot: u16) -> Rid {
    Rid(Id {
        creator,
        slot,
        generation: 0,
    })
}

/// A view with no rows.
pub fn bare(alloc: Global, threads: u8, debug: u64) -> View {
    View {
        head: HeadRow {
            version: 201811,
            threads,
            debug,
            procs: 4,
            max_active: 8,
        },
        threads: ThreadRows::new(alloc),
        regions: RegionRows::new(alloc),
        tasks: TaskRows::new(alloc),
    }
}

/// The view with one more thread, of its native id.
pub fn with_thread(
    mut view: View,
    thread: u8,
    state: Option<(u32, u64)>,
    number: Option<u64>,
    current: Option<Tid>,
) -> Result<View, AllocError> {
    view.threads.push(ThreadRow {
        native: 1000 + u64::from(thread),
        found: Some(ThreadPart {
            thread,
            state,
            number,
            current,
        }),
    })?;
    Ok(view)
}

/// What is told of a region but for its members.
#[derive(Clone, Copy)]
pub struct Plain {
    pub slot: u16,
    pub func: u64,
    /// levels-var and active-levels-var.
    pub levels: (u64, u64),
    pub enclosing: Option<Rid>,
}

/// The initial region, whose function has this address.
pub fn initial_region(func: u64) -> Plain {
    Plain {
        slot: 0,
        func,
        levels: (0, 0),
        enclosing: None,
    }
}

/// The view with one more region of thread 0, with these members, each a thread and the slot of its task.
pub fn with_region(
    alloc: Global,
    mut view: View,
    plain: Plain,
    members: &[(u8, u16)],
) -> Result<View, AllocError> {
    let mut rows = MemberRows::new(alloc);
    for (thread, slot) in members {
        rows.push(MemberRow {
            thread: *thread,
            task: task(0, *slot),
        })?;
    }
    view.regions.push(RegionRow {
        region: region(0, plain.slot),
        func: plain.func,
        levels: plain.levels.0,
        active: plain.levels.1,
        size: members.len() as u64,
        enclosing: plain.enclosing,
        members: rows,
    })?;
    Ok(view)
}

/// The view with one more task, of this nthreads-var.
pub fn with_task(mut view: View, mut row: TaskRow, nthreads: &[u64]) -> Result<View, AllocError> {
    for n in nthreads {
        row.nthreads.push(*n)?;
    }
    view.tasks.push(row)?;
    Ok(view)
}

/// The row of the initial task, whose function has this address. Its nthreads-var has no values yet.
pub fn initial_task(alloc: Global, func: u64) -> TaskRow {
    TaskRow {
        task: task(0, 0),
        thread: 0,
        implicit: 1,
        region: region(0, 0),
        func,
        generating: None,
        scheduling: None,
        exit: 0x7f00000fffc0,
        enter: 0,
        tool: 0,
        dyn_var: 0,
        nthreads: NumList::new(alloc),
        sched: 1,
        device: 0,
        final_task: 0,
    }
}

/// The view with one more context, of no thread.
pub fn with_unknown(mut view: View, native: u64) -> Result<View, AllocError> {
    view.threads.push(ThreadRow {
        native,
        found: None,
    })?;
    Ok(view)
}

/// The tasks of the two threads at the commit.
fn with_commit_tasks(alloc: Global, view: View) -> Result<View, AllocError> {
    let mut row = initial_task(alloc, 0x400000);
    row.task = task(0, 1);
    row.region = region(0, 1);
    row.generating = Some(task(0, 0));
    row.scheduling = Some(task(0, 0));
    row.exit = 0x7f00000fff80;
    let view = with_task(view, row, &[2])?;
    let mut row = initial_task(alloc, 0x400010);
    row.enter = 0x7f00000fffa0;
    with_task(view, row, &[2])
}

/// The report of a team of two that was forked.
pub fn forked_view(alloc: Global) -> Result<View, AllocError> {
    let view = bare(alloc, 2, 1);
    let view = with_thread(view, 0, Some((0x101, 0)), Some(0), Some(task(0, 1)))?;
    let view = with_thread(view, 1, Some((0x100, 0)), None, None)?;
    let view = with_region(alloc, view, initial_region(0x400010), &[(0, 0)])?;
    let forked = Plain {
        slot: 1,
        func: 0x400000,
        levels: (1, 1),
        enclosing: Some(region(0, 0)),
    };
    let view = with_region(alloc, view, forked, &[(0, 1), (1, 2)])?;
    with_commit_tasks(alloc, view)
}
