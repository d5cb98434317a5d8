//! A tool that looks into a core by its file, and follows chains along all records of a memory.

use omi::{
    Callbacks, Chain, ChainError, Natives, Rc, RegionHandle, Session, TaskHandle, ToHost, Tool,
    get_curr_parallel_handle, get_curr_task_handle, get_thread_handle, look_into,
    rel_parallel_handle, rel_task_handle,
};
use omi_corefile::encode;
use omi_fixture_targets::{LONG_REGIONS, LONG_TASKS, long_chains};
use omi_outside::MemFiles;
use std::alloc::Global;
use std::test::Fail;

/// More records than a chain comes by.
const MANY: u64 = 20_000;

/// Why a chain isn't followed to its end.
#[derive(Clone, Copy, Debug, PartialEq, Eq)]
enum Ended {
    Refused(Rc),
    Broken(ChainError),
    TooLong,
}

impl From<Rc> for Ended {
    fn from(rc: Rc) -> Ended {
        Ended::Refused(rc)
    }
}

impl From<ChainError> for Ended {
    fn from(e: ChainError) -> Ended {
        Ended::Broken(e)
    }
}

/// How many regions a chain comes by, from one outwards.
fn regions_from<C: Callbacks, H: ToHost>(
    alloc: Global,
    s: &mut Session<C, H>,
    innermost: RegionHandle,
) -> Result<u64, Ended> {
    let mut chain = Chain::new(alloc);
    let mut region = innermost;
    for count in 1..MANY {
        s.may_make()?;
        let outer = chain.enclosing(s, region)?;
        rel_parallel_handle(s, region)?;
        let Some(next) = outer else {
            return Ok(count);
        };
        region = next;
    }
    Err(Ended::TooLong)
}

/// Which task comes next: the one that made a task, or the one that was left for it.
#[derive(Clone, Copy)]
enum Along {
    Generating,
    Scheduling,
}

/// How many tasks a chain comes by from one on.
fn tasks_from<C: Callbacks, H: ToHost>(
    alloc: Global,
    s: &mut Session<C, H>,
    first: TaskHandle,
    along: Along,
) -> Result<u64, Ended> {
    let mut chain = Chain::new(alloc);
    let mut task = first;
    for count in 1..MANY {
        s.may_make()?;
        let next = match along {
            Along::Generating => chain.generating(s, task)?,
            Along::Scheduling => chain.scheduling(s, task)?,
        };
        rel_task_handle(s, task)?;
        let Some(next) = next else {
            return Ok(count);
        };
        task = next;
    }
    Err(Ended::TooLong)
}

/// How many records the three chains of thread 0 come by: of enclosing regions, of generating and of scheduling tasks.
fn lengths<C: Callbacks, H: ToHost>(
    alloc: Global,
    s: &mut Session<C, H>,
) -> Result<[u64; 3], Ended> {
    s.may_make()?;
    let thread = get_thread_handle(s, 0, 1000)?;
    s.may_make()?;
    let region = get_curr_parallel_handle(s, thread)?;
    let regions = regions_from(alloc, s, region)?;
    s.may_make()?;
    let task = get_curr_task_handle(s, thread)?;
    let made = tasks_from(alloc, s, task, Along::Generating)?;
    s.may_make()?;
    let task = get_curr_task_handle(s, thread)?;
    let left = tasks_from(alloc, s, task, Along::Scheduling)?;
    Ok([regions, made, left])
}

/// What the tool found: the lengths of the chains, and how many threads the core names.
#[derive(Drop)]
struct Followed {
    alloc: Global,
    chains: Result<[u64; 3], Ended>,
    threads: usize,
}

impl Tool for Followed {
    fn look<C: Callbacks + Drop, H: ToHost>(
        &mut self,
        session: &mut Session<C, H>,
        threads: &Natives,
    ) {
        self.chains = lengths(self.alloc, session);
        self.threads = threads.len();
    }
}

#[test]
fn chains_come_by_all_records(rt: HostRuntime) -> Result<(), Fail> {
    let alloc = rt.alloc();
    let bytes = encode(alloc, &long_chains(alloc)?)?;
    let mut files = MemFiles::new(alloc, Vec::new(alloc));
    files.put("c", &bytes)?;
    let mut tool = Followed {
        alloc,
        chains: Err(Ended::TooLong),
        threads: 0,
    };
    look_into(alloc, &mut files, "c", &mut tool)?;
    assert_eq!(rt; tool.threads, 1);
    assert_eq!(rt; tool.chains, Ok([LONG_REGIONS, LONG_TASKS, LONG_TASKS]));
    Ok(())
}
