//! Cores by their files, core files and ELF core files of both orders: what a tool and a session find in them, how much of a file is read, and
//! why one isn't opened.

ghost use Rattle.std.specs.Prelude.{◌≡◌, ◌≤◌};
ghost use Rattle.std.specs.Int.{from_le_bytes, w64};
ghost use Rattle.omi_calls.specs.Kept.{GivesNumbers, TakesAll};

use omi::{
    Callbacks, ElfFault, Natives, OpenError, Rc, Session, ToHost, Tool, get_curr_parallel_handle,
    get_curr_task_handle, get_thread_handle, look_into, open_core, region_id, task_id,
};
use omi_core::{Core, Schedule, Stop};
use omi_corefile::{CoreFault, CoreImage, core_of, encode};
use omi_elf::encode_elf;
use omi_layout::Layout;
use omi_outside::{Call, MemFiles};
use omi_rep::suits;
use omi_script::parse;
use std::alloc::Global;
use std::test::Fail;

/// A team of two.
const TEAM: &str = "threads 2
func f
  work
end
func main
  parallel f num 2
end
";

/// The core of step 197 of the team's run, by which it was forked, in this order.
fn forked(alloc: Global, order: u8) -> Result<CoreImage, Fail>
    requires { order ≤ 1 }
{
    let program = parse(alloc, TEAM.as_bytes())?;
    let layout = Layout::family(0, 2);
    if !suits(&program, &layout) {
        return Err(Fail::from("another layout"));
    }
    let mut core = Core::opening(alloc, program, layout)?;
    let stop = Stop {
        steps: 197,
        on: None,
    };
    core.run(&Schedule::RoundRobin, stop)?;
    let mut contexts = Natives::new(alloc);
    contexts.push(1000)?;
    contexts.push(1001)?;
    Ok(core_of(alloc, core.image(), &contexts, order)?)
}

/// The file of this core: an ELF file, or none.
fn file_of(alloc: Global, elf: bool, order: u8) -> Result<Vec<u8>, Fail>
    requires { order ≤ 1 }
{
    let core = forked(alloc, order)?;
    if elf {
        Ok(encode_elf(alloc, &core)?)
    } else {
        Ok(encode(alloc, &core)?)
    }
}

/// The files of both formats and both orders, each with whether it is an ELF file.
fn files_of(alloc: Global) -> Result<[(bool, Vec<u8>); 4], Fail> {
    Ok([
        (false, file_of(alloc, false, 0)?),
        (false, file_of(alloc, false, 1)?),
        (true, file_of(alloc, true, 0)?),
        (true, file_of(alloc, true, 1)?),
    ])
}

/// Files that hold these bytes under `c`, of which the read of this number fails.
fn files_with(alloc: Global, bytes: &[u8], failing: u64) -> Result<MemFiles, Fail> {
    let mut calls = Vec::new(alloc);
    calls.push((Call::ReadAt, failing))?;
    let mut files = MemFiles::new(alloc, calls);
    files.put("c", bytes)?;
    Ok(files)
}

/// Where the record of the innermost region of thread 1000 stands, and that of its task: the thread that made it, and the slot.
type Records = [(u8, u16); 2];

/// Those of the team: its region and the task of its first member.
const FORKED: Records = [(0, 1), (0, 1)];

/// Asks for them.
fn records<C: Callbacks, H: ToHost>(s: &mut Session<C, H>) -> Result<Records, Rc> {
    s.may_make()?;
    let thread = get_thread_handle(s, 0, 1000)?;
    s.may_make()?;
    let region = get_curr_parallel_handle(s, thread)?;
    s.may_make()?;
    let task = get_curr_task_handle(s, thread)?;
    let region = region_id(s, region)?.0;
    let task = task_id(s, task)?.0;
    Ok([(region.creator, region.slot), (task.creator, task.slot)])
}

/// A tool that asks for them, and how many threads the core names.
#[derive(Drop)]
struct Asks {
    records: Result<Records, Rc>,
    threads: usize,
}

/// One that hasn't looked yet.
const UNASKED: Asks = Asks {
    records: Err(Rc::Unavailable),
    threads: 0,
};

impl Tool for Asks {
    fn look<C: Callbacks + Drop, H: ToHost>(
        &mut self,
        session: &mut Session<C, H>,
        threads: &Natives,
    ) {
        self.records = records(session);
        self.threads = threads.len();
    }
}

/// A file of over 20 pages in which fewer than 20 pieces are read, each of a page at most.
#[test]
fn a_tool_looks_into_both_formats(rt: HostRuntime) -> Result<(), Fail> {
    let alloc = rt.alloc();
    for (_, bytes) in &files_of(alloc)? {
        assert!(rt; bytes.len() > 20 * 4096);
        let mut files = files_with(alloc, bytes, 20)?;
        let mut tool = UNASKED;
        look_into(alloc, &mut files, "c", &mut tool)?;
        assert_eq!(rt; tool.records, Ok(FORKED));
        assert_eq!(rt; tool.threads, 2);
    }
    Ok(())
}

/// What a session with this conversion answers, or why there is none.
fn asked_by<H: ToHost>(
    alloc: Global,
    files: &mut MemFiles,
    name: &str,
    to_host: H,
) -> Result<Result<Records, Rc>, OpenError>
    requires takes { TakesAll (H.takes to_host) }
    requires gives { GivesNumbers (H.gives to_host) 0 }
{
    let mut core = open_core(alloc, files, name, to_host)?;
    Ok(records(&mut core.session))
}

/// What a session with a conversion of its own answers, or why there is none.
fn asked_of(
    alloc: Global,
    files: &mut MemFiles,
    name: &str,
) -> Result<Result<Records, Rc>, OpenError> {
    asked_by(
        alloc,
        files,
        name,
        |bytes: [u8; 8]| -> u64
            ensures { result ≡ from_le_bytes w64 bytes }
        { u64::from_le_bytes(bytes) },
    )
}

#[test]
fn a_session_is_opened_over_both_formats(rt: HostRuntime) -> Result<(), Fail> {
    let alloc = rt.alloc();
    for (_, bytes) in &files_of(alloc)? {
        let mut files = files_with(alloc, bytes, 20)?;
        assert_eq!(rt; asked_of(alloc, &mut files, "c"), Ok(Ok(FORKED)));
    }
    Ok(())
}

/// Why files of these bytes aren't opened, by both calls.
fn refusals(alloc: Global, bytes: &[u8], failing: u64) -> Result<[Option<OpenError>; 2], Fail> {
    let mut files = files_with(alloc, bytes, failing)?;
    let asked = asked_of(alloc, &mut files, "c").err();
    let mut files = files_with(alloc, bytes, failing)?;
    let mut tool = UNASKED;
    let looked = look_into(alloc, &mut files, "c", &mut tool).err();
    Ok([asked, looked])
}

/// The first 100 bytes of a file.
fn front_of(bytes: &[u8]) -> &[u8] {
    &bytes[..bytes.len().min(100)]
}

#[test]
fn files_that_are_refused(rt: HostRuntime) -> Result<(), Fail> {
    let alloc = rt.alloc();
    for (elf, whole) in &files_of(alloc)? {
        let front = front_of(whole);
        let short = Some(match *elf {
            true => OpenError::NoElf {
                at: 100,
                why: ElfFault::Short(100),
            },
            false => OpenError::NoCore {
                at: 100,
                why: CoreFault::Short(100),
            },
        });
        assert_eq!(rt; refusals(alloc, front, 20)?, [short, short]);
        let unread = Some(OpenError::NotRead);
        assert_eq!(rt; refusals(alloc, front, 1)?, [unread, unread]);
    }
    let mut files = files_with(alloc, &[], 20)?;
    assert_eq!(rt; asked_of(alloc, &mut files, "d"), Err(OpenError::NoFile));
    Ok(())
}

#[test]
fn a_damaged_elf_file(rt: HostRuntime) -> Result<(), Fail> {
    let alloc = rt.alloc();
    let mut bytes = file_of(alloc, true, 0)?;
    assert!(rt; bytes.len() > 4);
    bytes[4] = 1;
    let class = Some(OpenError::NoElf {
        at: 4,
        why: ElfFault::Class(1),
    });
    assert_eq!(rt; refusals(alloc, &bytes, 20)?, [class, class]);
    Ok(())
}
