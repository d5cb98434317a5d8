//! What `follow` says of tasks: each kind current and stale, in every family and either order of bytes.

use crate::calls::{Cores, core_at, expect};
use omi_fixture_calls::{call, core_of, core_with, with_word};
use omi_fixture_rows::A_TEAM_OF_TWO;
use omi_outside::Status;
use std::alloc::Global;
use std::fmt::Write;
use std::process::Abort;
use std::test::Fail;

/// Two tasks that start at once, one after the other in one record.
pub const TWO_TASKS: &str = "threads 1
func t
work
end
func main
task t if 0
task t if 0
end
";

/// At the second task the first one's record has its next generation.
pub const USED_AGAIN: &str = "task k0.1.0 stale
task k0.0.0 current
";

pub const BOTH_CURRENT: &str = "task k0.1.0 current
task k0.0.0 current
";

#[test]
fn a_record_used_again(rt: HostRuntime) -> Result<(), Fail> {
    let alloc = rt.alloc();
    let first = core_at(alloc, TWO_TASKS, "task_begin", "1")?;
    let second = core_at(alloc, TWO_TASKS, "task_begin", "2")?;
    let done = Status::Success;
    expect(&rt, alloc, Cores::of(&first, &second), done, USED_AGAIN)?;
    expect(&rt, alloc, Cores::of(&first, &first), done, BOTH_CURRENT)?;
    // The tasks of the second core in the words of the first: the generation there is one lower.
    let text = "task k0.1.1 stale\ntask k0.0.0 current\n";
    expect(&rt, alloc, Cores::of(&second, &first), done, text)?;
    let text = "task k0.1.1 current\ntask k0.0.0 current\n";
    expect(&rt, alloc, Cores::of(&second, &second), done, text)?;
    Ok(())
}

/// A task finishes before its child, and is given back behind it.
const AN_ENDED_ANCESTOR: &str = "threads 1
func b
work
end
func a
task b
end
func main
task a
end
";

/// Two teams, one after the other in the same records.
const TWO_TEAMS: &str = "threads 2
func f
work
end
func main
parallel f num 2
parallel f num 2
end
";

/// A script, the steps of two stops of its threads in turn, and what is put. A task that starts at once is given back at step 55, and its record is taken
/// again behind step 60. The task with a child starts at step 63, finishes at the 116th and is given back at the 146th, its child at the 141st.
/// The team of two is forked at step 197, its second member begins at the 216th, and the records of both are given back at the 259th and the
/// 265th; the second team is forked at step 469.
const STOPS: [(&str, &str, &str, &str); 15] = [
    (TWO_TASKS, "48", "54", BOTH_CURRENT),
    (TWO_TASKS, "48", "55", USED_AGAIN),
    (TWO_TASKS, "0", "130", "task k0.0.0 current\n"),
    (AN_ENDED_ANCESTOR, "63", "145", BOTH_CURRENT),
    (AN_ENDED_ANCESTOR, "63", "146", USED_AGAIN),
    (
        AN_ENDED_ANCESTOR,
        "133",
        "140",
        "task k0.2.0 current\ntask k0.0.0 current\n",
    ),
    (
        AN_ENDED_ANCESTOR,
        "133",
        "141",
        "task k0.2.0 stale\ntask k0.0.0 current\n",
    ),
    (A_TEAM_OF_TWO, "196", "295", "task k0.0.0 current\n"),
    (A_TEAM_OF_TWO, "197", "258", BOTH_CURRENT),
    (A_TEAM_OF_TWO, "197", "259", USED_AGAIN),
    (
        A_TEAM_OF_TWO,
        "216",
        "258",
        "task k0.1.0 current\ntask k0.0.0 current\ntask k0.2.0 current\n",
    ),
    (
        A_TEAM_OF_TWO,
        "216",
        "264",
        "task k0.1.0 stale\ntask k0.0.0 current\ntask k0.2.0 current\n",
    ),
    (
        A_TEAM_OF_TWO,
        "216",
        "265",
        "task k0.1.0 stale\ntask k0.0.0 current\ntask k0.2.0 stale\n",
    ),
    (
        TWO_TEAMS,
        "216",
        "469",
        "task k0.1.0 stale\ntask k0.0.0 current\ntask k0.2.0 stale\n",
    ),
    (
        TWO_TEAMS,
        "488",
        "530",
        "task k0.1.1 current\ntask k0.0.0 current\ntask k0.2.1 current\n",
    ),
];

#[test]
fn two_stops_of_a_run(rt: HostRuntime) -> Result<(), Fail> {
    let alloc = rt.alloc();
    for (script, steps, later_steps, text) in &STOPS {
        let first = core_of(alloc, steps, script)?;
        let later = core_of(alloc, later_steps, script)?;
        let cores = Cores::of(&first, &later);
        expect(&rt, alloc, cores, Status::Success, text)?;
    }
    Ok(())
}

const FAMILIES: [&str; 16] = [
    "0", "1", "2", "3", "4", "5", "6", "7", "8", "9", "10", "11", "12", "13", "14", "15",
];

#[test]
fn every_family(rt: HostRuntime) -> Result<(), Fail> {
    let alloc = rt.alloc();
    for family in &FAMILIES {
        let options = ["--layout", *family];
        let first = core_with(alloc, "216", TWO_TEAMS, &options)?;
        let later = core_with(alloc, "264", TWO_TEAMS, &options)?;
        let text = "task k0.1.0 stale\ntask k0.0.0 current\ntask k0.2.0 current\n";
        let cores = Cores::of(&first, &later);
        expect(&rt, alloc, cores, Status::Success, text)?;
    }
    Ok(())
}

/// The core with the bytes of each word in the other order.
fn turned(alloc: Global, core: &[u8]) -> Result<Vec<u8>, Fail> {
    let line = ["recode", "1", "c", "d"];
    call(alloc, &line, ("", Some(core)), &[], &[], &[])?.left(alloc, "d")
}

#[test]
fn either_order_of_bytes(rt: HostRuntime) -> Result<(), Fail> {
    let alloc = rt.alloc();
    let first = core_of(alloc, "48", TWO_TASKS)?;
    let later = core_of(alloc, "107", TWO_TASKS)?;
    let (first_turned, later_turned) = (turned(alloc, &first)?, turned(alloc, &later)?);
    for cores in [
        Cores::of(&first, &later_turned),
        Cores::of(&first_turned, &later),
        Cores::of(&first_turned, &later_turned),
    ] {
        expect(&rt, alloc, cores, Status::Success, USED_AGAIN)?;
    }
    Ok(())
}

/// The core as an ELF file.
fn as_elf(alloc: Global, core: &[u8]) -> Result<Vec<u8>, Fail> {
    call(alloc, &["elf", "c", "d"], ("", Some(core)), &[], &[], &[])?.left(alloc, "d")
}

/// Each of the two cores may be an ELF file, whatever the other is.
#[test]
fn either_kind_of_file(rt: HostRuntime) -> Result<(), Fail> {
    let alloc = rt.alloc();
    let first = core_of(alloc, "48", TWO_TASKS)?;
    let later = core_of(alloc, "107", TWO_TASKS)?;
    let (first_elf, later_elf) = (as_elf(alloc, &first)?, as_elf(alloc, &later)?);
    for cores in [
        Cores::of(&first, &later_elf),
        Cores::of(&first_elf, &later),
        Cores::of(&first_elf, &later_elf),
    ] {
        expect(&rt, alloc, cores, Status::Success, USED_AGAIN)?;
    }
    let cut = later_elf.get(..40).unwrap_or(b"");
    let short = "core 40 26 Short\n";
    expect(&rt, alloc, Cores::of(&first, cut), Status::Core, short)?;
    expect(&rt, alloc, Cores::of(cut, &later), Status::Core, short)?;
    Ok(())
}

/// The words of the second core's one task that differ: its life word, by what it is set to.
fn expect_life(rt: &impl Abort, alloc: Global, life: u64, text: &str) -> Result<(), Fail> {
    let first = core_of(alloc, "0", TWO_TASKS)?;
    let later = with_word(alloc, &first, 310, life)?;
    let cores = Cores::of(&first, &later);
    expect(rt, alloc, cores, Status::Success, text)?;
    Ok(())
}

/// Every life word but the one of the task's generation, odd or even, makes it stale.
#[test]
fn life_words(rt: HostRuntime) -> Result<(), Fail> {
    let alloc = rt.alloc();
    expect_life(&rt, alloc, 1, "task k0.0.0 current\n")?;
    for life in [
        0,
        2,
        3,
        4,
        5,
        0x1_ffff_ffff,
        0x2_0000_0000,
        0x2_0000_0001,
        u64::MAX,
    ] {
        expect_life(&rt, alloc, life, "task k0.0.0 stale\n")?;
    }
    Ok(())
}

/// A team of all threads, whose members work for long.
const SIXTY_FOUR: &str = "threads 64
func w
work
end
func leaf
repeat 500 w
end
func main
parallel leaf num 64
end
";

/// The byte of a core of 64 threads at which the life word of k0.3.0 begins: behind a header with 64 contexts, the head of the segment, the 77,296 words
/// in front of the records of tasks, and three of these records.
const LIFE: usize = 16 + 64 * 8 + 16 + 8 * (77_296 + 3 * 32);

/// The last of 64 members begins at step 282,688. In the second core one of their tasks is given back.
#[test]
fn a_team_of_sixty_four(rt: HostRuntime) -> Result<(), Fail> {
    let alloc = rt.alloc();
    let first = core_of(alloc, "282688", SIXTY_FOUR)?;
    let mut later = first.to_vec(alloc)?;
    assert_eq!(rt; later.len(), 4_813_216);
    assert_eq!(rt; later.get(LIFE), Some(&1));
    if let Some(byte) = later.get_mut(LIFE) {
        *byte = 2;
    }
    let mut text = String::from_str(alloc, "task k0.1.0 current\ntask k0.0.0 current\n")?;
    for slot in 2..65u16 {
        let fate = if slot == 3 { "stale" } else { "current" };
        write!(text, "task k0.{slot}.0 {fate}\n")?;
    }
    let cores = Cores::of(&first, &later);
    expect(&rt, alloc, cores, Status::Success, &text)?;
    Ok(())
}
