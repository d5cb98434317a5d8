//! The words that a rewind reaches are those of the core that `stop` writes behind so many steps.

ghost use Rattle.std.specs.Prelude.{◌≡◌, ◌≤◌};
ghost use Rattle.omi_core.specs.declared.schedule.Schedule.TheVariants.{RoundRobin};
ghost use Rattle.omi_rewind.specs.declared.limits.TheConstants.{LAST_STEP};

use omi_core::Schedule;
use omi_corefile::core_bytes_of;
use omi_fixture_calls::core_of;
use omi_fixture_rows::A_TEAM_OF_TWO;
use omi_layout::Layout;
use omi_rewind::{At, Rewind};
use omi_script::parse;
use omi_word::Natives;
use std::alloc::Global;
use std::test::Fail;

/// Whether a rewind of the team of two reaches the words of the core that `stop` writes behind so many steps, the number as a word.
fn reaches(alloc: Global, rewind: &mut Rewind, step: u64, word: &str) -> Result<bool, Fail>
    requires few { step ≤ LAST_STEP }
    requires turns { rewind.old.how ≡ RoundRobin }
    ensures { rewind.new.how ≡ RoundRobin }
{
    let at = rewind.to(alloc, step)?;
    let mut contexts = Natives::new(alloc);
    contexts.push(1000)?;
    contexts.push(1001)?;
    let core = core_bytes_of(alloc, rewind.image(), &contexts)?;
    let stopped = core_of(alloc, word, A_TEAM_OF_TWO)?;
    Ok(at == At::Here && core == stopped)
}

#[test]
fn as_stop_writes_them(rt: HostRuntime) -> Result<(), Fail> {
    let alloc = rt.alloc();
    let program = parse(alloc, A_TEAM_OF_TWO.as_bytes()).map_err(|_| "no program")?;
    assert_eq!(rt; program.threads, 2);
    let layout = Layout::family(0, 2);
    assert!(rt; omi_rep::suits(&program, &layout));
    let mut rewind = Rewind::opening(alloc, program, layout, Schedule::RoundRobin)?;
    assert!(rt; reaches(alloc, &mut rewind, 173, "173")?);
    assert!(rt; reaches(alloc, &mut rewind, 197, "197")?);
    assert!(rt; reaches(alloc, &mut rewind, 196, "196")?);
    assert!(rt; reaches(alloc, &mut rewind, 172, "172")?);
    assert!(rt; reaches(alloc, &mut rewind, 0, "0")?);
    assert!(rt; reaches(alloc, &mut rewind, 198, "198")?);
    Ok(())
}
