//! An audit of all records of a memory of 64 threads.

ghost use Rattle.std.specs.Prelude.{◌≡◌};
ghost use Rattle.std.specs.Int.{from_le_bytes, w64};
ghost use Rattle.omi_calls.specs.Kept.{GivesNumbers, TakesAll};

use omi_audit::{AuditFault, Verdict, audit};
use omi_calls::ToHost;
use omi_fixture_targets::{Asked, LITTLE, LONG_REGIONS, LONG_TASKS, Wrong, long_chains, open};
use std::alloc::Global;
use std::test::Fail;

/// The verdict on a memory whose records are all met, one behind the other.
fn audited<F: ToHost>(alloc: Global, to_host: F) -> Result<Result<Verdict, AuditFault>, Wrong>
    requires takes { TakesAll (F.takes to_host) }
    requires gives { GivesNumbers (F.gives to_host) 0 }
{
    let asked = Asked::never();
    let mut s = open(alloc, long_chains(alloc)?, LITTLE, to_host, &asked)?;
    Ok(audit(&mut s, alloc))
}

#[test]
fn all_records_are_met(rt: HostRuntime) -> Result<(), Fail> {
    let verdict = audited(
        rt.alloc(),
        |bytes: [u8; 8]| -> u64
            ensures { result ≡ from_le_bytes w64 bytes }
        { u64::from_le_bytes(bytes) },
    )?;
    let records = LONG_REGIONS + LONG_TASKS;
    assert_eq!(rt; verdict, Ok(Verdict::Yes { records }));
    Ok(())
}
