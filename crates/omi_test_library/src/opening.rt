//! How sessions open, and why they don't.

ghost use Rattle.std.specs.Prelude.{◌≡◌, if◌then◌else◌};
ghost use Rattle.std.specs.Int.{from_le_bytes, from_be_bytes, w64};
ghost use Rattle.omi_calls.specs.Kept.{GivesNumbers, TakesAll};

use omi_calls::{MemCalls, Table, ToHost};
use omi_corefile::CoreImage;
use omi_fixture_rows::{A_TEAM_OF_TWO, AN_EMPTY_RUN};
use omi_fixture_targets::{
    Asked, BIG, ByteOrder, LITTLE, Opened, Stopped, Target, Words, Wrong, after, core_at, library,
    open,
};
use omi_session::{Rc, get_api_version, get_version_string, initialize};
use std::alloc::Global;
use std::test::Fail;

/// The codes of two tries to open a session over a core, one after the other: None where it opens. The calls of these numbers fail.
fn tries(alloc: Global, core: CoreImage, failing: &[u64]) -> Result<[Option<Rc>; 2], Wrong> {
    tries_by(
        alloc,
        core,
        failing,
        |bytes: [u8; 8]| -> u64
            ensures { result ≡ from_le_bytes w64 bytes }
        { u64::from_le_bytes(bytes) },
    )
}

fn tries_by<F: ToHost>(
    alloc: Global,
    core: CoreImage,
    failing: &[u64],
    to_host: F,
) -> Result<[Option<Rc>; 2], Wrong>
    requires takes { TakesAll (F.takes to_host) }
    requires gives { GivesNumbers (F.gives to_host) 0 }
{
    let asked = Asked::never();
    let library = library(alloc, core, LITTLE, to_host, failing, &asked)?;
    let (first, library) = match library.process_initialize(alloc) {
        Ok(session) => (None, session.rel_address_space_handle()),
        Err((rc, library)) => (Some(rc), library),
    };
    Ok(match library.process_initialize(alloc) {
        Ok(_) => [first, None],
        Err((rc, _)) => [first, Some(rc)],
    })
}

/// Opening makes one look-up and 56 reads. Where one fails, the library is handed back and opens a session at the next try.
#[test]
fn failing_callbacks(rt: HostRuntime) -> Result<(), Fail> {
    let alloc = rt.alloc();
    let failed = Some(Rc::CallbackError);
    for (family, failing, wanted) in [
        (0u8, 0u64, [None, None]),
        (0, 1, [failed, None]),
        (7, 2, [failed, None]),
        (7, 57, [failed, None]),
        (7, 58, [None, failed]),
    ] {
        let core = core_at(alloc, AN_EMPTY_RUN, family, after(0))?;
        assert_eq!(rt; tries(alloc, core, &[failing]), Ok(wanted));
    }
    Ok(())
}

/// How often a target was asked: reads and look-ups.
fn counts(asked: &Asked) -> (u64, u64) {
    (asked.reads.get(), asked.look_ups.get())
}

/// Whether a session that was opened answers what needs no handle, of which the version alone is read.
fn answers_versions<F: ToHost>(s: &mut Stopped<'_, F>, asked: &Asked) -> bool {
    let before = counts(asked);
    let version = s.get_omp_version();
    let text = s.get_omp_version_string() == "OpenMP 5.0 host";
    let device = s.device_initialize(0) == Rc::Unsupported;
    let after = counts(asked);
    let is_counted = before == (56, 1) && after == (57, 1);
    is_counted && text && device && version == Ok(201811)
}

/// Whether a session opens with 56 reads and one look-up, and gives its table back.
fn opens_in<F: ToHost>(alloc: Global, order: ByteOrder, to_host: F) -> Result<bool, Wrong>
    requires takes { TakesAll (F.takes to_host) }
    requires gives { GivesNumbers (F.gives to_host) (if order.highest_first then 1 else 0) }
{
    let asked = Asked::never();
    let core = core_at(alloc, AN_EMPTY_RUN, 0, after(0))?;
    let session = open(alloc, core, order, to_host, &asked)?;
    let mut s = Opened { session };
    let answers = answers_versions(&mut s.session, &asked);
    let table = s.alone().rel_address_space_handle().finalize();
    Ok(answers && initialize(201811, table).is_ok())
}

#[test]
fn calls_of_opening(rt: HostRuntime) -> Result<(), Fail> {
    let little = opens_in(
        rt.alloc(),
        LITTLE,
        |bytes: [u8; 8]| -> u64
            ensures { result ≡ from_le_bytes w64 bytes }
        { u64::from_le_bytes(bytes) },
    )?;
    let big = opens_in(
        rt.alloc(),
        BIG,
        |bytes: [u8; 8]| -> u64
            ensures { result ≡ from_be_bytes w64 bytes }
        { u64::from_be_bytes(bytes) },
    )?;
    assert_eq!(rt; (little, big), (true, true));
    Ok(())
}

/// The words of a table that is wrong in one way, and why no session opens over them.
#[test]
fn the_first_refusal_of_opening(rt: HostRuntime) -> Result<(), Fail> {
    let alloc = rt.alloc();
    let words = Words::of_two(alloc, A_TEAM_OF_TWO, 0, after(0))?;
    let error = |addr| Rc::Error { addr, field: 0 };
    for (change, wanted) in [
        ((0x10158, Some(9)), Rc::Incompatible),
        ((0x10000, Some(0)), Rc::Incompatible),
        ((0x10000, None), Rc::Incompatible),
        ((0x10160, Some(3)), error(0x10160)),
        ((0x10160, None), error(0x10160)),
        (
            (0x10140, Some(0xffff_ffff_ffff_fff8)),
            error(0xffff_ffff_ffff_fff8),
        ),
    ] {
        let core = words.core(alloc, [change; 2])?;
        let refused = tries(alloc, core, &[])?;
        assert_eq!(rt; refused, [Some(wanted), Some(wanted)]);
    }
    Ok(())
}

/// The code with which another version of the API is refused, where the table that comes back opens a library.
fn refusal_of_version<F: ToHost>(alloc: Global, to_host: F) -> Result<Option<Rc>, Wrong>
    requires takes { TakesAll (F.takes to_host) }
    requires gives { GivesNumbers (F.gives to_host) 0 }
{
    let asked = Asked::never();
    let core = core_at(alloc, AN_EMPTY_RUN, 0, after(0))?;
    let target = Target {
        calls: MemCalls::over(core, Vec::new(alloc)),
        asked: &asked,
    };
    match initialize(201511, Table::new(target, 0, to_host)) {
        Ok(_) => Ok(None),
        Err((rc, table)) => Ok(if initialize(201811, table).is_ok() {
            Some(rc)
        } else {
            None
        }),
    }
}

#[test]
fn another_version_of_the_library(rt: HostRuntime) -> Result<(), Fail> {
    let refused = refusal_of_version(
        rt.alloc(),
        |bytes: [u8; 8]| -> u64
            ensures { result ≡ from_le_bytes w64 bytes }
        { u64::from_le_bytes(bytes) },
    )?;
    assert_eq!(rt; refused, Some(Rc::Unsupported));
    assert_eq!(rt; get_api_version(), 201811);
    assert_eq!(rt; get_version_string(), "omi ompd 1");
    assert_eq!(rt; Rc::Incomplete(3).code(), 11);
    Ok(())
}
