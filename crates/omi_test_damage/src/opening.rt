//! A session that does not open since a call of the debugger fails, and opens at the second try.

ghost use Rattle.std.specs.Prelude.{◌≡◌};
ghost use Rattle.std.specs.Int.{from_le_bytes, w64};
ghost use Rattle.omi_calls.specs.Kept.{GivesNumbers, TakesAll};

use omi_calls::ToHost;
use omi_fixture_rows::AN_EMPTY_RUN;
use omi_fixture_targets::{Asked, LITTLE, Wrong, after, core_at, library};
use omi_session::Rc;
use std::alloc::Global;
use std::process::Abort;
use std::test::Fail;

/// Why two tries to open a session, one after the other, are refused, where the call of this number fails. None where one opens.
fn tries<F: ToHost>(
    alloc: Global,
    failing: u64,
    asked: &Asked,
    to_host: F,
) -> Result<[Option<Rc>; 2], Wrong>
    requires takes { TakesAll (F.takes to_host) }
    requires gives { GivesNumbers (F.gives to_host) 0 }
{
    let core = core_at(alloc, AN_EMPTY_RUN, 0, after(0))?;
    let library = library(alloc, core, LITTLE, to_host, &[failing], asked)?;
    let (first, library) = match library.process_initialize(alloc) {
        Ok(session) => (None, session.rel_address_space_handle()),
        Err((rc, library)) => (Some(rc), library),
    };
    Ok(match library.process_initialize(alloc) {
        Ok(_) => [first, None],
        Err((rc, _)) => [first, Some(rc)],
    })
}

/// Opening looks up one symbol and reads 56 words. Where one of these fails, nothing more is asked, and the library that is handed back
/// opens a session.
fn each_call_by<F: ToHost + Copy>(rt: &impl Abort, alloc: Global, to_host: F) -> Result<(), Fail>
    requires takes { TakesAll (F.takes to_host) }
    requires gives { GivesNumbers (F.gives to_host) 0 }
{
    for failing in 1..58u64 {
        let asked = Asked::never();
        let refused = tries(alloc, failing, &asked, to_host)?;
        assert_eq!(rt; refused, [Some(Rc::CallbackError), None], "{failing}");
        assert_eq!(rt; asked.look_ups.get(), 2);
        assert_eq!(rt; asked.reads.get(), failing - 1 + 56);
    }
    let asked = Asked::never();
    let refused = tries(alloc, 58, &asked, to_host)?;
    assert_eq!(rt; refused, [None, Some(Rc::CallbackError)]);
    Ok(())
}

#[test]
fn each_call_of_opening_fails(rt: HostRuntime) -> Result<(), Fail> {
    each_call_by(
        &rt,
        rt.alloc(),
        |bytes: [u8; 8]| -> u64
            ensures { result ≡ from_le_bytes w64 bytes }
        { u64::from_le_bytes(bytes) },
    )
}
