//! The reports of a run between its steps, from its words alone.

ghost use Rattle.std.specs.Prelude.{◌≡◌};
ghost use Rattle.std.specs.Int.{from_le_bytes, w64};
ghost use Rattle.omi_calls.specs.Kept.{GivesNumbers, TakesAll};

use crate::trial::{Trial, Wrong};
use omi_calls::ToHost;
use omi_corefile::{CoreImage, core_of};
use omi_fixture_targets::{Asked, LITTLE, Stopped, open};
use omi_text::report_text;
use omi_walk::walk;
use omi_word::Natives;
use std::alloc::Global;

/// The report that a walk gives for the contexts 1000 and 1001.
fn walked<F: ToHost>(alloc: Global, s: &mut Stopped<'_, F>) -> Result<Vec<u8>, Wrong> {
    let mut contexts = Natives::new(alloc);
    contexts.push(1000)?;
    contexts.push(1001)?;
    if contexts.len() > 64 || s.made() > 100_000 {
        return Err(Wrong::NoReport);
    }
    match walk(s, alloc, &contexts) {
        Ok(view) => Ok(report_text(alloc, &view)?),
        Err(_) => Err(Wrong::NoReport),
    }
}

/// The report of a core, by a conversion of the bytes of a word.
fn report_by<F: ToHost>(alloc: Global, core: CoreImage, to_host: F) -> Result<Vec<u8>, Wrong>
    requires takes { TakesAll (F.takes to_host) }
    requires gives { GivesNumbers (F.gives to_host) 0 }
{
    let asked = Asked::never();
    match open(alloc, core, LITTLE, to_host, &asked) {
        Ok(mut session) => walked(alloc, &mut session),
        Err(_) => Err(Wrong::NoReport),
    }
}

/// The report of the words of a run, for the contexts 1000 and 1001.
pub fn report(alloc: Global, t: &Trial) -> Result<String, Wrong> {
    let core = core_of(alloc, t.core().image(), &Natives::new(alloc), 0)?;
    let bytes = report_by(
        alloc,
        core,
        |bytes: [u8; 8]| -> u64
            ensures { result ≡ from_le_bytes w64 bytes }
        { u64::from_le_bytes(bytes) },
    )?;
    match String::from_utf8(bytes) {
        Ok(text) => Ok(text),
        Err(_) => Err(Wrong::NoReport),
    }
}

/// Whether the lines of a report that begin so are these, in their order.
pub fn has_lines(report: &str, front: &str, wanted: &str) -> bool {
    let mut wanted = wanted.lines();
    for line in report.lines() {
        if line.starts_with(front) && wanted.next() != Some(line) {
            return false;
        }
    }
    wanted.next().is_none()
}
