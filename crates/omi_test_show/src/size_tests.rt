//! Cores of the greatest size, of one word more, and of the most threads.

ghost use Rattle.std.specs.Prelude.{◌≤◌};

use crate::show_tests::{OPENING, expect};
use omi_fixture_calls::{EMPTY, call, core_of};
use omi_outside::Status;
use std::alloc::Global;
use std::test::Fail;

/// The core of the opening words with so many words, those behind the image all 0.
fn longer_core(alloc: Global, words: u64) -> Result<Vec<u8>, Fail>
    requires { words ≤ 1048577 }
{
    let mut core = core_of(alloc, "0", EMPTY)?;
    core.resize(40 + 8 * words as usize, 0)?;
    let count = words.to_le_bytes();
    for i in 0..8usize {
        if let Some(byte) = core.get_mut(32 + i) {
            *byte = count[i];
        }
    }
    Ok(core)
}

#[test]
fn cores_of_many_words(rt: HostRuntime) -> Result<(), Fail> {
    let alloc = rt.alloc();
    for words in [8503, 1_048_576] {
        let core = longer_core(alloc, words)?;
        expect(&rt, alloc, &core, Status::Success, OPENING)?;
    }
    let over = longer_core(alloc, 1_048_577)?;
    expect(&rt, alloc, &over, Status::Core, "core 32 5 TooLarge\n")?;
    Ok(())
}

/// As many threads as a program can have, of which thread 0 alone has begun.
#[test]
fn sixty_four_threads(rt: HostRuntime) -> Result<(), Fail> {
    let alloc = rt.alloc();
    let core = core_of(alloc, "0", "threads 64\nfunc main\nend\n")?;
    assert_eq!(&rt; core.len(), 4_813_216);
    let shown = call(alloc, &["show", "c"], ("", Some(&core)), &[], &[], &[])?;
    assert_eq!(&rt; shown.status, Status::Success);
    let text = str::from_utf8(shown.out.bytes())?;
    assert_eq!(&rt; text.lines().count(), 70);
    assert!(&rt; text.contains("\nnative 1063 none\n"));
    Ok(())
}
