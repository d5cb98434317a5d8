//! Reading bytes at a place of a file, as many as are wanted.

ghost use Rattle.std.specs.Prelude.{◌≡◌, ◌+◌, ◌-◌, ◌^◌, ◌<◌, ◌≤◌, List, ℕ, length, take, drop, min, IfOk, OnOk, IsErr, Option, Some};
ghost use Rattle.omi_outside.specs.Outside.{content_len, HasCause};
ghost use Rattle.omi_read.specs.Holding.{IsLength, Holds};

use omi_outside::{Failed, Files};

/// Fills `to` with the file's bytes from place `at` on. Where a read gives fewer bytes, the call reads on.
pub fn fill<F: Files>(files: &mut F, name: &str, at: u64, to: &mut [u8]) -> Result<(), Failed>
    requires range { at + length to.old < 2 ^ 64 }
    requires within { (content : Option (List ℕ)) → F.told files.old name.now ≡ Some content
        → at + length to.old ≤ content_len content }
    ensures length { length to.new ≡ length to.old }
    ensures bytes { (bytes : List ℕ) → Holds (F.told files.old name.now) bytes
        → OnOk result (to.new ≡ take (length to.old) (drop at bytes)) }

    // No bytes change. A fault is counted as one of reading.
    ensures same { F.told files.new ≡ F.told files.old }
    ensures cause { HasCause (F.reads files.old) (F.reads files.new) (IsErr result) }
    ensures writes { F.writes files.new ≡ F.writes files.old }
{
    let mut done = 0;
    while done < to.len() {
        let count = files.read_at(name, at + done as u64, &mut to[done..])?;
        done += count;
    }
    Ok(())
}

/// Fills a front of `to` with the bytes of a file of `len` bytes from place `at` on: `wanted` bytes, or what the file has. Answers
/// how many.
pub fn front<F: Files>(
    files: &mut F,
    name: &str,
    len: u64,
    at: u64,
    wanted: usize,
    to: &mut [u8],
) -> Result<usize, Failed>
    requires len { IsLength (F.told files.old name.now) len }
    requires within { at ≤ len }
    requires room { wanted ≤ length to.old }
    ensures count { IfOk result (λ count. count ≡ min wanted (len - at)) }
    ensures length { length to.new ≡ length to.old }
    ensures bytes { (bytes : List ℕ) → Holds (F.told files.old name.now) bytes
        → IfOk result (λ count. take count to.new ≡ take count (drop at bytes)) }

    // No bytes change. A fault is counted as one of reading.
    ensures same { F.told files.new ≡ F.told files.old }
    ensures cause { HasCause (F.reads files.old) (F.reads files.new) (IsErr result) }
    ensures writes { F.writes files.new ≡ F.writes files.old }
{
    let count = (len - at).min(wanted as u64) as usize;
    fill(files, name, at, &mut to[..count])?;
    Ok(count)
}
