//! The words of a stopped run, of which some are changed or taken away.

ghost use Rattle.std.specs.Prelude.{◌≡◌, ◌≤◌, IfOk, IfSome};

use crate::{Wrong, core_at};
use omi_core::Stop;
use omi_corefile::{CoreImage, decode, encode};
use omi_layout::{Field, Layout};
use omi_word::{FIRST_ADDRESS, OutOfMemory};
use std::alloc::Global;

/// The bytes of a core in front of its words: the head of the file and of its one segment.
const FRONT: usize = 32;

/// The words of a stopped run, and their layout.
pub struct Words {
    pub layout: Layout,
    bytes: Vec<u8>,
}

impl Drop for Words {
    fn drop(self) {
        let Words {
            layout: _layout,
            bytes: _bytes,
        } = self;
    }
}

/// The address of a word, and what stands there instead. None: it isn't mapped.
pub type Change = (u64, Option<u64>);

impl Words {
    /// The words of a core that has one segment, in this layout.
    pub fn of(alloc: Global, core: &CoreImage, layout: Layout) -> Result<Words, Wrong> {
        let bytes = encode(alloc, core)?;
        Ok(Words { layout, bytes })
    }

    /// The words of a script of two threads, in the layout of a family.
    pub fn of_two(alloc: Global, script: &str, family: u8, stop: Stop) -> Result<Words, Wrong>
        requires { IfSome stop.on (λ on. 1 ≤ on.1) }
    {
        let core = core_at(alloc, script, family, stop)?;
        Words::of(alloc, &core, Layout::family(family % 16, 2))
    }

    /// The address of a word at a place of a field of the record at an address.
    pub fn at(&self, record: u64, field: Field, place: u64) -> u64 {
        let front = u64::from(self.layout.offset(field.number())).wrapping_add(place);
        record.wrapping_add(front.wrapping_mul(8))
    }

    /// A core with these changes.
    pub fn core(&self, alloc: Global, changes: [Change; 2]) -> Result<CoreImage, Wrong>
        ensures { IfOk result (λ core. core.order ≡ 0) }
    {
        let mut words = Vec::new(alloc);
        words.extend_from_slice(self.bytes.get(FRONT..).unwrap_or(b""))?;
        let [first, second] = changes;
        put(&mut words, first);
        put(&mut words, second);
        let first = hole(first);
        let second = hole(second);
        let bytes = if first <= second {
            without(alloc, words.as_slice(), first, second)?
        } else {
            without(alloc, words.as_slice(), second, first)?
        };
        match decode(alloc, bytes.as_slice()) {
            Ok(core) if core.order == 0 => Ok(core),
            _ => Err(Wrong::NoCore),
        }
    }
}

/// The number of the word at an address.
fn number(addr: u64) -> usize {
    (addr.wrapping_sub(FIRST_ADDRESS) / 8) as usize
}

/// Puts a word, where it is one that changes.
fn put(words: &mut Vec<u8>, change: Change) {
    let (addr, new) = change;
    let Some(new) = new else {
        return;
    };
    let from = number(addr).wrapping_mul(8);
    if from < words.len() && words.len() - from >= 8 {
        words[from..from + 8].copy_from_slice(&new.to_le_bytes());
    }
}

/// A number past those of all words.
const PAST: usize = 1 << 32;

/// The number of a word that isn't mapped, and one past all words where the word is mapped.
fn hole(change: Change) -> usize {
    let (addr, new) = change;
    if new.is_some() { PAST } else { number(addr) }
}

/// Puts a segment of the words of these numbers, where there are some.
fn put_segment(
    out: &mut Vec<u8>,
    words: &[u8],
    from: usize,
    to: usize,
) -> Result<u32, OutOfMemory> {
    let Some(part) = words.get(from.wrapping_mul(8)..to.wrapping_mul(8)) else {
        return Ok(0);
    };
    if part.is_empty() {
        return Ok(0);
    }
    let start = (from as u64).wrapping_mul(8).wrapping_add(FIRST_ADDRESS);
    out.extend_from_slice(&start.to_le_bytes())?;
    out.extend_from_slice(&(part.len() as u64 / 8).to_le_bytes())?;
    out.extend_from_slice(part)?;
    Ok(1)
}

/// The bytes of a core with these words but for two, in rising order.
fn without(
    alloc: Global,
    words: &[u8],
    first: usize,
    second: usize,
) -> Result<Vec<u8>, OutOfMemory> {
    let end = words.len() / 8;
    let mut segments = Vec::new(alloc);
    let mut count = put_segment(&mut segments, words, 0, first.min(end))?;
    let middle = put_segment(&mut segments, words, first.wrapping_add(1), second.min(end))?;
    let last = put_segment(&mut segments, words, second.wrapping_add(1), end)?;
    count = count.wrapping_add(middle).wrapping_add(last);
    let mut bytes = Vec::new(alloc);
    bytes.extend_from_slice(b"OMPDCOR1\x01\x00\x00\x00")?;
    bytes.extend_from_slice(&count.to_le_bytes())?;
    bytes.extend_from_slice(segments.as_slice())?;
    Ok(bytes)
}
