//! Cores in a layout of version 1, in which no program runs any more.

use omi_corefile::core_bytes_of;
use omi_layout::Layout;
use omi_script::parse;
use omi_word::{Image, MOST_WORDS, Natives};
use std::alloc::Global;
use std::test::Fail;

/// The core of the opening words of a program of one thread in the layout of family 0 of version 1. An error where the text is no such program.
pub fn opening_core_v1(alloc: Global, script: &str) -> Result<Vec<u8>, Fail> {
    let p = parse(alloc, script.as_bytes())?;
    let layout = Layout::family_v1(0, 1);
    let count = layout.image_words();
    if p.threads != layout.threads() || !layout.fits(count) || count as u64 > MOST_WORDS {
        return Err(Fail::from("no program of one thread"));
    }
    let mut image = Image::zeroed(alloc, count)?;
    layout.open(&p, &mut image);
    let mut contexts = Natives::new(alloc);
    contexts.push(1000)?;
    Ok(core_bytes_of(alloc, &image, &contexts)?)
}
