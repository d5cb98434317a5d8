//! Lists of numbers, and words that are such lists.
ghost use Rattle.std.specs.Prelude.{◌≡◌, IfOk};
ghost use Rattle.omi_script.specs.Numbers.{numbers_of, sizes_of};

use crate::limits::{MAX_SIZE, MAX_SIZES};
use crate::numbers::number;
use crate::pieces::cut_item;
use omi_list::{List, OutOfMemory};
use std::alloc::Global;

/// The elements of nthreads-var, or of another list of numbers.
pub type NumList = List<u64>;

/// The numbers that commas join. None where a piece is no number in the range.
fn numbers(
    alloc: Global,
    word: &[u8],
    least: u64,
    most: u64,
) -> Result<Option<NumList>, OutOfMemory>
    ensures { IfOk result (λ list. list ≡ numbers_of least most word.now) }
{
    let mut list = NumList::new(alloc);
    let mut left = Some(word);
    while let Some(items) = left {
        let (item, rest) = cut_item(items);
        let Some(n) = number(item, least, most) else {
            return Ok(None);
        };
        list.push(n)?;
        left = rest;
    }
    Ok(Some(list))
}

/// The element list of nthreads-var, 1 to `MAX_SIZES` numbers of 1 to `MAX_SIZE`. None where the
/// word is no such list.
pub fn sizes(alloc: Global, word: &[u8]) -> Result<Option<NumList>, OutOfMemory>
    ensures { IfOk result (λ list. list ≡ sizes_of word.now) }
{
    match numbers(alloc, word, 1, MAX_SIZE.into())? {
        Some(list) if list.len() <= MAX_SIZES => Ok(Some(list)),
        _ => Ok(None),
    }
}
