//! The pages that are kept, the most recently used first.

ghost use Rattle.std.specs.Prelude.{◌≡◌, ◌⊎◌, ◌+◌, ◌≤◌, ℕ, IfSome, length, Contains, Vec as Items};
ghost use Rattle.std.specs.declared.alloc.Global.{Global as Heap};
ghost use Rattle.omi_page.specs.Spans.{eight_at};
ghost use Rattle.omi_page.specs.Paging.{AreLong};
ghost use Rattle.omi_page.specs.declared.limits.TheConstants.{PAGE_BYTES};

use lru::LruCache;
use std::alloc::Global;

/// The pages that are kept, by their numbers.
pub type Kept = LruCache<u64, Vec<u8>>;

/// The eight bytes from an offset on.
pub fn word_of(bytes: &[u8], offset: usize) -> [u8; 8]
    requires { offset + 8 ≤ length bytes.now }
    ensures { result ≡ eight_at bytes.now offset }
{
    let mut word = [0; 8];
    word.copy_from_slice(&bytes[offset..offset + 8]);
    word
}

/// No more pages are kept than there are places, by the type of what keeps them.
fn are_few(kept: &Kept)
    ensures { length kept.now.entries ≤ kept.now.cap }
{
    let _count = kept.len();
}

/// The eight bytes from an offset on of a page, where it is kept. The page becomes the most recently used.
fn used_word(kept: &mut Kept, page: u64, offset: usize) -> Option<[u8; 8]>
    requires long { AreLong kept.old.entries }
    requires within { offset + 8 ≤ PAGE_BYTES }
    ensures word { IfSome result (λ word. (items : Items ℕ Heap)
        × Contains kept.old.entries (page, items) × (word ≡ eight_at items.items offset)) }
    ensures others { (other : ℕ) (items : Items ℕ Heap) → Contains kept.new.entries (other, items)
        → Contains kept.old.entries (other, items) }
    ensures places { kept.new.cap ≡ kept.old.cap }
{
    let items = kept.get(&page)?;
    Some(word_of(items, offset))
}

/// The same, and that few pages are kept.
pub fn kept_word(kept: &mut Kept, page: u64, offset: usize) -> Option<[u8; 8]>
    requires long { AreLong kept.old.entries }
    requires within { offset + 8 ≤ PAGE_BYTES }
    ensures word { IfSome result (λ word. (items : Items ℕ Heap)
        × Contains kept.old.entries (page, items) × (word ≡ eight_at items.items offset)) }
    ensures others { (other : ℕ) (items : Items ℕ Heap) → Contains kept.new.entries (other, items)
        → Contains kept.old.entries (other, items) }
    ensures places { kept.new.cap ≡ kept.old.cap }
    ensures few { length kept.new.entries ≤ kept.new.cap }
{
    let word = used_word(kept, page, offset);
    are_few(kept);
    word
}

/// Puts a page among those that are kept, where memory is there.
fn put_page(alloc: Global, kept: &mut Kept, page: u64, bytes: &[u8])
    ensures pages { (other : ℕ) (items : Items ℕ Heap) → Contains kept.new.entries (other, items)
        → Contains kept.old.entries (other, items) ⊎ ((other ≡ page) × (items.items ≡ bytes.now)) }
    ensures places { kept.new.cap ≡ kept.old.cap }
{
    if let Ok(items) = Vec::from_slice(alloc, bytes) {
        let _ = kept.put(page, items);
    }
}

/// Keeps a page, where memory is there. Where there is no place left, the page that was used longest ago is let go.
pub fn keep(alloc: Global, kept: &mut Kept, page: u64, bytes: &[u8])
    ensures pages { (other : ℕ) (items : Items ℕ Heap) → Contains kept.new.entries (other, items)
        → Contains kept.old.entries (other, items) ⊎ ((other ≡ page) × (items.items ≡ bytes.now)) }
    ensures places { kept.new.cap ≡ kept.old.cap }
    ensures few { length kept.new.entries ≤ kept.new.cap }
{
    put_page(alloc, kept, page, bytes);
    are_few(kept);
}
