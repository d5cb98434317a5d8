//! Reading what stands in an ELF core file beside its words: each kept segment is a span.

ghost use Rattle.std.specs.Prelude.{◌≡◌, List, ℕ, length, true, None, All, IfOk, IfErr, IsErrOf};
ghost use Rattle.omi_outside.specs.Outside.{AreBytes, HasCause};
ghost use Rattle.omi_elf.specs.Header.{begins_as_elf};
ghost use Rattle.omi_elf.specs.Segments.{first_overlap};
ghost use Rattle.omi_read.specs.Holding.{IsLength, Holds};
ghost use Rattle.omi_page.specs.Bounds.{AreBoundsOf, AreInOrder, EndWithin, IsSpan};
ghost use Rattle.omi_page.specs.Outcomes.{IsFaultOf};
ghost use Rattle.omi_page.specs.Paging.{IsContentsOf};

use crate::PageError;
use crate::contents::Contents;
use crate::span::{Span, SpanList};
use omi_elf::{ElfContents, ProgramHeader, read_elf};
use omi_list::OutOfMemory;
use omi_outside::Files;
use std::alloc::Global;

/// Where the words of segments of a file of `len` bytes stand, which begin in order of start and apart.
pub fn spans_of(
    alloc: Global,
    len: u64,
    segments: &[ProgramHeader],
) -> Result<SpanList, OutOfMemory>
    requires fit { All (IsSpan len) segments.now }
    requires apart { first_overlap segments.now ≡ None }
    ensures bounds { IfOk result (λ spans. AreBoundsOf segments.now spans) }
    ensures ends { IfOk result (EndWithin len) }
    ensures ordered { IfOk result AreInOrder }
    ensures few { IfOk result (λ spans. length spans ≡ length segments.now) }
{
    let mut spans = SpanList::new(alloc);
    for segment in segments {
        let count = segment.word_count();
        let span = Span {
            start: segment.p_vaddr,
            count,
            place: segment.p_offset,
        };
        spans.push(span)?;
    }
    Ok(spans)
}

/// What stands in an ELF core file of `len` bytes beside its words. No word is read.
pub fn read_elf_core<F: Files>(
    alloc: Global,
    files: &mut F,
    name: &str,
    len: u64,
) -> Result<Contents, PageError>
    requires len { IsLength (F.told files.old name.now) len }
    requires bytes { (bytes : List ℕ) → Holds (F.told files.old name.now) bytes → AreBytes bytes }
    ensures contents { (bytes : List ℕ) → Holds (F.told files.old name.now) bytes
        → begins_as_elf bytes ≡ true → IfOk result (IsContentsOf bytes) }
    ensures fault { (bytes : List ℕ) → Holds (F.told files.old name.now) bytes
        → begins_as_elf bytes ≡ true → IfErr result (IsFaultOf bytes) }
    ensures len { IfOk result (λ x. IsLength (F.told files.old name.now) x.len) }
    ensures ends { IfOk result (λ x. EndWithin x.len x.spans) }

    // No bytes change. A fault is counted as one of reading.
    ensures same { F.told files.new ≡ F.told files.old }
    ensures cause { HasCause (F.reads files.old) (F.reads files.new)
        (IsErrOf result PageError.Failed) }
    ensures writes { F.writes files.new ≡ F.writes files.old }
{
    let ElfContents {
        order,
        contexts,
        segments,
    } = read_elf(alloc, files, name, len)?;
    let spans = spans_of(alloc, len, &segments)?;
    Ok(Contents {
        len,
        order,
        contexts,
        spans,
    })
}
