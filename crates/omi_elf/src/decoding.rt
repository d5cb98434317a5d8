//! Reading an ELF core file: what stands in it beside its words, and the core that it stands for.

ghost use Rattle.std.specs.Prelude.{◌≡◌, ◌≤◌, ◌<◌, ◌^◌, List, ℕ, length, All, IfOk, IfErr, IsErrOf, OnOk, Ok, Err, None};
ghost use Rattle.omi_outside.specs.Outside.{HasCause};
ghost use Rattle.omi_read.specs.Holding.{Holds, IsLength};
ghost use Rattle.omi_corefile.specs.declared.core_image.CoreImage.{CoreImage};
ghost use Rattle.omi_corefile.specs.declared.limits.TheConstants.{MOST_CONTEXTS};
ghost use Rattle.omi_elf.specs.declared.fault.ElfFault.{ElfFault};
ghost use Rattle.omi_elf.specs.Header.{order_of, program_headers as headers_of, kept_segments};
ghost use Rattle.omi_elf.specs.Segments.{by_start, first_overlap};
ghost use Rattle.omi_elf.specs.Notes.{contexts_of};
ghost use Rattle.omi_elf.specs.Found.{FitsIn};
ghost use Rattle.omi_elf.specs.Table.{segment_rows, judgement, ElfRefused};
ghost use Rattle.omi_elf.specs.ElfCore.{ElfCore};
ghost use Rattle.omi_elf.specs.Outcomes.{Judges, ReadJudges, UnlessMemory, IsFaultOf};

use crate::fault::{ElfError, ElfReadError};
use crate::gathering::{contexts, gathered};
use crate::judging::{
    judge_count, judge_overlap, judge_segments, judge_starts, judge_words, kept, sort_by_start,
};
use crate::notes::first_note;
use crate::reading::{read_header, read_headers};
use crate::{MOST_ELF_BYTES, ProgramHeader};
use omi_corefile::CoreImage;
use omi_outside::Files;
use omi_read::ReadOnly;
use omi_word::Natives;
use std::alloc::Global;

/// The contexts and the kept segments, in order of start, of a file with these program headers.
fn contents<F: Files>(
    alloc: Global,
    files: &mut F,
    name: &str,
    len: u64,
    order: u8,
    headers: &[ProgramHeader],
) -> Result<(Natives, Vec<ProgramHeader>), ElfReadError>
    requires len { IsLength (F.told files.old name.now) len }
    requires order { (bytes : List ℕ) → Holds (F.told files.old name.now) bytes
        → order ≡ order_of bytes }
    requires headers { (bytes : List ℕ) → Holds (F.told files.old name.now) bytes
        → headers.now ≡ headers_of bytes }
    requires few { length headers.now < 65536 }
    requires small { len ≤ MOST_ELF_BYTES }
    ensures rows { (bytes : List ℕ) → Holds (F.told files.old name.now) bytes
        → ReadJudges result (segment_rows bytes) }
    ensures contexts { (bytes : List ℕ) → Holds (F.told files.old name.now) bytes
        → IfOk result (λ x. x.0 ≡ contexts_of bytes) }
    ensures few { IfOk result (λ x. length x.0 ≤ MOST_CONTEXTS) }
    ensures segments { (bytes : List ℕ) → Holds (F.told files.old name.now) bytes
        → IfOk result (λ x. x.1.items ≡ by_start (kept_segments bytes)) }
    ensures fit { IfOk result (λ x. All (FitsIn len) x.1.items) }
    ensures apart { IfOk result (λ x. first_overlap x.1.items ≡ None) }
    ensures bounded { IfOk result (λ x. length x.1.items < 65536) }

    // No bytes change. A fault is counted as one of reading.
    ensures same { F.told files.new ≡ F.told files.old }
    ensures cause { HasCause (F.reads files.old) (F.reads files.new)
        (IsErrOf result ElfReadError.Failed) }
    ensures writes { F.writes files.new ≡ F.writes files.old }
{
    let mut kept = kept(alloc, headers)?;
    judge_segments(len, &kept)?;
    let note = first_note(files, name, len, order, headers)?;
    judge_starts(&kept)?;
    judge_words(&kept)?;
    sort_by_start(&mut kept)?;
    judge_overlap(&kept)?;
    judge_count(&kept)?;
    let contexts = contexts(alloc, files, name, len, order, note)?;
    Ok((contexts, kept))
}

/// What stands in an ELF core file beside its words.
#[derive(Drop)]
pub struct ElfContents {
    /// The order of the file's numbers, and of its words.
    pub order: u8,
    /// The native ids of its threads, which rise.
    pub contexts: Natives,
    /// The kept segments in order of start.
    pub segments: Vec<ProgramHeader>,
}

/// What stands in an ELF core file of `len` bytes beside its words. The header, the program headers and the notes are read, and no word.
#[tactic(auto, unfolding(crate::specs::Table::judgement))]
pub fn read_elf<F: Files>(
    alloc: Global,
    files: &mut F,
    name: &str,
    len: u64,
) -> Result<ElfContents, ElfReadError>
    requires len { IsLength (F.told files.old name.now) len }
    ensures rows { (bytes : List ℕ) → Holds (F.told files.old name.now) bytes
        → ReadJudges result (judgement bytes) }
    ensures order { (bytes : List ℕ) → Holds (F.told files.old name.now) bytes
        → IfOk result (λ x. x.order ≡ order_of bytes) }
    ensures known { IfOk result (λ x. x.order ≤ 1) }
    ensures contexts { (bytes : List ℕ) → Holds (F.told files.old name.now) bytes
        → IfOk result (λ x. x.contexts ≡ contexts_of bytes) }
    ensures few { IfOk result (λ x. length x.contexts ≤ MOST_CONTEXTS) }
    ensures segments { (bytes : List ℕ) → Holds (F.told files.old name.now) bytes
        → IfOk result (λ x. x.segments.items ≡ by_start (kept_segments bytes)) }
    ensures fit { IfOk result (λ x. All (FitsIn len) x.segments.items) }
    ensures apart { IfOk result (λ x. first_overlap x.segments.items ≡ None) }
    ensures bounded { IfOk result (λ x. length x.segments.items < 65536) }

    // No bytes change. A fault is counted as one of reading.
    ensures same { F.told files.new ≡ F.told files.old }
    ensures cause { HasCause (F.reads files.old) (F.reads files.new)
        (IsErrOf result ElfReadError.Failed) }
    ensures writes { F.writes files.new ≡ F.writes files.old }
{
    let header = read_header(files, name, len, MOST_ELF_BYTES)?;
    let order = header.order;
    let headers = read_headers(alloc, files, name, len, header)?;
    let (contexts, segments) = contents(alloc, files, name, len, order, &headers)?;
    Ok(ElfContents {
        order,
        contexts,
        segments,
    })
}

/// What stands in an ELF core file in memory beside its words. No read of it fails.
fn contents_of(alloc: Global, bytes: &[u8]) -> Result<ElfContents, ElfError>
    ensures rows { Judges result (judgement bytes.now) }
    ensures order { IfOk result (λ x. x.order ≡ order_of bytes.now) }
    ensures contexts { IfOk result (λ x. x.contexts ≡ contexts_of bytes.now) }
    ensures segments { IfOk result (λ x. x.segments.items ≡ by_start (kept_segments bytes.now)) }
    ensures fit { IfOk result (λ x. All (FitsIn (length bytes.now)) x.segments.items) }
{
    let mut file = ReadOnly::over(bytes);
    match read_elf(alloc, &mut file, "", bytes.len() as u64) {
        Ok(contents) => Ok(contents),
        Err(ElfReadError::Fault { at, why }) => Err(ElfError::Fault { at, why }),
        Err(ElfReadError::Failed) => unreachable!(),
        Err(ElfReadError::OutOfMemory) => Err(ElfError::OutOfMemory),
    }
}

/// The core that an ELF file stands for. It takes room for the program headers and for the words of the kept segments alone.
pub fn decode_elf(alloc: Global, bytes: &[u8]) -> Result<CoreImage, ElfError>
    ensures core { IfOk result (λ c. ElfCore bytes.now c) }
    ensures accepts { (c : CoreImage) → ElfCore bytes.now c
        → UnlessMemory result (result ≡ Ok c) }

    ensures fault { IfErr result (IsFaultOf bytes.now) }
    ensures refuses { (at : ℕ) (why : ElfFault) → ElfRefused bytes.now at why
        → UnlessMemory result (result ≡ Err (ElfError.Fault at why)) }
{
    let ElfContents {
        order,
        contexts,
        segments,
    } = contents_of(alloc, bytes)?;
    let segments = gathered(alloc, order, bytes, &segments)?;
    Ok(CoreImage {
        order,
        contexts,
        segments,
    })
}
