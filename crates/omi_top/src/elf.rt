//! The command `elf`.

ghost use Rattle.std.specs.Prelude.{◌≡◌, ◌≢◌, IfOk, IfErr, string_bytes};
ghost use Rattle.omi_outside.specs.declared.status.Status.TheVariants.{Core};
ghost use Rattle.omi_frame.specs.Concluded.{Performed};
ghost use Rattle.omi_top.specs.Apart.{KeptApart};
ghost use Rattle.omi_top.specs.Command.{Elf};
ghost use Rattle.omi_top.specs.CommandVerbs.{verb_of};
ghost use Rattle.omi_top.specs.Elf.{elf_line};
ghost use Rattle.omi_frame.specs.Refusal.{status_of};
ghost use Rattle.omi_frame.specs.Seen.{files_seen};
ghost use Rattle.omi_frame.specs.Statuses.{IsOfCore};

use crate::copy::{Copied, Copying, write_copy};
use omi_corefile::CoreImage;
use omi_elf::encode_elf;
use omi_frame::Refusal;
use omi_outside::Files;
use std::alloc::{AllocError, Global};

/// What is printed of an ELF file with so many segments of memory.
fn elf_line(alloc: Global, segments: usize) -> Result<String, AllocError>
    ensures { IfOk result (λ line. string_bytes line ≡ elf_line segments) }
{
    format!(in alloc; "elf {segments}\n")
}

/// A copy as an ELF file.
#[derive(Drop)]
struct AsElf;

impl Copying for AsElf {
    ghost use Rattle.omi_top.specs.Elf.{IsElfCopy};

    ghost copies = { λ _. IsElfCopy };

    fn copied(self, alloc: Global, core: CoreImage) -> Result<Copied, AllocError> {
        let bytes = encode_elf(alloc, &core)?;
        let line = elf_line(alloc, core.segments.len())?;
        Ok(Copied { bytes, line })
    }
}

/// Reads a core, writes it as an ELF file, and answers what is printed.
pub fn elf<F: Files, W: Files>(
    alloc: Global,
    core: &str,
    copy: &str,
    files: &mut F,
    dest: &mut W,
) -> Result<Vec<u8>, Refusal>
    ensures performed { Performed (verb_of (Elf core.now copy.now)) result
        (files_seen (F.told files.old) (F.reads files.old) (F.writes files.old))
        (files_seen (F.told files.new) (F.reads files.new) (F.writes files.new))
        (files_seen (W.told dest.old) (W.reads dest.old) (W.writes dest.old))
        (files_seen (W.told dest.new) (W.reads dest.new) (W.writes dest.new)) }
    ensures apart { KeptApart
        (files_seen (F.told files.old) (F.reads files.old) (F.writes files.old))
        (files_seen (F.told files.new) (F.reads files.new) (F.writes files.new))
        (files_seen (W.told dest.old) (W.reads dest.old) (W.writes dest.old))
        (files_seen (W.told dest.new) (W.reads dest.new) (W.writes dest.new)) }
{
    write_copy(alloc, AsElf, core, copy, files, dest)
}
