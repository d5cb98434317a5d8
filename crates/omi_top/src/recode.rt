//! The command `recode`.

ghost use Rattle.std.specs.Prelude.{◌≡◌, ◌≢◌, ◌≤◌, IfOk, IfErr, string_bytes};
ghost use Rattle.omi_outside.specs.declared.status.Status.TheVariants.{Core};
ghost use Rattle.omi_frame.specs.Concluded.{Performed};
ghost use Rattle.omi_top.specs.Apart.{KeptApart};
ghost use Rattle.omi_top.specs.Command.{Recode};
ghost use Rattle.omi_top.specs.CommandVerbs.{verb_of};
ghost use Rattle.omi_top.specs.Recode.{recoded_line};
ghost use Rattle.omi_frame.specs.Refusal.{status_of};
ghost use Rattle.omi_frame.specs.Seen.{files_seen};
ghost use Rattle.omi_frame.specs.Statuses.{IsOfCore};

use crate::copy::{Copied, Copying, write_copy};
use omi_corefile::{CoreImage, encode};
use omi_frame::Refusal;
use omi_outside::Files;
use std::alloc::{AllocError, Global};

/// What is printed.
fn recoded_line(alloc: Global, order: u8) -> Result<String, AllocError>
    ensures { IfOk result (λ line. string_bytes line ≡ recoded_line order) }
{
    format!(in alloc; "recoded {order}\n")
}

/// A copy in an order.
#[derive(Drop)]
struct Recoding {
    order: u8,
    ghost known: { order ≤ 1 },
}

impl Copying for Recoding {
    ghost use Rattle.omi_top.specs.Recode.{IsRecodedCopy};

    ghost copies = { λ recoding. IsRecodedCopy recoding.order };

    fn copied(self, alloc: Global, core: CoreImage) -> Result<Copied, AllocError> {
        let Recoding { order } = self;
        let bytes = encode(alloc, &core.with_order(order))?;
        let line = recoded_line(alloc, order)?;
        Ok(Copied { bytes, line })
    }
}

/// Reads a core, writes it in another order, and answers what is printed.
pub fn recode<F: Files, W: Files>(
    alloc: Global,
    order: u8,
    core: &str,
    copy: &str,
    files: &mut F,
    dest: &mut W,
) -> Result<Vec<u8>, Refusal>
    requires { order ≤ 1 }
    ensures performed { Performed (verb_of (Recode order core.now copy.now)) result
        (files_seen (F.told files.old) (F.reads files.old) (F.writes files.old))
        (files_seen (F.told files.new) (F.reads files.new) (F.writes files.new))
        (files_seen (W.told dest.old) (W.reads dest.old) (W.writes dest.old))
        (files_seen (W.told dest.new) (W.reads dest.new) (W.writes dest.new)) }
    ensures apart { KeptApart
        (files_seen (F.told files.old) (F.reads files.old) (F.writes files.old))
        (files_seen (F.told files.new) (F.reads files.new) (F.writes files.new))
        (files_seen (W.told dest.old) (W.reads dest.old) (W.writes dest.old))
        (files_seen (W.told dest.new) (W.reads dest.new) (W.writes dest.new)) }
{
    write_copy(alloc, Recoding { order }, core, copy, files, dest)
}
