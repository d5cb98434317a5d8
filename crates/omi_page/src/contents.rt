//! What stands in the file of a core beside its words.

ghost use Rattle.std.specs.Prelude.{◌≤◌, length};
ghost use Rattle.omi_corefile.specs.declared.limits.TheConstants.{MOST_CONTEXTS};
ghost use Rattle.omi_page.specs.Bounds.{AreInOrder};
ghost use Rattle.omi_page.specs.declared.limits.TheConstants.{MOST_SPANS};

use crate::span::SpanList;
use omi_word::Natives;

/// What stands in the file of a core beside its words.
#[derive(Drop)]
pub struct Contents {
    pub len: u64,
    pub order: u8,
    pub contexts: Natives,
    pub spans: SpanList,
    pub ghost few: { length contexts ≤ MOST_CONTEXTS },
    pub ghost ordered: { AreInOrder spans },
    pub ghost few_spans: { length spans ≤ MOST_SPANS },
    pub ghost known: { order ≤ 1 },
}
