//! A layout table that was judged.

ghost use Rattle.std.specs.Prelude.{◌≡◌};
ghost use Rattle.omi_layout.specs.Valid.{IsValid};
ghost use Rattle.omi_c.specs.declared.answers.TheConstants.{OK};

use crate::answers::OK;
use omi_layout::TABLE_WORDS;

/// The words of a layout table as they were judged: a layout where the code is 0. Else the code and the place say why they are none. C keeps
/// this as it was answered.
#[repr(C)]
#[derive(Clone, Copy)]
pub struct Judged {
    pub code: u32,
    pub place: u64,
    pub words: [u64; TABLE_WORDS],
    ghost judged: { code ≡ OK → IsValid words },
}
