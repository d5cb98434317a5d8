//! The layout that the words of a memory give.

ghost use Rattle.std.specs.Prelude.{◌≡◌, MatchResult};
ghost use Rattle.omi_layout.specs.Given.{GivesLayout};

use crate::fault::LayoutFault;
use crate::layout::Layout;
use crate::limits::TABLE_WORDS;
use omi_word::{WordMemory, look_up};

/// Why words give no layout.
#[derive(Clone, Copy, Debug, PartialEq, Eq)]
pub enum LayoutError {
    /// There is no symbol `omi_layout`, or no symbol table.
    NoSymbol,
    /// A word of the layout table isn't mapped: the first, by its byte address.
    Unmapped { addr: u64 },
    /// The layout table is refused for this fault. The byte address is that of the word which the fault names.
    Refused { addr: u64, fault: LayoutFault },
}

impl Layout {
    ghost use Rattle.omi_layout.specs.NoLayout.{GivesNone};

    /// The layout that the words of a memory give: its table stands at the address of the symbol `omi_layout`.
    pub fn read<M: WordMemory>(memory: &M) -> Result<Layout, LayoutError>
        ensures { MatchResult result (λ layout. GivesLayout (M.words memory.now) layout.table)
            (λ error. GivesNone (M.words memory.now) error) }
    {
        let Some(address) = look_up(memory, "omi_layout") else {
            return Err(LayoutError::NoSymbol);
        };
        let mut table = [0u64; TABLE_WORDS];
        for at in 0..TABLE_WORDS {
            let addr = address.wrapping_add(8 * at as u64);
            let Some(word) = memory.word(addr) else {
                return Err(LayoutError::Unmapped { addr });
            };
            table[at] = word;
        }
        match Layout::of_words(&table) {
            Ok(layout) => Ok(layout),
            Err(fault) => Err(LayoutError::Refused {
                addr: address.wrapping_add(8 * fault.table_word() as u64),
                fault,
            }),
        }
    }
}
