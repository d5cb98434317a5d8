//! The layout that the words of a target publish, read through a debugger's callbacks.

ghost use Rattle.std.specs.Prelude.{◌≡◌, ◌≢◌, ◌<◌, Some, MatchResult, IfErr, Err, []};
ghost use Rattle.omi_outside.specs.Outside.{HasCause};
ghost use Rattle.omi_calls.specs.Memory.{usual_sizes};
ghost use Rattle.omi_layout.specs.declared.limits.TheConstants.{TABLE_WORDS};
ghost use Rattle.omi_word.specs.Words.{Words};
ghost use Rattle.omi_word.specs.SymbolTable.{words_from};
ghost use Rattle.omi_layout.specs.Given.{GivesLayout, wrapped};
ghost use Rattle.omi_layout.specs.NoLayout.{table_address};
ghost use Rattle.omi_layout.specs.Valid.{word_named};
ghost use Rattle.omi_session.specs.Tells.{Tells, KeepsTold};
ghost use Rattle.omi_session.specs.declared.rc.Rc.TheVariants.{CallbackError};
ghost use Rattle.omi_session.specs.Opening.{Refuses, IsRefusal, StopsAt, Opens, words_behind, fault_code};
ghost use Rattle.omi_session.specs.Reads.{Ran};

use crate::rc::Rc;
use omi_calls::{Callbacks, Place, Sizes, Table, ToHost};
use omi_layout::{Layout, LayoutFault, TABLE_WORDS};

/// The sizes of the basic types of a target that this library knows.
const SIZES: Sizes = Sizes {
    char_size: 1,
    short_size: 2,
    int_size: 4,
    long_size: 8,
    long_long_size: 8,
    pointer_size: 8,
};

/// The code for a layout table at a byte address that is refused for a fault.
fn refusal(address: u64, fault: &LayoutFault) -> Rc
    requires { word_named fault.now < TABLE_WORDS }
    ensures { result ≡ fault_code (table_address address (word_named fault.now)) fault.now }
{
    let addr = address.wrapping_add(8 * fault.table_word() as u64);
    match fault {
        LayoutFault::Version(_) => Rc::Incompatible,
        LayoutFault::Overlap(_, _) | LayoutFault::OutOfRecord(_) | LayoutFault::BadArena(_) => {
            Rc::Error { addr, field: 0 }
        }
    }
}

/// Reads the words of a layout table at a byte address, in rising order. The first that fails or isn't mapped ends it.
fn read_table<C: Callbacks, F: ToHost>(
    table: &mut Table<C, F>,
    address: u64,
) -> Result<[u64; TABLE_WORDS], Rc>
    ensures words { (memory : Words) → Tells (C.told table.old.calls) memory
        → MatchResult result (λ words. words_from (wrapped memory) address TABLE_WORDS ≡ Some words)
        (StopsAt memory address) }
    ensures refusals { IfErr result IsRefusal }
    ensures same { KeepsTold C.told table.old table.new }
    ensures reads { (memory : Words) → Tells (C.told table.old.calls) memory
        → Ran (C.told table.old.calls) memory CallbackError (words_behind address TABLE_WORDS [])
        (C.asked table.old.calls) (C.asked table.new.calls) result }
    ensures cause { HasCause (C.faults table.old.calls) (C.faults table.new.calls)
        (result ≡ Err Rc.CallbackError) }
{
    let mut words = [0u64; TABLE_WORDS];
    for at in 0..TABLE_WORDS {
        let addr = address.wrapping_add(8 * at as u64);
        let Ok(found) = table.word(addr) else {
            return Err(Rc::CallbackError);
        };
        let Some(word) = found else {
            return Err(Rc::Error { addr, field: 0 });
        };
        words[at] = word;
    }
    Ok(words)
}

/// The layout that a target publishes: judges the sizes, looks up `omi_layout`, reads the table's words, and judges them.
pub fn published<C: Callbacks, F: ToHost>(table: &mut Table<C, F>) -> Result<Layout, Rc>
    ensures sizes { (C.told table.old.calls).sizes ≢ usual_sizes → result ≡ Err Rc.Incompatible }
    ensures words { (memory : Words) → Tells (C.told table.old.calls) memory
        → (C.told table.old.calls).sizes ≡ usual_sizes
        → MatchResult result (λ layout. GivesLayout memory layout.table) (Refuses memory) }
    ensures refusals { IfErr result IsRefusal }
    ensures same { KeepsTold C.told table.old table.new }
    ensures asked { Opens C.told C.asked table.old table.new (result ≡ Err Rc.CallbackError) }
    ensures cause { HasCause (C.faults table.old.calls) (C.faults table.new.calls)
        (result ≡ Err Rc.CallbackError) }
{
    if table.sizeof_type() != SIZES {
        return Err(Rc::Incompatible);
    }
    let address = match table.symbol_addr_lookup("omi_layout") {
        Place::At(address) => address,
        Place::NoSuch => return Err(Rc::Incompatible),
        Place::Failed => return Err(Rc::CallbackError),
    };
    let words = read_table(table, address)?;
    match Layout::of_words(&words) {
        Ok(layout) => Ok(layout),
        Err(fault) => Err(refusal(address, &fault)),
    }
}
