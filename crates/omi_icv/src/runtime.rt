//! Words of the runtime's record.

ghost use Rattle.std.specs.Prelude.{◌≡◌, ◌≢◌, Err};
ghost use Rattle.omi_outside.specs.Outside.{HasCause};
ghost use Rattle.omi_rep.specs.Records.{runtime_address};
ghost use Rattle.omi_session.specs.Inquiry.{word_of};
ghost use Rattle.omi_session.specs.Opened.{StaysWhole};
ghost use Rattle.omi_session.specs.Reads.{Answers};

use omi_calls::{Callbacks, ToHost};
use omi_layout::Field;
use omi_session::{Rc, Session, word};

/// The word of a field of the runtime's record.
pub fn runtime_word<C: Callbacks, F: ToHost>(s: &mut Session<C, F>, field: Field) -> Result<u64, Rc>
    ensures answer { Answers C.told C.asked s.old s.new result
        (word_of s.old.layout (runtime_address s.old.layout) field 0) }
    ensures memory { result ≢ Err Rc.NoMem }
    ensures same { StaysWhole C.told s.old s.new }
    ensures cause { HasCause (C.faults s.old.table.calls) (C.faults s.new.table.calls)
        (result ≡ Err Rc.CallbackError) }
{
    let runtime = s.layout().runtime_place();
    word(s, runtime, field, 0)
}
