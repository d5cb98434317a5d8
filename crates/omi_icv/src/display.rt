//! The control variables of the address space, as texts for display.

ghost use Rattle.std.specs.Prelude.{◌≡◌, ◌≢◌, ◌+◌, ◌<◌, ◌≤◌, Ok, Err, IfOk, length, map, slice_get, string_bytes};
ghost use Rattle.omi_outside.specs.Outside.{HasCause};
ghost use Rattle.omi_session.specs.Opened.{StaysWhole};
ghost use Rattle.omi_session.specs.Reads.{Answers};
ghost use Rattle.omi_session.specs.Shown.{OfState};
ghost use Rattle.std.specs.Fmt.{decimal as spelled};
ghost use Rattle.omi_numbers.specs.Variables.{name_of};
ghost use Rattle.omi_numbers.specs.declared.variables.TheConstants.{DEBUG_VAR, NUM_PROCS_VAR, MAX_ACTIVE_LEVELS_VAR};
ghost use Rattle.omi_text.specs.Head.{debug_text};
ghost use Rattle.omi_text.specs.Lines.{named_value};
ghost use Rattle.omi_text.specs.declared.short.TheConstants.{SHORT_TEXT};
ghost use Rattle.omi_icv.specs.Display as inquiry;
ghost use Rattle.omi_icv.specs.StateValues.{display_of};
ghost use Rattle.omi_icv.specs.Written.{Written, IsWritten, as_bytes};

use crate::runtime::runtime_word;
use omi_calls::{Callbacks, ToHost};
use omi_layout::Field;
use omi_session::{Rc, Session};
use omi_text::{OutOfMemory, ShortText, debug_word};
use std::alloc::Global;

/// The words of the variables of the address space.
#[derive(Clone, Copy)]
pub struct SpaceWords {
    pub debug: u64,
    pub procs: u64,
    pub max_active: u64,
}

/// The words, in the order in which they are displayed.
pub fn space_words<C: Callbacks, F: ToHost>(s: &mut Session<C, F>) -> Result<SpaceWords, Rc>
    ensures answer { Answers C.told C.asked s.old s.new result
        (inquiry.space_words s.old.layout) }
    ensures memory { result ≢ Err Rc.NoMem }
    ensures same { StaysWhole C.told s.old s.new }
    ensures cause { HasCause (C.faults s.old.table.calls) (C.faults s.new.table.calls)
        (result ≡ Err Rc.CallbackError) }
{
    let debug = runtime_word(s, Field::RuntimeDebug)?;
    let procs = runtime_word(s, Field::RuntimeProcs)?;
    let max_active = runtime_word(s, Field::RuntimeMaxActive)?;
    Ok(SpaceWords {
        debug,
        procs,
        max_active,
    })
}

/// A variable by name and value.
fn named(name: &str, value: &str) -> ShortText
    requires { length name.now + length value.now < SHORT_TEXT }
    ensures { result ≡ named_value name.now value.now }
{
    let mut text = ShortText::new();
    text.push_str(name);
    text.push_str("=");
    text.push_str(value);
    text
}

/// The text of a number in decimal.
fn decimal(number: u64) -> ShortText
    ensures text { result ≡ spelled number }
    ensures short { length result ≤ 20 }
{
    let mut text = ShortText::new();
    text.push_decimal(number);
    text
}

/// debug-var by name and value.
fn debug_var(words: SpaceWords) -> ShortText
    ensures { result ≡ named_value (name_of DEBUG_VAR) (debug_text words.debug) }
{
    named("debug-var", debug_word(words.debug))
}

/// num-procs-var by name and value.
fn num_procs_var(words: SpaceWords) -> ShortText
    ensures { result ≡ named_value (name_of NUM_PROCS_VAR) (spelled words.procs) }
{
    named("num-procs-var", decimal(words.procs).as_str())
}

/// max-active-levels-var by name and value.
fn max_active_levels_var(words: SpaceWords) -> ShortText
    ensures { result ≡ named_value (name_of MAX_ACTIVE_LEVELS_VAR) (spelled words.max_active) }
{
    named("max-active-levels-var", decimal(words.max_active).as_str())
}

/// A variable by name and value, by its place from 0 on, which takes no memory. None behind the last.
pub fn display_text(words: SpaceWords, at: usize) -> Option<ShortText>
    ensures { result ≡ slice_get (inquiry.display_texts words) at }
{
    match at {
        0 => Some(debug_var(words)),
        1 => Some(num_procs_var(words)),
        2 => Some(max_active_levels_var(words)),
        _ => None,
    }
}

/// Each variable by name and value.
fn display_texts(alloc: Global, words: SpaceWords) -> Result<Vec<String>, OutOfMemory>
    ensures { IfOk result (λ texts. map string_bytes texts.items ≡ inquiry.display_texts words) }
{
    let mut texts = Vec::new(alloc);
    texts.push(String::from_str(alloc, debug_var(words).as_str())?)?;
    texts.push(String::from_str(alloc, num_procs_var(words).as_str())?)?;
    texts.push(String::from_str(alloc, max_active_levels_var(words).as_str())?)?;
    Ok(texts)
}

/// The control variables of the address space by name and value: debug-var, num-procs-var and max-active-levels-var.
pub fn get_display_control_vars<C: Callbacks, F: ToHost>(
    s: &mut Session<C, F>,
    alloc: Global,
) -> Result<Vec<String>, Rc>
    ensures answer { Written C.told C.asked s.old s.new
        (as_bytes (λ texts. map string_bytes texts.items) result)
        (inquiry.display s.old.layout) }
    ensures shown { OfState (C.told s.old.table.calls) s.old.layout (λ state.
        IsWritten (as_bytes (λ texts. map string_bytes texts.items) result)
        (Ok (display_of state))) }
    ensures same { StaysWhole C.told s.old s.new }
    ensures cause { HasCause (C.faults s.old.table.calls) (C.faults s.new.table.calls)
        (result ≡ Err Rc.CallbackError) }
{
    let words = space_words(s)?;
    match display_texts(alloc, words) {
        Ok(texts) => Ok(texts),
        Err(_) => Err(Rc::NoMem),
    }
}
