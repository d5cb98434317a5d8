//! The value of a control variable, by the words of the record of what is asked about: as one number, and as all its numbers.

ghost use Rattle.std.specs.Prelude.{◌≡◌, ◌≢◌, ◌≤◌, Err, IfOk};
ghost use Rattle.std.specs.FinMap.{get};
ghost use Rattle.omi_script.specs.declared.limits.TheConstants.{MAX_SIZES};
ghost use Rattle.omi_outside.specs.Outside.{HasCause};
ghost use Rattle.omi_layout.specs.declared.limits.TheConstants.{LAST_END};
ghost use Rattle.omi_session.specs.Opened.{StaysWhole};
ghost use Rattle.omi_session.specs.Reads.{Answers};
ghost use Rattle.omi_session.specs.Inquiry.{team_size as read_team_size};
ghost use Rattle.omi_icv.specs.Values as inquiry;

use crate::numbers::Numbers;
use crate::variable::Source;
use omi_calls::{Callbacks, ToHost};
use omi_handle::Kind;
use omi_layout::Field;
use omi_script::limits::MAX_SIZES;
use omi_session::{Rc, Session, follow_some, team_size, word};

/// The number of elements of nthreads-var of the task whose record has this byte address. An Error where it isn't from 1 to `MAX_SIZES`.
fn list_length<C: Callbacks, F: ToHost>(s: &mut Session<C, F>, address: u64) -> Result<u64, Rc>
    requires { address ≤ LAST_END }
    ensures answer { Answers C.told C.asked s.old s.new result
        (inquiry.list_length s.old.layout address) }
    ensures few { IfOk result (λ count. count ≤ MAX_SIZES) }
    ensures memory { result ≢ Err Rc.NoMem }
    ensures same { StaysWhole C.told s.old s.new }
    ensures cause { HasCause (C.faults s.old.table.calls) (C.faults s.new.table.calls)
        (result ≡ Err Rc.CallbackError) }
{
    let count = word(s, address, Field::TaskNthreadsLength, 0)?;
    if 1 <= count && count <= MAX_SIZES as u64 {
        Ok(count)
    } else {
        Err(Rc::Error {
            addr: address,
            field: Field::TaskNthreadsLength.number(),
        })
    }
}

/// The only element of nthreads-var of a task. Incomplete, with the first one, where there are more.
fn only_element<C: Callbacks, F: ToHost>(s: &mut Session<C, F>, address: u64) -> Result<u64, Rc>
    requires { address ≤ LAST_END }
    ensures answer { Answers C.told C.asked s.old s.new result
        (inquiry.only_element s.old.layout address) }
    ensures memory { result ≢ Err Rc.NoMem }
    ensures same { StaysWhole C.told s.old s.new }
    ensures cause { HasCause (C.faults s.old.table.calls) (C.faults s.new.table.calls)
        (result ≡ Err Rc.CallbackError) }
{
    let count = list_length(s, address)?;
    let first = word(s, address, Field::TaskNthreads, 0)?;
    if count == 1 {
        Ok(first)
    } else {
        Err(Rc::Incomplete(first))
    }
}

/// The elements of nthreads-var of a task.
fn elements<C: Callbacks, F: ToHost>(s: &mut Session<C, F>, address: u64) -> Result<Numbers, Rc>
    requires { address ≤ LAST_END }
    ensures answer { Answers C.told C.asked s.old s.new result
        (inquiry.elements s.old.layout address) }
    ensures memory { result ≢ Err Rc.NoMem }
    ensures same { StaysWhole C.told s.old s.new }
    ensures cause { HasCause (C.faults s.old.table.calls) (C.faults s.new.table.calls)
        (result ≡ Err Rc.CallbackError) }
{
    let count = list_length(s, address)?;
    first_elements(s, address, count)
}

/// So many elements of nthreads-var of a task.
fn first_elements<C: Callbacks, F: ToHost>(
    s: &mut Session<C, F>,
    address: u64,
    count: u64,
) -> Result<Numbers, Rc>
    requires low { address ≤ LAST_END }
    requires few { count ≤ MAX_SIZES }
    ensures answer { Answers C.told C.asked s.old s.new result
        (inquiry.first_elements s.old.layout address count) }
    ensures memory { result ≢ Err Rc.NoMem }
    ensures same { StaysWhole C.told s.old s.new }
    ensures cause { HasCause (C.faults s.old.table.calls) (C.faults s.new.table.calls)
        (result ≡ Err Rc.CallbackError) }
{
    let mut numbers = Numbers::new();
    for at in 0..count {
        let element = word(s, address, Field::TaskNthreads, at)?;
        numbers.push(element);
    }
    Ok(numbers)
}

/// The number in its team of the current task of the thread whose record has this byte address. Unavailable where it has no task.
fn member_number<C: Callbacks, F: ToHost>(s: &mut Session<C, F>, address: u64) -> Result<u64, Rc>
    requires { address ≤ LAST_END }
    ensures answer { Answers C.told C.asked s.old s.new result
        (inquiry.member_number s.old.layout address) }
    ensures memory { result ≢ Err Rc.NoMem }
    ensures same { StaysWhole C.told s.old s.new }
    ensures cause { HasCause (C.faults s.old.table.calls) (C.faults s.new.table.calls)
        (result ≡ Err Rc.CallbackError) }
{
    let task = follow_some(s, Kind::Task, address, Field::ThreadCurrent)?;
    word(s, task.addr, Field::TaskNumber, 0)
}

/// The value of a variable that stands in this place of the record at a byte address, as one number.
pub fn number<C: Callbacks, F: ToHost>(
    s: &mut Session<C, F>,
    source: Source,
    address: u64,
) -> Result<u64, Rc>
    requires { address ≤ LAST_END }
    ensures answer { Answers C.told C.asked s.old s.new result
        (inquiry.number_in s.old.layout source address) }
    ensures memory { result ≢ Err Rc.NoMem }
    ensures same { StaysWhole C.told s.old s.new }
    ensures cause { HasCause (C.faults s.old.table.calls) (C.faults s.new.table.calls)
        (result ≡ Err Rc.CallbackError) }
{
    match source {
        Source::Word(field) => word(s, address, field, 0),
        Source::TeamSize => team_size(s, address),
        Source::Elements => only_element(s, address),
        Source::MemberNumber => member_number(s, address),
    }
}

/// The same as the only number of a list.
fn number_alone<C: Callbacks, F: ToHost>(
    s: &mut Session<C, F>,
    source: Source,
    address: u64,
) -> Result<Numbers, Rc>
    requires { address ≤ LAST_END }
    ensures answer { Answers C.told C.asked s.old s.new result
        (inquiry.alone (inquiry.number_in s.old.layout source address)) }
    ensures memory { result ≢ Err Rc.NoMem }
    ensures same { StaysWhole C.told s.old s.new }
    ensures cause { HasCause (C.faults s.old.table.calls) (C.faults s.new.table.calls)
        (result ≡ Err Rc.CallbackError) }
{
    let number = number(s, source, address)?;
    Ok(Numbers::one(number))
}

/// The same as all its numbers.
pub fn numbers<C: Callbacks, F: ToHost>(
    s: &mut Session<C, F>,
    source: Source,
    address: u64,
) -> Result<Numbers, Rc>
    requires { address ≤ LAST_END }
    ensures answer { Answers C.told C.asked s.old s.new result
        (inquiry.numbers_in s.old.layout source address) }
    ensures memory { result ≢ Err Rc.NoMem }
    ensures same { StaysWhole C.told s.old s.new }
    ensures cause { HasCause (C.faults s.old.table.calls) (C.faults s.new.table.calls)
        (result ≡ Err Rc.CallbackError) }
{
    match source {
        Source::Elements => elements(s, address),
        _ => number_alone(s, source, address),
    }
}
