//! Control variables, as numbers and as texts, and the tool's word.

ghost use Rattle.std.specs.Prelude.{◌≡◌};
ghost use Rattle.omi_calls.specs.Kept.{TakesAll, GivesNumbers};
ghost use Rattle.omi_icv.specs.Icvs as icvs;
ghost use Rattle.omi_icv.specs.StateWords as words;
ghost use Rattle.omi_session.specs.Reads.{Answers};
ghost use Rattle.omi_c.specs.Answers.{number_of};
ghost use Rattle.omi_c.specs.Calls.{told_of, asked_of};
ghost use Rattle.omi_c.specs.ControlVars as shown;
ghost use Rattle.omi_c.specs.Replies.{asked_in};
ghost use Rattle.omi_c.specs.Scopes.{reads_of};
ghost use Rattle.omi_c.specs.Texts.{text_in};

use crate::answers::{Number, Object, Text};
use crate::calls::KnownCalls;
use crate::causes::{Cause, replied};
use crate::judged::Judged;
use crate::known::Known;
use crate::opening::{lowest_first, open};
use crate::scopes::{held_for, scope_numbered};
use omi_calls::ToHost;
use omi_icv::{display_text, icv_number_of, icv_text_of, space_words, tool_data_of};
use omi_session::{Rc, Session};
use omi_text::ShortText;

/// The value of a control variable of what a scope and an object name. Unsupported of another number than that of a scope.
fn number_in<'a, H: ToHost>(
    s: &mut Session<KnownCalls<'a>, H>,
    scope: u32,
    object: Object,
    icv: u32,
) -> Result<u64, Rc>
    ensures { Answers told_of asked_of s.old s.new result (reads_of s.old.layout object scope
        (λ held of. icvs.icv_from_scope s.old.layout held of icv)) }
{
    let Some(scope) = scope_numbered(scope) else {
        return Err(Rc::Unsupported);
    };
    let found = held_for(s, scope, object);
    icv_number_of(s, scope, found, icv)
}

/// The same as a text.
fn text_of<'a, H: ToHost>(
    s: &mut Session<KnownCalls<'a>, H>,
    scope: u32,
    object: Object,
    icv: u32,
) -> Result<ShortText, Rc>
    ensures { Answers told_of asked_of s.old s.new result (reads_of s.old.layout object scope
        (λ held of. icvs.icv_string_from_scope s.old.layout held of icv)) }
{
    let Some(scope) = scope_numbered(scope) else {
        return Err(Rc::Unsupported);
    };
    let found = held_for(s, scope, object);
    icv_text_of(s, scope, found, icv)
}

/// The word that a tool left with what a scope and an object name.
fn tool_word<'a, H: ToHost>(
    s: &mut Session<KnownCalls<'a>, H>,
    scope: u32,
    object: Object,
) -> Result<u64, Rc>
    ensures { Answers told_of asked_of s.old s.new result (reads_of s.old.layout object scope
        (words.tool_data s.old.layout)) }
{
    let Some(scope) = scope_numbered(scope) else {
        return Err(Rc::Unsupported);
    };
    let found = held_for(s, scope, object);
    tool_data_of(s, scope, found)
}

/// A control variable of the address space by name and value, by its place from 0 on. BadInput behind the last.
fn shown_at<'a, H: ToHost>(s: &mut Session<KnownCalls<'a>, H>, place: u32) -> Result<ShortText, Rc>
    ensures { Answers told_of asked_of s.old s.new result (shown.control_var s.old.layout place) }
{
    let words = space_words(s)?;
    display_text(words, place as usize).ok_or(Rc::BadInput)
}

/// The value of a control variable, by its number, of what a scope and an object name. By a conversion of a word's bytes.
fn icv_number<H: ToHost>(
    table: &Judged,
    known: &[Known],
    scope: u32,
    object: Object,
    icv: u32,
    to_host: H,
) -> Result<u64, Cause>
    requires takes { TakesAll (H.takes to_host) }
    requires gives { GivesNumbers (H.gives to_host) 0 }
    ensures { result ≡ asked_in table.now known.now
        (λ w. reads_of w object scope (λ held of. icvs.icv_from_scope w held of icv)) }
{
    let mut s = open(table, known, to_host)?;
    let number = number_in(&mut s, scope, object, icv);
    replied(s, number)
}

/// The value of a control variable, by its number, of what a scope and an object name.
#[unsafe(no_mangle)]
pub extern "C" fn omi_icv_number(
    table: &Judged,
    known: &[Known],
    scope: u32,
    object: Object,
    icv: u32,
) -> Number
    ensures { result ≡ number_of (asked_in table.now known.now
        (λ w. reads_of w object scope (λ held of. icvs.icv_from_scope w held of icv))) }
{
    Number::of(icv_number(table, known, scope, object, icv, lowest_first))
}

/// The value of a control variable as a text. By a conversion of a word's bytes.
fn icv_text<H: ToHost>(
    table: &Judged,
    known: &[Known],
    scope: u32,
    object: Object,
    icv: u32,
    to_host: H,
) -> Result<ShortText, Cause>
    requires takes { TakesAll (H.takes to_host) }
    requires gives { GivesNumbers (H.gives to_host) 0 }
    ensures { result ≡ asked_in table.now known.now
        (λ w. reads_of w object scope (λ held of. icvs.icv_string_from_scope w held of icv)) }
{
    let mut s = open(table, known, to_host)?;
    let text = text_of(&mut s, scope, object, icv);
    replied(s, text)
}

/// The value of a control variable as a text.
#[unsafe(no_mangle)]
pub extern "C" fn omi_icv_text(
    table: &Judged,
    known: &[Known],
    scope: u32,
    object: Object,
    icv: u32,
    to: &mut [u8],
) -> Text
    ensures { (result, to.new) ≡ text_in to.old (asked_in table.now known.now
        (λ w. reads_of w object scope (λ held of. icvs.icv_string_from_scope w held of icv))) }
{
    Text::of(icv_text(table, known, scope, object, icv, lowest_first), to)
}

/// The word that a tool left with a task. Unsupported of all else. By a conversion of a word's bytes.
fn tool_data<H: ToHost>(
    table: &Judged,
    known: &[Known],
    scope: u32,
    object: Object,
    to_host: H,
) -> Result<u64, Cause>
    requires takes { TakesAll (H.takes to_host) }
    requires gives { GivesNumbers (H.gives to_host) 0 }
    ensures { result ≡ asked_in table.now known.now
        (λ w. reads_of w object scope (words.tool_data w)) }
{
    let mut s = open(table, known, to_host)?;
    let word = tool_word(&mut s, scope, object);
    replied(s, word)
}

/// The word that a tool left with a task. Unsupported of all else.
#[unsafe(no_mangle)]
pub extern "C" fn omi_tool_data(
    table: &Judged,
    known: &[Known],
    scope: u32,
    object: Object,
) -> Number
    ensures { result ≡ number_of (asked_in table.now known.now
        (λ w. reads_of w object scope (words.tool_data w))) }
{
    Number::of(tool_data(table, known, scope, object, lowest_first))
}

/// A control variable of the address space by name and value, by its place from 0 on. By a conversion of a word's bytes.
fn control_var<H: ToHost>(
    table: &Judged,
    known: &[Known],
    place: u32,
    to_host: H,
) -> Result<ShortText, Cause>
    requires takes { TakesAll (H.takes to_host) }
    requires gives { GivesNumbers (H.gives to_host) 0 }
    ensures { result ≡ asked_in table.now known.now (λ w. shown.control_var w place) }
{
    let mut s = open(table, known, to_host)?;
    let text = shown_at(&mut s, place);
    replied(s, text)
}

/// A control variable of the address space by name and value, by its place from 0 on. BadInput behind the last.
#[unsafe(no_mangle)]
pub extern "C" fn omi_control_var(
    table: &Judged,
    known: &[Known],
    place: u32,
    to: &mut [u8],
) -> Text
    ensures { (result, to.new) ≡ text_in to.old
        (asked_in table.now known.now (λ w. shown.control_var w place)) }
{
    Text::of(control_var(table, known, place, lowest_first), to)
}
