//! The lines of events.

ghost use Rattle.std.specs.Prelude.{◌≡◌, ◌++◌, ◌∷◌, [], IfOk, OnOk, codes, map, string_bytes};
ghost use Rattle.std.specs.Fmt.{decimal};
ghost use Rattle.std.specs.List.{flat_map};
ghost use Rattle.omi_text.specs.Events.{event_line, event_words, is_settable, joined_word, member_word, value_text, variable_text};
ghost use Rattle.omi_text.specs.Ids.{region_id, task_id};
ghost use Rattle.omi_text.specs.Lines.{line};

use crate::OutOfMemory;
use crate::ids::{push_region, push_task};
use crate::names::push_state;
use crate::numbers::push_decimal;
use crate::tasks::push_schedule;
use omi_model::{Event, Rid, Team, Tid};
use omi_numbers::{
    DEFAULT_DEVICE_VAR, DYN_VAR, MAX_ACTIVE_LEVELS_VAR, NTHREADS_VAR, RUN_SCHED_VAR, variable_name,
};
use std::alloc::Global;

/// Whether an event may set a variable.
fn is_settable(icv: u32) -> bool
    ensures { result ≡ is_settable icv }
{
    matches!(
        icv,
        DYN_VAR | NTHREADS_VAR | RUN_SCHED_VAR | DEFAULT_DEVICE_VAR | MAX_ACTIVE_LEVELS_VAR
    )
}

/// Adds a variable that an event may set by its name, and any other by its number.
#[tactic(auto, unfolding(crate::specs::Events::variable_text))]
fn push_variable(text: &mut String, icv: u32) -> Result<(), OutOfMemory>
    ensures { OnOk result (string_bytes text.new ≡ string_bytes text.old ++ variable_text icv) }
{
    match variable_name(icv) {
        Some(name) if is_settable(icv) => text.push_str(name),
        _ => push_decimal(text, u64::from(icv)),
    }
}

/// Adds the word of a variable.
#[tactic(auto, unfolding(crate::specs::Events::value_text))]
fn push_value(text: &mut String, icv: u32, value: u64) -> Result<(), OutOfMemory>
    ensures { OnOk result (string_bytes text.new ≡ string_bytes text.old ++ value_text icv value) }
{
    if icv == RUN_SCHED_VAR {
        push_schedule(text, value)
    } else {
        push_decimal(text, value)
    }
}

/// Adds the words of `set`, and ends the line.
pub fn push_set(text: &mut String, icv: u32, value: u64) -> Result<(), OutOfMemory>
    ensures { OnOk result (string_bytes text.new
        ≡ string_bytes text.old ++ line (event_words (Event.Set icv value))) }
{
    text.push_str("set ")?;
    push_variable(text, icv)?;
    text.push_str(" ")?;
    push_value(text, icv, value)?;
    text.push_str("\n")
}

/// Adds a word and a number, and ends the line.
pub fn push_of_number(text: &mut String, word: &str, number: u64) -> Result<(), OutOfMemory>
    ensures { OnOk result (string_bytes text.new
        ≡ string_bytes text.old ++ line (word.now ∷ decimal number ∷ [])) }
{
    text.push_str(word)?;
    text.push_str(" ")?;
    push_decimal(text, number)?;
    text.push_str("\n")
}

/// Adds a word and the name of a task, and ends the line.
pub fn push_of_task(text: &mut String, word: &str, task: Tid) -> Result<(), OutOfMemory>
    ensures { OnOk result (string_bytes text.new
        ≡ string_bytes text.old ++ line (word.now ∷ task_id task ∷ [])) }
{
    text.push_str(word)?;
    text.push_str(" ")?;
    push_task(text, task)?;
    text.push_str("\n")
}

/// Adds a word and the name of a region, and ends the line.
pub fn push_of_region(text: &mut String, word: &str, region: Rid) -> Result<(), OutOfMemory>
    ensures { OnOk result (string_bytes text.new
        ≡ string_bytes text.old ++ line (word.now ∷ region_id region ∷ [])) }
{
    text.push_str(word)?;
    text.push_str(" ")?;
    push_region(text, region)?;
    text.push_str("\n")
}

/// Adds a member behind a space.
#[tactic(auto, unfolding(crate::specs::Events::member_word))]
fn push_member(text: &mut String, task: Tid, thread: u8) -> Result<(), OutOfMemory>
    ensures { OnOk result (string_bytes text.new
        ≡ string_bytes text.old ++ (32 ∷ member_word (task, thread))) }
{
    text.push_str(" ")?;
    push_task(text, task)?;
    text.push_str("@")?;
    push_decimal(text, u64::from(thread))
}

/// Adds each member behind a space.
fn push_team(text: &mut String, team: &Team) -> Result<(), OutOfMemory>
    ensures { OnOk result (string_bytes text.new
        ≡ string_bytes text.old ++ flat_map (λ m. 32 ∷ member_word m) team.now) }
{
    for at in 0..team.len() {
        let (task, thread) = team.get(at);
        push_member(text, task, thread)?;
    }
    Ok(())
}

/// Adds each member behind a space, and ends the line.
fn push_members(text: &mut String, team: &Team) -> Result<(), OutOfMemory>
    ensures { OnOk result (string_bytes text.new
        ≡ string_bytes text.old ++ (flat_map (λ m. 32 ∷ member_word m) team.now ++ 10 ∷ [])) }
{
    push_team(text, team)?;
    text.push_str("\n")
}

/// Adds the word `team` and the members, and ends the line.
fn push_team_line(text: &mut String, team: &Team) -> Result<(), OutOfMemory>
    ensures { OnOk result (string_bytes text.new
        ≡ string_bytes text.old ++ line (codes "team" ∷ map member_word team.now)) }
{
    text.push_str("team")?;
    push_members(text, team)
}

/// Adds the words of `fork`, and ends the line.
pub fn push_fork(text: &mut String, region: Rid, team: &Team) -> Result<(), OutOfMemory>
    ensures { OnOk result (string_bytes text.new
        ≡ string_bytes text.old ++ line (event_words (Event.Fork region team.now))) }
{
    text.push_str("fork ")?;
    push_region(text, region)?;
    text.push_str(" size ")?;
    push_decimal(text, team.len() as u64)?;
    text.push_str(" ")?;
    push_team_line(text, team)
}

/// Adds the words of an ask, and ends the line.
pub fn push_ask(text: &mut String, thread: u8, got: bool) -> Result<(), OutOfMemory>
    ensures { OnOk result (string_bytes text.new
        ≡ string_bytes text.old ++ line (event_words (Event.Ask thread got))) }
{
    text.push_str("ask ")?;
    push_decimal(text, u64::from(thread))?;
    if got {
        text.push_str(" got\n")
    } else {
        text.push_str(" busy\n")
    }
}

/// Adds the words of a state, and ends the line.
pub fn push_shown(text: &mut String, state: u32, wait: u64) -> Result<(), OutOfMemory>
    ensures { OnOk result (string_bytes text.new
        ≡ string_bytes text.old ++ line (event_words (Event.State state wait))) }
{
    text.push_str("state ")?;
    push_state(text, state)?;
    text.push_str(" ")?;
    push_decimal(text, wait)?;
    text.push_str("\n")
}

/// Adds the words of an event, and ends the line.
fn push_event(text: &mut String, event: &Event) -> Result<(), OutOfMemory>
    ensures { OnOk result (string_bytes text.new
        ≡ string_bytes text.old ++ line (event_words event.now)) }
{
    match event {
        Event::Begin => text.push_str("begin\n"),
        Event::Offer => text.push_str("offer\n"),
        Event::Want { n } => push_of_number(text, "want", u64::from(*n)),
        Event::Ask { w, got } => push_ask(text, *w, *got),
        Event::Fork { region, team } => push_fork(text, *region, team),
        Event::ImplicitBegin { task } => push_of_task(text, "implicit_begin", *task),
        Event::State { state, wait } => push_shown(text, *state, *wait),
        Event::Enter => text.push_str("enter\n"),
        Event::Leave => text.push_str("leave\n"),
        Event::Arrive => text.push_str("arrive\n"),
        Event::Release => text.push_str("release\n"),
        Event::Pass => text.push_str("pass\n"),
        Event::ImplicitEnd { task } => push_of_task(text, "implicit_end", *task),
        Event::Join { region } => push_of_region(text, "join", *region),
        Event::FreeTask { task } => push_of_task(text, "free", *task),
        Event::FreeRegion { region } => push_of_region(text, "free", *region),
        Event::Seen { j } => push_of_number(text, "seen", u64::from(*j)),
        Event::Defer { task } => push_of_task(text, "defer", *task),
        Event::StartNow { task } => push_of_task(text, "start_now", *task),
        Event::Start { task } => push_of_task(text, "start", *task),
        Event::Finish { task } => push_of_task(text, "finish", *task),
        Event::WaitDone => text.push_str("wait_done\n"),
        Event::GroupBegin => text.push_str("group_begin\n"),
        Event::GroupEnd => text.push_str("group_end\n"),
        Event::Yield => text.push_str("yield\n"),
        Event::Set { icv, value } => push_set(text, *icv, *value),
        Event::SetTool { x } => push_of_number(text, "tool", *x),
        Event::Lock { k } => push_of_number(text, "lock", u64::from(*k)),
        Event::Unlock { k } => push_of_number(text, "unlock", u64::from(*k)),
        Event::Work => text.push_str("work\n"),
        Event::Call { f } => push_of_number(text, "call", u64::from(*f)),
        Event::Skip => text.push_str("skip\n"),
        Event::Ret => text.push_str("ret\n"),
        Event::Done => text.push_str("done\n"),
    }
}

/// Adds what stands in front of an event: the number of its step, and its thread.
pub fn push_front(text: &mut String, step: u64, thread: u8) -> Result<(), OutOfMemory>
    ensures { OnOk result (string_bytes text.new
        ≡ string_bytes text.old ++ (decimal step ++ 32 ∷ 116 ∷ decimal thread ++ 32 ∷ [])) }
{
    push_decimal(text, step)?;
    text.push_str(" t")?;
    push_decimal(text, u64::from(thread))?;
    text.push_str(" ")
}

/// The line of an event: the number of its step, its thread and the event, ended by a line feed.
pub fn event_text(
    alloc: Global,
    step: u64,
    thread: u8,
    event: &Event,
) -> Result<Vec<u8>, OutOfMemory>
    ensures { IfOk result (λ text. text.items ≡ event_line step thread event.now) }
{
    let mut text = String::new(alloc);
    push_front(&mut text, step, thread)?;
    push_event(&mut text, event)?;
    Ok(text.into_bytes())
}
