//! The lines of events without the members of their teams.

ghost use Rattle.std.specs.Prelude.{◌≡◌, ◌++◌, OnErr, OnOk, string_bytes};
ghost use Rattle.omi_run_lists.specs.Compact.{with_team};
ghost use Rattle.omi_text.specs.Events.{event_line, event_words};
ghost use Rattle.omi_text.specs.Lines.{line};

use crate::OutOfMemory;
use crate::events::{
    push_ask, push_fork, push_front, push_of_number, push_of_region, push_of_task, push_set,
    push_shown,
};
use omi_model::Team;
use omi_run_lists::CompactEvent;

/// Adds the words of an event with its team, and ends the line.
fn push_compact(text: &mut String, event: CompactEvent, team: &Team) -> Result<(), OutOfMemory>
    ensures { OnOk result (string_bytes text.new
        ≡ string_bytes text.old ++ line (event_words (with_team team.now event))) }
{
    match event {
        CompactEvent::Begin => text.push_str("begin\n"),
        CompactEvent::Offer => text.push_str("offer\n"),
        CompactEvent::Want { n } => push_of_number(text, "want", u64::from(n)),
        CompactEvent::Ask { w, got } => push_ask(text, w, got),
        CompactEvent::Fork { region } => push_fork(text, region, team),
        CompactEvent::ImplicitBegin { task } => push_of_task(text, "implicit_begin", task),
        CompactEvent::State { state, wait } => push_shown(text, state, wait),
        CompactEvent::Enter => text.push_str("enter\n"),
        CompactEvent::Leave => text.push_str("leave\n"),
        CompactEvent::Arrive => text.push_str("arrive\n"),
        CompactEvent::Release => text.push_str("release\n"),
        CompactEvent::Pass => text.push_str("pass\n"),
        CompactEvent::ImplicitEnd { task } => push_of_task(text, "implicit_end", task),
        CompactEvent::Join { region } => push_of_region(text, "join", region),
        CompactEvent::FreeTask { task } => push_of_task(text, "free", task),
        CompactEvent::FreeRegion { region } => push_of_region(text, "free", region),
        CompactEvent::Seen { j } => push_of_number(text, "seen", u64::from(j)),
        CompactEvent::Defer { task } => push_of_task(text, "defer", task),
        CompactEvent::StartNow { task } => push_of_task(text, "start_now", task),
        CompactEvent::Start { task } => push_of_task(text, "start", task),
        CompactEvent::Finish { task } => push_of_task(text, "finish", task),
        CompactEvent::WaitDone => text.push_str("wait_done\n"),
        CompactEvent::GroupBegin => text.push_str("group_begin\n"),
        CompactEvent::GroupEnd => text.push_str("group_end\n"),
        CompactEvent::Yield => text.push_str("yield\n"),
        CompactEvent::Set { icv, value } => push_set(text, icv, value),
        CompactEvent::SetTool { x } => push_of_number(text, "tool", x),
        CompactEvent::Lock { k } => push_of_number(text, "lock", u64::from(k)),
        CompactEvent::Unlock { k } => push_of_number(text, "unlock", u64::from(k)),
        CompactEvent::Work => text.push_str("work\n"),
        CompactEvent::Call { f } => push_of_number(text, "call", u64::from(f)),
        CompactEvent::Skip => text.push_str("skip\n"),
        CompactEvent::Ret => text.push_str("ret\n"),
        CompactEvent::Done => text.push_str("done\n"),
    }
}

/// Adds the line of an event with its team: the number of its step, its thread and the event, ended by a line feed. It is made in `room`, whose text is
/// lost. Where memory runs out, nothing is added.
pub fn push_compact_line(
    text: &mut String,
    room: &mut String,
    step: u64,
    thread: u8,
    event: CompactEvent,
    team: &Team,
) -> Result<(), OutOfMemory>
    ensures line { OnOk result (string_bytes text.new
        ≡ string_bytes text.old ++ event_line step thread (with_team team.now event)) }
    ensures kept { OnErr result (string_bytes text.new ≡ string_bytes text.old) }
{
    room.clear();
    push_front(room, step, thread)?;
    push_compact(room, event, team)?;
    text.push_str(room)
}
