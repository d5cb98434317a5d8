//! The lines of events.

ghost use Rattle.std.specs.Prelude.{◌≡◌, ◌++◌, OnOk, string_bytes};
ghost use Rattle.omi_commands.specs.EventLines.{event_lines};

use omi_model::Team;
use omi_run_lists::EventList;
use omi_text::push_compact_line;
use std::alloc::AllocError;

/// Adds the line of each event. Where memory runs out, the text may hold those of the first ones.
pub fn push_event_lines(text: &mut String, events: &EventList) -> Result<(), AllocError>
    ensures { OnOk result
        (string_bytes text.new ≡ string_bytes text.old ++ event_lines events.now.items) }
{
    let alloc = *text.allocator();
    let mut room = String::new(alloc);
    let mut team = Team::new();
    for at in 0..events.len() {
        let (step, thread, event) = events.get_compact(at, &mut team);
        push_compact_line(text, &mut room, step, thread, event, &team)?;
    }
    Ok(())
}
