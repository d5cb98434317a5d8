//! A recorder that keeps the lines of the events of a run.

ghost use Rattle.std.specs.Prelude.{◌≡◌, [], string_bytes};

use omi_core::Recorder;
use omi_model::Team;
use omi_run_lists::CompactEvent;
use omi_text::push_compact_line;
use std::alloc::{AllocError, Global};

/// The lines of the events that were recorded, and their number.
#[derive(Drop)]
pub struct Lines {
    pub text: String,
    pub count: u64,
    /// where each line is made
    room: String,
}

impl Lines {
    /// No line.
    pub fn new(alloc: Global) -> Lines
        ensures text { string_bytes result.text ≡ [] }
        ensures count { result.count ≡ 0 }
    {
        Lines {
            text: String::new(alloc),
            count: 0,
            room: String::new(alloc),
        }
    }
}

impl Recorder for Lines {
    ghost use Rattle.omi_commands.specs.EventLines.{AreLinesOf};

    ghost tells = { λ lines items. AreLinesOf (string_bytes lines.text) lines.count items };

    fn record_event(
        &mut self,
        step: u64,
        thread: u8,
        event: CompactEvent,
        team: &Team,
    ) -> Result<(), AllocError> {
        let Some(count) = self.count.checked_add(1) else {
            return Err(AllocError);
        };
        push_compact_line(&mut self.text, &mut self.room, step, thread, event, team)?;
        self.count = count;
        Ok(())
    }
}
