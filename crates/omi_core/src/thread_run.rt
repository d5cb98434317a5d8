//! What one thread of a run made, where each thread keeps its own part.

use omi_list::List;
use omi_pc::Actor;
use omi_run_lists::{EventList, MadeList};

/// Why a thread made no further step.
#[derive(Clone, Copy, Debug, PartialEq, Eq)]
pub enum Until {
    /// It made as many steps as it was to make.
    Budget,
    /// It learned that an event at which the run was to stop was committed, by itself or by another thread.
    Stopped,
    /// It committed `done`.
    Ended,
}

/// What one thread of a run made: its own steps and events in their order, numbered from 1 by its own steps, and its actor behind them.
pub struct ThreadRun {
    /// The number of its steps.
    pub steps: u64,
    pub until: Until,
    pub made: MadeList,
    pub events: EventList,
    pub actor: Actor,
}

// Written out: docs/DECISIONS.md, "A drop written out".
impl Drop for ThreadRun {
    fn drop(self) {
        let ThreadRun {
            steps: _steps,
            until: _until,
            made: _made,
            events: _events,
            actor: _actor,
        } = self;
    }
}

/// One for each thread, in order.
pub type RunList = List<ThreadRun>;
