//! Program counters of explicit tasks.

use crate::{Place, Wait};
use omi_model::Tid;

/// A counter of a `task` construct. `place` is the own slot into which the task goes, none for one that starts at once.
#[derive(Clone, Copy)]
pub enum TaskCounter {
    /// The look for an own slot that is empty.
    LoadSlot {
        place: u8,
    },
    /// The load of a word of the data environment.
    LoadVariable {
        place: Option<u8>,
        word: u8,
    },
    /// The load of the current task's own group, where it has none open.
    LoadGroup {
        place: Option<u8>,
    },
    /// The search for a record.
    LoadLife {
        place: Option<u8>,
        slot: u16,
    },
    /// The store of the odd life word.
    Take {
        place: Option<u8>,
        task: Tid,
    },
    Fill {
        place: Option<u8>,
        task: Tid,
        word: u8,
    },
    AddPending {
        place: Option<u8>,
        task: Tid,
    },
    AddChildren {
        place: Option<u8>,
        task: Tid,
    },
    AddReferences {
        place: Option<u8>,
        task: Tid,
    },
    /// The addition to the count of the new task's group.
    AddCount {
        place: Option<u8>,
        task: Tid,
    },
    Defer {
        place: u8,
        task: Tid,
    },
    StartNow {
        task: Tid,
    },
}

/// A counter of a wait: the look at all slots of the team, the start of a task that was found, and the ends of
/// `taskwait`, `taskyield` and `taskgroup`. `look` is the number of the slot, four for each member.
#[derive(Clone, Copy)]
pub enum LookCounter {
    /// The store of the state of a thread that waits.
    State {
        wait: Wait,
    },
    /// The load of a member's task from the region's team.
    LoadRow {
        wait: Wait,
        look: u16,
    },
    LoadSlot {
        wait: Wait,
        look: u16,
        row: Place,
    },
    /// The load of the generating task of the task that a slot named.
    LoadGenerating {
        wait: Wait,
        look: u16,
        row: Place,
        code: u64,
    },
    /// The load of the group of the task that a slot named, at the end of a taskgroup region.
    LoadGroup {
        look: u16,
        row: Place,
        code: u64,
    },
    /// The exchange that takes the task from its slot.
    Take {
        wait: Wait,
        look: u16,
        row: Place,
        code: u64,
    },
    LoadFunction {
        wait: Wait,
        look: u16,
        code: u64,
        task: Tid,
    },
    LoadFinal {
        wait: Wait,
        look: u16,
        code: u64,
        task: Tid,
        function: u8,
    },
    Fill {
        wait: Wait,
        look: u16,
        code: u64,
        task: Tid,
        function: u8,
        is_final: bool,
        word: u8,
    },
    Start {
        wait: Wait,
        look: u16,
        code: u64,
        task: Tid,
        function: u8,
        is_final: bool,
    },
    LoadChildren,
    /// The load of the count of the innermost open group.
    LoadCount,
    /// The store of the number of open groups, one less.
    GroupEnd,
    Yield {
        look: u16,
    },
}

/// An explicit task whose record may be given back next, and the word that names its generating task.
#[derive(Clone, Copy)]
pub struct Ancestor {
    pub task: Tid,
    pub generating: u64,
}

/// A counter of the end of an explicit task, after which its thread goes back to a wait, or behind the construct of a
/// task that started at once.
#[derive(Clone, Copy)]
pub enum FinishCounter {
    Finish,
    LoadGenerating {
        wait: Option<Wait>,
        task: Tid,
    },
    SubtractChildren {
        wait: Option<Wait>,
        task: Tid,
        generating: Place,
    },
    /// The load of the finished task's group.
    LoadGroup {
        wait: Option<Wait>,
        task: Tid,
        generating: Place,
    },
    /// The subtraction from the count of its group, for which this word stands.
    SubtractCount {
        wait: Option<Wait>,
        task: Tid,
        generating: Place,
        group: u64,
    },
    SubtractReferences {
        wait: Option<Wait>,
        task: Tid,
        generating: Place,
    },
    /// The record of a task is given back.
    Free {
        wait: Option<Wait>,
        task: Tid,
        generating: Place,
    },
    /// The loads of the generating task's record, before its references are lowered.
    LoadImplicit {
        wait: Option<Wait>,
        generating: Place,
    },
    LoadNext {
        wait: Option<Wait>,
        generating: Place,
    },
    LoadLife {
        wait: Option<Wait>,
        generating: Place,
        next: u64,
    },
    /// The generating task's references are lowered. `explicit` is none where it is an implicit task.
    SubtractGenerating {
        wait: Option<Wait>,
        generating: Place,
        explicit: Option<Ancestor>,
    },
    SubtractPending {
        wait: Option<Wait>,
    },
}
