//! Program counters of workers, teams, barriers and joins.

use crate::{Barrier, Place};
use omi_model::{Rid, Tid};

/// A counter of a worker that has no task, meets one, or ends one.
#[derive(Clone, Copy)]
pub enum WorkerCounter {
    Begin,
    Offer,
    /// The load of the assign word.
    LoadAssign,
    /// The store that clears the assign word.
    ClearAssign {
        task: Place,
    },
    /// The loads of the record that the assign word named.
    LoadLife {
        task: Place,
    },
    LoadFunction {
        task: Tid,
    },
    LoadRegion {
        task: Tid,
        function: u8,
    },
    LoadRegionLife {
        task: Tid,
        function: u8,
        region: Place,
    },
    LoadSize {
        task: Tid,
        function: u8,
        region: Rid,
    },
    LoadNumber {
        task: Tid,
        function: u8,
        region: Rid,
        size: u64,
    },
    ImplicitBegin {
        task: Tid,
        function: u8,
        region: Rid,
        size: u64,
        number: u64,
    },
    ImplicitEnd,
    /// The addition to the members that left.
    AddLeft {
        region: Rid,
    },
    /// The store of the idle state.
    IdleState,
}

/// A counter of a `parallel` construct.
#[derive(Clone, Copy)]
pub enum TeamCounter {
    /// The store of the overhead state.
    OverheadState,
    LoadLevels,
    LoadActive,
    /// The load of a word of the data environment.
    LoadVariable {
        word: u8,
    },
    Want,
    Ask,
    /// The search for a record of a region.
    LoadRegionLife {
        slot: u16,
    },
    /// The store of the odd life word.
    TakeRegion {
        region: Rid,
    },
    FillRegion {
        region: Rid,
        word: u8,
    },
    /// The search for a record of a member's task.
    LoadTaskLife {
        region: Rid,
        member: u8,
        slot: u16,
    },
    TakeTask {
        region: Rid,
        member: u8,
        task: Tid,
    },
    FillTask {
        region: Rid,
        member: u8,
        task: Tid,
        word: u8,
    },
    /// The store of a member's task into the team of the region.
    StoreMember {
        region: Rid,
        member: u8,
        task: Tid,
    },
    Fork {
        region: Rid,
    },
    /// The store of a member's task into the assign word of its thread.
    Assign {
        member: u8,
    },
}

/// A counter of a barrier, but for the look at the slots.
#[derive(Clone, Copy)]
pub enum BarrierCounter {
    /// The store of the state of a thread that waits.
    State { barrier: Barrier },
    Arrive { barrier: Barrier },
    LoadArrived { barrier: Barrier },
    LoadPending { barrier: Barrier },
    Release { barrier: Barrier },
    LoadReleased { barrier: Barrier },
}

/// A counter of the join of a team.
#[derive(Clone, Copy)]
pub enum JoinCounter {
    LoadLeft,
    Join,
    /// The load of a member's task from the team of the region that was joined.
    LoadMember {
        region: Rid,
        size: u64,
        member: u8,
    },
    LoadLife {
        region: Rid,
        size: u64,
        member: u8,
        task: Place,
    },
    /// The record of a member's task is given back.
    FreeTask {
        region: Rid,
        size: u64,
        member: u8,
        task: Tid,
    },
    /// The record of the region is given back.
    FreeRegion {
        region: Rid,
        size: u64,
    },
}
