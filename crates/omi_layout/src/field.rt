//! The kinds of records and their fields, by name.

ghost use Rattle.std.specs.Prelude.{◌≡◌, ◌≤◌};
ghost use Rattle.omi_layout.specs.Field.{kind_of, IsField};
ghost use Rattle.omi_layout.specs.Named.{number, kind_number, field_text};
ghost use Rattle.omi_layout.specs.declared.limits.TheConstants.{FIELDS};

/// A kind of record, and the arena in which the records of this kind lie.
#[derive(Clone, Copy)]
pub enum Kind {
    Runtime = 1,
    Threads = 2,
    Regions = 3,
    Tasks = 4,
}

/// The numbers of the kinds.
pub const RUNTIME: u8 = Kind::Runtime as u8;

pub const THREADS: u8 = Kind::Threads as u8;

pub const REGIONS: u8 = Kind::Regions as u8;

pub const TASKS: u8 = Kind::Tasks as u8;

impl Kind {
    /// The number of the arena, by which `LayoutFault::BadArena` names it.
    pub fn number(self) -> u8
        ensures { result ≡ kind_number self }
    {
        self as u8
    }
}

/// A field of a record. Its place in this list, from 1 on, is its number in the layout table.
#[derive(Clone, Copy)]
pub enum Field {
    RuntimeVersion = 1,
    RuntimeThreads = 2,
    RuntimeProcs = 3,
    RuntimeDebug = 4,
    RuntimeMaxActive = 5,
    RuntimeLocks = 6,
    ThreadLife = 7,
    ThreadNative = 8,
    ThreadCurrent = 9,
    ThreadState = 10,
    ThreadClaim = 11,
    ThreadAssign = 12,
    RegionLife = 13,
    RegionFunction = 14,
    RegionEnclosing = 15,
    RegionEncountering = 16,
    RegionSize = 17,
    RegionLevels = 18,
    RegionActive = 19,
    RegionReleased = 20,
    RegionArrived = 21,
    RegionPending = 22,
    RegionLeft = 23,
    RegionTeam = 24,
    TaskLife = 25,
    TaskImplicit = 26,
    TaskRegion = 27,
    TaskThread = 28,
    TaskNumber = 29,
    TaskGenerating = 30,
    TaskScheduling = 31,
    TaskFunction = 32,
    TaskExit = 33,
    TaskEnter = 34,
    TaskDynamic = 35,
    TaskNthreadsLength = 36,
    TaskSchedule = 37,
    TaskDevice = 38,
    TaskFinal = 39,
    TaskTool = 40,
    TaskChildren = 41,
    TaskReferences = 42,
    TaskNthreads = 43,
    TaskSlots = 44,
}

impl Field {
    /// The number of the field, by which the layout table and every fault name it.
    pub fn number(self) -> u8
        ensures value { result ≡ number self }
        ensures field { IsField result }
    {
        self as u8
    }

    /// The kind of record that has the field.
    pub fn kind(self) -> Kind
        ensures { kind_number result ≡ kind_of (number self) }
    {
        let number = self.number();
        if number < Field::ThreadLife as u8 {
            Kind::Runtime
        } else if number < Field::RegionLife as u8 {
            Kind::Threads
        } else if number < Field::TaskLife as u8 {
            Kind::Regions
        } else {
            Kind::Tasks
        }
    }
}

/// The text by which a fault names a field, and `layout` for 0, which stands for the layout table.
pub fn field_name(field: u8) -> &'static str
    requires { field ≤ FIELDS }
    ensures { result.now ≡ field_text field }
{
    match field {
        0 => "layout",
        1 => "rt.version",
        2 => "rt.threads",
        3 => "rt.procs",
        4 => "rt.debug",
        5 => "rt.maxact",
        6 => "rt.locks",
        7 => "thread.life",
        8 => "thread.native",
        9 => "thread.cur",
        10 => "thread.state",
        11 => "thread.claim",
        12 => "thread.assign",
        13 => "region.life",
        14 => "region.func",
        15 => "region.enclosing",
        16 => "region.encounter",
        17 => "region.size",
        18 => "region.levels",
        19 => "region.active",
        20 => "region.released",
        21 => "region.arrived",
        22 => "region.pending",
        23 => "region.left",
        24 => "region.team",
        25 => "task.life",
        26 => "task.implicit",
        27 => "task.region",
        28 => "task.thread",
        29 => "task.number",
        30 => "task.generating",
        31 => "task.scheduling",
        32 => "task.func",
        33 => "task.exit",
        34 => "task.enter",
        35 => "task.dyn",
        36 => "task.nthn",
        37 => "task.sched",
        38 => "task.device",
        39 => "task.final",
        40 => "task.tool",
        41 => "task.children",
        42 => "task.refs",
        43 => "task.nth",
        _ => "task.slots",
    }
}
