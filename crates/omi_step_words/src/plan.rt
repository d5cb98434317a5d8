//! What a record in the making is filled with, word by word.

ghost use Rattle.std.specs.Prelude.{◌≡◌, ◌<◌};
ghost use Rattle.omi_layout.specs.Field.{IsField, kind_of, regions, tasks};
ghost use Rattle.omi_layout.specs.Named.{number};
ghost use Rattle.omi_layout.specs.Table.{thread_count, width};
ghost use Rattle.omi_pc.specs.declared.limits.TheConstants.{VARIABLE_WORDS, REGION_WORDS, TASK_WORDS};
ghost use Rattle.omi_rep.specs.Records.{task_word};
ghost use Rattle.omi_step_words.specs.Placed.{HasGroupWords, HasOptionalTask, HasRegion, HasTask};
ghost use Rattle.omi_step_words.specs.Plan.{IsPlannedIn, filled, inherited_words, region_plan, task_plan, variable_at};

use omi_layout::{Field, GROUP_PLACE, Layout};
use omi_model::{Rid, Tid};
use omi_numbers::entry_address;
use omi_pc::limits::VARIABLE_WORDS;

/// A word that is stored into a record: the field, the place in the field, and the word.
#[derive(Clone, Copy)]
pub struct Planned {
    pub field: Field,
    pub at: u8,
    pub value: u64,
}

/// What the record of a new region is filled with.
#[derive(Clone, Copy)]
pub struct NewRegion {
    pub enclosing: Rid,
    pub encountering: Tid,
    pub function: u8,
    pub size: u64,
    pub levels: u64,
    pub active: u64,
}

/// What the record of a new task is filled with. `exit` is a frame address, `group` is the word that stands for its group, and
/// `variables` are the words of the data environment.
#[derive(Clone, Copy)]
pub struct NewTask {
    pub implicit: bool,
    pub region: Rid,
    pub thread: u8,
    pub number: u64,
    pub generating: Tid,
    pub scheduling: Option<Tid>,
    pub function: u8,
    pub exit: u64,
    pub is_final: bool,
    pub references: u64,
    pub group: u64,
    pub variables: [u64; VARIABLE_WORDS],
}

/// The address of the record of a task, and 0 for none.
fn task_word(l: &Layout, task: Option<Tid>) -> u64
    requires { HasOptionalTask l.now.table task }
    ensures { result ≡ task_word l.now.table task }
{
    match task {
        Some(task) => l.task_at(task.0.creator, task.0.slot),
        None => 0,
    }
}

/// A planned word.
fn filled(field: Field, at: u8, value: u64) -> Planned
    ensures { result ≡ filled field at value }
{
    Planned { field, at, value }
}

/// The word of a region's record that is stored at this number.
pub fn region_plan(l: &Layout, n: &NewRegion, word: u8) -> Planned
    requires word { word < REGION_WORDS }
    requires enclosing { HasRegion l.now.table n.now.enclosing }
    requires encountering { HasTask l.now.table n.now.encountering }
    ensures planned { result ≡ region_plan l.now.table n.now word }
    ensures within { IsPlannedIn l.now.table regions result }
{
    let enclosing = n.enclosing.0;
    let encountering = n.encountering.0;
    match word {
        0 => filled(Field::RegionFunction, 0, entry_address(n.function)),
        1 => filled(
            Field::RegionEnclosing,
            0,
            l.region_at(enclosing.creator, enclosing.slot),
        ),
        2 => filled(
            Field::RegionEncountering,
            0,
            l.task_at(encountering.creator, encountering.slot),
        ),
        3 => filled(Field::RegionSize, 0, n.size),
        4 => filled(Field::RegionLevels, 0, n.levels),
        5 => filled(Field::RegionActive, 0, n.active),
        6 => filled(Field::RegionReleased, 0, 0),
        7 => filled(Field::RegionArrived, 0, 0),
        8 => filled(Field::RegionPending, 0, 0),
        _ => filled(Field::RegionLeft, 0, 0),
    }
}

/// The number at which the first slot of a task is stored. Behind it are its other slots and its words for groups.
const FIRST_SLOT: u8 = 21;

/// The word of a task's record that is stored at this number.
pub fn task_plan(l: &Layout, t: &NewTask, word: u8) -> Planned
    requires word { word < TASK_WORDS }
    requires region { HasRegion l.now.table t.now.region }
    requires thread { t.now.thread < thread_count l.now.table }
    requires generating { HasTask l.now.table t.now.generating }
    requires scheduling { HasOptionalTask l.now.table t.now.scheduling }
    requires groups { HasGroupWords l.now.table }
    ensures planned { result ≡ task_plan l.now.table t.now word }
    ensures within { IsPlannedIn l.now.table tasks result }
{
    if word == FIRST_SLOT + GROUP_PLACE {
        return filled(Field::TaskSlots, GROUP_PLACE, t.group);
    }
    if word >= FIRST_SLOT {
        return filled(Field::TaskSlots, word - FIRST_SLOT, 0);
    }
    let v = &t.variables;
    match word {
        0 => filled(Field::TaskImplicit, 0, u64::from(t.implicit)),
        1 => filled(
            Field::TaskRegion,
            0,
            l.region_at(t.region.0.creator, t.region.0.slot),
        ),
        2 => filled(Field::TaskThread, 0, l.thread_at(t.thread)),
        3 => filled(Field::TaskNumber, 0, t.number),
        4 => filled(
            Field::TaskGenerating,
            0,
            l.task_at(t.generating.0.creator, t.generating.0.slot),
        ),
        5 => filled(Field::TaskScheduling, 0, task_word(l, t.scheduling)),
        6 => filled(Field::TaskFunction, 0, entry_address(t.function)),
        7 => filled(Field::TaskExit, 0, t.exit),
        8 => filled(Field::TaskEnter, 0, 0),
        9 => filled(Field::TaskDynamic, 0, v[0]),
        10 => filled(Field::TaskNthreadsLength, 0, v[1]),
        11 => filled(Field::TaskSchedule, 0, v[2]),
        12 => filled(Field::TaskDevice, 0, v[3]),
        13 => filled(Field::TaskFinal, 0, u64::from(t.is_final)),
        14 => filled(Field::TaskTool, 0, 0),
        15 => filled(Field::TaskChildren, 0, 0),
        16 => filled(Field::TaskReferences, 0, t.references),
        17 => filled(Field::TaskNthreads, 0, v[4]),
        18 => filled(Field::TaskNthreads, 1, v[5]),
        19 => filled(Field::TaskNthreads, 2, v[6]),
        _ => filled(Field::TaskNthreads, 3, v[7]),
    }
}

/// Where a word of a data environment stands in the record of a task: the field and the place in it.
pub fn variable_at(l: &Layout, word: u8) -> (Field, u8)
    requires { word < VARIABLE_WORDS }
    ensures at { result ≡ variable_at word }
    ensures field { IsField (number result.0) }
    ensures kind { kind_of (number result.0) ≡ tasks }
    ensures within { result.1 < width l.now.table (number result.0) }
{
    let _ = l;
    match word {
        0 => (Field::TaskDynamic, 0),
        1 => (Field::TaskNthreadsLength, 0),
        2 => (Field::TaskSchedule, 0),
        3 => (Field::TaskDevice, 0),
        4 => (Field::TaskNthreads, 0),
        5 => (Field::TaskNthreads, 1),
        6 => (Field::TaskNthreads, 2),
        _ => (Field::TaskNthreads, 3),
    }
}

/// The data environment of an implicit task, of that of the encountering task.
pub fn inherited_words(v: &[u64; VARIABLE_WORDS]) -> [u64; VARIABLE_WORDS]
    ensures { result ≡ inherited_words v.now }
{
    if v[1] > 1 {
        [v[0], v[1] - 1, v[2], v[3], v[5], v[6], v[7], 0]
    } else {
        *v
    }
}
