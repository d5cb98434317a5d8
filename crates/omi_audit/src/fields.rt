//! The fields that are judged of each kind of record, by number.

use omi_layout::Field;

/// Of the runtime record.
pub const RUNTIME_FIELDS: [Field; 5] = [
    Field::RuntimeVersion,
    Field::RuntimeThreads,
    Field::RuntimeProcs,
    Field::RuntimeDebug,
    Field::RuntimeMaxActive,
];

/// Of a thread that has begun, behind its life word and its native id.
pub const BEGUN_FIELDS: [Field; 2] = [Field::ThreadCurrent, Field::ThreadState];

/// Of a region, in front of its team.
pub const REGION_FIELDS: [Field; 6] = [
    Field::RegionFunction,
    Field::RegionEnclosing,
    Field::RegionEncountering,
    Field::RegionSize,
    Field::RegionLevels,
    Field::RegionActive,
];

/// Of a task, in front of the elements of nthreads-var.
pub const TASK_FIELDS: [Field; 15] = [
    Field::TaskImplicit,
    Field::TaskRegion,
    Field::TaskThread,
    Field::TaskNumber,
    Field::TaskGenerating,
    Field::TaskScheduling,
    Field::TaskFunction,
    Field::TaskExit,
    Field::TaskEnter,
    Field::TaskDynamic,
    Field::TaskNthreadsLength,
    Field::TaskSchedule,
    Field::TaskDevice,
    Field::TaskFinal,
    Field::TaskTool,
];
