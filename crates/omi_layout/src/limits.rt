//! The limits of a layout. Each stands here alone: definitions, code and the crates above name it.

use crate::field::Field;
use omi_numbers::{OPEN_GROUPS, OWN_SLOTS};
use omi_script::limits::MAX_THREADS;
use omi_word::MEMORY_END;

/// The fields of all records together. They are numbered from 1 on.
pub const FIELDS: u8 = Field::TaskSlots as u8;

/// The words of a layout table: twelve of version and arenas, and the offset of each field.
pub const TABLE_WORDS: usize = 12 + FIELDS as usize;

/// The first version of the layout table.
pub const FIRST_VERSION: u64 = 1;

/// The version of the layout table in which a task has words for groups.
pub const GROUP_VERSION: u64 = 2;

/// The words of a task for groups, behind its slots: its group, how many groups it has open, and a count for each of these.
pub const GROUP_WORDS: u8 = 2 + OPEN_GROUPS;

/// The place of the word for a task's group, among the words of the last field of its record.
pub const GROUP_PLACE: u8 = OWN_SLOTS;

/// The place of the word for the number of groups that a task has open.
pub const OPEN_PLACE: u8 = OWN_SLOTS + 1;

/// The place of the count of the outermost of these; those of the others follow.
pub const COUNT_PLACE: u8 = OWN_SLOTS + 2;

/// The most words of a record.
pub const MOST_RECORD_WORDS: u64 = 4096;

/// The most threads: as many as a program may have.
pub const MOST_THREADS: u64 = MAX_THREADS as u64;

/// The most records of regions that a thread may make.
pub const MOST_REGIONS: u64 = 64;

/// The most records of tasks that a thread may make.
pub const MOST_TASKS: u64 = 4096;

/// The records of regions that a thread may make in a layout of a family.
pub const FAMILY_REGIONS: u64 = 16;

/// The records of tasks that a thread may make in a layout of a family.
pub const FAMILY_TASKS: u64 = 256;

/// An arena of a layout of a family has at most so many words. No layout has as many: the bound serves sums of lengths.
pub const MOST_FAMILY_WORDS: u64 = 2_097_152;

/// An arena has at most so many records. No valid layout has as many: the bound serves products of counts and sizes.
pub const MOST_RECORDS: u64 = 262_144;

/// The byte address at which an arena has to end at last: the end of memory.
pub const LAST_END: u64 = MEMORY_END;

/// The words in front of the records: symbol table, entry point words and layout table.
pub const FRONT_WORDS: u64 = TABLE_PLACE + TABLE_WORDS as u64;

/// The place in an image of the first word of the layout table.
pub const TABLE_PLACE: u64 = 43;
