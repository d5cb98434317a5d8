//! Layouts: where the records of a runtime lie in memory, and where their fields lie in them.
#![tactic(auto)]

mod family;
mod fault;
mod field;
mod judging;
mod laws;
mod layout;
mod limits;
mod opening;
mod publish;
mod reading;
mod table;

pub use fault::LayoutFault;
pub use field::{Field, Kind, field_name};
pub use laws::{one_answer, records_framed, tables_read_back, words_apart};
pub use layout::Layout;
pub use limits::{
    COUNT_PLACE, FAMILY_REGIONS, FAMILY_TASKS, FIELDS, FIRST_VERSION, FRONT_WORDS, GROUP_PLACE,
    GROUP_VERSION, GROUP_WORDS, LAST_END, MOST_FAMILY_WORDS, MOST_RECORD_WORDS, MOST_RECORDS,
    MOST_REGIONS, MOST_TASKS, MOST_THREADS, OPEN_PLACE, TABLE_PLACE, TABLE_WORDS,
};
pub use reading::LayoutError;
