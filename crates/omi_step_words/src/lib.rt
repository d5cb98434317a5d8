//! What the steps of all threads have in common: the words on which they operate, what is read back from a word, and what the
//! records of new regions and tasks are filled with.
#![tactic(auto)]

mod laws;
mod moving;
mod ops;
mod outcomes;
mod plan;
mod searches;
mod words;

pub use laws::{fills_go_up, words_are_read_back};
pub use moving::{store_under, task_under};
pub use ops::{
    fill, load, of_group_count, of_groups, of_place, of_region, of_runtime, of_task, of_thread,
    of_variable, store,
};
pub use outcomes::CompactOutcome;
pub use plan::{NewRegion, NewTask, Planned, inherited_words, region_plan, task_plan, variable_at};
pub use searches::{next_region_slot, next_task_slot, own_place, search_outcome};
pub use words::{
    generation_of, is_free, object_in, region_place, task_place, unused_word, used_word,
};
