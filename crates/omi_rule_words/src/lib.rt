//! The rule between any two atomic steps: what threads owe, and what the words are but for that.
#![tactic(auto)]

mod laws;

pub use laws::{
    adds_keep_words, assigns_keep_words, barriers_keep_words, begins_keep_words,
    children_are_counted, defers_keep_words, ends_keep_words, finishes_keep_words,
    forks_keep_words, frees_keep_words, groups_keep_words, joins_keep_words, kept_words_show,
    leaves_keep_words, lists_keep_words, moves_keep_words, opening_keeps_words,
    private_stores_keep_words, runtime_stores_keep_words, starts_keep_words, subtracts_keep_words,
    takes_keep_words, task_stores_keep_words, tasks_are_gone, thread_stores_keep_words,
};
