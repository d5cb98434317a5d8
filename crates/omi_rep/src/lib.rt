//! What the words of a memory show of a state, and a plain look at them.
#![tactic(auto)]

mod agreement;
mod fault;
mod laws;
mod looked;
mod outcome;

pub use agreement::suits;
pub use fault::LookFault;
pub use laws::{families_suit, opening_words_shown, words_fix_the_report};
pub use looked::shown_words_looked;
pub use outcome::Outcome;
