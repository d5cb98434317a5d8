//! Inquiries for control variables, states and tool words.
#![tactic(auto)]

mod display;
mod enumeration;
mod icv;
mod icv_text;
mod numbers;
mod runtime;
mod scoped;
mod spelling;
mod state;
mod tool;
mod value;
mod variable;

pub use display::{SpaceWords, display_text, get_display_control_vars, space_words};
pub use enumeration::{enumerate_icvs, enumerate_states};
pub use icv::{get_icv_from_scope, icv_number_of};
pub use icv_text::{Value, get_icv_string_from_scope, icv_text_of, icv_value, icv_value_of};
pub use numbers::Numbers;
pub use scoped::{Scope, Scoped};
pub use spelling::value_text;
pub use state::{get_state, state_of_thread};
pub use tool::{get_tool_data, tool_data_of};
pub use variable::Spelling;
