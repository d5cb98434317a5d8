//! The steps of explicit tasks.
#![tactic(auto)]

mod finish;
mod groups;
mod laws;
mod look;
mod look_moves;
mod making;
mod making_moves;
mod slots;
mod starts;
mod steps;

pub use finish::{finish_move, finish_next, finish_outcome};
pub use laws::codes_are_read_back;
pub use look::{look_next, look_outcome};
pub use look_moves::look_move;
pub use making::{making_next, making_outcome};
pub use making_moves::making_move;
pub use steps::{task_move, task_next, task_outcome};
