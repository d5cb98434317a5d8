//! The steps of teams: workers, `parallel` constructs, barriers and joins.
#![tactic(auto)]

mod barrier;
mod join;
mod steps;
mod team;
mod team_moves;
mod team_parts;
mod worker;

pub use barrier::{barrier_move, barrier_next, barrier_outcome};
pub use join::{join_move, join_next, join_outcome};
pub use steps::{fork_move, fork_next, fork_outcome};
pub use team::{team_next, team_outcome};
pub use team_moves::team_move;
pub use worker::{worker_move, worker_next, worker_outcome};
