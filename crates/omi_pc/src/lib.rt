//! A thread of the runtime between two atomic steps: its program counter, what it has loaded, and the function
//! bodies that it has open.
#![tactic(auto)]

mod actor;
mod context;
mod counter;
mod frame;
mod gathered;
mod laws;
pub mod limits;
mod moves;
mod place;
mod settle;
mod stack;
mod task_counter;
mod team_counter;

pub use actor::Actor;
pub use context::Context;
pub use counter::{Counter, PlainCounter};
pub use frame::{Barrier, Frame, Opened, Wait};
pub use gathered::Gathered;
pub use laws::{bodies_stand, moves_change_bodies, moves_fit, opening_fits, stacks_have_room};
pub use omi_model::OutOfMemory;
pub use place::Place;
pub use stack::Stack;
pub use task_counter::{Ancestor, FinishCounter, LookCounter, TaskCounter};
pub use team_counter::{BarrierCounter, JoinCounter, TeamCounter, WorkerCounter};
