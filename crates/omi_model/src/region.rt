//! A parallel region of the machine.

use crate::{Rid, Rows, Team, Tid};

/// A region. Each member of its team is a task and a thread; arrivals at barriers and ends are by member; `released` counts
/// the barriers that were released.
#[derive(Drop)]
pub struct Region {
    pub enclosing: Option<Rid>,
    pub encountering: Option<Tid>,
    pub team: Team,
    pub function: u8,
    pub levels: u64,
    pub active: u64,
    pub arrivals: Rows<u64>,
    pub released: u64,
    pub ended: Rows<bool>,
    pub joined: bool,
}
