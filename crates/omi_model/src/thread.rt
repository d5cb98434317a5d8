//! A thread of the machine.

use crate::{Claim, ItemList, Rows, Tid};

/// A thread. `state` and `wait` are what it shows; `wanted` and `asks` are those of a fork in the making, an ask being a
/// thread and whether it joined; `list` is that of a worker without a task.
#[derive(Drop)]
pub struct Thread {
    pub begun: bool,
    pub current: Option<Tid>,
    pub state: u32,
    pub wait: u64,
    pub claim: Claim,
    pub wanted: u8,
    pub asks: Rows<(u8, bool)>,
    pub list: ItemList,
}
