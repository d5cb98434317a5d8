//! The lists of a report's rows, by name.

use crate::{MemberRow, RegionRow, TaskRow, ThreadRow};
use omi_list::List;

/// Elements in order, seen as the list of them.
pub type Rows<T> = List<T>;

/// The thread rows of a report, in order.
pub type ThreadRows = Rows<ThreadRow>;

/// The region rows of a report, in order.
pub type RegionRows = Rows<RegionRow>;

/// The members of a region row, in order.
pub type MemberRows = Rows<MemberRow>;

/// The task rows of a report, in order.
pub type TaskRows = Rows<TaskRow>;
