//! The abstract machine of OpenMP regions and tasks: named objects, the to-do list of each task, and the events
//! that change a state. `specs/` has the machine; the types here name its objects and events.
#![tactic(auto)]

mod claim;
mod encounter;
mod event;
mod freeable;
mod group;
mod id;
mod item;
mod item_list;
mod laws;
mod limits;
mod machine_laws;
mod progress;
mod region;
mod rows;
mod shape;
mod slot;
mod task;
mod team;
mod thread;
mod view;

pub use claim::Claim;
pub use encounter::Encounter;
pub use event::Event;
pub use freeable::Freeable;
pub use group::Group;
pub use id::{Id, Rid, Tid};
pub use item::Item;
pub use item_list::ItemList;
pub use laws::one_view;
pub use limits::{MOST_EVENTS, MOST_MEMBERS};
pub use machine_laws::{
    a_run_is_legal, asks_are_in_order, barriers_are_in_order, barriers_are_left, barriers_hold,
    begun_tasks_are_on_chains, claims_are_kept, groups_are_right, joins_come_last,
    levels_count_regions, lists_are_right, locks_are_held, members_are_in_step, members_are_known,
    names_are_live, nthreads_shorten, reached_is_well_formed, regions_are_encountered,
    regions_are_freed, regions_end_alone, starts_are_constrained, tasks_have_lineage,
    teams_are_asked, threads_have_chains, what_stays,
};
pub use omi_word::OutOfMemory;
pub use progress::Progress;
pub use region::Region;
pub use rows::{MemberRows, RegionRows, Rows, TaskRows, ThreadRows};
pub use shape::Shape;
pub use slot::Slot;
pub use task::{Task, Variables};
pub use team::Team;
pub use thread::Thread;
pub use view::{HeadRow, MemberRow, RegionRow, TaskRow, ThreadPart, ThreadRow, View};
