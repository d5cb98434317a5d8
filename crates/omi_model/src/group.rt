//! Task groups, by name.

ghost use Rattle.std.specs.Prelude.{◌≡◌, None};
ghost use Rattle.omi_model.specs.Groups.{innermost_or};

use crate::Tid;

/// A task group: the task that began it, its owner, and its index among those that the owner has open, 0 for the outermost.
#[derive(Clone, Copy, Debug, PartialEq, Eq)]
pub struct Group {
    pub owner: Tid,
    pub index: u8,
}

impl Group {
    /// The innermost open group of task `k`, which has so many open.
    #[tactic(auto, using(crate::proofs::Innermost::innermost_none, crate::proofs::Innermost::innermost_some))]
    pub fn innermost(k: Tid, count: u8) -> Option<Group>
        ensures { result ≡ innermost_or None k count }
    {
        if count == 0 {
            return None;
        }
        Some(Group {
            owner: k,
            index: count - 1,
        })
    }
}
