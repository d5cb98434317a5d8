//! The records that the worked runs name: those of thread 0 in the order of their slots, and that of thread 1.

use crate::look::Place;

/// The record of thread 0, and those of the initial region and task.
pub const FIRST: Place = Place {
    creator: 0,
    slot: 0,
};

/// The records that thread 0 takes next, one after another.
pub const SECOND: Place = Place {
    creator: 0,
    slot: 1,
};

pub const THIRD: Place = Place {
    creator: 0,
    slot: 2,
};

pub const FOURTH: Place = Place {
    creator: 0,
    slot: 3,
};

pub const FIFTH: Place = Place {
    creator: 0,
    slot: 4,
};

pub const SIXTH: Place = Place {
    creator: 0,
    slot: 5,
};

/// The record of thread 1, and the first that it takes.
pub const OTHER: Place = Place {
    creator: 1,
    slot: 0,
};
