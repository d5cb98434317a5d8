//! How seats that stand for threads are split and joined. What a seat knows is a list with a part for each of its threads.

use atomic_table::{Join, Split};
use omi_list::List;

/// A seat that stands for several threads gives the first one a seat of its own.
pub struct First;

impl<P> Split<List<P>> for First {
    ghost use Rattle.omi_seat.specs.Seats.{first_alone, without_first};

    ghost left = { without_first };

    ghost right = { first_alone };
}

/// A seat takes in what another one knows.
pub struct Together;

impl<P> Join<List<P>> for Together {
    ghost use Rattle.std.specs.Prelude.{◌++◌, []};

    ghost both = { λ a b. a ++ b };

    ghost spent = { [] };
}
