//! An operation of a thread on its word of a table.

ghost use Rattle.std.specs.Prelude.{◌≡◌};
ghost use Rattle.omi_seat.specs.Applied.{MayApply, WasTold};

use atomic_table::{Play, Seat, Shared, TableRule};
use omi_word::{FIRST_ADDRESS, Op};

/// Makes an operation on its word of the table, and answers the word before. A store is a swap, so that it is answered.
pub fn apply<V, K, P: TableRule<(), V, K>, M: Play<(), V>>(
    words: &Shared<(), V, K, P>,
    seat: &mut Seat<(), V>,
    op: Op,
) -> u64
    requires seated { seat.old.table_id ≡ words.now.table_id }
    requires may { MayApply (P.holds words.now.key) words.now.table_id seat.old.id seat.old.me op
        M.then }
    ensures seated { seat.new.table_id ≡ seat.old.table_id }
    ensures told { WasTold M.then seat.old.me result seat.new.me }
{
    let place = ((op.address() - FIRST_ADDRESS) / 8) as usize;
    match op {
        Op::Load { .. } => words.load::<M>(seat, place),
        Op::Store { new, .. } => words.swap::<M>(seat, place, new),
        Op::Cas { old, new, .. } => words.compare_exchange::<M>(seat, place, old, new),
        Op::Add { by, .. } => words.fetch_add::<M>(seat, place, by),
        Op::Sub { by, .. } => words.fetch_sub::<M>(seat, place, by),
    }
}
