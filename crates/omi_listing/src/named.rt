//! The rows of a report by the names of what they tell.

ghost use Rattle.std.specs.Prelude.{◌≡◌};
ghost use Rattle.std.specs.Option.{option_map};
ghost use Rattle.omi_listing.specs.Named.{is_same_id, row_named};

use omi_model::{Id, RegionRow, Rows, TaskRow};

/// A row of a report, which tells of an object by its name.
pub trait Named: Drop {
    ghost use Rattle.omi_model.specs.declared.id.Id.{Id};

    /// The name, without what tells regions from tasks.
    ghost name: { Self → Id };

    /// The name, without what tells regions from tasks.
    fn id(&self) -> Id
        ensures { result ≡ name self.now };
}

impl Named for RegionRow {
    ghost name = { λ row. row.region.0 };

    fn id(&self) -> Id {
        self.region.0
    }
}

impl Named for TaskRow {
    ghost name = { λ row. row.task.0 };

    fn id(&self) -> Id {
        self.task.0
    }
}

/// Whether two names are the same.
fn is_same_id(a: Id, b: Id) -> bool
    ensures { result ≡ is_same_id a b }
{
    a.creator == b.creator && a.slot == b.slot && a.generation == b.generation
}

/// The first row that tells of an object with this name, if there is one.
pub fn row_named<R: Named>(rows: &Rows<R>, id: Id) -> Option<&R>
    ensures { option_map (λ row. row.now) result ≡ row_named R.name rows.now id }
{
    for at in 0..rows.len() {
        let row = rows.get(at);
        if is_same_id(row.id(), id) {
            return Some(row);
        }
    }
    None
}
