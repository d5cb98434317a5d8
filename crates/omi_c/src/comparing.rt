//! The order of objects.

ghost use Rattle.std.specs.Prelude.{◌≡◌};
ghost use Rattle.omi_c.specs.Order.{order_of};

use crate::answers::Object;
use std::cmp::Ordering;

/// The order of two objects of a kind: by the addresses of their records, and then by life word. -1, 0 or 1.
#[unsafe(no_mangle)]
pub extern "C" fn omi_compare(a: Object, b: Object) -> i32
    ensures { result ≡ order_of a b }
{
    match a.addr.cmp(&b.addr).then(a.life.cmp(&b.life)) {
        Ordering::Less => -1,
        Ordering::Equal => 0,
        Ordering::Greater => 1,
    }
}
