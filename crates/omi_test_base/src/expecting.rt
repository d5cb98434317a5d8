//! Two values that are to be equal. An assertion of equality is long to prove, so it stands here once.

use std::fmt::Debug;
use std::process::Abort;

pub fn expect_equal<T: PartialEq + Debug>(rt: &impl Abort, found: &T, wanted: &T) {
    assert_eq!(rt; found, wanted);
}
