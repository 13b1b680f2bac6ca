//! A comparison that is called.

use std::fmt::Debug;
use std::process::Abort;

/// The two are equal. It is a call, as the proof of a test grows with the square of the comparisons that stand in it.
pub(crate) fn expect_eq<T: PartialEq + Debug + Drop>(rt: &impl Abort, found: T, want: T) {
    assert_eq!(rt; found, want);
}
