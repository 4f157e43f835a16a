//! What a test expects of a told value.
use std::fmt::Debug;
use std::process::Abort;

/// Asserts that both are equal.
pub(crate) fn expect<T: PartialEq + Debug>(rt: &impl Abort, told: &T, expected: &T) {
    assert_eq!(rt; told, expected);
}
