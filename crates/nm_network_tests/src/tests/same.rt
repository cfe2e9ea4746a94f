//! Assertions that are proved once and not in each test.

use std::fmt::Display;
use std::process::Abort;

/// A fact holds.
pub fn holds(rt: &impl Abort, what: &str, fact: bool) {
    assert!(rt; fact, "{what}");
}

/// Two numbers are the same.
pub fn eq_number(rt: &impl Abort, what: &str, found: u64, want: u64) {
    assert!(rt; found == want, "{what}: {found} and not {want}");
}

/// Two lists of numbers are the same.
pub fn eq_numbers(rt: &impl Abort, what: &str, found: &[u64], want: &[u64]) {
    assert!(rt; found == want, "{what}: {found:?} and not {want:?}");
}

/// Octets are the same.
pub fn eq_octets(rt: &impl Abort, what: &str, found: &[u8], want: &[u8]) {
    assert!(rt; found == want, "{what}: {found:?} and not {want:?}");
}

/// Two texts are the same.
pub fn eq_text(rt: &impl Abort, found: &str, want: &str) {
    assert!(rt; found == want, "{found:?} and not {want:?}");
}

/// A value is shown by this text.
pub fn eq_shown<D: Display + Drop>(rt: &(impl Abort + AllocGlobal), shown: D, want: &str) {
    let found = shown.to_string(rt.alloc()).expect(rt, "it succeeds");
    eq_text(rt, found.as_str(), want);
}
