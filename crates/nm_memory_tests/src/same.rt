//! Assertions that are proved once and not in each test.

use std::process::Abort;

/// A fact holds.
pub fn holds(rt: &impl Abort, what: &str, fact: bool) {
    assert!(rt; fact, "{what}");
}

/// Two numbers are the same.
pub fn eq_number(rt: &impl Abort, what: &str, found: u64, want: u64) {
    assert!(rt; found == want, "{what}: {found} and not {want}");
}

/// Two words with their numbers are the same.
pub fn eq_answer(
    rt: &impl Abort,
    step: usize,
    found: (&'static str, u64),
    want: (&'static str, u64),
) {
    let (word, number) = found;
    let (other, wanted) = want;
    assert!(rt;
        word == other && number == wanted,
        "step {step}: {word} {number} and not {other} {wanted}"
    );
}
