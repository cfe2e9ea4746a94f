//! The numbers of a line.

ghost use Rattle.std.specs.Prelude.{◌≡◌, ℕ, ◌<◌, ◌≤◌, ◌^◌, List, IfSome, IsSomeAnd, length, map};
ghost use Rattle.std.specs.Prelude.{decimal};
ghost use Rattle.std.specs.List.{All};
ghost use Rattle.nm_base.specs.Text.{parts_at};

use arrayvec::ArrayVec;
use nm_base::{number_of, split_once};

/// The greatest number of numbers that a step has.
pub(crate) const MAX_NUMBERS: usize = 4;

/// The numbers that a text writes in decimal, parted by one space. `None` if it writes no such
/// numbers, or more than any step has.
pub(crate) fn numbers_of(text: &[u8]) -> Option<ArrayVec<u64, MAX_NUMBERS>>
    ensures found { IfSome result (λ v. parts_at 32 text.now ≡ map decimal v.items) }
    ensures small { IfSome result (λ v. All (λ n. n < 2 ^ 64) v.items) }
    ensures only { (numbers : List ℕ) → All (λ n. n < 2 ^ 64) numbers → length numbers ≤ 4
        → parts_at 32 text.now ≡ map decimal numbers
        → IsSomeAnd result (λ v. v.items ≡ numbers) }
{
    let mut numbers = ArrayVec::new();
    let mut rest = text;
    while let Some((word, after)) = split_once(rest, b' ') {
        let number = number_of(word)?;
        if numbers.try_push(number).is_err() {
            return None;
        }
        rest = after;
    }
    let last = number_of(rest)?;
    if numbers.try_push(last).is_err() {
        return None;
    }
    Some(numbers)
}
