//! Small pieces of text: octets and decimal numbers that are written behind other text, numbers
//! that are read, and texts that are split at an octet, as into lines and words.

ghost use Rattle.std.specs.Prelude.{◌≡◌, ℕ, ◌<◌, ◌^◌, ◌∷◌, ◌++◌, Some, IfSome, MatchOption};
ghost use Rattle.std.specs.Prelude.{decimal};
ghost use Rattle.std.specs.Prelude.{if◌then◌else◌, is_ok};
ghost use Rattle.nm_base.specs.Text.{HasNo};

use itoa::Buffer;
use memchr::memchr;
use std::alloc::AllocError;

/// Appends octets. If memory is refused, the text is as it was.
pub fn push_text(text: &mut Vec<u8>, more: &[u8]) -> Result<(), AllocError>
    ensures { text.new.items
        ≡ (if is_ok result then text.old.items ++ more.now else text.old.items) }
{
    text.extend_from_slice(more)
}

/// Appends a number in decimal, without leading zeros. If memory is refused, the text is as it was.
pub fn push_number(text: &mut Vec<u8>, number: u64) -> Result<(), AllocError>
    ensures { text.new.items
        ≡ (if is_ok result then text.old.items ++ decimal number else text.old.items) }
{
    let mut buffer = Buffer::new();
    push_text(text, buffer.format(number).as_bytes())
}

/// The number that a text writes in decimal, without leading zeros: 0 to `u64::MAX`. `None` if it
/// is no such text.
pub fn number_of(text: &[u8]) -> Option<u64>
    ensures found { IfSome result (λ n. text.now ≡ decimal n) }
    ensures only { (n : ℕ) → n < 2 ^ 64 → text.now ≡ decimal n → result ≡ Some n }
{
    let Ok(word) = str::from_utf8(text) else {
        return None;
    };
    let Ok(number) = word.parse::<u64>() else {
        return None;
    };
    let mut buffer = Buffer::new();
    if buffer.format(number) != word {
        return None;
    }
    Some(number)
}

/// What is before and after the first octet of this value. `None` if the text has none.
pub fn split_once(text: &[u8], octet: u8) -> Option<(&[u8], &[u8])>
    ensures { MatchOption result (HasNo octet text.now) (λ parts.
        (text.now ≡ parts.0.now ++ octet ∷ parts.1.now) × HasNo octet parts.0.now) }
{
    let at = memchr(octet, text)?;
    Some((&text[..at], &text[at + 1..]))
}
