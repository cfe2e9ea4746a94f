//! The Internet checksum (RFC 1071).

ghost use Rattle.std.specs.Prelude.{◌≡◌, ◌+◌, ◌≤◌, length};
ghost use Rattle.nm_packet.specs.Checksum.{checksum_of, folded, updated_checksum, word_sum};

use crate::octets::long_word_at;

/// The one's complement sum of two words: a carry out of the high end comes in at the low end.
fn add_words(a: u16, b: u16) -> u16
    ensures { result ≡ folded (a + b) }
{
    let (sum, carry) = a.overflowing_add(b);
    sum + u16::from(carry)
}

/// The same of two words each, side by side. What is carried from one to the other comes in at the
/// low end when the sum is folded.
fn add_two_words(a: u32, b: u32) -> u32
    ensures { folded result ≡ folded (a + b) }
{
    let (sum, carry) = a.overflowing_add(b);
    sum + u32::from(carry)
}

/// The same of four words each.
fn add_four_words(a: u64, b: u64) -> u64
    ensures { folded result ≡ folded (a + b) }
{
    let (sum, carry) = a.overflowing_add(b);
    sum + u64::from(carry)
}

/// The one's complement sum of four words.
fn fold(four: u64) -> u16
    ensures { result ≡ folded four }
{
    let two = add_two_words((four >> 32) as u32, (four % 0x1_0000_0000) as u32);
    add_words((two >> 16) as u16, (two % 0x1_0000) as u16)
}

/// The one's complement sum of `start` and of the octets as 16-bit words, an odd last octet being
/// padded with a zero.
// Not inlined, so that reading a header without options, which does not come here, keeps its
// numbers in registers.
#[inline(never)]
pub(crate) fn sum_words(start: u16, octets: &[u8]) -> u16
    ensures { result ≡ folded (start + word_sum octets.now) }
{
    let mut sum = u64::from(start);
    let mut rest = octets;
    // Four words at a time; their sum is folded once (RFC 1071, section 2).
    while let [a, b, c, d, e, f, g, h, more @ ..] = rest {
        sum = add_four_words(sum, u64::from_be_bytes([*a, *b, *c, *d, *e, *f, *g, *h]));
        rest = more;
    }
    sum_last_words(fold(sum), rest)
}

/// The same, one word at a time.
fn sum_last_words(start: u16, octets: &[u8]) -> u16
    ensures { result ≡ folded (start + word_sum octets.now) }
{
    let mut sum = start;
    let mut rest = octets;
    while let [high, low, more @ ..] = rest {
        sum = add_words(sum, u16::from_be_bytes([*high, *low]));
        rest = more;
    }
    match rest {
        [high, ..] => add_words(sum, u16::from_be_bytes([*high, 0])),
        [] => sum,
    }
}

/// The one's complement sum of a header's words. Each header has five times two words, and few have
/// more.
pub(crate) fn sum_header(header: &[u8]) -> u16
    requires { 20 ≤ length header.now }
    ensures { result ≡ folded (word_sum header.now) }
{
    let sum = u64::from(long_word_at(header, 0))
        + u64::from(long_word_at(header, 4))
        + u64::from(long_word_at(header, 8))
        + u64::from(long_word_at(header, 12))
        + u64::from(long_word_at(header, 16));
    match &header[20..] {
        [] => fold(sum),
        options => sum_words(fold(sum), options),
    }
}

/// The checksum that is written if the octets are all the other words.
pub(crate) fn checksum_of(octets: &[u8]) -> u16
    ensures { result ≡ checksum_of (word_sum octets.now) }
{
    !sum_words(0, octets)
}

/// The checksum after one word of what it is over changed (RFC 1624, equation 3).
pub(crate) fn updated_checksum(checksum: u16, old: u16, new: u16) -> u16
    ensures { result ≡ updated_checksum checksum old new }
{
    !add_words(add_words(!checksum, !old), new)
}
