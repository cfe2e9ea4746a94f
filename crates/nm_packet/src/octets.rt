//! Numbers in network byte order, the high octet first (RFC 791, appendix B).

ghost use Rattle.std.specs.Prelude.{◌≡◌, ◌+◌, ◌≤◌, length};
ghost use Rattle.nm_packet.specs.Octets.{long_word_at, with_long_word, with_word, word, word_at};

use byteorder::{BigEndian, ByteOrder};

/// The number of 16 bits in the two octets from this offset.
pub(crate) fn word_at(octets: &[u8], offset: usize) -> u16
    requires { offset + 2 ≤ length octets.now }
    ensures { result ≡ word_at octets.now offset }
{
    BigEndian::read_u16(&octets[offset..])
}

/// The number of 32 bits in the four octets from this offset.
pub(crate) fn long_word_at(octets: &[u8], offset: usize) -> u32
    requires { offset + 4 ≤ length octets.now }
    ensures { result ≡ long_word_at octets.now offset }
{
    BigEndian::read_u32(&octets[offset..])
}

/// The two octets of a number of 16 bits.
pub(crate) fn word(number: u16) -> [u8; 2]
    ensures { result ≡ word number }
{
    number.to_be_bytes()
}

/// Writes the two octets of a number of 16 bits from this offset.
#[inline]
pub(crate) fn set_word(octets: &mut [u8], offset: usize, number: u16)
    requires { offset + 2 ≤ length octets.old }
    ensures { octets.new ≡ with_word octets.old offset number }
{
    let [high, low] = word(number);
    octets[offset] = high;
    octets[offset + 1] = low;
}

/// Writes the four octets of a number of 32 bits from this offset.
#[inline]
pub(crate) fn set_long_word(octets: &mut [u8], offset: usize, number: u32)
    requires { offset + 4 ≤ length octets.old }
    ensures { octets.new ≡ with_long_word octets.old offset number }
{
    let [first, second, third, fourth] = number.to_be_bytes();
    octets[offset] = first;
    octets[offset + 1] = second;
    octets[offset + 2] = third;
    octets[offset + 3] = fourth;
}
