//! Addresses of IPv4.

ghost use Rattle.std.specs.Prelude.{◌≡◌, ℕ, ◌^◌, ◌<◌, IfSome, Some};
ghost use Rattle.nm_packet.specs.Address.{address_text, is_martian};
ghost use Rattle.nm_packet.specs.Octets.{long_word, long_word_at};

use byteorder::{BigEndian, ByteOrder};
use std::fmt;
use std::marker::Model;
use std::net::Ipv4Addr;

/// An IPv4 address. A clause sees its 32 bits as a number, the first octet highest.
#[derive(Clone, Copy, Debug, PartialEq, Eq)]
pub struct Address {
    bits: u32,
}

impl Model for Address {
    ghost Value = { ℕ };

    ghost view = { λ a. a.bits };

    ghost inverse = { λ n. record { bits = n } };
}

impl Address {
    /// The address of these 32 bits.
    pub fn from_bits(bits: u32) -> Self
        ensures { result ≡ bits }
    {
        Address { bits }
    }

    /// The 32 bits.
    pub fn bits(self) -> u32
        ensures value { result ≡ self }
        ensures fits { self < 2 ^ 32 }
    {
        self.bits
    }

    /// The address of these four octets, in the order in which they are sent.
    pub fn from_octets(octets: [u8; 4]) -> Self
        ensures { result ≡ long_word_at octets 0 }
    {
        Address::from_bits(BigEndian::read_u32(&octets))
    }

    /// The four octets, in the order in which they are sent.
    pub fn octets(self) -> [u8; 4]
        ensures value { result ≡ long_word self }
        ensures fits { self < 2 ^ 32 }
    {
        self.bits.to_be_bytes()
    }

    /// Whether the address is a martian (RFC 1812, section 5.3.7), neither the source nor the
    /// destination of a packet between hosts: this network (0.0.0.0/8), loopback (127.0.0.0/8),
    /// multicast (224.0.0.0/4) or reserved (240.0.0.0/4).
    pub fn is_martian(self) -> bool
        ensures { result ≡ is_martian self }
    {
        let [first, ..] = self.octets();
        matches!(first, 0 | 127 | 224..)
    }

    /// The address that this text writes: four numbers 0 to 255 in decimal with no leading zeros,
    /// joined by dots.
    pub fn parse(text: &[u8]) -> Option<Self>
        ensures found { IfSome result (λ a. text.now ≡ address_text a) }
        ensures only { (a : ℕ) → a < 2 ^ 32 → text.now ≡ address_text a → result ≡ Some a }
    {
        match Ipv4Addr::parse_ascii(text) {
            Ok(address) => Some(Address::from_octets(address.octets())),
            Err(_) => None,
        }
    }
}

impl fmt::Display for Address {
    ghost use Rattle.std.specs.Prelude.{Some};
    ghost use Rattle.nm_packet.specs.Address.{address_text};

    ghost output = { λ a. Some (address_text a) };

    fn fmt<W: fmt::Write>(&self, f: &mut fmt::Formatter<W>) -> fmt::Result {
        let [a, b, c, d] = self.octets();
        fmt::Display::fmt(&Ipv4Addr::new(a, b, c, d), f)
    }
}
