//! The forms of texts in a topology: names, addresses and prefixes.

ghost use Rattle.std.specs.Prelude.{◌≡◌, ℕ, ◌<◌, ◌≤◌, ◌^◌, Some, IfSome, decimal};
ghost use Rattle.std.specs.List.{list_all};
ghost use Rattle.nm_packet.specs.Address.{address_text};
ghost use Rattle.nm_topology.specs.Parse.Forms.{is_name, is_name_character, address_of};
ghost use Rattle.nm_topology.specs.Parse.Forms.{usable_address_of, length_of, prefix_at, prefix_of};

use crate::prefix::Prefix;
use itoa::Buffer;
use nm_packet::Address;

/// The greatest number of characters of a name.
pub const MAX_NAME: usize = 32;

fn is_name_character(c: u8) -> bool
    ensures { result ≡ is_name_character c }
{
    matches!(c, b'a'..=b'z' | b'0'..=b'9' | b'-')
}

fn has_name_characters(text: &[u8]) -> bool
    ensures { result ≡ list_all is_name_character text.now }
{
    text.iter().all(|c| is_name_character(*c))
}

/// Whether the text is a name: 1 to 32 of a to z, 0 to 9 and hyphen, the first of them no hyphen.
pub fn is_name(text: &[u8]) -> bool
    ensures { result ≡ is_name text.now }
{
    match text {
        [] => false,
        [first, ..] => { *first != b'-' && text.len() <= MAX_NAME && has_name_characters(text) }
    }
}

/// The address in a text.
pub fn address_of(text: &[u8]) -> Option<Address>
    ensures { result ≡ address_of text.now }
{
    match bits_of(text) {
        Some(bits) => Some(Address::from_bits(bits)),
        None => None,
    }
}

/// The bits of the address in a text.
fn bits_of(text: &[u8]) -> Option<u32>
    ensures found { IfSome result (λ a. (a < 2 ^ 32) × (text.now ≡ address_text a)) }
    ensures only { (a : ℕ) → a < 2 ^ 32 → text.now ≡ address_text a → result ≡ Some a }
{
    match Address::parse(text) {
        Some(address) => Some(address.bits()),
        None => None,
    }
}

/// The address in a text, if it is no martian.
pub fn usable_address_of(text: &[u8]) -> Option<Address>
    ensures { result ≡ usable_address_of text.now }
{
    let address = address_of(text)?;
    if address.is_martian() {
        return None;
    }
    Some(address)
}

/// The greatest length of a prefix.
const MAX_LENGTH: u8 = 32;

/// The length of a prefix in a text: 0 to 32 in decimal with no leading zero.
pub fn length_of(text: &str) -> Option<u8>
    ensures value { result ≡ length_of text.now }
    ensures bound { IfSome result (λ n. n ≤ 32) }
{
    match printed_length(text) {
        Some(length) => Some(length),
        None => None,
    }
}

fn printed_length(text: &str) -> Option<u8>
    ensures found { IfSome result (λ n. (n < 33) × (text.now ≡ decimal n)) }
    ensures only { (n : ℕ) → n < 33 → text.now ≡ decimal n → result ≡ Some n }
{
    let Ok(length) = text.parse::<u8>() else {
        return None;
    };
    if length > MAX_LENGTH {
        return None;
    }
    let mut buffer = Buffer::new();
    let printed = buffer.format(length);
    if printed != text {
        return None;
    }
    Some(length)
}

/// The prefix in a text: an address, a slash and a length; the bits past the length are 0.
pub fn prefix_of(text: &str) -> Option<Prefix>
    ensures { result ≡ prefix_of text.now }
{
    match text.split_once('/') {
        Some((address, length)) => prefix_at(address_of(address.as_bytes())?, length_of(length)?),
        None => None,
    }
}

/// The prefix of this address and this length, if the bits past the length are 0.
fn prefix_at(address: Address, length: u8) -> Option<Prefix>
    requires { length ≤ 32 }
    ensures { result ≡ prefix_at address length }
{
    if address.bits() as u64 % (1 << (32 - length)) != 0 {
        return None;
    }
    Some(Prefix { address, length })
}
