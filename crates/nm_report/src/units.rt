//! Percentages, addresses, and which percentiles are shown.

ghost use Rattle.std.specs.Prelude.{◌≡◌, ◌++◌, OnOk};
ghost use Rattle.nm_packet.specs.Address.{address_text};

use nm_base::{push_number, push_text};
use nm_measure::Appended;
use nm_packet::Address;

/// The percentiles that are shown, in thousandths.
pub(crate) const PERCENTILES: [u64; 4] = [500, 900, 990, 999];

/// Appends an address.
pub(crate) fn push_address(text: &mut Vec<u8>, address: Address) -> Appended
    ensures { OnOk result (text.new.items ≡ text.old.items ++ address_text address) }
{
    let [a, b, c, d] = address.octets();
    push_number(text, u64::from(a))?;
    push_text(text, b".")?;
    push_number(text, u64::from(b))?;
    push_text(text, b".")?;
    push_number(text, u64::from(c))?;
    push_text(text, b".")?;
    push_number(text, u64::from(d))
}

/// Appends thousandths as a percentage with one decimal.
pub(crate) fn push_percentage(text: &mut Vec<u8>, thousandths: u64) -> Appended {
    push_number(text, thousandths / 10)?;
    push_text(text, b".")?;
    push_number(text, thousandths % 10)?;
    push_text(text, b"%")
}
