//! Rates and times with the units that people use.

use crate::text::{push_number, push_text};
use std::alloc::AllocError;

/// Units of rates, in bits per second.
const RATES: [(u64, &[u8]); 3] = [
    (1_000_000_000, b" Gbit/s"),
    (1_000_000, b" Mbit/s"),
    (1_000, b" kbit/s"),
];

/// Units of times, in nanoseconds.
const TIMES: [(u64, &[u8]); 3] = [(1_000_000_000, b" s"), (1_000_000, b" ms"), (1_000, b" us")];

/// Appends what is left of a unit behind a point, without zeros at its end. The unit has so many of
/// the least one, a power of ten up to 10^9.
fn push_decimals(text: &mut Vec<u8>, rest: u64, size: u64) -> Result<(), AllocError> {
    if rest == 0 {
        return Ok(());
    }
    push_text(text, b".")?;
    let (mut rest, mut place) = (rest, size / 10);
    for _ in 0..9 {
        if rest == 0 || place == 0 {
            return Ok(());
        }
        push_number(text, rest / place)?;
        rest %= place;
        place /= 10;
    }
    Ok(())
}

/// Appends a quantity as an exact decimal in the greatest unit of which there is at least one, or
/// in the least one. Units come from the greatest down, each with how many of the least it has.
fn push_quantity(
    text: &mut Vec<u8>,
    quantity: u64,
    units: &[(u64, &[u8])],
    least: &[u8],
) -> Result<(), AllocError> {
    for (size, name) in units {
        if *size > 0 && quantity >= *size {
            push_number(text, quantity / *size)?;
            push_decimals(text, quantity % *size, *size)?;
            return push_text(text, name);
        }
    }
    push_number(text, quantity)?;
    push_text(text, least)
}

/// Appends a rate in bits per second.
pub fn push_rate(text: &mut Vec<u8>, rate: u64) -> Result<(), AllocError> {
    push_quantity(text, rate, &RATES, b" bit/s")
}

/// Appends a time in nanoseconds.
pub fn push_time(text: &mut Vec<u8>, nanoseconds: u64) -> Result<(), AllocError> {
    push_quantity(text, nanoseconds, &TIMES, b" ns")
}
