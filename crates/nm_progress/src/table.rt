//! What the replicas of a run did, as a table; and how far one is, as a line.

use crate::figures::{Figure, Figures, ReplicaFigures};
use nm_base::limits::MAX_PARTITIONS;
use nm_base::{PartNo, push_number, push_text};
use std::alloc::AllocError;

/// The head of the table.
const HEAD: &[u8] = b"partition replica    windows       jobs      waits      events   messages \
      nulls busy held back by\n";

/// The figures of the table behind the replica, and the width of their columns.
const COLUMNS: &[(Figure, usize)] = &[
    (Figure::Windows, 11),
    (Figure::Jobs, 11),
    (Figure::Waits, 11),
    (Figure::Events, 12),
    (Figure::Messages, 11),
    (Figure::Nulls, 11),
];

/// How many digits a number has.
fn digits(number: u64) -> usize {
    let (mut rest, mut count) = (number, 1usize);
    for _ in 0..20 {
        rest /= 10;
        if rest == 0 {
            return count;
        }
        count = count.saturating_add(1);
    }
    count
}

/// Appends a number at the right end of so many columns.
fn push_cell(text: &mut Vec<u8>, number: u64, width: usize) -> Result<(), AllocError> {
    for _ in 0..width.saturating_sub(digits(number)) {
        push_text(text, b" ")?;
    }
    push_number(text, number)
}

/// Appends which channel held a replica back most often.
fn push_held(text: &mut Vec<u8>, one: &ReplicaFigures<'_>) -> Result<(), AllocError> {
    let Some((channel, share)) = one.held_by() else {
        return push_text(text, b" -");
    };
    push_text(text, b" channel ")?;
    push_number(text, u64::from(channel.number()))?;
    push_text(text, b" (")?;
    push_number(text, share)?;
    push_text(text, b"%)")
}

/// Appends the row of a replica.
fn push_row(
    text: &mut Vec<u8>,
    partition: u32,
    replica: u8,
    one: &ReplicaFigures<'_>,
    looks: u64,
) -> Result<(), AllocError> {
    push_cell(text, u64::from(partition), 9)?;
    push_cell(text, u64::from(replica), 8)?;
    for (figure, width) in COLUMNS {
        push_cell(text, one.get(*figure), *width)?;
    }
    let busy = one.get(Figure::Busy).saturating_mul(100) / looks.max(1);
    push_cell(text, busy, 4)?;
    push_text(text, b"%")?;
    push_held(text, one)?;
    push_text(text, b"\n")
}

/// Appends a table of what the replicas of a run did, a line each.
///
/// # Errors
///
/// If memory was refused; the text has a part of the table then.
pub fn push_table(text: &mut Vec<u8>, figures: &Figures) -> Result<(), AllocError> {
    push_text(text, HEAD)?;
    for partition in 0..MAX_PARTITIONS as u32 {
        for replica in 0..2u8 {
            let one = figures.of(PartNo::new(partition), replica);
            if one.is_there() {
                push_row(text, partition, replica, &one, figures.looks())?;
            }
        }
    }
    Ok(())
}

/// Appends a word and a number.
fn push_figure(
    text: &mut Vec<u8>,
    word: &[u8],
    one: &ReplicaFigures<'_>,
    figure: Figure,
) -> Result<(), AllocError> {
    push_text(text, word)?;
    push_number(text, one.get(figure))
}

/// Appends a line of how far one replica is, which runs as a process.
///
/// # Errors
///
/// If memory was refused; the text has a part of the line then.
pub fn push_state(text: &mut Vec<u8>, one: &ReplicaFigures<'_>) -> Result<(), AllocError> {
    push_figure(text, b"safe ", one, Figure::Safe)?;
    push_figure(text, b" events ", one, Figure::Events)?;
    push_figure(text, b" records ", one, Figure::Records)?;
    push_figure(text, b" messages ", one, Figure::Messages)?;
    push_figure(text, b" nulls ", one, Figure::Nulls)?;
    push_figure(text, b" connections ", one, Figure::Begun)?;
    push_figure(text, b" broken ", one, Figure::Broken)?;
    push_figure(text, b" resent ", one, Figure::Resent)?;
    push_text(text, b"\n")
}
