//! The figures of a replica, if they are asked for.

ghost use Rattle.std.specs.Prelude.{◌&&◌, ◌≡◌, not};

use crate::acts::{HeldBack, Standing};
use crate::replica::Service;
use crate::serving::Serving;
use nm_engine::GivenCounts;
use nm_progress::{Figure, ReplicaFigures};
use nm_shared::{Counts, Pass};
use std::sync::Wait;

/// Where a replica notes its figures, if that is asked for.
fn own<'a, C: Counts>(service: &Service<'a, C>) -> Option<ReplicaFigures<'a>> {
    let figures = service.progress?.figures()?;
    Some(figures.of(service.book.partition, service.book.replica))
}

/// Notes whether the replica waits now.
pub(crate) fn note_wait<C: Counts>(service: &Service<'_, C>, waits: bool) {
    if let Some(figures) = own(service) {
        figures.set(Figure::IsWaiting, u64::from(waits));
        figures.add(Figure::Waits, u64::from(waits));
    }
}

/// Notes whether its book is lent now.
pub(crate) fn note_loan<C: Counts>(service: &Service<'_, C>, is_lent: bool) {
    if let Some(figures) = own(service) {
        figures.set(Figure::IsLent, u64::from(is_lent));
    }
}

/// Whether a replica is held back: it is going to wait, and is not done.
pub(crate) fn is_held(is_busy: bool, is_done: bool) -> bool
    ensures { result ≡ (not is_busy && not is_done) }
{
    !is_busy && !is_done
}

/// Notes what it did in one poll, and the progress of its book.
pub(crate) fn note_figures<C: Counts, W>(
    service: &Service<'_, C>,
    serving: &Serving<W>,
    standing: &Standing,
    was_run: bool,
    given: GivenCounts,
) {
    let Some(figures) = own(service) else {
        return;
    };
    figures.add(Figure::Polls, 1);
    figures.add(Figure::Windows, u64::from(was_run));
    figures.add(Figure::Messages, given.messages);
    figures.add(Figure::Nulls, given.nulls);
    figures.set(Figure::Events, standing.events);
    figures.set(Figure::Records, standing.records);
    figures.set(Figure::Safe, standing.safe.nanoseconds());
    figures.set(Figure::Begun, serving.connections.begun);
    figures.set(Figure::Broken, serving.connections.broken);
    figures.set(Figure::Resent, serving.connections.resent());
}

/// Notes which channel holds it back, if it is going to wait and is not done.
pub(crate) fn note_hold<C: Counts, R: Wait>(
    rt: &R,
    service: &Service<'_, C>,
    pass: &mut Pass<C>,
    is_held: bool,
) {
    if let (true, Some(figures)) = (is_held, own(service)) {
        if let Some(channel) = service.book.act(rt, pass, HeldBack) {
            figures.hold(channel);
        }
    }
}
