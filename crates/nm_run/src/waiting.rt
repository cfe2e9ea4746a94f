//! The waits of the dispatcher.

ghost use Rattle.std.specs.Prelude.{◌≡◌};

use mio::{Events, Poll};
use std::time::Duration;

/// The dispatcher waited, for at most so long if there was a limit: only `Waited::on` makes it.
#[derive(Clone, Copy)]
pub(crate) struct Waited {
    limit: Option<Duration>,
}

impl Waited {
    /// Waits until something is ready on a poll.
    pub(crate) fn on(poll: &mut Poll, events: &mut Events, limit: Option<Duration>) -> Self
        ensures { result.limit ≡ limit }
    {
        // If it can't wait nothing is reported.
        let _ = poll.poll(events, limit);
        Waited { limit }
    }
}
