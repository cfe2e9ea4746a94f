//! The sending end of a queue.

ghost use Rattle.std.specs.Prelude.{◌≡◌, IfSome};

use super::work::{Jobs, Queued};
use crossbeam_channel::Sender;
use std::sync::Wait;

/// The sending end of a queue. The queue ends when it is dropped.
#[derive(Drop)]
pub(super) struct TrySender<J: Jobs> {
    sender: Sender<Queued<J>>,
}

impl<J: Jobs> TrySender<J> {
    pub(super) fn of(sender: Sender<Queued<J>>) -> Self {
        TrySender { sender }
    }

    /// Queues a job, and never waits: if there is no room the job comes back.
    pub(super) fn try_send<R: Wait>(&self, rt: &R, queued: Queued<J>) -> Option<Queued<J>>
        ensures { IfSome result (λ back. back ≡ queued) }
    {
        match self.sender.try_send(rt, queued) {
            Ok(()) => None,
            Err(error) => Some(error.into_inner()),
        }
    }
}
