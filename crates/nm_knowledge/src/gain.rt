//! What knowledge gains by a merge.

use crate::messages::Messages;
use nm_base::Time;
use std::marker::Model;

/// What knowledge gains by a merge, with all its memory: `Know::reserve_merge` makes it, and
/// `Know::take` takes it. A clause sees the list of (time, packet) that replaces the known one, if
/// there is one, and the clock.
#[derive(Drop)]
pub struct Gain {
    pub(crate) messages: Option<Messages>,
    pub(crate) clock: Time,
}

impl Model for Gain {
    ghost use Rattle.nm_knowledge.specs.Gain.{Gain as Gained};

    ghost Value = { Gained };

    ghost view = { λ g. record { messages = g.messages; clock = g.clock } };
}
