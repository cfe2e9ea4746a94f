//! One direction of a link.

ghost use Rattle.std.specs.Prelude.{◌≡◌, ◌≤◌, ◌<◌, ◌+◌, ◌-◌, ◌∷◌, ◌++◌, OnOk, IsSomeAnd, None};
ghost use Rattle.std.specs.Prelude.{[], length};
ghost use Rattle.std.specs.Option.{option_map};
ghost use Rattle.std.specs.Prelude.{slice_get};
ghost use Rattle.std.specs.VecDeque.{deque_len};

use crate::boxed_tag::BoxedTag;
use crate::tag::Tag;
use std::alloc::{AllocError, Global};
use std::collections::VecDeque;

/// One direction of a link, from the interface that sends: the tags of its packets, in one queue.
/// Packets leave a port's queue in their order, and links keep it too: the transmissions of an
/// interface do not overlap, and all of its packets take the same delay.
#[derive(Drop)]
pub(crate) struct Lane {
    /// The packets on the link, from the start of their transmission on, and behind them those that
    /// wait.
    line: VecDeque<BoxedTag>,
    /// How many packets wait at the interface.
    waiting: usize,
    ghost within: { waiting ≤ deque_len line },
}

impl Lane {
    /// No packets.
    pub(crate) fn new(alloc: Global) -> Self
        ensures line { result.line.items ≡ [] }
        ensures waiting { result.waiting ≡ 0 }
    {
        Lane {
            line: VecDeque::new(alloc),
            waiting: 0,
        }
    }

    /// The packet that has waited longest, if one waits.
    pub(crate) fn first_waiting(&self) -> Option<&Tag>
        ensures { option_map (λ x. x.now) result ≡ slice_get self.now.line.items
            (length self.now.line.items - self.now.waiting) }
    {
        Some(self.line.get(self.line.len() - self.waiting)?.get())
    }

    /// A packet's transmission starts at once. No packet waits.
    pub(crate) fn send(&mut self, tag: BoxedTag) -> Result<(), AllocError>
        ensures line { OnOk result (self.new.line.items ≡ self.old.line.items ++ tag ∷ []) }
        ensures waiting { self.new.waiting ≡ self.old.waiting }
    {
        self.line.push_back(tag)?;
        Ok(())
    }

    /// The transmission of the packet that has waited longest starts.
    pub(crate) fn send_next(&mut self)
        ensures line { self.new.line.items ≡ self.old.line.items }
        ensures waiting { self.new.waiting ≡ self.old.waiting - 1 }
    {
        self.waiting = self.waiting.saturating_sub(1);
    }

    /// A packet waits, behind all others.
    pub(crate) fn wait(&mut self, tag: BoxedTag) -> Result<(), AllocError>
        ensures line { OnOk result (self.new.line.items ≡ self.old.line.items ++ tag ∷ []) }
        ensures waiting { OnOk result (self.new.waiting ≡ self.old.waiting + 1) }
    {
        self.line.push_back(tag)?;
        self.waiting += 1;
        Ok(())
    }

    /// The packet that has been on the link longest arrives, if there is one.
    pub(crate) fn arrive(&mut self) -> Option<BoxedTag>
        ensures waiting { self.new.waiting ≡ self.old.waiting }
        ensures line { self.old.waiting < length self.old.line.items
            → IsSomeAnd result (λ tag. self.old.line.items ≡ tag ∷ self.new.line.items) }
        ensures none { length self.old.line.items ≤ self.old.waiting
            → (self.new.line.items ≡ self.old.line.items) × (result ≡ None) }
    {
        if self.line.len() <= self.waiting {
            return None;
        }
        self.line.pop_front()
    }
}
