//! A peer that the replica calls.

ghost use Rattle.std.specs.Prelude.{◌≡◌};
ghost use Rattle.nm_policy.specs.Ends.{rest_of};
ghost use Rattle.nm_policy.specs.Peers.{called, is_missing, is_due, link_broke, link_ended};
ghost use Rattle.nm_policy.specs.Peers.{new_peer, not_called, rested};

use crate::ends::Ends;
use crate::limits::{RECALL_PERIODS, REST_PERIODS};

/// A peer that the replica calls: again after each break, and now and then after the end.
#[derive(Clone, Copy, Debug, PartialEq, Eq)]
pub struct Peer {
    /// A connection to it is begun.
    pub is_called: bool,
    /// It is not called before so many periods are over.
    pub rest: u32,
    /// How often its link has ended.
    pub ends: Ends,
}

/// For how many periods a peer is not called again, by how often its link has ended.
fn rest_of(ends: Ends, had_settled: bool) -> u32
    ensures { result ≡ rest_of ends had_settled }
{
    match ends {
        Ends::Sure => RECALL_PERIODS,
        Ends::Open | Ends::Once => { if had_settled { 0 } else { REST_PERIODS } }
    }
}

impl Peer {
    /// One that is to be called.
    pub fn new() -> Peer
        ensures { result ≡ new_peer }
    {
        Peer {
            is_called: false,
            rest: 0,
            ends: Ends::Open,
        }
    }

    /// Whether it is to be called now.
    pub fn is_due(&self) -> bool
        ensures { result ≡ is_due self.now }
    {
        !self.is_called && self.rest == 0
    }

    /// Whether it is not connected, and its link has not ended.
    pub fn is_missing(&self) -> bool
        ensures { result ≡ is_missing self.now }
    {
        !self.is_called && !self.ends.has_ended()
    }

    /// The same, after a connection to it was begun.
    pub fn called(self) -> Peer
        ensures { result ≡ called self }
    {
        Peer {
            is_called: true,
            ..self
        }
    }

    /// The same, after it could not be called: it rests.
    pub fn not_called(self) -> Peer
        ensures { result ≡ not_called self }
    {
        Peer {
            rest: rest_of(self.ends, false),
            ..self
        }
    }

    /// The same, after its link has ended. It is called once more at once, to send again a Bye that
    /// was lost.
    pub fn link_ended(self) -> Peer
        ensures { result ≡ link_ended self }
    {
        let ends = self.ends.once_more();
        Peer {
            is_called: false,
            rest: rest_of(ends, true),
            ends,
        }
    }

    /// The same, after its connection broke. `has_greeted`: the peer had sent Hello. `had_settled`:
    /// a period was over since then; else the peer rests. `was_there`: somebody was at the other
    /// end.
    pub fn link_broke(self, has_greeted: bool, had_settled: bool, was_there: bool) -> Peer
        ensures { result ≡ link_broke has_greeted had_settled was_there self }
    {
        let ends = if has_greeted || was_there {
            self.ends
        } else {
            self.ends.after_nobody()
        };
        Peer {
            is_called: false,
            rest: rest_of(ends, had_settled),
            ends,
        }
    }

    /// The same, after a poll; `ran_out`: a period was over.
    pub fn rested(&self, ran_out: bool) -> Peer
        ensures { result ≡ rested ran_out self.now }
    {
        let rest = if ran_out {
            self.rest.saturating_sub(1)
        } else {
            self.rest
        };
        Peer {
            is_called: self.is_called,
            rest,
            ends: self.ends,
        }
    }
}
