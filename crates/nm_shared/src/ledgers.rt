//! Exact counts: two ledgers of the standard library, which types name.

ghost use Rattle.std.specs.Prelude.{◌≡◌, ◌^◌, true};
ghost use Rattle.nm_shared.specs.Counted.{IsBlankOf};

use crate::counts::Counts;
use std::marker::Brand;
use std::sync::ledger::{Blank, Book as Account, Ledger, Share};

/// Names one book: its ledger of messages, and which replica it is. Passes of another book have
/// another type.
pub trait Naming: Ledger {
    ghost use Rattle.nm_shared.specs.Home.{Home};

    ghost home: { Home };
}

impl Naming for Brand {
    ghost use Rattle.nm_shared.specs.Counted.{nowhere};

    ghost home = { nowhere };
}

/// The totals of one book: a ledger of messages and one of events.
#[derive(Drop)]
pub struct Ledgers<M: Naming, E: Ledger> {
    messages: Account<M>,
    events: Account<E>,
}

/// A share of both.
#[derive(Drop)]
pub struct LedgerShares<M: Naming, E: Ledger> {
    messages: Share<M>,
    events: Share<E>,
    ghost alike: { messages.parts ≡ events.parts },
}

impl<M: Naming, E: Ledger> Ledgers<M, E> {
    /// Fresh totals, and the whole share.
    pub fn open(messages: Blank, events: Blank) -> (Ledgers<M, E>, LedgerShares<M, E>)
        requires messages { IsBlankOf M.name M.parts messages.name messages.parts }
        requires events { IsBlankOf E.name E.parts events.name events.parts }
        ensures totals { (result.0.messages.total ≡ 0) × (result.0.events.total ≡ 0) }
        ensures share { (result.1.messages.parts ≡ 2 ^ 32) × (result.1.messages.amount ≡ 0)
            × (result.1.events.amount ≡ 0) }
    {
        let (messages, messages_share) = messages.open::<M>();
        let (events, events_share) = events.open::<E>();
        (
            Ledgers { messages, events },
            LedgerShares {
                messages: messages_share,
                events: events_share,
            },
        )
    }
}

impl<M: Naming, E: Ledger> Counts for Ledgers<M, E> {
    type Share = LedgerShares<M, E>;

    ghost home = { M.home };

    ghost exact = { true };

    ghost cut = { λ _. (M.parts ≡ 2 ^ 32) × (E.parts ≡ 2 ^ 32) };

    ghost messages = { λ c. c.messages.total };

    ghost events = { λ c. c.events.total };

    ghost parts = { λ s. s.messages.parts };

    ghost messages_of = { λ s. s.messages.amount };

    ghost events_of = { λ s. s.events.amount };

    fn add(&mut self, share: &mut LedgerShares<M, E>, new_messages: u64, new_events: u64) {
        self.messages.add(&mut share.messages, new_messages);
        self.events.add(&mut share.events, new_events);
    }

    fn audit(&mut self, share: &mut LedgerShares<M, E>) {
        self.messages.audit(&mut share.messages);
        self.events.audit(&mut share.events);
    }

    fn split(share: &mut LedgerShares<M, E>) -> LedgerShares<M, E> {
        let messages = share.messages.split_off(1, 0);
        let events = share.events.split_off(1, 0);
        LedgerShares { messages, events }
    }

    fn merge(share: &mut LedgerShares<M, E>, other: LedgerShares<M, E>) {
        let LedgerShares { messages, events } = other;
        share.messages.merge(messages);
        share.events.merge(events);
    }
}
