//! How long a replica stays after its links have ended.

ghost use Rattle.std.specs.Prelude.{◌≡◌};
ghost use Rattle.nm_policy.specs.Stays.{leaves, may_leave, stayed};

use crate::contacts::Contacts;
use crate::lasting::Lasted;
use crate::limits::{LINGER_PERIODS, QUIET_POLLS};

/// How long a replica has stayed since its links ended, for peers that may call again: the last Bye
/// may be lost with its connection, and then the peer calls at once.
#[derive(Clone, Copy, Drop)]
pub struct Stay {
    /// For how many periods.
    pub all: Lasted,
    /// How many of the last polls ran out, in a row, since the ends of its links are sure.
    pub quiet: u64,
}

impl Stay {
    /// Its links have not ended.
    pub fn new() -> Self
        ensures { (result.all.periods ≡ 0) × (result.quiet ≡ 0) }
    {
        Stay {
            all: Lasted::new(),
            quiet: 0,
        }
    }

    /// One more poll was made; `ran_out`: a period was over. The count runs while all links have
    /// ended.
    pub fn pass_poll(&mut self, contacts: &Contacts, ran_out: bool)
        ensures { self.new ≡ stayed ran_out contacts.now self.old }
    {
        if !contacts.have_ended() {
            return;
        }
        self.all.pass_poll(ran_out);
        self.quiet = if contacts.are_sure() && ran_out {
            self.quiet.saturating_add(1)
        } else {
            0
        };
    }

    /// Whether it has stayed as long as it must; `are_sure`: the ends of its links are sure.
    fn is_over(&self, are_sure: bool) -> bool
        ensures { result ≡ may_leave are_sure self.now.all.periods self.now.quiet }
    {
        if are_sure && self.quiet >= QUIET_POLLS {
            return true;
        }
        self.all.is_past(LINGER_PERIODS)
    }

    /// Whether it leaves: its links have ended, no peer that sent Hello is connected, and it has
    /// stayed as long as it must.
    pub fn leaves(&self, contacts: &Contacts) -> bool
        ensures { result ≡ leaves contacts.now self.now }
    {
        contacts.have_ended() && !contacts.are_serving() && self.is_over(contacts.are_sure())
    }
}
