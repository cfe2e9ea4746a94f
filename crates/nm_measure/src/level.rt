//! How much waits at an interface, over time, in packets or in octets.

ghost use Rattle.std.specs.Prelude.{◌≡◌};
ghost use Rattle.nm_measure.specs.Waited.{waited_at as waited_until};
ghost use Rattle.nm_measure.specs.Waiting.{level_begun, level_empty, level_later};

use nm_base::Time;

/// How much waits at an interface, over time, in packets or in octets.
#[derive(Drop)]
pub struct Level {
    /// For how many nanoseconds they waited, all together, up to `since`. From then on `waiting`
    /// wait.
    waited: u128,
    since: Time,
    /// How many wait, behind the packet that is transmitted.
    waiting: u64,
    /// The most that waited at one time.
    longest: u64,
    /// The most that waited at one time since `begin_recent`.
    recent: u64,
}

/// For how many nanoseconds packets, or octets, waited up to `now`, all together: `waited` up to
/// `since`, from which on `waiting` wait.
fn waited_at(waited: u128, waiting: u64, since: Time, now: Time) -> u128
    ensures { result ≡ waited_until waited waiting since now }
{
    let time = now.nanoseconds().saturating_sub(since.nanoseconds());
    waited.saturating_add(u128::from(waiting) * u128::from(time))
}

impl Level {
    /// Nothing waited yet.
    pub(crate) fn new() -> Self
        ensures { result ≡ level_empty }
    {
        Level {
            waited: 0,
            since: Time::from_nanoseconds(0),
            waiting: 0,
            longest: 0,
            recent: 0,
        }
    }

    /// The most that waited at one time.
    pub(crate) fn longest(&self) -> u64
        ensures { result ≡ self.now.longest }
    {
        self.longest
    }

    /// The most that waited at one time since `begin_recent`.
    pub(crate) fn recent(&self) -> u64
        ensures { result ≡ self.now.recent }
    {
        self.recent
    }

    /// For how many nanoseconds they waited, all together, up to this time.
    pub(crate) fn waited(&self, now: Time) -> u128
        ensures { result ≡ waited_until self.now.waited self.now.waiting self.now.since now }
    {
        waited_at(self.waited, self.waiting, self.since, now)
    }

    /// Starts the count of the most that wait at one time again.
    pub(crate) fn begin_recent(&mut self)
        ensures { self.new ≡ level_begun self.old }
    {
        self.recent = self.waiting;
    }

    /// From now on so many wait.
    pub(crate) fn change(&mut self, waiting: u64, now: Time)
        ensures { self.new ≡ level_later self.old waiting now }
    {
        self.waited = self.waited(now);
        self.since = now;
        self.waiting = waiting;
        self.longest = self.longest.max(waiting);
        self.recent = self.recent.max(waiting);
    }
}
