//! How often a link has ended.

ghost use Rattle.std.specs.Prelude.{◌≡◌};
ghost use Rattle.nm_policy.specs.Ends.{after_nobody, has_ended, is_sure, once_more};

/// How often a link has ended. An end is sure after the second one, or once a call after the first
/// finds nobody: the last Bye may be lost with its connection, and then the peer waits for a
/// connection that sends it again.
#[derive(Clone, Copy, Debug, PartialEq, Eq)]
pub enum Ends {
    /// Not yet.
    Open,
    /// Once, and the peer may not know.
    Once,
    /// The peer knows, or is gone.
    Sure,
}

impl Ends {
    /// It has ended once more.
    pub fn once_more(self) -> Ends
        ensures { result ≡ once_more self }
    {
        match self {
            Ends::Open => Ends::Once,
            Ends::Once | Ends::Sure => Ends::Sure,
        }
    }

    /// The peer was called, and nobody sent Hello.
    pub fn after_nobody(self) -> Ends
        ensures { result ≡ after_nobody self }
    {
        match self {
            Ends::Open => Ends::Open,
            Ends::Once | Ends::Sure => Ends::Sure,
        }
    }

    /// Whether it has ended.
    pub fn has_ended(self) -> bool
        ensures { result ≡ has_ended self }
    {
        match self {
            Ends::Open => false,
            Ends::Once | Ends::Sure => true,
        }
    }

    /// Whether its end is sure.
    pub fn is_sure(self) -> bool
        ensures { result ≡ is_sure self }
    {
        match self {
            Ends::Open | Ends::Once => false,
            Ends::Sure => true,
        }
    }
}
