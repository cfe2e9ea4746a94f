//! The source of a packet.

ghost use Rattle.std.specs.Prelude.{◌≡◌};
ghost use Rattle.nm_measure.specs.Ways.{nobodys, own_tag, reply_tag};

use crate::role::Role;
use nm_base::{NodeNo, SourceNo, Time};

/// The source of a packet. A tag is kept beside its packet and is no part of it, so that no field
/// of the packet can assign it to another source.
#[derive(Drop)]
pub(crate) struct Tag {
    pub role: Role,
    /// Source 0 if it counts for none.
    pub source: SourceNo,
    /// The source's node.
    pub home: NodeNo,
    /// The number of the packet, or of the one that it replies to, among those of the source, from
    /// 0 on.
    pub number: u64,
    /// When the source made the packet, or the one that it replies to.
    pub at: Time,
}

impl Tag {
    /// The tag of the packet with this number, which a source makes at this time.
    pub(crate) fn of_source(source: SourceNo, home: NodeNo, number: u64, at: Time) -> Tag
        ensures { result ≡ own_tag source home number at }
    {
        Tag {
            role: Role::Sent,
            source,
            home,
            number,
            at,
        }
    }

    /// The tag of a packet that counts for no source.
    pub(crate) fn of_nobody() -> Tag
        ensures { result ≡ nobodys }
    {
        Tag {
            role: Role::Nothing,
            source: SourceNo::new(0),
            home: NodeNo::new(0),
            number: 0,
            at: Time::from_nanoseconds(0),
        }
    }

    /// The tag of the echo reply to this packet.
    pub(crate) fn of_reply(&self) -> Tag
        ensures { result ≡ reply_tag self.now }
    {
        match self.role {
            Role::Sent => Tag {
                role: Role::Reply,
                source: self.source,
                home: self.home,
                number: self.number,
                at: self.at,
            },
            Role::Reply | Role::Nothing => Tag::of_nobody(),
        }
    }
}
