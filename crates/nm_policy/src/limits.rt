//! The timeouts and limits of a replica, each stated once. Periods are those of a transport
//! (`nm_transport::limits`).

/// After so many periods a connection is begun again that broke before a period was over since the
/// peer's Hello.
pub const REST_PERIODS: u32 = 1;

/// After so many periods, a second, a peer is called again although its link's end is sure: it may
/// have been restarted.
pub const RECALL_PERIODS: u32 = 20;

/// After so many periods, five seconds, a connection without a Hello is closed: a stranger's, or a
/// call that nobody answers because it is held or dropped on its way.
pub const HELLO_PERIODS: u64 = 100;

/// For so many periods, a second, after its Hello the octets of a connection do not count: each
/// connection begins with frames that were sent before. What comes later is new, since a session
/// sends nothing twice.
pub const GREETING_PERIODS: u64 = 20;

/// After so many periods, five seconds, without an octet a connection is begun again if the replica
/// waits for its peer: the peer may have vanished.
pub const SILENCE_PERIODS: u64 = 100;

/// The most strangers, besides one for each replica that is to call. The next one replaces the
/// oldest.
pub const MAX_STRANGERS: usize = 64;

/// For so many periods, two seconds, a replica that is done stays while the end of a link is not
/// sure.
pub const LINGER_PERIODS: u64 = 40;

/// A replica leaves after so many polls in a row that ran out, a fifth of a second, once the ends
/// of its links are sure: a peer that lacks a Bye calls at once.
pub const QUIET_POLLS: u64 = 4;
