//! What a peer sends over a whole connection, as the frames of docs/PROTOCOL.md.

use nm_fixtures::{SPLIT, ZEROS};
use nm_topology::Topology;
use std::alloc::Global;
use std::process::Abort;

/// All that replica 0 of partition 0 sends once it is done, to a replica that has no message yet:
/// Hello, Have, its message, a null message and Bye. Its link has a delay of 1,000,000 ns, and
/// takes at least 1,000 ns for a packet, so that after `stop` it promises 11,001,000 ns.
const ZERO_SAYS: &str = "0000002c 01 4e4d5331 0002 00000000 00 DIGEST \
0000000d 02 00000000 0000000000000000 \
00000079 03 00000001 0000000000000000 000000000010c8e0 \
4500006400000000401166870a0000010a00000203e800090050e75a ZEROS \
00000015 04 00000001 0000000000000001 0000000000a7dca8 \
00000001 05";

/// The same of partition 1, which sends no message.
const ONE_SAYS: &str = "0000002c 01 4e4d5331 0002 00000001 00 DIGEST \
0000000d 02 00000001 0000000000000000 \
00000015 04 00000000 0000000000000000 0000000000a7dca8 \
00000001 05";

/// The Hello of partition 0, and then rubbish.
const HELLO_AND_RUBBISH: &str = "0000002c 01 4e4d5331 0002 00000000 00 DIGEST 00000001 4d";

/// No frame has this kind.
const RUBBISH: &str = "00000001 4d";

/// The place of the replica in a Hello.
const REPLICA_AT: usize = 15;

/// The octets of a Hello with its length.
pub const HELLO_OCTETS: usize = 48;

/// Who speaks over a connection.
#[derive(Clone, Copy)]
pub enum Voice {
    /// The peer's replica of this number, which sends all.
    Peer(u8),
    /// The peer's replica of this number, which sends its Hello and no more.
    Greeted(u8),
    /// One that stops in the middle of a Hello.
    Begun,
    /// One that sends nothing.
    Silent,
    /// One that sends octets that are no frame.
    Rubbish,
    /// One that sends a Hello, and then octets that are no frame.
    RubbishBehindHello,
}

/// The octets sent to a replica that is called, or to one that calls, in hexadecimal.
fn text_of(voice: Voice, is_called: bool) -> &'static str {
    match voice {
        Voice::Peer(_) | Voice::Greeted(_) | Voice::Begun => {
            if is_called { ZERO_SAYS } else { ONE_SAYS }
        }
        Voice::Silent => "",
        Voice::Rubbish => RUBBISH,
        Voice::RubbishBehindHello => HELLO_AND_RUBBISH,
    }
}

/// The octets of a text in hexadecimal, with this digest for DIGEST, and 72 octets of 0 for ZEROS.
fn octets_of<R: Abort>(rt: &R, alloc: Global, text: &str, digest: &[u8]) -> Vec<u8> {
    let digest = hex::encode(alloc, digest).expect(rt, "memory");
    let text = text
        .replace(alloc, "DIGEST", digest.as_str())
        .expect(rt, "memory");
    let text = text.replace(alloc, "ZEROS", ZEROS).expect(rt, "memory");
    let text = text.replace(alloc, " ", "").expect(rt, "memory");
    hex::decode(alloc, text.as_str()).expect(rt, "a text in hexadecimal")
}

/// The digest of SPLIT.
pub fn digest_of<R: Abort>(rt: &R, alloc: Global) -> [u8; 32] {
    Topology::read(alloc, SPLIT.as_bytes())
        .expect(rt, "a network")
        .digest()
}

/// The Hello at the begin of these octets is that of this replica.
fn set_replica(said: &mut [u8], replica: u8) {
    if let Some(octet) = said.get_mut(REPLICA_AT) {
        *octet = replica;
    }
}

/// The octets sent to a replica that is called, or to one that calls.
pub fn said_by<R: Abort>(
    rt: &R,
    alloc: Global,
    voice: Voice,
    is_called: bool,
    digest: &[u8],
) -> Vec<u8> {
    let mut said = octets_of(rt, alloc, text_of(voice, is_called), digest);
    match voice {
        Voice::Peer(replica) => set_replica(&mut said, replica),
        Voice::Greeted(replica) => {
            said.truncate(HELLO_OCTETS);
            set_replica(&mut said, replica);
        }
        Voice::Begun => said.truncate(40),
        _ => {}
    }
    said
}
