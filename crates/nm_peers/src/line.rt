//! The lines of listeners.

ghost use Rattle.std.specs.Prelude.{◌≡◌, Some, IfSome};
ghost use Rattle.std.specs.Net.Socket.{IsSocketAddrV4};
ghost use Rattle.std.specs.Net.Text.{socket_v4_text};
ghost use Rattle.std.specs.declared.net.socket_addr.SocketAddrV4.{SocketAddrV4 as Socket};
ghost use Rattle.nm_peers.specs.Listeners.{Fits, listener_words};
ghost use Rattle.nm_peers.specs.declared.listener.Listener.{Listener as ListenerValue};

use crate::listener::Listener;
use nm_base::limits::MAX_REPLICA;
use nm_base::{PartNo, number_of, split_once};
use std::net::{Ipv4Addr, SocketAddrV4};

/// The address of a word `A.B.C.D:PORT`, in decimal without leading zeros.
fn address_of(word: &[u8]) -> Option<SocketAddrV4>
    ensures found { IfSome result
        (λ s. (word.now ≡ socket_v4_text s) × IsSocketAddrV4 s) }
    ensures only { (s : Socket) → IsSocketAddrV4 s → word.now ≡ socket_v4_text s
        → result ≡ Some s }
{
    let (before, behind) = split_once(word, b':')?;
    let Ok(ip) = Ipv4Addr::parse_ascii(before) else {
        return None;
    };
    let port = number_of(behind)?;
    if port > u16::MAX as u64 {
        return None;
    }
    Some(SocketAddrV4::new(ip, port as u16))
}

/// The listener of a line, without its line feed.
pub(crate) fn listener_of(line: &[u8], partitions: u32) -> Option<Listener>
    ensures found { IfSome result (λ a. (line.now ≡ listener_words a) × Fits partitions a) }
    ensures only { (a : ListenerValue) → Fits partitions a → line.now ≡ listener_words a
        → result ≡ Some a }
{
    let (first, rest) = split_once(line, b' ')?;
    let (second, third) = split_once(rest, b' ')?;
    let partition = number_of(first)?;
    let replica = number_of(second)?;
    let address = address_of(third)?;
    if partition >= partitions as u64 || replica > MAX_REPLICA {
        return None;
    }
    Some(Listener {
        partition: PartNo::new(partition as u32),
        replica: replica as u8,
        address,
    })
}
