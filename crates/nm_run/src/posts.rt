//! Where the replicas of a run listen, and their stations.

ghost use Rattle.std.specs.Prelude.{◌==◌, ◌≡◌, ◌+◌, ◌∷◌, [], IfOk, OnOk, length, map, not};
ghost use Rattle.std.specs.Prelude.{vec_len};
ghost use Rattle.std.specs.Net.Addr.{ipv4_octets};
ghost use Rattle.std.specs.Net.Socket.{v4_ip, v4_port};
ghost use Rattle.std.specs.declared.net.socket_addr.SocketAddr.TheVariants.{V4};
ghost use Rattle.nm_run.specs.Posts.{ArePosted};
ghost use Rattle.nm_run.specs.Replicas.{IsNextListener, listener_pair};

use crate::stations::Station;
use crate::stop::Stop;
use crate::waking::woken_poll;
use mio::Poll;
use nm_peers::Listener;
use nm_shared::{Lending, Plain, SharedBook};
use nm_transport::Bound;
use std::alloc::Global;
use std::io;
use std::net::{Ipv4Addr, Net, SocketAddr, SocketAddrV4};
use std::sync::OnceLock;

/// A socket that listens, and the poll on which its replica will wait.
#[derive(Drop)]
pub(crate) struct Post {
    pub bound: Bound,
    pub poll: Poll,
}

/// What the replicas of a run begin with, in the order of their books: the station of each, its
/// post, and where it listens.
#[derive(Drop)]
pub(crate) struct Posts {
    pub stations: Vec<Station>,
    pub posts: Vec<Post>,
    pub listeners: Vec<Listener>,
}

/// The host at which the replicas of a run listen: 127.0.0.1 (RFC 1122, section 3.2.1.3), which no
/// other machine reaches.
fn own_host() -> Ipv4Addr
    ensures { ipv4_octets result ≡ 127 ∷ 0 ∷ 0 ∷ 1 ∷ [] }
{
    Ipv4Addr::LOCALHOST
}

/// Where a replica of a run asks to listen: only `ListenAt::own` makes it.
#[derive(Clone, Copy)]
struct ListenAt {
    address: SocketAddrV4,
}

impl ListenAt {
    /// At its own host, and a port that the system chooses.
    fn own() -> Self
        ensures host { ipv4_octets (v4_ip result.address) ≡ 127 ∷ 0 ∷ 0 ∷ 1 ∷ [] }
        ensures port { v4_port result.address ≡ 0 }
    {
        ListenAt {
            address: SocketAddrV4::new(own_host(), 0),
        }
    }

    /// Listens there.
    fn open<R: Net>(self, net: &R) -> io::Result<Bound> {
        Bound::listen(net, SocketAddr::V4(self.address))
    }
}

/// A socket that listens at a free port of 127.0.0.1, and the listener of this book's replica at
/// that address.
fn listen<R: Net>(net: &R, book: &SharedBook<Plain>) -> io::Result<(Bound, Listener)>
    ensures replica { IfOk result (λ opened. (opened.1.partition ≡ book.now.partition)
        × (opened.1.replica ≡ book.now.replica)) }
    ensures address { IfOk result (λ opened. opened.0 ≡ V4 opened.1.address) }
{
    let bound = ListenAt::own().open(net)?;
    match bound.at() {
        SocketAddr::V4(address) => Ok((
            bound,
            Listener {
                partition: book.partition,
                replica: book.replica,
                address,
            },
        )),
        SocketAddr::V6(_) => Err(io::ErrorKind::Other.into()),
    }
}

/// Opens the post of the replica of a book, with this lending of the book.
fn open_one<R: Net>(
    net: &R,
    posts: &mut Posts,
    book: &SharedBook<Plain>,
    lending: Lending,
) -> Result<(), Stop>
    ensures named { OnOk result (IsNextListener posts.old.listeners.items
        posts.new.listeners.items (book.now.partition, book.now.replica)) }
    ensures one { OnOk result ((vec_len posts.new.stations ≡ vec_len posts.old.stations + 1)
        × (vec_len posts.new.posts ≡ vec_len posts.old.posts + 1)) }
    ensures posted { ArePosted posts.old → OnOk result (ArePosted posts.new) }
{
    let (bound, listener) = listen(net, book)?;
    let (poll, waker) = woken_poll(net)?;
    posts.posts.push(Post { bound, poll })?;
    posts.listeners.push(listener)?;
    posts.stations.push(Station {
        lending,
        waker: waker.into_waker(),
        ended: OnceLock::new(),
    })?;
    Ok(())
}

/// The lending of each book at first: to the pool. A partition that is alone has no messages to
/// wait for: its own threads run its books, and write records while they are in the cache.
fn first_lending(partitions: u32) -> Lending
    ensures { result ≡ not (partitions == 1) }
{
    if partitions == 1 {
        Lending::alone()
    } else {
        Lending::new()
    }
}

/// Opens the posts of all replicas, in the order of their books.
///
/// # Errors
///
/// `Net` if a replica cannot listen or wait. `Memory` if memory was refused.
pub(crate) fn open_posts<R: Net>(
    net: &R,
    alloc: Global,
    partitions: u32,
    books: &[SharedBook<Plain>],
) -> Result<Posts, Stop>
    ensures named { IfOk result (λ p. map listener_pair p.listeners.items
        ≡ map (λ b. (b.partition, b.replica)) books.now) }
    ensures all { IfOk result (λ p. (vec_len p.stations ≡ length books.now)
        × (vec_len p.posts ≡ length books.now)) }
    ensures posted { IfOk result ArePosted }
{
    let mut posts = Posts {
        stations: Vec::new(alloc),
        posts: Vec::new(alloc),
        listeners: Vec::new(alloc),
    };
    for number in 0..books.len() {
        open_one(net, &mut posts, &books[number], first_lending(partitions))?;
    }
    Ok(posts)
}
