//! What a node notes of its peers and of the progress of its book.
//!
//! A note changes nothing that a contract sees, so each note of a peer or of progress has a value
//! that only its own call makes.

ghost use Rattle.std.specs.Prelude.{◌&&◌, ◌≡◌, IfSome, None, false, if◌then◌else◌, is_some, not};
ghost use Rattle.std.specs.Prelude.{option_map};
ghost use Rattle.slab.specs.Slab.{get};
ghost use Rattle.nm_engine.specs.Link.{has_greeted};
ghost use Rattle.nm_policy.specs.Awaited.{first_awaited_caller};
ghost use Rattle.nm_policy.specs.Contacts.{contact_at};
ghost use Rattle.nm_replica.specs.Noted.{IsAwaitedName, NotesProgress, called_name, caller_name};
ghost use Rattle.nm_replica.specs.Noted.{closing_name, differing_name, is_session_break};

use crate::acts::Standing;
use crate::connection::Connection;
use crate::connections::Connections;
use crate::replica::Service;
use nm_base::Time;
use nm_engine::{Cause, Turn};
use nm_frames::ReplicaName;
use nm_policy::Contacts;
use nm_progress::{CallerName, PeerName, Progress};
use nm_shared::Counts;

/// All before this time was noted to be done, and how many records there are: only
/// `noted_progress` makes it.
#[derive(Clone, Copy)]
pub(crate) struct NotedProgress {
    safe: Time,
    records: u64,
}

/// For which peer a node waits was noted: only `noted_awaited` makes it.
#[derive(Clone, Copy)]
pub(crate) struct NotedAwaited {
    peer: Option<PeerName>,
}

/// This peer was noted to have sent a Hello of another topology: only `noted_differing` makes it.
#[derive(Clone, Copy)]
struct NotedDiffering {
    peer: PeerName,
}

/// This peer was noted to have ended a connection before its Hello: only `noted_closing` makes it.
#[derive(Clone, Copy)]
struct NotedClosing {
    peer: PeerName,
}

/// What was noted after a turn of the connection with this key: only `note_differing` makes it.
#[derive(Clone, Copy)]
pub(crate) struct NotedTurn {
    pub key: usize,
    differing: Option<NotedDiffering>,
    closing: Option<NotedClosing>,
}

/// Where the replica of a node notes how far it is, which nobody else does.
fn node_progress<'a, C: Counts>(service: &Service<'a, C>) -> Option<&'a Progress>
    ensures { is_some result
        ≡ (service.now.notes_progress && is_some service.now.progress) }
{
    if service.notes_progress {
        service.progress
    } else {
        None
    }
}

/// A replica that calls.
fn caller_of(name: &ReplicaName) -> PeerName
    ensures { result ≡ caller_name name.now }
{
    PeerName::Caller(CallerName {
        partition: name.partition,
        replica: name.replica,
    })
}

/// A peer that is called, by its number.
fn called_of(number: usize) -> Option<PeerName>
    ensures { result ≡ called_name number }
{
    match u32::try_from(number) {
        Ok(number) => Some(PeerName::Called(number)),
        Err(_) => None,
    }
}

/// The first caller for which a replica waits, if it waits for one.
fn awaited_caller_of(contacts: &Contacts) -> Option<PeerName>
    ensures { result
        ≡ option_map (λ k. caller_name k.name) (first_awaited_caller contacts.now) }
{
    match contacts.first_awaited_caller() {
        Some(caller) => Some(caller_of(&caller.name)),
        None => None,
    }
}

/// The first peer for which a replica waits, if it waits for one.
fn awaited_of(contacts: &Contacts) -> Option<PeerName>
    ensures { IsAwaitedName contacts.now result }
{
    match contacts.first_awaited() {
        Some(number) => called_of(number),
        None => awaited_caller_of(contacts),
    }
}

/// Notes for which peer a node waits.
fn noted_awaited(progress: &Progress, peer: &Option<PeerName>) -> NotedAwaited
    ensures { result.peer ≡ peer.now }
{
    progress.note_awaited(*peer);
    NotedAwaited { peer: *peer }
}

/// Notes for which peer a node waits. That is looked for once a period.
pub(crate) fn note_awaited<C: Counts>(
    service: &Service<'_, C>,
    contacts: &Contacts,
    ran_out: bool,
) -> Option<NotedAwaited>
    ensures whether { is_some result
        ≡ (ran_out && (service.now.notes_progress && is_some service.now.progress)) }
    ensures peer { IfSome result (λ n. IsAwaitedName contacts.now n.peer) }
{
    if !ran_out {
        return None;
    }
    match node_progress(service) {
        Some(progress) => Some(noted_awaited(progress, &awaited_of(contacts))),
        None => None,
    }
}

/// Whether a link broke by what its session found.
fn is_session_break(turn: Turn) -> bool
    ensures { result ≡ is_session_break turn }
{
    match turn {
        Turn::Broken(cause) => matches!(cause, Cause::Session),
        _ => false,
    }
}

/// Who sent a Hello of another topology, if the link broke by that.
fn differing_by(turn: Turn, sender: Option<ReplicaName>) -> Option<PeerName>
    ensures { result ≡ differing_name turn sender }
{
    if !is_session_break(turn) {
        return None;
    }
    match sender {
        Some(name) => Some(caller_of(&name)),
        None => None,
    }
}

/// Whether the peer sends no more, and had not sent its Hello.
fn has_closed_early<W>(connection: &Connection<W>) -> bool
    ensures { result ≡ (connection.now.link.wire.has_ended
        && not (has_greeted connection.now.link.session)) }
{
    connection.link.wire().has_ended() && !connection.link.has_greeted()
}

/// The peer to which the replica began the connection with this key, if it ended that before its
/// Hello: it may have another topology.
fn closing_at<W>(connections: &Connections<W>, key: usize) -> Option<PeerName>
    ensures { result ≡ closing_name (contact_at connections.now.contacts.connections key)
        (get connections.now.open key) }
{
    let connection = connections.open.get(key)?;
    if !has_closed_early(connection) {
        return None;
    }
    match connections.contacts.peer_at(key) {
        Some(number) => called_of(number),
        None => None,
    }
}

/// Notes that this peer sent a Hello of another topology.
fn noted_differing(progress: &Progress, peer: &PeerName) -> NotedDiffering
    ensures { result.peer ≡ peer.now }
{
    progress.note_differing(*peer);
    NotedDiffering { peer: *peer }
}

/// The same, if one did.
fn differing_if_any(progress: &Progress, peer: &Option<PeerName>) -> Option<NotedDiffering>
    ensures { option_map (λ n. n.peer) result ≡ peer.now }
{
    match peer {
        Some(peer) => Some(noted_differing(progress, peer)),
        None => None,
    }
}

/// Notes that this peer ended a connection before its Hello.
fn noted_closing(progress: &Progress, peer: &PeerName) -> NotedClosing
    ensures { result.peer ≡ peer.now }
{
    progress.note_closing(*peer);
    NotedClosing { peer: *peer }
}

/// The same, if one did.
fn closing_if_any(progress: &Progress, peer: &Option<PeerName>) -> Option<NotedClosing>
    ensures { option_map (λ n. n.peer) result ≡ peer.now }
{
    match peer {
        Some(peer) => Some(noted_closing(progress, peer)),
        None => None,
    }
}

/// Notes which peer of a node has another topology, or ended the connection with this key before
/// its Hello, since it may have another one.
pub(crate) fn note_differing<C: Counts, W>(
    service: &Service<'_, C>,
    connections: &Connections<W>,
    key: usize,
    turn: Turn,
) -> NotedTurn
    ensures key { result.key ≡ key }
    ensures differing { is_session_break turn ≡ false → result.differing ≡ None }
    ensures closing { option_map (λ n. n.peer) result.closing
        ≡ (if service.now.notes_progress && is_some service.now.progress
        then closing_name (contact_at connections.now.contacts.connections key)
        (get connections.now.open key) else None) }
{
    let Some(progress) = node_progress(service) else {
        return NotedTurn {
            key,
            differing: None,
            closing: None,
        };
    };
    let sender = match connections.open.get(key) {
        Some(connection) => connection.link.differing(),
        None => None,
    };
    NotedTurn {
        key,
        differing: differing_if_any(progress, &differing_by(turn, sender)),
        closing: closing_if_any(progress, &closing_at(connections, key)),
    }
}

/// Notes that all before this time is done, and that there are so many records.
fn noted_progress(progress: &Progress, safe: Time, records: u64) -> NotedProgress
    ensures { (result.safe ≡ safe) × (result.records ≡ records) }
{
    progress.note(safe, records);
    NotedProgress { safe, records }
}

/// Notes the progress of its book, if nobody else does.
pub(crate) fn note_progress<C: Counts>(
    service: &Service<'_, C>,
    standing: &Standing,
) -> Option<NotedProgress>
    ensures { NotesProgress (service.now.notes_progress && is_some service.now.progress)
        standing.now result }
{
    match node_progress(service) {
        Some(progress) => Some(noted_progress(progress, standing.safe, standing.records)),
        None => None,
    }
}
