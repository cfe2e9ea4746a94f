//! The wait of a poll: who is called before it, who is accepted after it, and what it reported.

ghost use Rattle.std.specs.Prelude.{◌&&◌, ◌+◌, ◌≡◌, Bool, IfErr, IfOk, OnOk, false, is_err, not};
ghost use Rattle.std.specs.Prelude.{true, ℕ};
ghost use Rattle.nm_policy.specs.Decisions.{are_missing};
ghost use Rattle.nm_policy.specs.Lasting.{has_lasted, lasted_after};
ghost use Rattle.nm_replica.specs.Connections.{AreAllReady, AreReady, AsksFor, DropsSome};
ghost use Rattle.nm_replica.specs.Connections.{KeepsUnreported, WaitsOnce};
ghost use Rattle.nm_transport.specs.declared.limits.TheConstants.{MAX_REPORTS};
ghost use Rattle.nm_replica.specs.declared.limits.TheConstants.{MAX_ACCEPTED};
ghost use Rattle.nm_replica.specs.Polls.{KeepsCounts, Waits, failed_waits};
ghost use Rattle.nm_replica.specs.Served.{IsInterrupted};
ghost use Rattle.nm_replica.specs.Shortage.{DropsIf, short_after};
ghost use Rattle.nm_transport.specs.Transport.{elapsed_after, has_run_out};

use crate::connections::Connections;
use crate::figuring::note_wait;
use crate::limits::{MAX_FAILED_WAITS, SCARCE_PERIODS, SHORT_PERIODS};
use crate::replica::Service;
use crate::served::Served;
use crate::serving::Serving;
use nm_policy::{Contacts, Lasted};
use nm_shared::Counts;
use nm_transport::limits::MAX_REPORTS;
use nm_transport::{Transport, Waited};
use std::alloc::Global;

/// Notes which connections are to be read: those that the wait reported, or all if a period was
/// over, so that a report that the system did not make costs a period at most.
fn note_reports<T: Transport>(
    transport: &T,
    connections: &mut Connections<T::Connection>,
    ran_out: bool,
)
    ensures contacts { connections.new.contacts ≡ connections.old.contacts }
    ensures ready { ran_out ≡ true → AreAllReady connections.new.open }
    ensures reported { ran_out ≡ false
        → AreReady (T.reported transport.now) MAX_REPORTS connections.new.open }
    ensures others { ran_out ≡ false → KeepsUnreported (T.reported transport.now) MAX_REPORTS
        connections.old.open connections.new.open }
{
    if ran_out {
        return connections.note_all();
    }
    for number in 0..MAX_REPORTS {
        let Some(report) = transport.report(number) else {
            return;
        };
        connections.note(report);
    }
}

/// Whether the system lacks resources for one more connection while a peer with an open link is not
/// connected.
fn is_lacking<T: Transport>(transport: &T, contacts: &Contacts) -> bool
    ensures { result ≡ (T.has_too_little transport.now && are_missing contacts.now) }
{
    transport.is_short() && contacts.are_missing()
}

/// If the system lacks resources for one more connection while a peer with an open link is not
/// connected, strangers are closed once that has lasted for half a second. If all are connected, no
/// connection is missing: the system refuses also if nobody has called.
///
/// # Errors
///
/// `Net` if that has lasted for a second.
fn bear_shortage<T: Transport>(
    transport: &mut T,
    serving: &mut Serving<T::Connection>,
    ran_out: bool,
) -> Result<(), Served>
    ensures idle { T.elapsed_periods transport.new ≡ T.elapsed_periods transport.old }
    ensures waits { (T.asked transport.new).waits ≡ (T.asked transport.old).waits }
    ensures early { IfErr result IsInterrupted }
    ensures short { IfErr result (λ _. has_lasted SHORT_PERIODS
        (lasted_after serving.old.short.periods ran_out) ≡ true) }
    ensures missing { IfErr result
        (λ _. are_missing serving.old.connections.contacts ≡ true) }
    ensures borne { OnOk result
        (has_lasted SHORT_PERIODS serving.new.short.periods ≡ false) }
    ensures strangers { DropsSome serving.old.connections.contacts
        serving.new.connections.contacts }
    ensures kept { KeepsCounts serving.old serving.new }
    ensures failed { serving.new.failed_waits ≡ serving.old.failed_waits }

    // How long that has lasted decides what is done, and nothing else does.
    ensures lasted { serving.new.short.periods
        ≡ short_after (T.has_too_little transport.old
        && are_missing serving.old.connections.contacts) ran_out serving.old.short.periods }
    ensures ends { is_err result ≡ has_lasted SHORT_PERIODS serving.new.short.periods }
    ensures drops { OnOk result (DropsIf (has_lasted SCARCE_PERIODS serving.new.short.periods)
        serving.old.connections.contacts serving.new.connections.contacts) }
    ensures accepts { (T.asked transport.new).accepts ≡ (T.asked transport.old).accepts }
{
    if !is_lacking(transport, &serving.connections.contacts) {
        serving.short = Lasted::new();
        return Ok(());
    }
    serving.short.pass_poll(ran_out);
    if serving.short.is_past(SHORT_PERIODS) {
        return Err(Served::Net);
    }
    if serving.short.is_past(SCARCE_PERIODS) {
        serving.connections.drop_first(transport);
    }
    Ok(())
}

/// How many waits in a row have failed, after one more with this answer.
///
/// # Errors
///
/// `Net` if too many have: the system lets it wait no more.
fn failed_waits(before: u32, waited: Waited) -> Result<u32, Served>
    ensures value { result ≡ failed_waits before waited }
    ensures early { IfErr result IsInterrupted }
{
    match waited {
        Waited::Ready | Waited::RanOut => Ok(0),
        Waited::Fault if before >= MAX_FAILED_WAITS => Err(Served::Net),
        Waited::Fault => Ok(before + 1),
    }
}

/// Waits, or only looks if more is left to do. Returns the answer of the wait.
fn wait_once<T: Transport, C: Counts>(
    service: &Service<'_, C>,
    transport: &mut T,
    serving: &Serving<T::Connection>,
) -> Waited
    ensures idle { T.elapsed_periods transport.new
        ≡ elapsed_after (T.elapsed_periods transport.old) (has_run_out result) }
    ensures to_wait { T.was_to_wait transport.new ≡ not serving.now.is_busy }
    ensures waits { (T.asked transport.new).waits ≡ (T.asked transport.old).waits + 1 }
    ensures accepts { (T.asked transport.new).accepts ≡ (T.asked transport.old).accepts }
{
    let may_wait = !serving.is_busy;
    note_wait(service, may_wait);
    let waited = transport.wait(may_wait);
    note_wait(service, false);
    waited
}

/// Calls peers, waits (or only looks, if more is left to do), and accepts connections. Answers
/// whether a period was over.
///
/// # Errors
///
/// `Memory` if memory was refused. `Net` if the system refuses connections or waits for too long.
pub(crate) fn await_transport<T: Transport, C: Counts>(
    alloc: Global,
    service: &Service<'_, C>,
    transport: &mut T,
    serving: &mut Serving<T::Connection>,
) -> Result<bool, Served>
    ensures idle { IfOk result (λ ran_out. T.elapsed_periods transport.new
        ≡ elapsed_after (T.elapsed_periods transport.old) ran_out) }
    ensures made { OnOk result
        ((T.asked transport.new).waits ≡ (T.asked transport.old).waits + 1) }
    ensures early { IfErr result IsInterrupted }
    ensures waits { IfOk result
        (λ ran_out. WaitsOnce ran_out serving.old.connections.contacts
        serving.new.connections.contacts) }
    ensures ready { IfOk result
        (λ ran_out. ran_out ≡ true → AreAllReady serving.new.connections.open) }
    ensures reported { IfOk result (λ ran_out. ran_out ≡ false
        → AreReady (T.reported transport.new) MAX_REPORTS serving.new.connections.open) }
    ensures failed { IfOk result (λ ran_out. Waits ran_out
        serving.old.failed_waits serving.new.failed_waits) }
    ensures kept { KeepsCounts serving.old serving.new }
    ensures short { IfOk result (λ ran_out. (is_lacking : Bool) × (serving.new.short.periods
        ≡ short_after is_lacking ran_out serving.old.short.periods)) }

    // The transport is asked for connections until it has none, or as many as may be came.
    ensures asked { OnOk result ((n : ℕ) × AsksFor n MAX_ACCEPTED
        (T.asked transport.old).accepts (T.asked transport.new).accepts) }
{
    serving.connections.dial_all(alloc, transport)?;
    let waited = wait_once(service, transport, serving);
    serving.failed_waits = failed_waits(serving.failed_waits, waited)?;
    let ran_out = waited.has_run_out();
    serving.connections.pass_poll(transport, ran_out);
    let neighbours = service.neighbours();
    serving
        .connections
        .accept_all(alloc, &neighbours, transport)?;
    bear_shortage(transport, serving, ran_out)?;
    // A report may be of a connection that is gone: the one with its key now is read, which does no
    // harm.
    note_reports(transport, &mut serving.connections, ran_out);
    Ok(ran_out)
}
