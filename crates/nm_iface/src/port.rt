//! Ports: drop-tail queues.

ghost use Rattle.std.specs.Prelude.{◌≡◌, ℕ, ◌+◌, ◌<◌, ◌≤◌, ◌^◌, if◌then◌else◌, List, []};
ghost use Rattle.std.specs.Prelude.{Option, Some, None, OnOk, IfSome, IsSome, length, sum_by};
ghost use Rattle.std.specs.Prelude.{true, false};
ghost use Rattle.std.specs.Option.{option_map};
ghost use Rattle.nm_base.specs.Count.{saturated};
ghost use Rattle.nm_base.specs.declared.limits.TheConstants.{MAX_DELAY, MAX_PACKET_OCTETS};
ghost use Rattle.nm_base.specs.declared.limits.TheConstants.{MAX_RATE, MAX_TIME};
ghost use Rattle.nm_model.specs.Port.{offered, completed, is_refused, transmitting, waiting_of};
ghost use Rattle.nm_iface.specs.PortValue.{has_room, takes, with_port};
ghost use Rattle.nm_iface.specs.Offers.{HasCopy, IsTransmission, handed_back, transmitted_packet};
ghost use Rattle.nm_iface.specs.Offers.{offering_alone, offering_by, start_alone, transmission_in};
ghost use Rattle.nm_model.specs.Offers.{offering_at};

use crate::octets::may_wait;
use crate::queue_item::QueueItem;
use crate::transmission::transmission_time;
use nm_base::{IfaceNo, Packet, Time, Twin};
use nm_model::Offering;
use std::alloc::{AllocError, Global};
use std::collections::VecDeque;
use std::marker::Model;

/// A transmission that starts.
#[derive(Drop)]
pub struct Start {
    /// The packet, and its copy for the trace.
    pub item: QueueItem,
    /// When the transmission is complete.
    pub completes: Time,
    /// When the packet arrives at the far end of the link.
    pub arrives: Time,
}

/// What becomes of a packet that is offered.
#[derive(Drop)]
pub enum Offered {
    /// Its transmission starts.
    Started(Start),
    /// It waits behind others.
    Queued,
    /// There is no room, and it is gone.
    Dropped(Twin),
}

impl Offered {
    /// What became of it, as of one that was offered to this interface.
    #[inline(always)]
    pub fn offering(&self, iface: IfaceNo) -> Offering
        ensures { result ≡ offering_by iface self.now }
    {
        match self {
            Offered::Started(_) => Offering::Started(iface),
            Offered::Queued => Offering::Waits(iface),
            Offered::Dropped(_) => Offering::Dropped(iface),
        }
    }

    /// The transmission that starts, if one does.
    pub fn started(self) -> Option<Start>
        ensures { result ≡ transmission_in self }
    {
        match self {
            Offered::Started(start) => Some(start),
            Offered::Queued | Offered::Dropped(_) => None,
        }
    }
}

/// What becomes of a packet without a record that is offered.
#[derive(Drop)]
pub enum OfferedAlone {
    /// Its transmission starts.
    Started(Start),
    /// It waits behind others.
    Queued,
    /// There is no room, and it is gone.
    Dropped,
}

impl OfferedAlone {
    /// What became of it, as of one that was offered to this interface.
    #[inline(always)]
    pub fn offering(&self, iface: IfaceNo) -> Offering
        ensures { result ≡ offering_alone iface self.now }
    {
        match self {
            OfferedAlone::Started(_) => Offering::Started(iface),
            OfferedAlone::Queued => Offering::Waits(iface),
            OfferedAlone::Dropped => Offering::Dropped(iface),
        }
    }

    /// The transmission that starts, if one does.
    #[inline(always)]
    pub fn started(self) -> Option<Start>
        ensures { result ≡ start_alone self }
    {
        match self {
            OfferedAlone::Started(start) => Some(start),
            OfferedAlone::Queued | OfferedAlone::Dropped => None,
        }
    }
}

/// A port transmits one packet at a time. Further ones wait in the order in which they came, up to
/// a limit in packets and perhaps one in octets. Those past a limit are dropped and counted
/// (drop-tail).
#[derive(Drop)]
pub struct Port {
    limit: u16,
    octet_limit: Option<u32>,
    rate: u64,
    delay: u64,
    /// When the transmission under way completes.
    busy_until: Option<Time>,
    waiting: VecDeque<QueueItem>,
    /// How many octets these packets have.
    waiting_octets: u32,
    dropped: u64,
    /// Whether what it transmits is recorded: then all that waits has its copy.
    recorded: bool,
}

impl Model for Port {
    ghost use Rattle.std.specs.Prelude.{◌≡◌, ◌<◌, ◌≤◌, ◌-◌, ◌^◌, [], All, None, IfSome, length};
    ghost use Rattle.std.specs.Prelude.{map, option_map, sum_by, true};
    ghost use Rattle.std.specs.VecDeque.{deque_len, deque_capacity};
    ghost use Rattle.std.specs.Option.{IsSome};
    ghost use Rattle.nm_base.specs.declared.limits.TheConstants.{MAX_DELAY, MAX_PACKET_OCTETS};
    ghost use Rattle.nm_base.specs.declared.limits.TheConstants.{MAX_RATE};
    ghost use Rattle.nm_iface.specs.PortValue.{PortValue};

    ghost Value = { PortValue };

    ghost view = { λ p. record {
      limit = record { packets = p.limit; octets = p.octet_limit };
      rate = p.rate;
      delay = p.delay;
      busy = option_map (λ t. record {
        completes = t;
        waiting = map (λ w. w.packet) p.waiting.items;
      }) p.busy_until;
      dropped = p.dropped;
      room = deque_capacity p.waiting - deque_len p.waiting;
      recorded = p.recorded;
    } };

    ghost invariant = { λ p. (1 ≤ p.rate) × (p.rate ≤ MAX_RATE) × (p.delay ≤ MAX_DELAY)
        × (p.busy_until ≡ None → p.waiting.items ≡ [])
        × (p.waiting_octets ≡ sum_by length (map (λ w. w.packet) p.waiting.items))
        × All (λ w. length w.packet ≤ MAX_PACKET_OCTETS) p.waiting.items
        × IfSome p.busy_until (λ t. t < 2 ^ 51)
        × (p.recorded ≡ true → All (λ w. IsSome w.copy) p.waiting.items) };
}

impl Port {
    /// An idle port with room for so many packets behind the one under way, and for so many octets
    /// if these are limited too, over a link with this rate in bits per second and this delay in
    /// nanoseconds. It takes no memory.
    pub fn new(alloc: Global, limit: u16, octet_limit: Option<u32>, rate: u64, delay: u64) -> Self
        // The rate and the delay are within their limits.
        requires least { 1 ≤ rate }
        requires greatest { rate ≤ MAX_RATE }
        requires delay { delay ≤ MAX_DELAY }

        // The port has these limits, this rate and this delay.
        ensures limit { result.limit ≡ record { packets = limit; octets = octet_limit } }
        ensures rate { result.rate ≡ rate }
        ensures delay { result.delay ≡ delay }

        // It is idle, and dropped nothing. What it transmits is recorded.
        ensures idle { result.busy ≡ None }
        ensures dropped { result.dropped ≡ 0 }
        ensures records { result.recorded ≡ true }
    {
        Port {
            limit,
            octet_limit,
            rate,
            delay,
            busy_until: None,
            waiting: VecDeque::new(alloc),
            waiting_octets: 0,
            dropped: 0,
            recorded: true,
        }
    }

    /// The port, what it transmits being recorded only if that is wanted. It takes no memory.
    pub fn recorded_if(mut self, wanted: bool) -> Self
        requires { self.recorded ≡ true }
        ensures { result ≡ record self { recorded = wanted } }
    {
        self.recorded = wanted;
        self
    }

    /// Makes room for one more packet that waits.
    ///
    /// # Errors
    ///
    /// `AllocError` if the queue could not grow. Nothing changed then, but that there may be more
    /// room.
    #[inline(always)]
    pub fn reserve_one(&mut self) -> Result<(), AllocError>
        ensures same { self.new ≡ record self.old { room = self.new.room } }
        ensures room { OnOk result (1 ≤ self.new.room) }
        ensures keeps { self.old.room ≤ self.new.room }
    {
        self.waiting.reserve(1)
    }

    /// A packet is offered.
    ///
    /// An idle port starts it. Behind a busy one it waits if fewer packets than the limit wait, and
    /// their octets and its own are at most the limit in octets, if there is one; else it is
    /// dropped. It takes no memory.
    #[inline(always)]
    pub fn offer(&mut self, now: Time, twin: Twin) -> Offered
        // The time is within its limit, and there is memory for one more packet.
        requires now { now ≤ MAX_TIME }
        requires room { 1 ≤ self.old.room }

        // The port, and the packet that starts, are those of the model.
        ensures port { self.new ≡ with_port self.old
            (offered (has_room self.old.limit) (takes self.old.rate) now twin.packet
            self.old.dropped self.old.busy).0 self.new.room }
        ensures packet { transmitted_packet (transmission_in result)
            ≡ (offered (has_room self.old.limit) (takes self.old.rate) now
            twin.packet self.old.dropped self.old.busy).1 }
        ensures start { IfSome (transmission_in result)
            (IsTransmission self.old.rate self.old.delay now twin.packet) }

        // A packet that is dropped is given back. At most one place is taken.
        ensures back { handed_back result
            ≡ if is_refused (has_room self.old.limit) twin.packet self.old.busy
            then Some twin else None }
        ensures left { self.old.room ≤ self.new.room + 1 }

        // What starts has its copy.
        ensures copied { IfSome (transmission_in result) HasCopy }

        // It starts, waits or is dropped, as by the model.
        ensures offering { (i : ℕ) → offering_by i result
            ≡ offering_at (has_room self.old.limit) i twin.packet self.old.busy }
    {
        if self.busy_until.is_none() {
            return Offered::Started(self.start(now, QueueItem::of(twin)));
        }
        let octets = twin.packet.octet_count();
        if self.has_room(octets) {
            self.wait(octets, QueueItem::of(twin));
            return Offered::Queued;
        }
        self.count_drop();
        Offered::Dropped(twin)
    }

    /// A packet without a record is offered, as by `offer`. It takes no memory.
    #[inline(always)]
    pub fn offer_alone(&mut self, now: Time, packet: Packet) -> OfferedAlone
        // What the port transmits is not recorded. The time is within its limit, and there is
        // memory for one more packet.
        requires alone { self.old.recorded ≡ false }
        requires now { now ≤ MAX_TIME }
        requires room { 1 ≤ self.old.room }

        // The port, and the packet that starts, are those of the model.
        ensures port { self.new ≡ with_port self.old
            (offered (has_room self.old.limit) (takes self.old.rate) now packet
            self.old.dropped self.old.busy).0 self.new.room }
        ensures packet { transmitted_packet (start_alone result)
            ≡ (offered (has_room self.old.limit) (takes self.old.rate) now
            packet self.old.dropped self.old.busy).1 }
        ensures start { IfSome (start_alone result)
            (IsTransmission self.old.rate self.old.delay now packet) }
        ensures left { self.old.room ≤ self.new.room + 1 }

        // It starts, waits or is dropped, as by the model.
        ensures offering { (i : ℕ) → offering_alone i result
            ≡ offering_at (has_room self.old.limit) i packet self.old.busy }
    {
        if self.busy_until.is_none() {
            return OfferedAlone::Started(self.start(now, QueueItem::alone(packet)));
        }
        let octets = packet.octet_count();
        if self.has_room(octets) {
            self.wait(octets, QueueItem::alone(packet));
            return OfferedAlone::Queued;
        }
        self.count_drop();
        OfferedAlone::Dropped
    }

    /// The transmission of a packet starts at an idle port.
    #[inline(always)]
    fn start(&mut self, now: Time, item: QueueItem) -> Start
        requires idle { self.old.busy ≡ None }
        requires now { now ≤ MAX_TIME }
        ensures port { self.new ≡ with_port self.old (transmitting (takes self.old.rate) now
            self.old.dropped item.packet []).0 self.new.room }
        ensures start { IsTransmission self.old.rate self.old.delay now item.packet result }
        ensures copy { result.item ≡ item }
        ensures room { self.new.room ≡ self.old.room }
    {
        let start = transmission(self.rate, self.delay, now, item);
        self.busy_until = Some(start.completes);
        start
    }

    /// A packet of so many octets waits behind the others, for which there is room.
    #[inline(always)]
    fn wait(&mut self, octets: usize, item: QueueItem)
        requires octets { octets ≡ length item.packet }
        requires small { octets ≤ MAX_PACKET_OCTETS }
        requires busy { IsSome self.old.busy }
        requires limit { has_room self.old.limit (waiting_of self.old.busy) item.packet ≡ true }
        requires room { 1 ≤ self.old.room }
        requires copy { self.old.recorded ≡ true → IsSome item.copy }
        ensures port { self.new ≡ with_port self.old (offered (has_room self.old.limit)
            (takes self.old.rate) 0 item.packet self.old.dropped self.old.busy).0 self.new.room }
        ensures left { self.old.room ≤ self.new.room + 1 }
    {
        self.waiting_octets += octets as u32;
        self.waiting.push_back(item).unwrap();
    }

    /// Whether a packet of so many octets may wait behind those that wait.
    #[inline(always)]
    fn has_room(&self, octets: usize) -> bool
        requires { octets ≤ MAX_PACKET_OCTETS }
        ensures { (packet : List ℕ) → length packet ≡ octets
            → result ≡ has_room self.now.limit (waiting_of self.now.busy) packet }
    {
        self.waiting.len() < usize::from(self.limit)
            && may_wait(self.octet_limit, self.waiting_octets, octets)
    }

    /// Whether what it transmits is recorded.
    #[inline(always)]
    pub fn is_recorded(&self) -> bool
        ensures { result ≡ self.now.recorded }
    {
        self.recorded
    }

    /// Whether a packet of so many octets would be dropped, if it were offered now: the port is
    /// busy, and there is no room behind it.
    #[inline(always)]
    pub fn refuses(&self, octets: usize) -> bool
        requires { octets ≤ MAX_PACKET_OCTETS }
        ensures { (packet : List ℕ) → length packet ≡ octets
            → result ≡ is_refused (has_room self.now.limit) packet self.now.busy }
    {
        self.busy_until.is_some() && !self.has_room(octets)
    }

    /// Counts a packet that was dropped. The count stops at the greatest `u64`.
    #[inline(always)]
    pub fn count_drop(&mut self)
        ensures { self.new ≡ record self.old { dropped = saturated (self.old.dropped + 1) } }
    {
        self.dropped = self.dropped.saturating_add(1);
    }

    /// The transmission under way is complete, and that of the packet at the front of the queue
    /// starts, if one waits. It takes no memory.
    #[inline(always)]
    pub fn done(&mut self, now: Time) -> Option<Start>
        // The time is within its limit, and a transmission is under way.
        requires now { now ≤ MAX_TIME }
        requires busy { IsSome self.old.busy }

        // The port, and the packet that starts, are those of the model. No place is taken.
        ensures port { self.new ≡ with_port self.old
            (completed (takes self.old.rate) now self.old.dropped self.old.busy).0 self.new.room }
        ensures packet { transmitted_packet result
            ≡ (completed (takes self.old.rate) now self.old.dropped self.old.busy).1 }
        ensures start { IfSome result
            (λ s. IsTransmission self.old.rate self.old.delay now s.item.packet s) }
        ensures room { self.old.room ≤ self.new.room }

        // What starts has its copy, if it is recorded.
        ensures copied { self.old.recorded ≡ true → IfSome result HasCopy }
    {
        match self.waiting.pop_front() {
            Some(item) => {
                self.waiting_octets -= item.packet.octet_count() as u32;
                let start = transmission(self.rate, self.delay, now, item);
                self.busy_until = Some(start.completes);
                Some(start)
            }
            None => {
                self.busy_until = None;
                None
            }
        }
    }

    /// When the transmission under way completes, if there is one: before 2^51 ns. It takes no
    /// memory.
    pub fn busy_until(&self) -> Option<Time>
        ensures value { result ≡ option_map (λ b. b.completes) self.now.busy }
        ensures soon { IfSome result (λ t. t < 2 ^ 51) }
    {
        self.busy_until
    }

    /// How many packets wait behind the one that is transmitted.
    pub fn waiting(&self) -> usize
        ensures { result ≡ length (waiting_of self.now.busy) }
    {
        self.waiting.len()
    }

    /// How many octets these packets have.
    pub fn waiting_octets(&self) -> u32
        ensures { result ≡ sum_by length (waiting_of self.now.busy) }
    {
        self.waiting_octets
    }

    /// How many packets were dropped. It stops at the greatest `u64`.
    pub fn dropped(&self) -> u64
        ensures { result ≡ self.now.dropped }
    {
        self.dropped
    }
}

/// The transmission that starts now, over a link with this rate and delay.
#[inline(always)]
fn transmission(rate: u64, delay: u64, now: Time, item: QueueItem) -> Start
    // The rate, the delay and the time are within their limits.
    requires least { 1 ≤ rate }
    requires greatest { rate ≤ MAX_RATE }
    requires delay { delay ≤ MAX_DELAY }
    requires now { now ≤ MAX_TIME }

    // It completes and arrives when the definition says.
    ensures transmission { IsTransmission rate delay now item.packet result }
    ensures completes { result.completes < 2 ^ 51 }
    ensures copy { result.item ≡ item }
{
    let completes = now.nanoseconds() + transmission_time(rate, item.packet.octet_count());
    Start {
        item,
        completes: Time::from_nanoseconds(completes),
        arrives: Time::from_nanoseconds(completes + delay),
    }
}
