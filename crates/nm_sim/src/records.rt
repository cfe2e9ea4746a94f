//! The records of a trace.

ghost use Rattle.std.specs.Prelude.{◌≡◌, ℕ, ◌≤◌, ◌<◌, ◌+◌, ◌^◌, ◌==◌, ◌++◌, ◌∷◌, List, [], Some};
ghost use Rattle.std.specs.Prelude.{IfOk, IfSome, Option, drop, OnOk, length, replicate, slice_get};
ghost use Rattle.std.specs.Prelude.{if◌then◌else◌, is_some, true, false};
ghost use Rattle.std.specs.Option.{option_map};
ghost use Rattle.nm_base.specs.declared.record.Record.{Record as TraceRecord};
ghost use Rattle.nm_model.specs.Run.{in_record, out_record};
ghost use Rattle.nm_topology.specs.TopologyValue.{TopologyValue};
ghost use Rattle.nm_base.specs.Wanted.{is_wanted};
ghost use Rattle.nm_sim.specs.Records.{HasWantedCopy, RecordsRepresent, SaysTransmission};
ghost use Rattle.nm_sim.specs.Totals.{totals_at};
ghost use Rattle.nm_sim.specs.Traffic.{came_after, iface_traffic_of, traffic_after, traffic_none};
ghost use Rattle.nm_sim.specs.Traffic.{went_after};

use crate::traffic::{IfaceTraffic, count_came, count_went};
use crate::transmitted::Transmitted;
use bytes::Bytes;
use nm_base::{Dir, IfaceNo, Packet, Record, Time, Wanted};
use nm_pcap::format::FILE_HEADER_OCTETS;
use std::alloc::{AllocError, Global};
use std::marker::Model;

/// Of so many records at most, those of one event, the others move up when the first is taken.
const FEW_RECORDS: usize = 2;

/// The wanted records of a trace, in the order of events. Those that were handed out, from the
/// first on, are not kept.
#[derive(Drop)]
pub struct Records {
    wanted: Wanted,
    list: Vec<Record>,
    /// How many at the front of the list were handed out, and are blanks.
    blanks: usize,
    /// How many were handed out in all.
    handed: u64,
    /// What came to each interface, and what it transmitted.
    traffic: Vec<IfaceTraffic>,
    /// The packet of a blank.
    nothing: Packet,
    /// How many records were counted and not kept; it stops at the greatest `u64`.
    passed: u64,
}

impl Model for Records {
    ghost use Rattle.std.specs.Prelude.{◌-◌, ◌≤◌, drop, vec_len, vec_capacity};
    ghost use Rattle.nm_sim.specs.Records.{RecordsValue};

    ghost Value = { RecordsValue };

    ghost view = { λ r. record {
      kept = drop r.blanks r.list.items;
      keeping = record { wanted = r.wanted; handed = r.handed };
      traffic = r.traffic.items;
      spare = vec_capacity r.list - vec_len r.list;
    } };

    ghost invariant = { λ r. r.blanks ≤ vec_len r.list };
}

/// A packet for blanks.
fn no_packet(alloc: Global) -> Result<Packet, AllocError> {
    Packet::from_octets(alloc, Bytes::from_static(&[0]))
}

impl Records {
    /// No records, for so many interfaces; those of `wanted` will be kept.
    pub fn new(alloc: Global, ifaces: usize, wanted: Wanted) -> Result<Self, AllocError>
        ensures kept { IfOk result (λ r. r.kept ≡ []) }
        ensures keeping { IfOk result (λ r. r.keeping ≡ record { wanted = wanted; handed = 0 }) }
        ensures traffic { IfOk result (λ r. r.traffic ≡ replicate ifaces traffic_none) }
    {
        Ok(Records {
            wanted,
            list: Vec::new(alloc),
            blanks: 0,
            handed: 0,
            traffic: vec![in alloc; IfaceTraffic::none(); ifaces]?,
            nothing: no_packet(alloc)?,
            passed: 0,
        })
    }

    /// Makes room for what one event adds at most: two records.
    ///
    /// # Errors
    ///
    /// `AllocError` if the list could not grow. Nothing else changed then.
    #[inline(always)]
    pub fn reserve(&mut self) -> Result<(), AllocError>
        ensures same { self.new ≡ record self.old { spare = self.new.spare } }
        ensures spare { OnOk result (2 ≤ self.new.spare) }
    {
        self.list.reserve(2)
    }

    /// Whether records of this interface are kept.
    #[inline(always)]
    pub fn wants(&self, iface: IfaceNo) -> bool
        ensures { result ≡ is_wanted self.now.keeping.wanted iface }
    {
        self.wanted.has(iface)
    }

    /// One more record.
    #[inline(always)]
    fn add(&mut self, record: Record)
        // There is room, and the record comes last.
        requires { 1 ≤ self.old.spare }
        ensures kept { self.new.kept ≡ self.old.kept ++ «record» ∷ [] }
        ensures keeping { self.new.keeping ≡ self.old.keeping }

        // The traffic of its interface rises, and no other.
        ensures count { length self.new.traffic ≡ length self.old.traffic }
        ensures traffic { (i : ℕ) → slice_get self.new.traffic i
            ≡ option_map (λ x. if i == «record».iface then traffic_after x «record» else x)
            (slice_get self.old.traffic i) }

        // It takes one place.
        ensures spare { self.old.spare ≤ self.new.spare + 1 }
    {
        let octets = record.packet.octet_count();
        match record.dir {
            Dir::In => count_came(&mut self.traffic, record.iface, octets),
            Dir::Out => count_went(&mut self.traffic, record.iface, octets),
        }
        self.list.push(record).unwrap();
    }

    /// A packet of so many octets came, and its record is not kept: it is counted.
    #[inline(always)]
    fn pass_came(&mut self, iface: IfaceNo, octets: u16)
        ensures same { self.new ≡ record self.old { traffic = self.new.traffic } }
        ensures count { length self.new.traffic ≡ length self.old.traffic }
        ensures traffic { (i : ℕ) → slice_get self.new.traffic i
            ≡ option_map (λ x. if i == iface then came_after x octets else x)
            (slice_get self.old.traffic i) }
    {
        count_came(&mut self.traffic, iface, usize::from(octets));
        self.passed = self.passed.saturating_add(1);
    }

    /// A packet of so many octets went, and its record is not kept: it is counted.
    #[inline(always)]
    fn pass_went(&mut self, iface: IfaceNo, octets: u16)
        ensures same { self.new ≡ record self.old { traffic = self.new.traffic } }
        ensures count { length self.new.traffic ≡ length self.old.traffic }
        ensures traffic { (i : ℕ) → slice_get self.new.traffic i
            ≡ option_map (λ x. if i == iface then went_after x octets else x)
            (slice_get self.old.traffic i) }
    {
        count_went(&mut self.traffic, iface, usize::from(octets));
        self.passed = self.passed.saturating_add(1);
    }

    /// A packet of so many octets arrived; its record is not kept.
    #[inline(always)]
    pub fn count_arrival(&mut self, iface: IfaceNo, octets: u16)
        requires { is_wanted self.old.keeping.wanted iface ≡ false }
        ensures represents { (t : TopologyValue) (trace : List (TraceRecord (List ℕ))) (time : ℕ)
            (packet : List ℕ) → octets ≡ length packet → RecordsRepresent t self.old trace
            → RecordsRepresent t self.new (trace ++ in_record time (Some (iface, packet))) }
        ensures keeping { self.new.keeping ≡ self.old.keeping }
        ensures spare { self.new.spare ≡ self.old.spare }
    {
        self.pass_came(iface, octets);
    }

    /// A packet arrived; its record is kept.
    #[inline(always)]
    pub fn record_arrival(&mut self, time: Time, iface: IfaceNo, packet: Packet)
        requires wanted { is_wanted self.old.keeping.wanted iface ≡ true }
        requires spare { 1 ≤ self.old.spare }
        ensures represents { (t : TopologyValue) (trace : List (TraceRecord (List ℕ)))
            → RecordsRepresent t self.old trace
            → RecordsRepresent t self.new (trace ++ in_record time (Some (iface, packet))) }
        ensures keeping { self.new.keeping ≡ self.old.keeping }
        ensures spare { self.old.spare ≤ self.new.spare + 1 }
    {
        let dir = Dir::In;
        self.add(Record {
            time,
            iface,
            dir,
            packet,
        });
    }

    /// A transmission started, if one did: its record is kept, if it is wanted.
    #[inline(always)]
    pub fn record_transmission(&mut self, time: Time, transmitted: Option<Transmitted>)
        requires spare { 1 ≤ self.old.spare }
        requires copied { IfSome transmitted (HasWantedCopy self.old.keeping.wanted) }
        ensures represents { (t : TopologyValue) (trace : List (TraceRecord (List ℕ)))
            (sent : Option (ℕ × List ℕ)) → SaysTransmission transmitted sent
            → RecordsRepresent t self.old trace
            → RecordsRepresent t self.new (trace ++ out_record time sent) }
        ensures keeping { self.new.keeping ≡ self.old.keeping }
    {
        if let Some(started) = transmitted {
            self.record_start(time, started);
        }
    }

    /// A transmission started: its record is kept, if it is wanted.
    #[inline(always)]
    fn record_start(&mut self, time: Time, started: Transmitted)
        requires spare { 1 ≤ self.old.spare }
        requires copied { HasWantedCopy self.old.keeping.wanted started }
        ensures represents { (t : TopologyValue) (trace : List (TraceRecord (List ℕ)))
            (sent : ℕ × List ℕ) → SaysTransmission (Some started) (Some sent)
            → RecordsRepresent t self.old trace
            → RecordsRepresent t self.new (trace ++ out_record time (Some sent)) }
        ensures keeping { self.new.keeping ≡ self.old.keeping }
    {
        let Transmitted {
            iface,
            octets,
            copy,
        } = started;
        if !self.wants(iface) {
            self.pass_went(iface, octets);
            return;
        }
        if let Some(packet) = copy {
            let dir = Dir::Out;
            self.add(Record {
                time,
                iface,
                dir,
                packet,
            });
        }
    }

    /// Takes the first record out that is kept, if there is one. It takes no memory.
    #[inline(always)]
    pub fn hand_out(&mut self) -> Option<Record>
        requires { self.old.keeping.handed + length self.old.kept < 2 ^ 64 }
        ensures first { result ≡ slice_get self.old.kept 0 }
        ensures represents { (t : TopologyValue) (trace : List (TraceRecord (List ℕ)))
            → RecordsRepresent t self.old trace → RecordsRepresent t self.new trace }
        ensures keeping { self.new.keeping ≡ record self.old.keeping {
          handed = self.old.keeping.handed + (if is_some result then 1 else 0);
        } }
        ensures spare { self.old.spare ≤ self.new.spare }
    {
        if self.blanks == self.list.len() {
            return None;
        }
        let first = self.take_first();
        self.give_back();
        Some(first)
    }

    /// Takes all kept records out. Those to come are kept in the list that comes in, which is
    /// empty. It takes no memory, and gives that of the records to the caller.
    pub fn hand_out_all(&mut self, room: Vec<Record>) -> Vec<Record>
        requires few { self.old.keeping.handed + length self.old.kept < 2 ^ 64 }
        requires empty { room.items ≡ [] }
        ensures all { result.items ≡ self.old.kept }
        ensures represents { (t : TopologyValue) (trace : List (TraceRecord (List ℕ)))
            → RecordsRepresent t self.old trace → RecordsRepresent t self.new trace }
        ensures keeping { self.new.keeping ≡ record self.old.keeping {
          handed = self.old.keeping.handed + length self.old.kept;
        } }
    {
        let count = self.list.len() - self.blanks;
        let mut all = std::mem::replace(&mut self.list, room);
        all.rotate_left(self.blanks);
        all.truncate(count);
        self.blanks = 0;
        self.handed += count as u64;
        all
    }

    /// Drops all kept records: they count as handed out. It gives their memory back.
    #[inline(always)]
    pub fn let_go(&mut self)
        requires { self.old.keeping.handed + length self.old.kept < 2 ^ 64 }
        ensures represents { (t : TopologyValue) (trace : List (TraceRecord (List ℕ)))
            → RecordsRepresent t self.old trace → RecordsRepresent t self.new trace }
        ensures keeping { self.new.keeping ≡ record self.old.keeping {
          handed = self.old.keeping.handed + length self.old.kept;
        } }
    {
        self.handed = self.records();
        self.list.clear();
        self.blanks = 0;
    }

    /// The blank in place of a record that was handed out. It takes no memory, and is refused only
    /// if its packet has no room for one owner more.
    fn blank(&self) -> Result<Record, AllocError> {
        Ok(Record {
            time: Time::from_nanoseconds(0),
            iface: IfaceNo::new(0),
            dir: Dir::In,
            packet: self.nothing.clone()?,
        })
    }

    /// Takes the first record out. Of at most two records the other moves up; else a blank takes
    /// its place.
    #[inline(always)]
    fn take_first(&mut self) -> Record
        // There is a record, and the count does not overflow.
        requires there { 1 ≤ length self.old.kept }
        requires few { self.old.keeping.handed + length self.old.kept < 2 ^ 64 }

        // The first record is taken, and counted.
        ensures first { slice_get self.old.kept 0 ≡ Some result }
        ensures kept { self.new.kept ≡ drop 1 self.old.kept }
        ensures keeping { self.new.keeping ≡ record self.old.keeping {
          handed = self.old.keeping.handed + 1;
        } }

        // What was counted stays, and no place is lost.
        ensures traffic { self.new.traffic ≡ self.old.traffic }
        ensures spare { self.old.spare ≤ self.new.spare }
    {
        self.handed += 1;
        let kept = self.list.len() - self.blanks;
        if kept > FEW_RECORDS
            && let Ok(blank) = self.blank()
        {
            let first = std::mem::replace(&mut self.list[self.blanks], blank);
            self.blanks += 1;
            return first;
        }
        self.list.remove(self.blanks)
    }

    /// Gives the places of blanks back to the list once they are half of it at least, so that a
    /// record is moved once on average.
    #[inline(always)]
    fn give_back(&mut self)
        ensures same { self.new ≡ record self.old { spare = self.new.spare } }
        ensures spare { self.old.spare ≤ self.new.spare }
    {
        let count = self.list.len() - self.blanks;
        if self.blanks > 0 && self.blanks >= count {
            self.list.rotate_left(self.blanks);
            self.list.truncate(count);
            self.blanks = 0;
        }
    }

    /// How many records were handed out.
    pub fn handed(&self) -> u64
        ensures { result ≡ self.now.keeping.handed }
    {
        self.handed
    }

    /// How many records there were in all.
    pub fn records(&self) -> u64
        requires { self.now.keeping.handed + length self.now.kept < 2 ^ 64 }
        ensures { result ≡ self.now.keeping.handed + length self.now.kept }
    {
        self.handed + (self.list.len() - self.blanks) as u64
    }

    /// How many records there were of all interfaces, to show how far a run is.
    pub fn made(&self) -> u64 {
        self.handed
            .saturating_add((self.list.len() - self.blanks) as u64)
            .saturating_add(self.passed)
    }

    /// How many records an interface has, and the octets of their trace file.
    pub fn totals(&self, iface: IfaceNo) -> (u64, u64)
        ensures { (t : TopologyValue) (trace : List (TraceRecord (List ℕ)))
            → RecordsRepresent t self.now trace → result ≡ totals_at t trace iface }
    {
        match self.traffic_at(iface) {
            Some(traffic) => traffic.totals(),
            None => (0, FILE_HEADER_OCTETS as u64),
        }
    }

    /// What was counted of an interface.
    fn traffic_at(&self, iface: IfaceNo) -> Option<IfaceTraffic>
        ensures { result ≡ slice_get self.now.traffic iface }
    {
        self.traffic.get(iface.index()).copied()
    }

    /// What came to an interface and what it transmitted. `None` if there is no such interface.
    pub fn traffic(&self, iface: IfaceNo) -> Option<IfaceTraffic>
        ensures { (t : TopologyValue) (trace : List (TraceRecord (List ℕ)))
            → RecordsRepresent t self.now trace → iface < length t.ifaces
            → result ≡ Some (iface_traffic_of iface trace) }
    {
        self.traffic_at(iface)
    }

    /// The trace so far without the records that were handed out: those that are kept.
    pub fn trace(&self) -> &[Record]
        ensures { result.now ≡ self.now.kept }
    {
        &self.list[self.blanks..]
    }

    /// The records that are kept, and nothing else of this.
    pub fn into_trace(mut self) -> Vec<Record>
        ensures { result.items ≡ self.kept }
    {
        let count = self.list.len() - self.blanks;
        self.list.rotate_left(self.blanks);
        self.list.truncate(count);
        self.list
    }
}
