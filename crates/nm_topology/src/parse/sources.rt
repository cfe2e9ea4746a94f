//! The tables of `source`, each read by itself.

ghost use Rattle.std.specs.Prelude.{◌≡◌, ◌≤◌, IfOk};
ghost use Rattle.nm_base.specs.declared.limits.TheConstants.{MAX_TIME};
ghost use Rattle.nm_topology.specs.Parse.Arrays.{in_table};
ghost use Rattle.toml.specs.Data.{array};
ghost use Rattle.toml.specs.View.{table_view, items_view, view};
ghost use Rattle.nm_topology.specs.Fault.{Gives};
ghost use Rattle.nm_topology.specs.Parse.Fields.{required, text_at, value_at};
ghost use Rattle.nm_topology.specs.Parse.Sources.{octets_of, packet_of, packets_from, packets_of};
ghost use Rattle.nm_topology.specs.Parse.Sources.{flow_of, cbr_of, echo_of, raw_of, source_kind_of};
ghost use Rattle.nm_topology.specs.Parse.Sources.{fields_of_kind, source_table_of, named_traffic_of};

use crate::fault::{Refusal, TopoFault};
use crate::keys::field::Field;
use crate::keys::fields::{
    CBR_TABLE, COUNT, ECHO_TABLE, FILL, IDENTIFIER, INTERVAL, PORT, RAW_TABLE, START, TTL,
    packet_table, size_under, time_from,
};
use crate::keys::key::TableKey;
use crate::parse::arrays::{FromTable, Member, all_fit};
use crate::parse::fields::{
    field, only, optional_number, required_address, required_name, required_number,
    required_plain_text,
};
use crate::parse::head::Head;
use crate::traffic::{Cbr, Echo, Flow, RawPacket};
use bytes::Bytes;
use hex::FromHexError;
use nm_base::limits::MAX_RAW_PACKETS;
use nm_base::{Packet, Time};
use std::alloc::Global;
use std::marker::Model;
use toml::{Table, Value};

/// The packets of a table of `source`, with a name in place of an interface's number.
#[derive(Drop)]
pub enum NamedTraffic {
    Cbr(Cbr),
    Echo(Echo),
    Raw(NamedRaw),
}

#[derive(Drop)]
pub struct NamedRaw {
    pub via: String,
    pub packets: Vec<RawPacket>,
}

impl Model for NamedRaw {
    ghost use Rattle.std.specs.Prelude.{string_bytes};
    ghost use Rattle.nm_topology.specs.Parse.NamedRawValue.{NamedRawValue};

    ghost Value = { NamedRawValue };

    ghost view = { λ r. record { via = string_bytes r.via; packets = r.packets.items } };
}

/// A table of `source`.
#[derive(Drop)]
pub struct SourceTable {
    pub node: String,
    pub traffic: NamedTraffic,
}

impl Model for SourceTable {
    ghost use Rattle.std.specs.Prelude.{string_bytes};
    ghost use Rattle.nm_topology.specs.Parse.SourceTableValue.{SourceTableValue};

    ghost Value = { SourceTableValue };

    ghost view = { λ r. record { node = string_bytes r.node; traffic = r.traffic } };
}

/// The octets of a raw packet: hexadecimal, 1 to `mtu` octets.
pub fn required_octets(
    alloc: Global,
    mtu: u16,
    table: &Table,
    key: TableKey,
) -> Result<Packet, TopoFault>
    ensures { Gives (λ p. p) result
        (required (octets_of mtu) (value_at key (table_view table.now))) }
{
    let text = required_plain_text(table, key)?;
    let octets = match hex::decode(alloc, text) {
        Ok(octets) => octets,
        Err(FromHexError::OutOfMemory) => return Err(TopoFault::Memory),
        Err(_) => return Err(TopoFault::Refused(Refusal::Hex)),
    };
    if octets.is_empty() || octets.len() > mtu as usize {
        return Err(TopoFault::Refused(Refusal::Range));
    }
    Ok(Packet::from_octets(alloc, Bytes::from_vec(octets)?)?)
}

/// A table of `packet` with a time of at least `least` nanoseconds.
#[tactic(auto, unfolding(crate::specs::Parse::Sources::packet_of))]
fn raw_packet(alloc: Global, mtu: u16, least: u64, table: &Table) -> Result<RawPacket, TopoFault>
    ensures within { IfOk result (λ p. p.at ≤ MAX_TIME) }
    ensures value { Gives (λ p. p) result (packet_of mtu least (table_view table.now)) }
{
    only(table, &packet_table(least))?;
    let at = required_number(table, TableKey::At, time_from(least))?;
    let packet = required_octets(alloc, mtu, table, TableKey::Data)?;
    Ok(RawPacket {
        at: Time::from_nanoseconds(at),
        packet,
    })
}

fn raw_member(alloc: Global, mtu: u16, least: u64, value: &Value) -> Result<RawPacket, TopoFault>
    ensures within { IfOk result (λ p. p.at ≤ MAX_TIME) }
    ensures value { Gives (λ p. p) result (in_table (packet_of mtu least) (view value.now)) }
{
    match value {
        Value::Table(table) => raw_packet(alloc, mtu, least, table),
        _ => Err(TopoFault::Refused(Refusal::Kind)),
    }
}

impl Member for RawPacket {
    ghost use Rattle.nm_topology.specs.Parse.Arrays.{is_table};

    ghost has_type = { is_table };

    fn is_of_type(value: &Value) -> bool {
        matches!(value, Value::Table(_))
    }
}

/// The packets of a raw source, each later than the one before.
fn packets(alloc: Global, mtu: u16, items: &[Value]) -> Result<Vec<RawPacket>, TopoFault>
    ensures { Gives (λ v. v.items) result (packets_from mtu 0 (items_view items.now)) }
{
    let mut packets = Vec::new(alloc);
    let mut least = 0;
    for item in items {
        let packet = raw_member(alloc, mtu, least, item)?;
        least = packet.at.nanoseconds() + 1;
        packets.push(packet)?;
    }
    Ok(packets)
}

/// The packets of a raw source.
pub fn required_packets(
    alloc: Global,
    mtu: u16,
    table: &Table,
    key: TableKey,
) -> Result<Vec<RawPacket>, TopoFault>
    ensures { Gives (λ v. v.items) result
        (required (packets_of mtu) (value_at key (table_view table.now))) }
{
    let Some(value) = field(table, key) else {
        return Err(TopoFault::Refused(Refusal::Missing));
    };
    match value {
        Value::Array(items) => some_packets(alloc, mtu, items),
        _ => Err(TopoFault::Refused(Refusal::Kind)),
    }
}

#[tactic(auto, using(crate::proofs::Members::count_view))]
fn some_packets(alloc: Global, mtu: u16, items: &[Value]) -> Result<Vec<RawPacket>, TopoFault>
    ensures { Gives (λ v. v.items) result (packets_of mtu (array (items_view items.now))) }
{
    if !all_fit::<RawPacket>(items) {
        return Err(TopoFault::Refused(Refusal::Kind));
    }
    if items.len() > MAX_RAW_PACKETS {
        return Err(TopoFault::Refused(Refusal::TooMany));
    }
    packets(alloc, mtu, items)
}

#[tactic(auto, unfolding(crate::specs::Parse::Sources::flow_of))]
fn flow(mtu: u16, table: &Table) -> Result<Flow, TopoFault>
    ensures { Gives (λ x. x) result (flow_of mtu (table_view table.now)) }
{
    let size = required_number(table, TableKey::Size, size_under(mtu))?;
    let fill = optional_number(table, TableKey::Fill, FILL, 0)?;
    let start = required_number(table, TableKey::Start, START)?;
    let interval = required_number(table, TableKey::Interval, INTERVAL)?;
    let count = required_number(table, TableKey::Count, COUNT)?;
    let ttl = optional_number(table, TableKey::Ttl, TTL, 64)?;
    Ok(Flow {
        size: size as u16,
        fill: fill as u8,
        start: Time::from_nanoseconds(start),
        interval,
        count: count as u32,
        ttl: ttl as u8,
    })
}

/// The packets of a table of kind "cbr".
#[tactic(auto, unfolding(crate::specs::Parse::Sources::cbr_of))]
fn cbr_traffic(mtu: u16, table: &Table) -> Result<NamedTraffic, TopoFault>
    ensures { Gives (λ x. x) result (cbr_of mtu (table_view table.now)) }
{
    let to = required_address(table, TableKey::To)?;
    let source_port = required_number(table, TableKey::SourcePort, PORT)?;
    let destination_port = required_number(table, TableKey::DestinationPort, PORT)?;
    let flow = flow(mtu, table)?;
    Ok(NamedTraffic::Cbr(Cbr {
        to,
        source_port: source_port as u16,
        destination_port: destination_port as u16,
        flow,
    }))
}

/// The packets of a table of kind "echo".
#[tactic(auto, unfolding(crate::specs::Parse::Sources::echo_of))]
fn echo_traffic(mtu: u16, table: &Table) -> Result<NamedTraffic, TopoFault>
    ensures { Gives (λ x. x) result (echo_of mtu (table_view table.now)) }
{
    let to = required_address(table, TableKey::To)?;
    let identifier = required_number(table, TableKey::Identifier, IDENTIFIER)?;
    let flow = flow(mtu, table)?;
    Ok(NamedTraffic::Echo(Echo {
        to,
        identifier: identifier as u16,
        flow,
    }))
}

/// The packets of a table of kind "raw".
#[tactic(auto, unfolding(crate::specs::Parse::Sources::raw_of))]
fn raw_traffic(alloc: Global, mtu: u16, table: &Table) -> Result<NamedTraffic, TopoFault>
    ensures { Gives (λ x. x) result (raw_of mtu (table_view table.now)) }
{
    let via = required_name(alloc, table, TableKey::Via)?;
    let packets = required_packets(alloc, mtu, table, TableKey::Packet)?;
    Ok(NamedTraffic::Raw(NamedRaw { via, packets }))
}

/// The kinds of sources.
#[derive(Clone, Copy)]
pub enum SourceKind {
    Cbr,
    Echo,
    Raw,
}

impl SourceKind {
    /// The fields of a table of `source` of this kind.
    pub fn fields(self) -> &'static [Field]
        ensures { result.now ≡ fields_of_kind self }
    {
        match self {
            SourceKind::Cbr => &CBR_TABLE,
            SourceKind::Echo => &ECHO_TABLE,
            SourceKind::Raw => &RAW_TABLE,
        }
    }
}

/// The value at the kind of a source.
pub fn required_source_kind(table: &Table, key: TableKey) -> Result<SourceKind, TopoFault>
    ensures { Gives (λ k. k) result (text_at source_kind_of key (table_view table.now)) }
{
    match required_plain_text(table, key)? {
        "cbr" => Ok(SourceKind::Cbr),
        "echo" => Ok(SourceKind::Echo),
        "raw" => Ok(SourceKind::Raw),
        _ => Err(TopoFault::Refused(Refusal::Range)),
    }
}

/// The packets of a table of this kind.
fn traffic(
    alloc: Global,
    mtu: u16,
    table: &Table,
    kind: SourceKind,
) -> Result<NamedTraffic, TopoFault>
    ensures { Gives (λ x. x) result (named_traffic_of kind mtu (table_view table.now)) }
{
    match kind {
        SourceKind::Cbr => cbr_traffic(mtu, table),
        SourceKind::Echo => echo_traffic(mtu, table),
        SourceKind::Raw => raw_traffic(alloc, mtu, table),
    }
}

/// A table of `source`.
#[tactic(auto, unfolding(crate::specs::Parse::Sources::source_table_of))]
fn source_table(alloc: Global, mtu: u16, table: &Table) -> Result<SourceTable, TopoFault>
    ensures { Gives (λ x. x) result (source_table_of mtu (table_view table.now)) }
{
    let kind = required_source_kind(table, TableKey::Kind)?;
    only(table, kind.fields())?;
    let node = required_name(alloc, table, TableKey::Node)?;
    let traffic = traffic(alloc, mtu, table, kind)?;
    Ok(SourceTable { node, traffic })
}

impl FromTable for SourceTable {
    ghost use Rattle.nm_topology.specs.Parse.Sources.{source_table_of};

    ghost of_table = { λ head t. source_table_of head.mtu t };

    fn from_table(alloc: Global, head: Head, table: &Table) -> Result<SourceTable, TopoFault> {
        source_table(alloc, head.mtu, table)
    }
}
