//! A topology, and the reading of one.

ghost use Rattle.nm_base.specs.declared.limits.TheConstants.{MAX_CHANNELS, MAX_IFACES, MAX_LINKS};
ghost use Rattle.nm_base.specs.declared.limits.TheConstants.{MAX_NODES, MAX_PARTITIONS};
ghost use Rattle.nm_base.specs.declared.limits.TheConstants.{MAX_SOURCES};
ghost use Rattle.nm_topology.specs.Limits.{HasOctets, IsWithinLimits};
ghost use Rattle.nm_topology.specs.PartValues.{IfaceValue, NodeValue};
ghost use Rattle.nm_topology.specs.Accepted.{AreReceivers, HasNoDoubles, IsInOrder, IsPlaced};
ghost use Rattle.nm_topology.specs.Accepted.{owners_of};
ghost use Rattle.nm_topology.specs.Parse.Ranges.{IsInRange};
ghost use Rattle.std.specs.Prelude.{◌≡◌, ◌↔◌, ℕ, ◌<◌, ◌≤◌, All, Some, length, slice_get};
ghost use Rattle.nm_topology.specs.Fault.{Gives};
ghost use Rattle.nm_topology.specs.Topology.{channel_from, network_of, receiving_iface};
ghost use Rattle.nm_topology.specs.Topology.{topology_of};

use crate::build::{self, Placed};
use crate::fault::{Refusal, TopoFault};
use crate::parse;
use crate::parse::document::{Document, read_document};
use crate::parts::{Iface, Link, Node};
use crate::resolve::{self, Resolved};
use crate::traffic::Source;
use nm_base::limits::MAX_TEXT_OCTETS;
use nm_base::{ChanNo, IfaceNo, NodeNo, SourceNo, Time};
use sha2::{Digest, Sha256};
use std::alloc::Global;
use std::marker::Model;

/// A network that is in order: what every part of nullsim runs on.
#[derive(Drop)]
pub struct Topology {
    stop: Time,
    mtu: u16,
    nodes: Vec<Node>,
    ifaces: Vec<Iface>,
    links: Vec<Link>,
    sources: Vec<Source>,
    receivers: Vec<IfaceNo>,
    partitions: u32,
    digest: [u8; 32],
}

impl Model for Topology {
    ghost use Rattle.nm_topology.specs.Accepted.{IsAccepted};
    ghost use Rattle.nm_topology.specs.TopologyValue.{TopologyValue};

    ghost Value = { TopologyValue };

    ghost invariant = { λ t. IsAccepted (record {
      stop = t.stop;
      mtu = t.mtu;
      nodes = t.nodes.items;
      ifaces = t.ifaces.items;
      links = t.links.items;
      sources = t.sources.items;
      receivers = t.receivers.items;
      partitions = t.partitions;
      digest = t.digest;
    }) };

    ghost view = { λ t. record {
      stop = t.stop;
      mtu = t.mtu;
      nodes = t.nodes.items;
      ifaces = t.ifaces.items;
      links = t.links.items;
      sources = t.sources.items;
      receivers = t.receivers.items;
      partitions = t.partitions;
      digest = t.digest;
    } };
}

/// The network of a document.
#[tactic(auto, unfolding(crate::specs::Topology::network_of))]
fn network(alloc: Global, document: Document, digest: [u8; 32]) -> Result<Topology, TopoFault>
    requires { IsInRange document }
    ensures { Gives (λ t. t) result (network_of digest document) }
{
    let Document {
        stop,
        mtu,
        nodes,
        ifaces,
        links,
        routes,
        sources,
    } = document;
    let resolved = resolve::resolve(alloc, &nodes, &ifaces, &links, &routes, sources)?;
    let partitions = build::partitions::partition_count(&nodes);
    let Placed {
        nodes,
        ifaces,
        receivers,
    } = build::place(alloc, nodes, ifaces, &resolved)?;
    let Resolved {
        owners: _,
        links,
        routes: _,
        sources,
    } = resolved;
    Ok(Topology {
        stop,
        mtu,
        nodes,
        ifaces,
        links,
        sources,
        receivers,
        partitions,
        digest,
    })
}

impl Topology {
    /// Reads a topology text of at most 16,777,216 octets. The fault is the first in the reading
    /// order: the length, then UTF-8 and TOML, then the tables key by key, then names, then the
    /// tests of the whole (docs/FORMATS.md). After `Memory` the same call may succeed with more of
    /// it.
    #[tactic(auto, unfolding(crate::specs::Topology::topology_of))]
    pub fn read(alloc: Global, text: &[u8]) -> Result<Topology, TopoFault>
        ensures { Gives (λ t. t) result (topology_of text.now) }
    {
        if text.len() > MAX_TEXT_OCTETS {
            return Err(TopoFault::Refused(Refusal::Range));
        }
        let table = parse::top_table(alloc, text)?;
        let document = read_document(alloc, &table)?;
        network(alloc, document, Sha256::digest(text))
    }

    /// The end of the simulation: nothing at this time or later is done.
    pub fn stop(&self) -> Time
        ensures { result ≡ self.now.stop }
    {
        self.stop
    }

    /// The greatest total length of an IPv4 packet on a link, in octets, 576 to 65,535.
    pub fn mtu(&self) -> u16
        ensures { result ≡ self.now.mtu }
    {
        self.mtu
    }

    /// The nodes, in the order of the text.
    pub fn nodes(&self) -> &[Node]
        ensures { result.now ≡ self.now.nodes }
    {
        &self.nodes
    }

    /// The interfaces, in the order of the text.
    pub fn ifaces(&self) -> &[Iface]
        ensures { result.now ≡ self.now.ifaces }
    {
        &self.ifaces
    }

    /// The node with this number.
    pub fn node(&self, node: NodeNo) -> &Node
        requires { node < length self.now.nodes }
        ensures { slice_get self.now.nodes node ≡ Some result.now }
    {
        &self.nodes[node.index()]
    }

    /// The interface with this number.
    pub fn iface(&self, iface: IfaceNo) -> &Iface
        requires { iface < length self.now.ifaces }
        ensures { slice_get self.now.ifaces iface ≡ Some result.now }
    {
        &self.ifaces[iface.index()]
    }

    /// The name of the node with this number; `-` if there is none.
    pub fn node_name(&self, node: NodeNo) -> &str
        ensures { (found : NodeValue) → slice_get self.now.nodes node ≡ Some found
            → result.now ≡ found.name }
    {
        match self.nodes.get(node.index()) {
            Some(node) => node.name(),
            None => "-",
        }
    }

    /// The name of the interface with this number; `-` if there is none.
    pub fn iface_name(&self, iface: IfaceNo) -> &str
        ensures { (found : IfaceValue) → slice_get self.now.ifaces iface ≡ Some found
            → result.now ≡ found.name }
    {
        match self.ifaces.get(iface.index()) {
            Some(iface) => iface.name(),
            None => "-",
        }
    }

    /// The number of the node at this index in `nodes`.
    pub fn node_number(&self, index: usize) -> NodeNo
        requires { index < length self.now.nodes }
        ensures { result ≡ index }
    {
        accepted_topologies_are_in_order(self); // law: there are few
        NodeNo::new(index as u32)
    }

    /// The number of the interface at this index in `ifaces`.
    pub fn iface_number(&self, index: usize) -> IfaceNo
        requires { index < length self.now.ifaces }
        ensures { result ≡ index }
    {
        accepted_topologies_are_in_order(self); // law: there are few
        IfaceNo::new(index as u32)
    }

    /// The number of the source at this index in `sources`.
    pub fn source_number(&self, index: usize) -> SourceNo
        requires { index < length self.now.sources }
        ensures { result ≡ index }
    {
        accepted_topologies_are_in_order(self); // law: there are few
        SourceNo::new(index as u32)
    }

    /// The number of the channel whose receiver is at this index in `receivers`.
    pub fn channel_number(&self, index: usize) -> ChanNo
        requires { index < length self.now.receivers }
        ensures { result ≡ index }
    {
        accepted_topologies_are_in_order(self); // law: there are few
        ChanNo::new(index as u32)
    }

    /// The links, in the order of the text.
    pub fn links(&self) -> &[Link]
        ensures { result.now ≡ self.now.links }
    {
        &self.links
    }

    /// The sources, in the order of the text.
    pub fn sources(&self) -> &[Source]
        ensures { result.now ≡ self.now.sources }
    {
        &self.sources
    }

    /// The interfaces that receive a channel: channel n comes in at the n-th. They rise.
    pub fn receivers(&self) -> &[IfaceNo]
        ensures { result.now ≡ self.now.receivers }
    {
        &self.receivers
    }

    /// The interface at which a channel comes in. For a number past the last channel it is the
    /// number of interfaces, at which there is none.
    pub fn receiver(&self, channel: ChanNo) -> IfaceNo
        ensures { result ≡ receiving_iface self.now channel }
    {
        match self.receivers.get(channel.index()) {
            Some(iface) => *iface,
            None => IfaceNo::new(self.ifaces.len() as u32),
        }
    }

    /// The channel that this interface receives, if its link comes from another partition.
    pub fn channel_of(&self, iface: IfaceNo) -> Option<ChanNo>
        ensures { result ≡ channel_from 0 self.now.receivers iface }
    {
        let mut channel = 0u32;
        for receiver in &self.receivers {
            if *receiver == iface {
                return Some(ChanNo::new(channel));
            }
            channel += 1;
        }
        None
    }

    /// How many partitions there are: the greatest number of one, plus one.
    pub fn partitions(&self) -> u32
        ensures { result ≡ self.now.partitions }
    {
        self.partitions
    }

    /// SHA-256 of the text.
    pub fn digest(&self) -> [u8; 32]
        ensures { result ≡ self.now.digest }
    {
        self.digest
    }
}

/// What every accepted topology has: the layers above rely on it. Each interface is one end of
/// exactly one link, and is of a node that is there; whatever it is linked to is another interface,
/// linked back to it over the same rate and delay; the routes and the raw packets of a node leave
/// by interfaces of its own; a link between partitions delays by at least 1 ns; counts are within
/// the limits; times, sizes, rates, delays, queues and counts of packets are in their ranges, and
/// the packets of a raw source come one after another; and no raw packet is empty. The receivers of
/// channels rise, and are exactly the interfaces whose links come from another partition. No two
/// nodes have one name, no two interfaces one name or one address, and no two routes of a node one
/// prefix.
pub fn accepted_topologies_are_in_order(topology: &Topology)
    // What names what is there.
    ensures order { IsInOrder topology.now.nodes topology.now.ifaces topology.now.links }
    ensures placed { All
        (λ s. IsPlaced (length topology.now.nodes) (owners_of topology.now.ifaces) s)
        topology.now.sources }
    ensures receivers { AreReceivers topology.now.nodes topology.now.ifaces topology.now.receivers }

    // How much there is.
    ensures nodes { length topology.now.nodes ≤ MAX_NODES }
    ensures ifaces { length topology.now.ifaces ≤ MAX_IFACES }
    ensures links { length topology.now.links ≤ MAX_LINKS }
    ensures sources { length topology.now.sources ≤ MAX_SOURCES }
    ensures channels { length topology.now.receivers ≤ MAX_CHANNELS }
    ensures partitions { topology.now.partitions ≤ MAX_PARTITIONS }

    // The ranges of what there is.
    ensures limits { IsWithinLimits topology.now }
    ensures octets { All (λ s. HasOctets s.traffic) topology.now.sources }

    // Nothing is there twice.
    ensures doubles { HasNoDoubles topology.now.nodes topology.now.ifaces }
{
    let _nodes = &topology.nodes;
}

/// Channel numbers and the interfaces at which channels come in say the same: `receiver` and
/// `channel_of` are each other's inverse. A channel that there is comes in at an interface that
/// there is, and any other number at none.
pub fn channels_are_numbered_by_their_receivers(topology: &Topology)
    ensures inverse { (i c : ℕ) → i < length topology.now.ifaces
        → (channel_from 0 topology.now.receivers i ≡ Some c)
        ↔ (receiving_iface topology.now c ≡ i) }
    ensures there { (c : ℕ) → c < length topology.now.receivers
        → receiving_iface topology.now c < length topology.now.ifaces }
    ensures none { (c : ℕ) → length topology.now.receivers ≤ c
        → receiving_iface topology.now c ≡ length topology.now.ifaces }
{
    accepted_topologies_are_in_order(topology);
}
