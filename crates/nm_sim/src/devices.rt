//! The nodes, ports and sources of a part of a simulation.

ghost use Rattle.std.specs.Prelude.{◌≡◌, ℕ, slice_get, slice_index, ◌+◌, ◌≤◌, ◌<◌, ◌^◌, List};
ghost use Rattle.std.specs.Prelude.{length};
ghost use Rattle.std.specs.Prelude.{Option, Some, None, OnOk, OnErr, IfOk, IfErr, IfSome, Ok, Err};
ghost use Rattle.std.specs.Prelude.{false};
ghost use Rattle.std.specs.Prelude.{sum_by};
ghost use Rattle.nm_base.specs.declared.limits.TheConstants.{MAX_TIME};
ghost use Rattle.nm_base.specs.declared.event.Origin.TheVariants.{Arrival, Source as FromSource};
ghost use Rattle.nm_base.specs.declared.event.Event.TheVariants.{Completion};
ghost use Rattle.nm_model.specs.Network.{node_of};
ghost use Rattle.nm_model.specs.Port.{idle_port, waiting_of};
ghost use Rattle.nm_model.specs.Run.{keyed};
ghost use Rattle.nm_forward.specs.Row.{arrival_row, row_counter};
ghost use Rattle.nm_forward.specs.State.{first_state, table_of};
ghost use Rattle.nm_forward.specs.Reaction.{FitsOrigin};
ghost use Rattle.nm_base.specs.Wanted.{is_wanted};
ghost use Rattle.nm_forward.specs.Reacting.{IsSent, PassesNone, PassesUnwanted, iface_of};
ghost use Rattle.nm_iface.specs.PortValue.{IsRefusedAt};
ghost use Rattle.nm_sim.specs.Network.{first_here, is_iface_here as iface_here};
ghost use Rattle.nm_sim.specs.Network.{is_node_here as node_here, is_source_here as source_here};
ghost use Rattle.nm_sim.specs.Network.{net_of};
ghost use Rattle.nm_sim.specs.Tables.{AllHere, AllSome, IsMember, IsThere};
ghost use Rattle.nm_sim.specs.Devices.{DeviceStates, DevicesRepresent, DevicesRepresentSome};
ghost use Rattle.nm_sim.specs.Devices.{IsNodeOf, IsPortOf, IsSame, IsSamePort};
ghost use Rattle.nm_traffic.specs.Source.{source_at, source_of};
ghost use Rattle.nm_forward.specs.Counter.{counter_number};
ghost use Rattle.std.specs.Option.{option_and_then, option_map};
ghost use Rattle.nm_sim.specs.Part.{completes_at};
ghost use Rattle.nm_sim.specs.Effects.{Does, IsBusy, IsCopied, ReactsWith, Sends};
ghost use Rattle.nm_sim.specs.Effects.{transmission_at as transmission_at_iface};

use crate::fired::Fired;
use crate::here::{is_iface_here, is_node_here, is_source_here, node_of_source};
use crate::sending::Sending;
use nm_base::{IfaceNo, NodeNo, Origin, Packet, PartNo, SourceNo, Time, Twin, Wanted};
use nm_forward::laws::a_node_sends_by_its_own_interfaces;
use nm_forward::{Counter, Handled, NodeState, Reaction, react, react_in_place};
use nm_iface::{Port, Start};
use nm_model::Offering;
use nm_topology::Topology;
use nm_topology::topology::accepted_topologies_are_in_order;
use nm_traffic::{Source, SourcePacket};
use std::alloc::{AllocError, Global};
use std::marker::Model;

/// The nodes, the ports of their interfaces, and the sources that are here, by their numbers.
#[derive(Drop)]
pub struct Devices {
    nodes: Vec<Option<NodeState>>,
    ports: Vec<Option<Port>>,
    sources: Vec<Option<Source>>,
    /// The port that may have no memory for one more packet.
    used: Option<IfaceNo>,
    /// Of which interfaces records are wanted.
    wanted: Wanted,
}

impl Model for Devices {
    ghost use Rattle.nm_sim.specs.Devices.{AreSound, DevicesValue};

    ghost Value = { DevicesValue };

    ghost view = { λ d. record {
      nodes = d.nodes.items;
      ports = d.ports.items;
      sources = d.sources.items;
      used = d.used;
      wanted = d.wanted;
    } };

    ghost invariant = { λ d. AreSound d.wanted d.used d.ports.items };
}

/// A node at the start of a run, if it is here.
fn first_node(
    alloc: Global,
    topology: &Topology,
    part: &Option<PartNo>,
    node: NodeNo,
) -> Result<Option<NodeState>, AllocError>
    requires { node < length topology.now.nodes }
    ensures { IfOk result (IsThere (node_here topology.now part.now node)
        (λ n. IsNodeOf topology.now node n (first_state topology.now node))) }
{
    if is_node_here(topology, part, node) {
        let state = NodeState::new(alloc, topology, node)?;
        Ok(Some(state))
    } else {
        Ok(None)
    }
}

/// The nodes that are here at the start of a run.
fn first_nodes(
    alloc: Global,
    topology: &Topology,
    part: &Option<PartNo>,
) -> Result<Vec<Option<NodeState>>, AllocError>
    ensures count { IfOk result (λ v. length v.items ≡ length topology.now.nodes) }
    ensures value { IfOk result (λ v. AllHere (node_here topology.now part.now)
        (λ i n. IsNodeOf topology.now i n (first_state topology.now i)) v.items) }
{
    let count = topology.nodes().len();
    let mut nodes = Vec::with_capacity(alloc, count)?;
    for number in 0..count {
        let node = first_node(alloc, topology, part, topology.node_number(number))?;
        nodes.push(node)?;
    }
    Ok(nodes)
}

/// The port of an interface, idle, with memory for one packet that waits, if it is here.
fn first_port(
    alloc: Global,
    topology: &Topology,
    part: &Option<PartNo>,
    wanted: &Wanted,
    iface: IfaceNo,
) -> Result<Option<Port>, AllocError>
    requires { iface < length topology.now.ifaces }
    ensures port { IfOk result (IsThere (iface_here topology.now part.now iface)
        (λ w. IsPortOf topology.now iface w idle_port)) }
    ensures room { IfOk result (λ o. IfSome o (λ w. 1 ≤ w.room)) }
    ensures recorded { IfOk result
        (λ o. IfSome o (λ w. w.recorded ≡ is_wanted wanted.now iface)) }
{
    accepted_topologies_are_in_order(topology); // law: rates and delays are within their limits
    if !is_iface_here(topology, part, iface) {
        return Ok(None);
    }
    let described = topology.iface(iface);
    let far = described.far();
    let (queue, queue_octets) = (described.queue(), described.queue_octets());
    let port = Port::new(alloc, queue, queue_octets, far.rate, far.delay);
    let mut port = port.recorded_if(wanted.has(iface));
    port.reserve_one()?;
    Ok(Some(port))
}

/// The ports of the interfaces that are here at the start of a run.
fn first_ports(
    alloc: Global,
    topology: &Topology,
    part: &Option<PartNo>,
    wanted: &Wanted,
) -> Result<Vec<Option<Port>>, AllocError>
    ensures count { IfOk result (λ v. length v.items ≡ length topology.now.ifaces) }
    ensures value { IfOk result (λ v. AllHere (iface_here topology.now part.now)
        (λ i w. IsPortOf topology.now i w idle_port) v.items) }
    ensures room { IfOk result (λ v. AllSome (λ i w. 1 ≤ w.room) v.items) }
    ensures recorded { IfOk result
        (λ v. AllSome (λ i w. w.recorded ≡ is_wanted wanted.now i) v.items) }
{
    let count = topology.ifaces().len();
    let mut ports = Vec::with_capacity(alloc, count)?;
    for number in 0..count {
        let port = first_port(alloc, topology, part, wanted, topology.iface_number(number))?;
        ports.push(port)?;
    }
    Ok(ports)
}

/// A source, if it is here.
fn first_source(
    alloc: Global,
    topology: &Topology,
    part: &Option<PartNo>,
    source: SourceNo,
) -> Result<Option<Source>, AllocError>
    requires { source < length topology.now.sources }
    ensures { IfOk result (IsThere (source_here topology.now part.now source)
        (λ s. source_of topology.now source ≡ Some s)) }
{
    if is_source_here(topology, part, source) {
        let state = Source::new(alloc, topology, source)?;
        Ok(Some(state))
    } else {
        Ok(None)
    }
}

/// The sources that are here.
fn first_sources(
    alloc: Global,
    topology: &Topology,
    part: &Option<PartNo>,
) -> Result<Vec<Option<Source>>, AllocError>
    ensures count { IfOk result (λ v. length v.items ≡ length topology.now.sources) }
    ensures value { IfOk result (λ v. AllHere (source_here topology.now part.now)
        (λ j s. source_of topology.now j ≡ Some s) v.items) }
{
    let count = topology.sources().len();
    let mut sources = Vec::with_capacity(alloc, count)?;
    for number in 0..count {
        let source = first_source(alloc, topology, part, topology.source_number(number))?;
        sources.push(source)?;
    }
    Ok(sources)
}

/// Makes memory for one more packet at a port, if it is here.
fn reserve_at(port: &mut Option<Port>) -> Result<(), AllocError>
    ensures same { IsSamePort port.old port.new }
    ensures room { OnOk result (IfSome port.new (λ w. 1 ≤ w.room)) }
{
    match port {
        Some(port) => port.reserve_one(),
        None => Ok(()),
    }
}

/// A transmission that starts, and at which interface.
fn transmission_at(iface: IfaceNo, start: Option<Start>) -> Option<(IfaceNo, Start)>
    ensures { result ≡ transmission_at_iface iface start }
{
    match start {
        Some(start) => Some((iface, start)),
        None => None,
    }
}

impl Devices {
    /// The devices that are here at the start of a run.
    pub fn new(
        alloc: Global,
        topology: &Topology,
        part: &Option<PartNo>,
        wanted: &Wanted,
    ) -> Result<Self, AllocError>
        ensures represent { IfOk result (DevicesRepresent topology.now (record {
          part = part.now;
          node = first_state topology.now;
          port = λ i. idle_port;
        })) }
        ensures wanted { IfOk result (λ d. d.wanted ≡ wanted.now) }
    {
        Ok(Devices {
            nodes: first_nodes(alloc, topology, part)?,
            ports: first_ports(alloc, topology, part, wanted)?,
            sources: first_sources(alloc, topology, part)?,
            used: None,
            wanted: wanted.again(),
        })
    }

    /// A source's first packet, if it is here and has one before the run stops, and when it comes.
    pub fn first_packet(
        &self,
        alloc: Global,
        topology: &Topology,
        source: SourceNo,
    ) -> Result<Option<(Time, SourcePacket)>, AllocError>
        requires place { source < length topology.now.sources }
        requires represented { DevicesRepresentSome topology.now self.now }
        ensures { (states : DeviceStates) → DevicesRepresent topology.now states self.now
            → IfOk result (λ p. p ≡ first_here topology.now states.part source) }
    {
        match &self.sources[source.index()] {
            Some(state) => state.next(alloc, 0),
            None => Ok(None),
        }
    }

    /// What the node counted, if it is here.
    pub fn counter(&self, node: NodeNo, counter: Counter) -> Option<u64>
        ensures { result ≡ option_and_then
            (option_map (λ n. slice_index n.counters (counter_number counter)))
            (slice_get self.now.nodes node) }
    {
        match self.nodes.get(node.index()) {
            Some(Some(state)) => Some(state.counter(counter)),
            Some(None) | None => None,
        }
    }

    /// How many packets were dropped at the interface, if it is here. It stops at the greatest
    /// `u64`.
    pub fn dropped(&self, iface: IfaceNo) -> Option<u64>
        ensures { result ≡ option_and_then (option_map (λ w. w.dropped))
            (slice_get self.now.ports iface) }
    {
        match self.ports.get(iface.index()) {
            Some(Some(port)) => Some(port.dropped()),
            Some(None) | None => None,
        }
    }

    /// How many packets wait at the interface behind the one that is transmitted, if it is here.
    pub fn waiting(&self, iface: IfaceNo) -> Option<usize>
        ensures { result ≡ option_and_then (option_map (λ w. length (waiting_of w.busy)))
            (slice_get self.now.ports iface) }
    {
        match self.ports.get(iface.index()) {
            Some(Some(port)) => Some(port.waiting()),
            Some(None) | None => None,
        }
    }

    /// How many octets these packets have.
    pub fn waiting_octets(&self, iface: IfaceNo) -> Option<u32>
        ensures { result ≡ option_and_then (option_map (λ w. sum_by length (waiting_of w.busy)))
            (slice_get self.now.ports iface) }
    {
        match self.ports.get(iface.index()) {
            Some(Some(port)) => Some(port.waiting_octets()),
            Some(None) | None => None,
        }
    }

    /// When the transmission under way at the interface completes; 0 if it is idle, or not here.
    pub fn busy(&self, iface: IfaceNo) -> Time
        ensures value { result ≡ completes_at
            (option_and_then (option_and_then (λ w. w.busy)) (slice_get self.now.ports iface)) }
        ensures soon { result < 2 ^ 51 }
    {
        let idle = Time::from_nanoseconds(0);
        match self.ports.get(iface.index()) {
            Some(Some(port)) => port.busy_until().unwrap_or(idle),
            Some(None) | None => idle,
        }
    }

    /// Makes memory for one more packet at each port.
    ///
    /// # Errors
    ///
    /// `AllocError` if a queue could not grow. Nothing else changed then.
    #[inline(always)]
    pub fn reserve(&mut self) -> Result<(), AllocError>
        ensures same { IsSame self.old self.new }
        ensures room { OnOk result (AllSome (λ i w. 1 ≤ w.room) self.new.ports) }
    {
        if let Some(iface) = self.used {
            if iface.index() < self.ports.len() {
                reserve_at(&mut self.ports[iface.index()])?;
            }
            self.used = None;
        }
        Ok(())
    }

    /// Offers what a node sends to its interface. Answers what becomes of it.
    #[inline(always)]
    pub fn offer(&mut self, topology: &Topology, time: Time, reaction: Reaction) -> Sending
        requires time { time ≤ MAX_TIME }
        requires own { IfSome (iface_of reaction) (λ i. IsMember (slice_get self.old.ports i)) }
        requires room { AllSome (λ i w. 1 ≤ w.room) self.old.ports }
        requires passes { PassesUnwanted self.old.wanted reaction }
        ensures sends { (states : DeviceStates) (sent : Option (ℕ × List ℕ))
            → DevicesRepresent topology.now states self.old
            → IsSent self.old.ports reaction sent
            → Sends topology.now states time sent self.new result }
        ensures copied { IfSome result.start (IsCopied self.old.wanted) }
        ensures wanted { self.new.wanted ≡ self.old.wanted }
    {
        match reaction {
            Reaction::Nothing => Sending {
                offering: Offering::Nothing,
                start: None,
            },
            Reaction::Send(iface, twin) => self.offer_packet(topology, time, iface, twin),
            Reaction::Pass(iface, packet) => self.offer_alone(topology, time, iface, packet),
            Reaction::Refused(iface) => self.drop_at(topology, iface),
        }
    }

    /// Offers a packet to an interface.
    #[inline(always)]
    fn offer_packet(
        &mut self,
        topology: &Topology,
        time: Time,
        iface: IfaceNo,
        twin: Twin,
    ) -> Sending
        requires time { time ≤ MAX_TIME }
        requires own { IsMember (slice_get self.old.ports iface) }
        requires room { AllSome (λ i w. 1 ≤ w.room) self.old.ports }
        ensures sends { (states : DeviceStates)
            → DevicesRepresent topology.now states self.old
            → Sends topology.now states time (Some (iface, twin.packet)) self.new result }
        ensures copied { IfSome result.start (IsCopied self.old.wanted) }
        ensures wanted { self.new.wanted ≡ self.old.wanted }
    {
        self.used = Some(iface);
        let Some(port) = &mut self.ports[iface.index()] else {
            return Sending {
                offering: Offering::Nothing,
                start: None,
            };
        };
        let offered = port.offer(time, twin);
        let offering = offered.offering(iface);
        let start = offered.started();
        Sending {
            offering,
            start: transmission_at(iface, start),
        }
    }

    /// The same for a packet without a wanted record.
    #[inline(always)]
    fn offer_alone(
        &mut self,
        topology: &Topology,
        time: Time,
        iface: IfaceNo,
        packet: Packet,
    ) -> Sending
        requires time { time ≤ MAX_TIME }
        requires own { IsMember (slice_get self.old.ports iface) }
        requires room { AllSome (λ i w. 1 ≤ w.room) self.old.ports }
        requires unwanted { is_wanted self.old.wanted iface ≡ false }
        ensures sends { (states : DeviceStates)
            → DevicesRepresent topology.now states self.old
            → Sends topology.now states time (Some (iface, packet)) self.new result }
        ensures copied { IfSome result.start (IsCopied self.old.wanted) }
        ensures wanted { self.new.wanted ≡ self.old.wanted }
    {
        self.used = Some(iface);
        let Some(port) = &mut self.ports[iface.index()] else {
            return Sending {
                offering: Offering::Nothing,
                start: None,
            };
        };
        let offered = port.offer_alone(time, packet);
        let offering = offered.offering(iface);
        let start = offered.started();
        Sending {
            offering,
            start: transmission_at(iface, start),
        }
    }

    /// A packet that the port of this interface would drop now is dropped.
    #[inline(always)]
    fn drop_at(&mut self, topology: &Topology, iface: IfaceNo) -> Sending
        requires { IsMember (slice_get self.old.ports iface) }
        ensures drops { (states : DeviceStates) (time : ℕ) (packet : List ℕ)
            → DevicesRepresent topology.now states self.old
            → IsRefusedAt self.old.ports iface packet
            → Sends topology.now states time (Some (iface, packet)) self.new result }
        ensures none { result.start ≡ None }
        ensures wanted { self.new.wanted ≡ self.old.wanted }
    {
        let Some(port) = &mut self.ports[iface.index()] else {
            return Sending {
                offering: Offering::Nothing,
                start: None,
            };
        };
        port.count_drop();
        Sending {
            offering: Offering::Dropped(iface),
            start: None,
        }
    }

    /// What a node does with a packet. An `Err` changes nothing.
    #[inline(always)]
    fn react(
        &mut self,
        alloc: Global,
        topology: &Topology,
        node: NodeNo,
        origin: Origin,
        packet: &Packet,
    ) -> Result<Reaction, AllocError>
        // The node is here, and the packet can come from this origin.
        requires node { IsMember (slice_get self.old.nodes node) }
        requires fits { FitsOrigin topology.now origin packet.now }
        requires represented { DevicesRepresentSome topology.now self.old }

        // Ports stay as they are, and if memory is refused all does.
        ensures err { OnErr result (self.new ≡ self.old) }
        ensures ports { self.new.ports ≡ self.old.ports }

        // It reacts as its rules say, and sends by an interface that is here.
        ensures twins { IfOk result PassesNone }
        ensures wanted { self.new.wanted ≡ self.old.wanted }
        ensures own { IfOk result
            (λ r. IfSome (iface_of r) (λ i. IsMember (slice_get self.new.ports i))) }
        ensures reacts { (states : DeviceStates)
            → DevicesRepresent topology.now states self.old
            → IfOk result
            (ReactsWith topology.now states node (origin, packet.now) self.new) }
    {
        a_node_sends_by_its_own_interfaces(topology); // law: what is sent leaves by an interface
        let Some(state) = &mut self.nodes[node.index()] else {
            return Ok(Reaction::Nothing);
        };
        let ports = &self.ports[..];
        react(alloc, topology, ports, state, origin, packet)
    }

    /// What the node of an interface does with a packet that arrives there. An `Err` changes
    /// nothing.
    #[inline(always)]
    pub fn react_to_arrival(
        &mut self,
        alloc: Global,
        topology: &Topology,
        iface: IfaceNo,
        packet: &Packet,
    ) -> Result<Reaction, AllocError>
        // The interface is here.
        requires place { IsMember (slice_get self.old.ports iface) }
        requires represented { DevicesRepresentSome topology.now self.old }

        // Ports stay as they are, and if memory is refused all does.
        ensures err { OnErr result (self.new ≡ self.old) }
        ensures ports { self.new.ports ≡ self.old.ports }

        // Its node reacts as its rules say, and sends by an interface that is here.
        ensures twins { IfOk result PassesNone }
        ensures wanted { self.new.wanted ≡ self.old.wanted }
        ensures own { IfOk result
            (λ r. IfSome (iface_of r) (λ i. IsMember (slice_get self.new.ports i))) }
        ensures reacts { (states : DeviceStates)
            → DevicesRepresent topology.now states self.old
            → IfOk result
            (ReactsWith topology.now states ((net_of topology.now).owner iface)
            (Arrival iface, packet.now) self.new) }
    {
        accepted_topologies_are_in_order(topology); // law: an interface's node is there
        let node = topology.iface(iface).node();
        let origin = Origin::Arrival(iface);
        self.react(alloc, topology, node, origin, packet)
    }

    /// What a node does with a packet that arrives and needs no record. An `Err` changes nothing,
    /// and gives the packet back.
    #[inline(always)]
    fn react_alone(
        &mut self,
        alloc: Global,
        topology: &Topology,
        node: NodeNo,
        iface: IfaceNo,
        packet: Packet,
    ) -> Result<Handled, Packet>
        // The node is here.
        requires node { IsMember (slice_get self.old.nodes node) }
        requires represented { DevicesRepresentSome topology.now self.old }

        // Ports stay as they are, and if memory is refused all does.
        ensures err { OnErr result (self.new ≡ self.old) }
        ensures back { IfErr result (λ same. same ≡ packet) }
        ensures ports { self.new.ports ≡ self.old.ports }

        // It reacts as its rules say, and sends by an interface that is here.
        ensures passes { IfOk result (λ h. PassesUnwanted self.old.wanted h.reaction) }
        ensures wanted { self.new.wanted ≡ self.old.wanted }
        ensures own { IfOk result
            (λ h. IfSome (iface_of h.reaction) (λ i. IsMember (slice_get self.new.ports i))) }
        ensures reacts { (states : DeviceStates)
            → DevicesRepresent topology.now states self.old
            → IfOk result
            (λ h. ReactsWith topology.now states node (Arrival iface, packet) self.new h.reaction) }
        ensures counter { (states : DeviceStates)
            → DevicesRepresent topology.now states self.old
            → IfOk result (λ h. h.counter
            ≡ row_counter (arrival_row (table_of topology.now node) packet)) }
    {
        a_node_sends_by_its_own_interfaces(topology); // law: what is sent leaves by an interface
        let Some(state) = &mut self.nodes[node.index()] else {
            return Ok(Handled {
                reaction: Reaction::Nothing,
                counter: Counter::Header,
            });
        };
        let ports = &self.ports[..];
        react_in_place(alloc, topology, ports, state, &self.wanted, iface, packet)
    }

    /// What the node of an interface does with a packet that arrives there and needs no record. An
    /// `Err` changes nothing, and gives the packet back.
    #[inline(always)]
    pub fn react_in_place(
        &mut self,
        alloc: Global,
        topology: &Topology,
        iface: IfaceNo,
        packet: Packet,
    ) -> Result<Handled, Packet>
        // The interface is here.
        requires place { IsMember (slice_get self.old.ports iface) }
        requires represented { DevicesRepresentSome topology.now self.old }

        // Ports stay as they are, and if memory is refused all does.
        ensures err { OnErr result (self.new ≡ self.old) }
        ensures back { IfErr result (λ same. same ≡ packet) }
        ensures ports { self.new.ports ≡ self.old.ports }

        // Its node reacts as its rules say, and sends by an interface that is here.
        ensures passes { IfOk result (λ h. PassesUnwanted self.old.wanted h.reaction) }
        ensures wanted { self.new.wanted ≡ self.old.wanted }
        ensures own { IfOk result
            (λ h. IfSome (iface_of h.reaction) (λ i. IsMember (slice_get self.new.ports i))) }
        ensures reacts { (states : DeviceStates)
            → DevicesRepresent topology.now states self.old
            → IfOk result
            (λ h. ReactsWith topology.now states ((net_of topology.now).owner iface)
            (Arrival iface, packet) self.new h.reaction) }
        ensures counter { (states : DeviceStates)
            → DevicesRepresent topology.now states self.old
            → IfOk result (λ h. h.counter ≡ row_counter
            (arrival_row (table_of topology.now ((net_of topology.now).owner iface)) packet)) }
    {
        accepted_topologies_are_in_order(topology); // law: an interface's node is there
        let node = topology.iface(iface).node();
        self.react_alone(alloc, topology, node, iface, packet)
    }

    /// A transmission is complete, and that of the first waiting packet starts, if there is one:
    /// which, and where.
    #[inline(always)]
    pub fn complete(
        &mut self,
        topology: &Topology,
        time: Time,
        iface: IfaceNo,
    ) -> Option<(IfaceNo, Start)>
        requires time { time ≤ MAX_TIME }
        requires busy { IsBusy (slice_get self.old.ports iface) }
        ensures does { (states : DeviceStates) (number : ℕ)
            → DevicesRepresent topology.now states self.old
            → Does topology.now states (keyed time number (Completion iface)) self.new
            (record { came = None; transmission = result; follows = None }) }
        ensures copied { IfSome result (IsCopied self.old.wanted) }
        ensures wanted { self.new.wanted ≡ self.old.wanted }
    {
        let Some(port) = &mut self.ports[iface.index()] else {
            return None;
        };
        let start = port.done(time);
        transmission_at(iface, start)
    }

    /// What the node of a source does with the source's packet, and the source's next packet. An
    /// `Err` changes nothing.
    pub fn react_to_source(
        &mut self,
        alloc: Global,
        topology: &Topology,
        source: SourceNo,
        number: u64,
        packet: &Packet,
    ) -> Result<Fired, AllocError>
        // The source is here, and can make this packet.
        requires place { IsMember (slice_get self.old.sources source) }
        requires fits { FitsOrigin topology.now (FromSource source) packet.now }
        requires number { number < 2 ^ 63 }
        requires represented { DevicesRepresentSome topology.now self.old }

        // Ports stay as they are, and if memory is refused all does.
        ensures err { OnErr result (self.new ≡ self.old) }
        ensures ports { self.new.ports ≡ self.old.ports }

        // Its node reacts as its rules say, and sends by an interface that is here.
        ensures twins { IfOk result (λ f. PassesNone f.reaction) }
        ensures wanted { self.new.wanted ≡ self.old.wanted }
        ensures own { IfOk result
            (λ f. IfSome (iface_of f.reaction) (λ i. IsMember (slice_get self.new.ports i))) }
        ensures follows { IfOk result
            (λ f. f.follows ≡ source_at topology.now source (number + 1)) }
        ensures reacts { (states : DeviceStates)
            → DevicesRepresent topology.now states self.old
            → IfOk result
            (λ f. ReactsWith topology.now states ((net_of topology.now).source_node source)
            (FromSource source, packet.now) self.new f.reaction) }
    {
        let Some(state) = &self.sources[source.index()] else {
            return Ok(Fired {
                reaction: Reaction::Nothing,
                follows: None,
            });
        };
        let follows = state.next(alloc, number + 1)?;
        let node = node_of_source(topology, source);
        let origin = Origin::Source(source);
        let reaction = self.react(alloc, topology, node, origin, packet)?;
        Ok(Fired { reaction, follows })
    }
}
