//! What a node does with a packet that arrives and that only the node has.

ghost use Rattle.std.specs.Prelude.{◌≡◌, false, IfErr, IfOk, IfSome, OnErr};
ghost use Rattle.nm_base.specs.Wanted.{is_wanted};
ghost use Rattle.nm_base.specs.declared.wanted.Wanted.{Wanted as WantedOnes};
ghost use Rattle.nm_base.specs.declared.event.Origin.TheVariants.{Arrival};
ghost use Rattle.nm_forward.specs.State.{Knows};
ghost use Rattle.nm_forward.specs.InPlace.{Passes};
ghost use Rattle.nm_forward.specs.Reacting.{IsReaction, PassesUnwanted};
ghost use Rattle.nm_forward.specs.Reaction.{reaction};
ghost use Rattle.nm_forward.specs.Row.{arrival_row, row_counter};
ghost use Rattle.nm_forward.specs.declared.row.Row.TheVariants.{Forward};

use crate::counter::Counter;
use crate::reaction::{Reaction, follow, react};
use crate::row::{Row, packet_row};
use crate::state::NodeState;
use nm_base::{IfaceNo, Origin, Packet, Wanted};
use nm_iface::Port;
use nm_packet::{Ipv4, lower_in_place};
use nm_topology::Topology;
use std::alloc::Global;

/// What a node did with a packet that arrived, and the counter that says so.
#[derive(Drop)]
pub struct Handled {
    pub reaction: Reaction,
    pub counter: Counter,
}

/// What the node does with a packet that arrives, as `react`. A packet that is sent on by an
/// interface without wanted records is lowered where it lies, if nobody else has its octets.
///
/// # Errors
///
/// The packet, if memory was refused. It and the state are as they were.
#[tactic(auto, unfolding(crate::specs::Reaction::reaction, crate::specs::Reaction::arrived))]
#[inline(always)]
pub fn react_in_place(
    alloc: Global,
    topology: &Topology,
    ports: &[Option<Port>],
    state: &mut NodeState,
    wanted: &Wanted,
    iface: IfaceNo,
    packet: Packet,
) -> Result<Handled, Packet>
    requires { Knows topology.now state.old }
    ensures ok { IfOk result (λ h. IsReaction ports.now h.reaction state.new
        (reaction topology.now state.old.table.node state.old (Arrival iface) packet)) }
    ensures counter { IfOk result
        (λ h. h.counter ≡ row_counter (arrival_row state.old.table packet)) }
    ensures passes { IfOk result (λ h. PassesUnwanted wanted.now h.reaction) }
    ensures kept { state.new.table ≡ state.old.table }
    ensures err { OnErr result (state.new ≡ state.old) }
    ensures back { IfErr result (λ same. same ≡ packet) }
{
    let Ok(view) = Ipv4::read(packet.octets()) else {
        state.count(Counter::Header);
        return Ok(Handled {
            reaction: Reaction::Nothing,
            counter: Counter::Header,
        });
    };
    let row = packet_row(state, &view);
    if view.octets().len() == packet.octet_count()
        && let Some(via) = passed_by(wanted, &row)
    {
        return match pass(alloc, topology, ports, state, iface, via, packet) {
            Ok(reaction) => Ok(Handled {
                reaction,
                counter: Counter::Forwarded,
            }),
            Err(packet) => Err(packet),
        };
    }
    let counter = row.counter();
    match follow(alloc, topology, ports, state, &view, &row) {
        Ok(reaction) => Ok(Handled { reaction, counter }),
        Err(_) => Err(packet),
    }
}

/// The interface by which a packet of this row is sent on, if no record of it is wanted.
#[inline(always)]
fn passed_by(wanted: &Wanted, row: &Row<'_>) -> Option<IfaceNo>
    ensures { IfSome result
        (λ via. (row.now ≡ Forward via) × (is_wanted wanted.now via ≡ false)) }
{
    match row {
        Row::Forward(via) if !wanted.has(*via) => Some(*via),
        _ => None,
    }
}

/// Sends a packet on by this interface, lowered where it lies, if nobody else has its octets.
#[inline(always)]
fn pass(
    alloc: Global,
    topology: &Topology,
    ports: &[Option<Port>],
    state: &mut NodeState,
    iface: IfaceNo,
    via: IfaceNo,
    packet: Packet,
) -> Result<Reaction, Packet>
    requires table { Knows topology.now state.old }
    requires passes { Passes state.old via packet }
    ensures ok { IfOk result (λ r. IsReaction ports.now r state.new
        (reaction topology.now state.old.table.node state.old (Arrival iface) packet)) }
    ensures passes { (wanted : WantedOnes) → is_wanted wanted via ≡ false
        → IfOk result (PassesUnwanted wanted) }
    ensures kept { state.new.table ≡ state.old.table }
    ensures err { OnErr result (state.new ≡ state.old) }
    ensures back { IfErr result (λ same. same ≡ packet) }
{
    let mut packet = packet;
    if lower_in_place(&mut packet) {
        state.count(Counter::Forwarded);
        return Ok(Reaction::Pass(via, packet));
    }
    match react(
        alloc,
        topology,
        ports,
        state,
        Origin::Arrival(iface),
        &packet,
    ) {
        Ok(reaction) => Ok(reaction),
        Err(_) => Err(packet),
    }
}
