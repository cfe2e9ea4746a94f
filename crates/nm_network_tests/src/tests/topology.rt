//! `nm_topology`: parts by their numbers, limits in octets, and texts of the greatest length.

use crate::tests::same::{eq_number, eq_text};
use crate::tests::texts::PARTITIONS;
use nm_base::{ChanNo, IfaceNo, NodeNo};
use nm_fixtures::DUO;
use nm_topology::{Topology, fault_number};
use std::alloc::Global;
use std::process::Abort;

/// What is read of a text: the number of its fault, or 0 if it is accepted.
fn answer(alloc: Global, text: &[u8]) -> u64 {
    match Topology::read(alloc, text) {
        Ok(_) => 0,
        Err(fault) => u64::from(fault_number(fault)),
    }
}

/// An interface has the limit of its table, or none.
#[test]
fn limits_in_octets_of_interfaces(rt: HostRuntime) {
    let text = DUO
        .replacen(rt.alloc(), "format = 1", "format = 2", 1)
        .expect(&rt, "it succeeds");
    let new = "queue = 4, queue_octets = 100";
    let text = text
        .as_str()
        .replacen(rt.alloc(), "queue = 4", new, 1)
        .expect(&rt, "it succeeds");
    let topology = Topology::read(rt.alloc(), text.as_str().as_bytes()).expect(&rt, "it succeeds");
    assert!(rt; topology.ifaces().len() == 2);
    assert!(rt; topology.iface(IfaceNo::new(0)).queue_octets() == Some(100));
    assert!(rt; topology.iface(IfaceNo::new(1)).queue_octets().is_none());
}

/// The length comes before anything else.
#[test]
fn sizes_of_texts(rt: HostRuntime) {
    for (count, want) in [(16_777_216, 1), (16_777_217, 5)] {
        let octets = vec![in rt.alloc(); 0xffu8; count].expect(&rt, "it succeeds");
        eq_number(&rt, "octets", answer(rt.alloc(), octets.as_slice()), want);
    }
}

/// Nodes, interfaces and channels by their numbers.
#[test]
fn parts_have_numbers(rt: HostRuntime) {
    let topology = Topology::read(rt.alloc(), PARTITIONS.as_bytes()).expect(&rt, "it succeeds");
    assert!(rt; topology.nodes().len() == 3);
    eq_text(&rt, topology.node(NodeNo::new(2)).name(), "n2");
    assert!(rt; topology.ifaces().len() == 6);
    eq_text(&rt, topology.iface(IfaceNo::new(4)).name(), "n2b");
    for (iface, want) in [(0, 0), (3, 3), (4, 9), (5, 9), (6, 9)] {
        let channel = topology.channel_of(IfaceNo::new(iface));
        let found = channel.map_or(9, |channel| channel.number());
        eq_number(&rt, "a channel", u64::from(found), want);
    }
    for (channel, want) in [(0, 0), (1, 1), (3, 3), (4, 6), (511, 6)] {
        let found = topology.receiver(ChanNo::new(channel));
        eq_number(&rt, "a receiver", u64::from(found.number()), want);
    }
}
