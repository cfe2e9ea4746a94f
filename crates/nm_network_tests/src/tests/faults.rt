//! The texts of faults: no contract has them.

use crate::tests::same::{eq_number, eq_shown};
use nm_knowledge::KnowFault;
use nm_packet::{HeaderFault, IcmpFault, UdpFault};
use nm_topology::{Refusal, TopoFault, fault_number};
use std::process::Abort;

#[test]
fn faults_of_packets(rt: HostRuntime) {
    eq_shown(&rt, HeaderFault::Checksum, "the header checksum is wrong");
    eq_shown(&rt, UdpFault::Short, "fewer than 8 octets");
    eq_shown(&rt, IcmpFault::Checksum, "the checksum is wrong")
}

#[test]
fn faults_of_topologies(rt: HostRuntime) {
    let double = TopoFault::Refused(Refusal::DoubleName);
    let text = "topology refused: two nodes or two interfaces with one name";
    let number = fault_number(TopoFault::Memory);
    eq_number(&rt, "memory", u64::from(number), 14);
    eq_shown(&rt, TopoFault::Memory, "out of memory");
    eq_shown(&rt, double, text)
}

fn say(rt: &(impl Abort + AllocGlobal), rows: &[(KnowFault, &str)]) {
    for (fault, text) in rows {
        eq_shown(rt, fault, text);
    }
}

#[test]
fn faults_of_knowledge(rt: HostRuntime) {
    say(
        &rt,
        &[
            (
                KnowFault::Gap { have: 2 },
                "a gap: only 2 messages are known",
            ),
            (
                KnowFault::Differs { number: 7 },
                "message 7 differs from the one that is known",
            ),
            (
                KnowFault::Late { clock: 50 },
                "a message is before the channel clock 50",
            ),
            (KnowFault::NotRising, "a message is not after the last one"),
            (KnowFault::Memory, "out of memory for messages"),
            (
                KnowFault::Contrary { count: 1 },
                "a null message contradicts message 1",
            ),
        ],
    )
}
