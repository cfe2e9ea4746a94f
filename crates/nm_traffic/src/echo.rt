//! Sources of echo requests (RFC 792).

ghost use Rattle.std.specs.Prelude.{◌≡◌, ◌≤◌, ◌%◌, ◌++◌, IfOk};
ghost use Rattle.nm_packet.specs.declared.limits.TheConstants.{MAX_PACKET_DATA};
ghost use Rattle.nm_packet.specs.Octets.{word};
ghost use Rattle.nm_topology.specs.declared.traffic.Traffic.TheVariants.{Echo as EchoTraffic};
ghost use Rattle.nm_traffic.specs.Flow.{echo_message, flow_data};
ghost use Rattle.nm_traffic.specs.Source.{packet_at};

use crate::flow::time_before;
use crate::packet::{SourcePacket, TimedPacket};
use nm_base::Time;
use nm_packet::icmp::{ECHO_CODE, ECHO_REQUEST};
use nm_packet::{Icmp, MessageKind};
use nm_topology::traffic::Echo;
use std::alloc::{AllocError, Global};

/// How many sequence numbers there are.
const SEQUENCE_NUMBERS: u64 = 65_536;

/// A source, and the data of each of its requests.
#[derive(Drop)]
pub struct EchoSource {
    echo: Echo,
    octets: Vec<u8>,
    ghost made: { octets.items ≡ flow_data echo.flow },
    ghost fits: { echo.flow.size ≤ MAX_PACKET_DATA },
}

/// The rest of the header of an echo request: identifier and sequence number.
fn rest_of_header(identifier: u16, sequence_number: u16) -> [u8; 4]
    ensures { result ≡ word identifier ++ word sequence_number }
{
    let [i0, i1] = identifier.to_be_bytes();
    let [s0, s1] = sequence_number.to_be_bytes();
    [i0, i1, s0, s1]
}

impl EchoSource {
    pub fn new(alloc: Global, echo: Echo) -> Result<Self, AllocError>
        requires { echo.flow.size ≤ MAX_PACKET_DATA }
        ensures { IfOk result (λ s. s.echo ≡ echo) }
    {
        let octets = vec![in alloc; echo.flow.fill; echo.flow.size as usize]?;
        Ok(EchoSource { echo, octets })
    }

    /// Request `number`.
    #[tactic(auto, unfolding(crate::specs::Flow::echo_message))]
    fn message(&self, alloc: Global, number: u64) -> Result<SourcePacket, AllocError>
        ensures { IfOk result (λ p. p ≡ echo_message self.now.echo number) }
    {
        let sequence_number = (number % SEQUENCE_NUMBERS) as u16;
        let rest = rest_of_header(self.echo.identifier, sequence_number);
        let kind = MessageKind {
            message_type: ECHO_REQUEST,
            code: ECHO_CODE,
        };
        let message = Icmp::write(alloc, kind, rest, &self.octets)?;
        SourcePacket::of_octets(alloc, message)
    }

    /// Request `number` and its time, if it comes before `stop`.
    #[tactic(auto, unfolding(crate::specs::Source::packet_at))]
    pub fn packet(&self, alloc: Global, stop: Time, number: u64) -> TimedPacket
        ensures { IfOk result (λ p. p ≡ packet_at stop (EchoTraffic self.now.echo) number) }
    {
        match time_before(&self.echo.flow, stop, number) {
            Some(time) => Ok(Some((time, self.message(alloc, number)?))),
            None => Ok(None),
        }
    }
}
