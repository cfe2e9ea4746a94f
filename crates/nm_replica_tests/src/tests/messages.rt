//! Messages.

ghost use Rattle.std.specs.Prelude.{◌≡◌};

use bytes::Bytes;
use nm_base::{ChanNo, Packet, Time};
use nm_book::{ChannelMessage, Data, Null};
use std::alloc::Global;
use std::process::Abort;

/// A null message.
pub fn null(channel: u32, count: u64, clock: u64) -> Null
    ensures { result.channel ≡ channel }
{
    Null {
        channel: ChanNo::new(channel),
        count,
        clock: Time::from_nanoseconds(clock),
    }
}

/// A message with its number as its packet.
pub fn message<R: Abort>(
    rt: &R,
    alloc: Global,
    channel: u32,
    number: u64,
    time: u64,
) -> ChannelMessage {
    let octets = Bytes::copy_from_slice(alloc, &number.to_be_bytes()).expect(rt, "memory");
    let packet = Packet::new(alloc, octets).expect(rt, "memory");
    ChannelMessage::Data(Data {
        channel: ChanNo::new(channel),
        number,
        time: Time::from_nanoseconds(time),
        packet: packet.expect(rt, "eight octets fit"),
    })
}

/// The first messages of a channel, at 1, 2, 3 and so on nanoseconds.
pub fn messages<R: Abort>(rt: &R, alloc: Global, channel: u32, count: u64) -> Vec<ChannelMessage> {
    let mut all = Vec::new(alloc);
    for number in 0..count {
        all.push(message(rt, alloc, channel, number, number + 1))
            .expect(rt, "memory");
    }
    all
}
