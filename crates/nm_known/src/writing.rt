//! How what a replica knows is written.

ghost use Rattle.std.specs.Prelude.{◌≡◌, true, length, OnOk};
ghost use Rattle.std.specs.List.{AllByRecursion};
ghost use Rattle.nm_model.specs.Knowledge.{IsKnow};
ghost use Rattle.nm_book.specs.Book.{is_incoming};
ghost use Rattle.nm_files.specs.Writing.{Writes};
ghost use Rattle.nm_frames.specs.Frame.{IsFrame, data_frame, frame_octets, stream_octets};
ghost use Rattle.nm_known.specs.Known.{AreKnown, IsOfReplica, channel_frames, channel_known};
ghost use Rattle.nm_known.specs.Known.{frames_below, known_octets, message_frames, replica_hello};
ghost use Rattle.nm_known.specs.Known.{told_of};

use crate::known_fault::KnownWriteFault;
use nm_base::sink::write_all;
use nm_base::{ChanNo, Packet, Sink, Time};
use nm_book::{Book, Data, Null};
use nm_frames::{Frame, Hello, Version, write_frame};
use nm_knowledge::Know;
use std::alloc::Global;

/// All was written, or why not.
type Written = Result<(), KnownWriteFault>;

/// Writes a frame. It is put together in the buffer, whatever that holds.
fn put<S: Sink>(frame: &Frame, buffer: &mut Vec<u8>, sink: &mut S) -> Written
    ensures octets { Writes (S.seen sink.old) (S.seen sink.new) result (frame_octets frame.now) }
    ensures fits { OnOk result (IsFrame frame.now) }
{
    buffer.clear();
    write_frame(frame, buffer)?;
    match write_all(sink, buffer.as_slice()) {
        Ok(()) => Ok(()),
        Err(fault) => Err(KnownWriteFault::Refused(fault)),
    }
}

/// Writes which replica's knowledge it is.
fn put_hello<S: Sink>(book: &Book, buffer: &mut Vec<u8>, sink: &mut S) -> Written
    ensures octets { Writes (S.seen sink.old) (S.seen sink.new) result
        (frame_octets (replica_hello book.now)) }
    ensures fits { OnOk result (IsFrame (replica_hello book.now)) }
{
    let hello = Hello {
        version: Version::Two.number(),
        partition: book.partition(),
        replica: book.replica(),
        digest: book.topology().digest(),
    };
    put(&Frame::Hello(hello), buffer, sink)
}

/// Writes a message: the time at which it arrives, and its packet.
fn put_message<S: Sink>(
    channel: ChanNo,
    number: u64,
    message: (Time, &Packet),
    buffer: &mut Vec<u8>,
    sink: &mut S,
) -> Written
    ensures octets { Writes (S.seen sink.old) (S.seen sink.new) result
        (frame_octets (data_frame channel number message.entry.0 message.entry.1.now)) }
    ensures fits { OnOk result
        (IsFrame (data_frame channel number message.entry.0 message.entry.1.now)) }
{
    let data = Data {
        channel,
        number,
        time: message.0,
        packet: message.1.clone()?,
    };
    put(&Frame::Data(data), buffer, sink)
}

/// Writes the messages of a channel, by their numbers.
fn put_messages<S: Sink>(
    channel: ChanNo,
    know: &Know,
    buffer: &mut Vec<u8>,
    sink: &mut S,
) -> Written
    ensures octets { Writes (S.seen sink.old) (S.seen sink.new) result
        (stream_octets (message_frames channel 0 know.now.list)) }
    ensures fits { OnOk result
        (AllByRecursion IsFrame (message_frames channel 0 know.now.list)) }
{
    for number in 0..know.len() as u64 {
        let Some(message) = know.message(number) else {
            return Ok(());
        };
        put_message(channel, number, message, buffer, sink)?;
    }
    Ok(())
}

/// Writes all that is known of a channel: its messages, how many there are, and its clock.
fn put_channel<S: Sink>(channel: ChanNo, know: &Know, buffer: &mut Vec<u8>, sink: &mut S) -> Written
    ensures octets { Writes (S.seen sink.old) (S.seen sink.new) result
        (stream_octets (channel_frames channel know.now)) }
    ensures fits { OnOk result (AllByRecursion IsFrame (channel_frames channel know.now)) }
    ensures known { OnOk result (IsKnow know.now) }
{
    put_messages(channel, know, buffer, sink)?;
    let null = Null {
        channel,
        count: know.len() as u64,
        clock: know.clock(),
    };
    put(&Frame::Null(null), buffer, sink)
}

/// Writes what is known of a channel, if it comes in.
fn put_if_incoming<S: Sink>(
    channel: ChanNo,
    book: &Book,
    buffer: &mut Vec<u8>,
    sink: &mut S,
) -> Written
    ensures octets { Writes (S.seen sink.old) (S.seen sink.new) result
        (stream_octets (told_of book.now channel)) }
    ensures fits { OnOk result (AllByRecursion IsFrame (told_of book.now channel)) }
    ensures known { OnOk result (is_incoming book.now channel ≡ true
        → IsKnow (channel_known book.now channel)) }
{
    match book.know(channel) {
        Some(know) => put_channel(channel, know, buffer, sink),
        None => Ok(()),
    }
}

/// Writes what is known of all channels that come in, by their numbers.
fn put_channels<S: Sink>(book: &Book, buffer: &mut Vec<u8>, sink: &mut S) -> Written
    ensures octets { Writes (S.seen sink.old) (S.seen sink.new) result
        (stream_octets (frames_below book.now (length book.now.topology.receivers))) }
    ensures fits { OnOk result (AllByRecursion IsFrame
        (frames_below book.now (length book.now.topology.receivers))) }
    ensures known { OnOk result (AreKnown book.now (length book.now.topology.receivers)) }
{
    for number in 0..book.topology().receivers().len() {
        let channel = book.topology().channel_number(number);
        put_if_incoming(channel, book, buffer, sink)?;
    }
    Ok(())
}

/// Writes what a replica knows: as frames of version 2 its Hello, and of each incoming channel, by
/// the channels' numbers, all messages and one null message, with their number and the channel
/// clock in nanoseconds.
///
/// # Errors
///
/// `Refused` if the sink failed. It had taken a front of the octets then. `Memory` if memory was
/// refused. The sink had taken a part of them then, from the front, and did not fail.
pub fn write_known<S: Sink>(alloc: Global, book: &Book, sink: &mut S) -> Result<(), KnownWriteFault>
    ensures octets { Writes (S.seen sink.old) (S.seen sink.new) result (known_octets book.now) }
    ensures file { OnOk result (IsOfReplica book.now book.now) }
{
    let mut buffer = Vec::new(alloc);
    put_hello(book, &mut buffer, sink)?;
    put_channels(book, &mut buffer, sink)
}
