//! How frames are written.

ghost use Rattle.std.specs.Prelude.{◌≡◌, ◌+◌, ◌≤◌, ◌++◌, length, vec_len, vec_capacity, OnOk};
ghost use Rattle.std.specs.Prelude.{OnErr};
ghost use Rattle.std.specs.Prelude.{◌∷◌, []};
ghost use Rattle.std.specs.Int.{w16, w32, w64, to_be_bytes};
ghost use Rattle.nm_frames.specs.declared.format.TheConstants.{CHANNEL_AND_COUNT_OCTETS};
ghost use Rattle.nm_frames.specs.declared.format.TheConstants.{HEAD_OCTETS, SPEAKER_OCTETS};
ghost use Rattle.nm_frames.specs.declared.format.TheConstants.{TIME_OCTETS};
ghost use Rattle.nm_frames.specs.Frame.{IsFrame, data_frame, frame_octets, hello_frame};
ghost use Rattle.nm_frames.specs.Frame.{have_frame, null_frame};

use crate::format::{
    BYE_OCTETS, DATA_HEADER_OCTETS, DIGEST_OCTETS, HAVE_OCTETS, HELLO_OCTETS, LENGTH_OCTETS, MAGIC,
    NULL_OCTETS, kind,
};
use crate::frame::Frame;
use nm_base::{ChanNo, Packet, PartNo, Time};
use std::alloc::AllocError;

/// Puts octets at the end of a list that has room for them.
fn put(octets: &[u8], out: &mut Vec<u8>)
    requires { vec_len out.old + length octets.now ≤ vec_capacity out.old }
    ensures octets { out.new.items ≡ out.old.items ++ octets.now }
    ensures room { vec_capacity out.old ≤ vec_capacity out.new }
{
    out.extend_from_slice(octets).unwrap();
}

/// Puts a length and a kind there.
fn put_head(size: u32, kind: u8, out: &mut Vec<u8>)
    requires { vec_len out.old + HEAD_OCTETS ≤ vec_capacity out.old }
    ensures octets { out.new.items ≡ out.old.items ++ (to_be_bytes w32 size ++ kind ∷ []) }
    ensures room { vec_capacity out.old ≤ vec_capacity out.new }
{
    put(&size.to_be_bytes(), out);
    put(&[kind], out);
}

/// Puts a channel and a number of messages there.
fn put_count(channel: ChanNo, count: u64, out: &mut Vec<u8>)
    requires { vec_len out.old + CHANNEL_AND_COUNT_OCTETS ≤ vec_capacity out.old }
    ensures octets { out.new.items
        ≡ out.old.items ++ (to_be_bytes w32 channel ++ to_be_bytes w64 count) }
    ensures room { vec_capacity out.old ≤ vec_capacity out.new }
{
    put(&channel.number().to_be_bytes(), out);
    put(&count.to_be_bytes(), out);
}

/// Puts a time there.
fn put_time(time: Time, out: &mut Vec<u8>)
    requires { vec_len out.old + TIME_OCTETS ≤ vec_capacity out.old }
    ensures octets { out.new.items ≡ out.old.items ++ to_be_bytes w64 time }
    ensures room { vec_capacity out.old ≤ vec_capacity out.new }
{
    put(&time.nanoseconds().to_be_bytes(), out);
}

/// Puts the magic octets of a Hello there, and its numbers.
fn put_speaker(version: u16, partition: PartNo, replica: u8, out: &mut Vec<u8>)
    requires { vec_len out.old + SPEAKER_OCTETS ≤ vec_capacity out.old }
    ensures octets { out.new.items ≡ out.old.items
        ++ (MAGIC ++ to_be_bytes w16 version ++ to_be_bytes w32 partition ++ replica ∷ []) }
    ensures room { vec_capacity out.old ≤ vec_capacity out.new }
{
    put(&MAGIC, out);
    put(&version.to_be_bytes(), out);
    put(&partition.number().to_be_bytes(), out);
    put(&[replica], out);
}

fn write_hello(
    version: u16,
    partition: PartNo,
    replica: u8,
    digest: &[u8; DIGEST_OCTETS],
    out: &mut Vec<u8>,
) -> Result<(), AllocError>
    ensures ok { OnOk result (out.new.items ≡ out.old.items
        ++ frame_octets (hello_frame version partition replica digest.now)) }
    ensures fits { IsFrame (hello_frame version partition replica digest.now) }
    ensures err { OnErr result (out.new.items ≡ out.old.items) }
{
    out.reserve(LENGTH_OCTETS + HELLO_OCTETS)?;
    put_head(HELLO_OCTETS as u32, kind::HELLO, out);
    put_speaker(version, partition, replica, out);
    put(digest, out);
    Ok(())
}

fn write_have(channel: ChanNo, count: u64, out: &mut Vec<u8>) -> Result<(), AllocError>
    ensures ok { OnOk result (out.new.items
        ≡ out.old.items ++ frame_octets (have_frame channel count)) }
    ensures fits { IsFrame (have_frame channel count) }
    ensures err { OnErr result (out.new.items ≡ out.old.items) }
{
    out.reserve(LENGTH_OCTETS + HAVE_OCTETS)?;
    put_head(HAVE_OCTETS as u32, kind::HAVE, out);
    put_count(channel, count, out);
    Ok(())
}

fn write_data(
    channel: ChanNo,
    number: u64,
    time: Time,
    packet: &Packet,
    out: &mut Vec<u8>,
) -> Result<(), AllocError>
    ensures ok { OnOk result (out.new.items ≡ out.old.items
        ++ frame_octets (data_frame channel number time packet.now)) }
    ensures fits { IsFrame (data_frame channel number time packet.now) }
    ensures err { OnErr result (out.new.items ≡ out.old.items) }
{
    let size = DATA_HEADER_OCTETS + packet.octet_count();
    out.reserve(LENGTH_OCTETS + size)?;
    put_head(size as u32, kind::DATA, out);
    put_count(channel, number, out);
    put_time(time, out);
    put(packet.octets(), out);
    Ok(())
}

fn write_null(channel: ChanNo, count: u64, clock: Time, out: &mut Vec<u8>) -> Result<(), AllocError>
    ensures ok { OnOk result (out.new.items
        ≡ out.old.items ++ frame_octets (null_frame channel count clock)) }
    ensures fits { IsFrame (null_frame channel count clock) }
    ensures err { OnErr result (out.new.items ≡ out.old.items) }
{
    out.reserve(LENGTH_OCTETS + NULL_OCTETS)?;
    put_head(NULL_OCTETS as u32, kind::NULL, out);
    put_count(channel, count, out);
    put_time(clock, out);
    Ok(())
}

/// Writes a frame at the end of a list.
///
/// # Errors
///
/// If memory was refused. The list is unchanged then.
pub fn write_frame(frame: &Frame, out: &mut Vec<u8>) -> Result<(), AllocError>
    ensures ok { OnOk result (out.new.items ≡ out.old.items ++ frame_octets frame.now) }
    ensures fits { IsFrame frame.now }
    ensures err { OnErr result (out.new.items ≡ out.old.items) }
{
    match frame {
        Frame::Hello(hello) => write_hello(
            hello.version,
            hello.partition,
            hello.replica,
            &hello.digest,
            out,
        ),
        Frame::Have(have) => write_have(have.channel, have.count, out),
        Frame::Data(message) => write_data(
            message.channel,
            message.number,
            message.time,
            &message.packet,
            out,
        ),
        Frame::Null(null) => write_null(null.channel, null.count, null.clock, out),
        Frame::Bye => {
            out.reserve(LENGTH_OCTETS + BYE_OCTETS)?;
            put_head(BYE_OCTETS as u32, kind::BYE, out);
            Ok(())
        }
    }
}
