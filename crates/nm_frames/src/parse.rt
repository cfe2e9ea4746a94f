//! How frames are read.

ghost use Rattle.std.specs.Prelude.{◌≡◌, ◌+◌, ◌≤◌, ◌<◌, ◌^◌, length, take, drop, slice_index, true};
ghost use Rattle.std.specs.Prelude.{ℕ, IfOk, IfSome};
ghost use Rattle.std.specs.Int.{w16, w32, w64, to_be_bytes, from_be_bytes};
ghost use Rattle.nm_frames.specs.declared.format.TheConstants.{KIND_OCTETS};
ghost use Rattle.nm_frames.specs.declared.format.field.TheConstants as field;
ghost use Rattle.nm_frames.specs.declared.format.kind.TheConstants as kind;
ghost use Rattle.nm_frames.specs.Frame.{IsFrame, frame_body};
ghost use Rattle.nm_frames.specs.Stream.{stated_length, has_magic, fits_kind};
ghost use Rattle.nm_frames.specs.Reader.{FindsWhole, Found, StandsAt};

use crate::fault::FrameFault;
use crate::format::{
    BYE_OCTETS, DATA_HEADER_OCTETS, DIGEST_OCTETS, HAVE_OCTETS, HELLO_OCTETS, LENGTH_OCTETS, MAGIC,
    NULL_OCTETS, field, kind,
};
use crate::frame::{Frame, Have, Hello};
use bytes::Bytes;
use nm_base::limits::MAX_BODY_OCTETS;
use nm_base::{ChanNo, Packet, PartNo, Time};
use nm_book::message::{Data, Null};
use std::alloc::{AllocError, Global};

/// The number of 16 bits in the two octets from this offset.
fn u16_at(octets: &[u8], offset: usize) -> u16
    requires { offset + 2 ≤ length octets.now }
    ensures { result ≡ from_be_bytes w16 (take 2 (drop offset octets.now)) }
{
    u16::from_be_bytes(octets[offset..offset + 2].try_into().unwrap())
}

/// The number of 32 bits in the four octets from this offset.
fn u32_at(octets: &[u8], offset: usize) -> u32
    requires { offset + 4 ≤ length octets.now }
    ensures { result ≡ from_be_bytes w32 (take 4 (drop offset octets.now)) }
{
    u32::from_be_bytes(octets[offset..offset + 4].try_into().unwrap())
}

/// The number of 64 bits in the eight octets from this offset.
fn u64_at(octets: &[u8], offset: usize) -> u64
    requires { offset + 8 ≤ length octets.now }
    ensures { result ≡ from_be_bytes w64 (take 8 (drop offset octets.now)) }
{
    u64::from_be_bytes(octets[offset..offset + 8].try_into().unwrap())
}

/// Whether the fields of a Hello begin with the magic octets.
fn has_magic(body: &[u8]) -> bool
    requires { HELLO_OCTETS ≤ length body.now }
    ensures { result ≡ has_magic (drop KIND_OCTETS body.now) }
{
    body[field::MAGIC..].starts_with(&MAGIC)
}

/// Whether a length fits the kind.
fn is_fitting(body: &[u8]) -> bool
    requires { KIND_OCTETS ≤ length body.now }
    ensures { result ≡ fits_kind (slice_index body.now field.KIND) (length body.now)
        (drop KIND_OCTETS body.now) }
{
    match body[field::KIND] {
        kind::HELLO => body.len() == HELLO_OCTETS && has_magic(body),
        kind::HAVE => body.len() == HAVE_OCTETS,
        kind::DATA => body.len() > DATA_HEADER_OCTETS,
        kind::NULL => body.len() == NULL_OCTETS,
        _ => body.len() == BYE_OCTETS,
    }
}

/// The Hello of these octets after its length.
fn hello_of(body: &[u8]) -> Hello
    // The body has the length of a Hello.
    requires { HELLO_OCTETS ≡ length body.now }

    // Each field is read at its place.
    ensures version { result.version
        ≡ from_be_bytes w16 (take 2 (drop field.VERSION body.now)) }
    ensures partition { result.partition
        ≡ from_be_bytes w32 (take 4 (drop field.PARTITION body.now)) }
    ensures replica { result.replica ≡ slice_index body.now field.REPLICA }
    ensures digest { result.digest ≡ drop field.DIGEST body.now }

    // What is read is a frame.
    ensures fits { IsFrame (Frame.Hello result) }
{
    let mut digest = [0; DIGEST_OCTETS];
    digest.copy_from_slice(&body[field::DIGEST..]);
    Hello {
        version: u16_at(body, field::VERSION),
        partition: PartNo::new(u32_at(body, field::PARTITION)),
        replica: body[field::REPLICA],
        digest,
    }
}

/// The message of these octets after its length, at this place of a block. Its packet is cut off
/// the block, with no copy.
fn data_of(alloc: Global, block: &Bytes, at: usize, body: &[u8]) -> Result<Data, AllocError>
    // The body has the length of a Data frame, and its place.
    requires size { (DATA_HEADER_OCTETS < length body.now) × (length body.now ≤ MAX_BODY_OCTETS) }
    requires place { StandsAt block.now at body.now }
    requires fits { length block.now < 2 ^ 64 }

    // Each field is read at its place.
    ensures channel { IfOk result
        (λ d. d.channel ≡ from_be_bytes w32 (take 4 (drop field.CHANNEL body.now))) }
    ensures number { IfOk result
        (λ d. d.number ≡ from_be_bytes w64 (take 8 (drop field.COUNT body.now))) }
    ensures time { IfOk result
        (λ d. d.time ≡ from_be_bytes w64 (take 8 (drop field.TIME body.now))) }
    ensures packet { IfOk result (λ d. d.packet ≡ drop field.PACKET body.now) }

    // What is read is a frame.
    ensures fits { IfOk result (λ d. IsFrame (Frame.Data d)) }
{
    let octets = block.slice(at + field::PACKET..at + body.len())?;
    let packet = Packet::from_octets(alloc, octets)?;
    Ok(Data {
        channel: ChanNo::new(u32_at(body, field::CHANNEL)),
        number: u64_at(body, field::COUNT),
        time: Time::from_nanoseconds(u64_at(body, field::TIME)),
        packet,
    })
}

/// The frame of these octets after its length, at this place of a block.
fn frame_of(alloc: Global, block: &Bytes, at: usize, body: &[u8]) -> Result<Frame, AllocError>
    requires place { StandsAt block.now at body.now }
    requires fits { length block.now < 2 ^ 64 }
    requires length { (KIND_OCTETS ≤ length body.now) × (length body.now ≤ MAX_BODY_OCTETS) }
    requires kind { (kind.HELLO ≤ slice_index body.now field.KIND)
        × (slice_index body.now field.KIND ≤ kind.BYE) }
    requires fitting { fits_kind (slice_index body.now field.KIND) (length body.now)
        (drop KIND_OCTETS body.now) ≡ true }
    ensures value { IfOk result (λ f. body.now ≡ frame_body f) }
    ensures fits { IfOk result IsFrame }
{
    match body[field::KIND] {
        kind::HELLO => Ok(Frame::Hello(hello_of(body))),
        kind::HAVE => Ok(Frame::Have(Have {
            channel: ChanNo::new(u32_at(body, field::CHANNEL)),
            count: u64_at(body, field::COUNT),
        })),
        kind::DATA => Ok(Frame::Data(data_of(alloc, block, at, body)?)),
        kind::NULL => Ok(Frame::Null(Null {
            channel: ChanNo::new(u32_at(body, field::CHANNEL)),
            count: u64_at(body, field::COUNT),
            clock: Time::from_nanoseconds(u64_at(body, field::TIME)),
        })),
        _ => Ok(Frame::Bye),
    }
}

/// How many octets after its length the frame at the front of these has, or `None` if they are
/// short.
///
/// # Errors
///
/// The fault that the octets show.
pub(crate) fn whole_frame(octets: &[u8]) -> Result<Option<usize>, FrameFault>
    ensures found { FindsWhole octets.now result }
    ensures small { (i : ℕ) → slice_index octets.now i < 256 }
{
    if octets.len() < LENGTH_OCTETS {
        return Ok(None);
    }
    let size = u32_at(octets, 0) as usize;
    if size == 0 || size > MAX_BODY_OCTETS {
        return Err(FrameFault::BadLength);
    }
    if octets.len() == LENGTH_OCTETS {
        return Ok(None);
    }
    if octets[LENGTH_OCTETS] == 0 || octets[LENGTH_OCTETS] > kind::BYE {
        return Err(FrameFault::BadKind);
    }
    if octets.len() < LENGTH_OCTETS + size {
        return Ok(None);
    }
    if !is_fitting(&octets[LENGTH_OCTETS..LENGTH_OCTETS + size]) {
        return Err(FrameFault::BadBody);
    }
    Ok(Some(size))
}

/// The frame at this place of a block and the place after it, or `None` if the octets from there on
/// are short.
///
/// # Errors
///
/// The fault that the octets show, or `Memory` if the packet's was refused.
pub(crate) fn next_frame(
    alloc: Global,
    block: &Bytes,
    at: usize,
) -> Result<Option<(Frame, usize)>, FrameFault>
    requires { at ≤ length block.now }
    ensures found { Found (λ next. drop next block.now) (drop at block.now) result }
    ensures within { IfOk result (λ found. IfSome found (λ f. f.1 ≤ length block.now)) }
{
    let octets = &block.as_slice()[at..];
    let Some(size) = whole_frame(octets)? else {
        return Ok(None);
    };
    let begin = at + LENGTH_OCTETS;
    let body = &octets[LENGTH_OCTETS..LENGTH_OCTETS + size];
    Ok(Some((frame_of(alloc, block, begin, body)?, begin + size)))
}
