//! Headers of the pcap savefile format 2.4.

ghost use Rattle.std.specs.Prelude.{◌≡◌, ◌<◌, ◌^◌, ◌≤◌};
ghost use Rattle.nm_base.specs.declared.limits.TheConstants.{MAX_TIME};
ghost use Rattle.nm_pcap.specs.Format.{file_header, record_header};

use byteorder::{ByteOrder, LittleEndian};
use nm_base::Time;

/// Octets of the file header, and of a record's header.
pub const FILE_HEADER_OCTETS: usize = 24;

pub const RECORD_HEADER_OCTETS: usize = 16;

/// The magic number of a file with fractions in nanoseconds.
const MAGIC_NUMBER: u32 = 0xa1b2_3c4d;

const VERSION_MAJOR: u16 = 2;

const VERSION_MINOR: u16 = 4;
/// No packet is cut in the file.
const SNAPSHOT_LENGTH: u32 = 65_535;
/// Packets begin with their IP header (LINKTYPE_RAW).
const LINK_TYPE_RAW: u32 = 101;

const NANOSECONDS_A_SECOND: u64 = 1_000_000_000;

/// The file header.
pub fn file_header_octets() -> [u8; 24]
    ensures { result ≡ file_header }
{
    let mut octets = [0; 24];
    LittleEndian::write_u32(&mut octets, MAGIC_NUMBER);
    LittleEndian::write_u16(&mut octets[4..], VERSION_MAJOR);
    LittleEndian::write_u16(&mut octets[6..], VERSION_MINOR);
    LittleEndian::write_u32(&mut octets[16..], SNAPSHOT_LENGTH);
    LittleEndian::write_u32(&mut octets[20..], LINK_TYPE_RAW);
    octets
}

/// The header of a record of a packet of so many octets.
pub fn record_header_octets(time: Time, octet_count: u32) -> [u8; 16]
    requires { time ≤ MAX_TIME }
    ensures { result ≡ record_header time octet_count }
{
    let nanoseconds = time.nanoseconds();
    let mut octets = [0; 16];
    LittleEndian::write_u32(&mut octets, (nanoseconds / NANOSECONDS_A_SECOND) as u32);
    LittleEndian::write_u32(
        &mut octets[4..],
        (nanoseconds % NANOSECONDS_A_SECOND) as u32,
    );
    LittleEndian::write_u32(&mut octets[8..], octet_count);
    LittleEndian::write_u32(&mut octets[12..], octet_count);
    octets
}
