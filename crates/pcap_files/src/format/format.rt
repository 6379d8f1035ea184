//! The numbers of the format (pcap-savefile(5)), and the parts of a header and of a record.
ghost use Rattle.std.specs.Prelude.{◌≡◌, ◌+◌, ◌≤◌, length, OnOk};
ghost use Rattle.spec_pcap.specs.Pcap.{unit_of, magic, format_by, told_format, format_of, record_fault, seconds_at, fraction_at, captured_at, header_length, number_at, record_header_length};

use crate::format::number::{number16, number32};
use net_bytes::{be32, le32};
use spec_pcap::{ByteOrder, Format, PcapFault};

// How a file in microseconds begins, and one in nanoseconds.
const MICROS_MAGIC: u32 = 0xa1b2_c3d4;

const NANOS_MAGIC: u32 = 0xa1b2_3c4d;

/// Version 2.4 of the format.
pub const MAJOR_VERSION: u16 = 2;

pub const MINOR_VERSION: u16 = 4;

/// The most bytes of a frame that are captured.
pub const SNAP_LENGTH: u32 = 262_144;

/// LINKTYPE_ETHERNET.
pub const ETHERNET: u16 = 1;

/// How many bytes the header of a file has.
pub const HEADER_LENGTH: usize = 24;

/// How many bytes the header of a record has.
pub const RECORD_HEADER_LENGTH: usize = 16;

/// A second in nanoseconds.
pub const SECOND: u64 = 1_000_000_000;

/// How a file begins whose fractions of a second are nanoseconds, or microseconds.
pub fn magic(nanos: bool) -> u32
    ensures { result ≡ magic nanos }
{
    if nanos { NANOS_MAGIC } else { MICROS_MAGIC }
}

/// The unit in which fractions of a second are counted, in nanoseconds.
pub fn unit_of(nanos: bool) -> u64
    ensures { result ≡ unit_of nanos }
{
    if nanos { 1 } else { 1000 }
}

// The format of a file whose first number, read in this order, is a magic one.
fn format_by(order: ByteOrder, number: u32) -> Option<Format>
    ensures { result ≡ format_by order number }
{
    match number {
        MICROS_MAGIC => Some(Format {
            order,
            nanos: false,
        }),
        NANOS_MAGIC => Some(Format { order, nanos: true }),
        _ => None,
    }
}

// The format that the magic number tells.
fn told_format(bytes: &[u8]) -> Option<Format>
    requires { 4 ≤ length bytes.now }
    ensures { result ≡ told_format bytes.now }
{
    let little = format_by(ByteOrder::LittleEndian, le32(bytes, 0));
    let big = format_by(ByteOrder::BigEndian, be32(bytes, 0));
    little.or(big)
}

/// The format of a file, by a header of the version and link type that are read. Only the low 16 bits of the field of
/// the link type are the type.
#[tactic(auto, unfolding(spec_pcap::specs::Pcap::format_of))]
pub fn format_of(bytes: &[u8]) -> Result<Format, PcapFault>
    ensures format { result ≡ format_of bytes.now }
    ensures header { OnOk result (header_length ≤ length bytes.now) }
{
    if bytes.len() < HEADER_LENGTH {
        return Err(PcapFault::ShortHeader);
    }
    let Some(format) = told_format(bytes) else {
        return Err(PcapFault::Magic);
    };
    let major = number16(format.order, bytes, 4);
    let minor = number16(format.order, bytes, 6);
    let link_type = (number32(format.order, bytes, 20) % 0x1_0000) as u16;
    if major != MAJOR_VERSION || minor != MINOR_VERSION {
        return Err(PcapFault::Version { major, minor });
    }
    if link_type != ETHERNET {
        return Err(PcapFault::LinkType(link_type));
    }
    Ok(format)
}

/// What is wrong with the record at an offset.
#[tactic(auto, unfolding(spec_pcap::specs::Pcap::record_fault))]
pub fn record_fault(bytes: &[u8], format: Format, at: usize) -> Option<PcapFault>
    requires { at ≤ length bytes.now }
    ensures { result ≡ record_fault format bytes.now at }
{
    let left = bytes.len() - at;
    if left < RECORD_HEADER_LENGTH {
        return Some(PcapFault::ShortRecord { at });
    }
    let n = captured_at(bytes, format, at);
    if n > SNAP_LENGTH {
        return Some(PcapFault::TooLong { at, n });
    }
    if left - RECORD_HEADER_LENGTH < n as usize {
        return Some(PcapFault::ShortRecord { at });
    }
    if u64::from(fraction_at(bytes, format, at)) * unit_of(format.nanos) >= SECOND {
        return Some(PcapFault::Fraction { at });
    }
    None
}

/// The seconds of the record at an offset.
pub fn seconds_at(bytes: &[u8], format: Format, at: usize) -> u32
    requires { at + record_header_length ≤ length bytes.now }
    ensures { result ≡ seconds_at format bytes.now at }
{
    number32(format.order, bytes, at)
}

/// The fraction of a second of the record at an offset, in the file's unit.
pub fn fraction_at(bytes: &[u8], format: Format, at: usize) -> u32
    requires { at + record_header_length ≤ length bytes.now }
    ensures { result ≡ fraction_at format bytes.now at }
{
    number32(format.order, bytes, at + 4)
}

/// The captured length of the record at an offset.
pub fn captured_at(bytes: &[u8], format: Format, at: usize) -> u32
    requires { at + record_header_length ≤ length bytes.now }
    ensures { result ≡ captured_at format bytes.now at }
{
    number32(format.order, bytes, at + 8)
}

/// The length that the frame of the record at an offset had on the wire: more than the captured one where it was cut.
pub fn wire_length_at(bytes: &[u8], format: Format, at: usize) -> u32
    requires { at + record_header_length ≤ length bytes.now }
    ensures { result ≡ number_at format.order 4 bytes.now (at + 12) }
{
    number32(format.order, bytes, at + 12)
}
