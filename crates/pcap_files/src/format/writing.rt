//! The headers of a file and of a record, as they are written: in little-endian order.
ghost use Rattle.std.specs.Prelude.{◌≡◌, ◌/◌, ◌<◌, ◌^◌};
ghost use Rattle.spec_pcap.specs.Pcap.{second, header, record_header};

use crate::format::format::{
    ETHERNET, HEADER_LENGTH, MAJOR_VERSION, MINOR_VERSION, RECORD_HEADER_LENGTH, SECOND,
    SNAP_LENGTH, magic, unit_of,
};

/// The header of a file in nano- or microseconds. The time zone and its accuracy stay 0.
#[tactic(auto, unfolding(spec_pcap::specs::Pcap::header))]
pub fn header(nanos: bool) -> [u8; HEADER_LENGTH]
    ensures { result ≡ header nanos }
{
    let mut bytes = [0; HEADER_LENGTH];
    bytes[..4].copy_from_slice(&magic(nanos).to_le_bytes());
    bytes[4..6].copy_from_slice(&MAJOR_VERSION.to_le_bytes());
    bytes[6..8].copy_from_slice(&MINOR_VERSION.to_le_bytes());
    bytes[16..20].copy_from_slice(&SNAP_LENGTH.to_le_bytes());
    bytes[20..].copy_from_slice(&u32::from(ETHERNET).to_le_bytes());
    bytes
}

/// The header of the record of a frame that was captured whole, so that its two lengths are the same. The time is in
/// nanoseconds since the beginning of 1970 (UTC), and is cut to the unit of the file.
#[tactic(auto, unfolding(spec_pcap::specs::Pcap::record_header))]
pub fn record_header(nanos: bool, time: u64, len: u32) -> [u8; RECORD_HEADER_LENGTH]
    requires { time / second < 2 ^ 32 }
    ensures { result ≡ record_header nanos time len }
{
    let seconds = (time / SECOND) as u32;
    let fraction = (time % SECOND / unit_of(nanos)) as u32;
    let mut bytes = [0; RECORD_HEADER_LENGTH];
    bytes[..4].copy_from_slice(&seconds.to_le_bytes());
    bytes[4..8].copy_from_slice(&fraction.to_le_bytes());
    bytes[8..12].copy_from_slice(&len.to_le_bytes());
    bytes[12..].copy_from_slice(&len.to_le_bytes());
    bytes
}
