//! The walk along the records of a file.
ghost use Rattle.std.specs.Prelude.{◌≡◌, ◌+◌, ◌≤◌, None, Ok, IsOk, IsTrue, length, take, drop, IfOk};
ghost use Rattle.spec_pcap.specs.Pcap.{captured_at as length_at, header_length, frames_from, record_fault, record_frame, record_header_length, record_of};
ghost use Rattle.pcap_files.specs.Records.{frames_at, count_of, AreRecords};

use crate::format::{
    HEADER_LENGTH, RECORD_HEADER_LENGTH, captured_at, record_fault, wire_length_at,
};
use spec_pcap::{ByteOrder, Format, PcapFault};
use std::alloc::{AllocError, Global};

/// How many records stand after the header, if they are whole and at most `room`.
pub fn count_records(bytes: &[u8], format: Format, room: usize) -> Result<usize, PcapFault>
    requires { header_length ≤ length bytes.now }
    ensures { result ≡ count_of (frames_from format room bytes.now header_length) }
{
    let mut count = 0;
    let mut at = HEADER_LENGTH;
    'records: while at < bytes.len() {
        if count >= room {
            return Err(PcapFault::TooManyFrames);
        }
        if let Some(fault) = record_fault(bytes, format, at) {
            return Err(fault);
        }
        count += 1;
        at += RECORD_HEADER_LENGTH + captured_at(bytes, format, at) as usize;
    }
    Ok(count)
}

/// Where the records after the header begin, which are whole and at most `count`.
pub fn starts_of(
    alloc: Global,
    bytes: &[u8],
    format: Format,
    count: usize,
) -> Result<Vec<usize>, AllocError>
    requires header { header_length ≤ length bytes.now }
    requires whole { IsOk (frames_from format count bytes.now header_length) }
    ensures records { IfOk result (λ starts. AreRecords format bytes.now starts.items) }
    ensures frames { IfOk result (λ starts. frames_from format count bytes.now header_length
        ≡ Ok (frames_at format bytes.now starts.items)) }
{
    let mut starts = Vec::with_capacity(alloc, count)?;
    let mut at = HEADER_LENGTH;
    'records: while at < bytes.len() {
        starts.push_reserved(at);
        at += RECORD_HEADER_LENGTH + captured_at(bytes, format, at) as usize;
    }
    Ok(starts)
}

/// Whether the record at an offset has the very bytes that are written of its frame in a file in nano- or microseconds.
#[tactic(auto, unfolding(spec_pcap::specs::Pcap::record_fault))]
pub fn is_as_written(bytes: &[u8], format: Format, at: usize, nanos: bool) -> bool
    requires { record_fault format bytes.now at ≡ None }
    ensures { IsTrue result → take (record_header_length + length_at format bytes.now at) (drop at bytes.now)
        ≡ record_of nanos (record_frame format bytes.now at) }
{
    match format.order {
        ByteOrder::LittleEndian => {
            format.nanos == nanos
                && captured_at(bytes, format, at) == wire_length_at(bytes, format, at)
        }
        ByteOrder::BigEndian => false,
    }
}
