//! The bytes of datagrams, in the byte order of the network.
ghost use Rattle.std.specs.Prelude.{◌≡◌, ◌≤◌, ◌++◌, length, OnOk};
ghost use Rattle.std.specs.List.{flat_map};
ghost use Rattle.spec_netflow.specs.Datagrams.{most_records, header, record_bytes};

use spec_netflow::{ExportTime, FlowRecord};
use std::alloc::AllocError;

/// The version of the format.
pub(crate) const VERSION: u16 = 5;

/// The most records of a datagram.
pub(crate) const MOST_RECORDS: usize = 30;

/// How many bytes the header of a datagram has.
pub(crate) const HEADER_SIZE: usize = 24;

/// How many bytes a record has.
pub(crate) const RECORD_SIZE: usize = 48;

/// How many numbers 32 bits have.
const NUMBERS: u64 = 1 << 32;

// The header of a datagram of so many records, with so many before it. Engine and sampling stay 0.
#[tactic(auto, unfolding(spec_netflow::specs::Datagrams::header))]
fn header(now: &ExportTime, count: u16, before: usize) -> [u8; HEADER_SIZE]
    ensures { result ≡ header now.now count before }
{
    let sequence = (before as u64 % NUMBERS) as u32;
    let mut bytes = [0; HEADER_SIZE];
    bytes[..2].copy_from_slice(&VERSION.to_be_bytes());
    bytes[2..4].copy_from_slice(&count.to_be_bytes());
    bytes[4..8].copy_from_slice(&now.uptime.to_be_bytes());
    bytes[8..12].copy_from_slice(&now.seconds.to_be_bytes());
    bytes[12..16].copy_from_slice(&now.nanoseconds.to_be_bytes());
    bytes[16..20].copy_from_slice(&sequence.to_be_bytes());
    bytes
}

// A record. The next hop, and what stands after the type of service, stay 0.
#[tactic(auto, unfolding(spec_netflow::specs::Datagrams::record_bytes))]
fn record_bytes(told: &FlowRecord) -> [u8; RECORD_SIZE]
    ensures { result ≡ record_bytes told.now }
{
    let mut bytes = [0; RECORD_SIZE];
    bytes[..4].copy_from_slice(&told.src.to_be_bytes());
    bytes[4..8].copy_from_slice(&told.dst.to_be_bytes());
    bytes[12..14].copy_from_slice(&told.input.to_be_bytes());
    bytes[14..16].copy_from_slice(&told.output.to_be_bytes());
    bytes[16..20].copy_from_slice(&told.packets.to_be_bytes());
    bytes[20..24].copy_from_slice(&told.octets.to_be_bytes());
    bytes[24..28].copy_from_slice(&told.first.to_be_bytes());
    bytes[28..32].copy_from_slice(&told.last.to_be_bytes());
    bytes[32..34].copy_from_slice(&told.sport.to_be_bytes());
    bytes[34..36].copy_from_slice(&told.dport.to_be_bytes());
    bytes[37] = told.flags;
    bytes[38] = told.proto;
    bytes[39] = told.tos;
    bytes
}

/// Makes the datagram of these records, with so many before it, in place of what the buffer has.
pub(crate) fn fill_datagram(
    buffer: &mut Vec<u8>,
    now: &ExportTime,
    records: &[FlowRecord],
    before: usize,
) -> Result<(), AllocError>
    requires { length records.now ≤ most_records }
    ensures { OnOk result
        (buffer.new.items ≡ header now.now (length records.now) before ++ flat_map record_bytes records.now) }
{
    buffer.clear();
    buffer.extend_from_slice(&header(now, records.len() as u16, before))?;
    'records: for record in records {
        buffer.extend_from_slice(&record_bytes(record))?;
    }
    Ok(())
}
