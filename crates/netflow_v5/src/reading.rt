//! Flows that are read from the bytes of datagrams.
ghost use Rattle.std.specs.Prelude.{◌≡◌, ◌+◌, ◌*◌, ◌≤◌, ◌⊎◌, ◌++◌, Ok, Err, None, IfOk, IfErr, OnOk, length};
ghost use Rattle.spec_netflow.specs.Datagrams.{record_size, datagram_fault, record_at, records_at, count_at, datagram_end, flows_in};

use crate::datagram::{HEADER_SIZE, MOST_RECORDS, RECORD_SIZE, VERSION};
use net_bytes::{be16, be32};
use spec_netflow::{FlowRecord, NetflowFault};
use std::alloc::{AllocError, Global};

/// Where the numbers of a header stand.
const COUNT_AT: usize = 2;

const SEQUENCE_AT: usize = 16;

// What is wrong with the datagram at an offset, which has so many records before it.
#[tactic(auto, unfolding(spec_netflow::specs::Datagrams::datagram_fault))]
fn datagram_fault(bytes: &[u8], at: usize, before: usize) -> Option<NetflowFault>
    requires { at ≤ length bytes.now }
    ensures { result ≡ datagram_fault bytes.now at before }
{
    let left = bytes.len() - at;
    if left < HEADER_SIZE {
        return Some(NetflowFault::Short { at });
    }
    if be16(bytes, at) != VERSION {
        return Some(NetflowFault::Version { at });
    }
    let count = be16(bytes, at + COUNT_AT) as usize;
    if count == 0 || count > MOST_RECORDS {
        return Some(NetflowFault::Count { at });
    }
    if be32(bytes, at + SEQUENCE_AT) as usize != before {
        return Some(NetflowFault::Sequence { at });
    }
    if left - HEADER_SIZE < count * RECORD_SIZE {
        return Some(NetflowFault::Short { at });
    }
    None
}

// The record at an offset.
#[tactic(auto, unfolding(spec_netflow::specs::Datagrams::record_at))]
fn record_at(bytes: &[u8], at: usize) -> FlowRecord
    requires { at + record_size ≤ length bytes.now }
    ensures { result ≡ record_at bytes.now at }
{
    FlowRecord {
        src: be32(bytes, at),
        dst: be32(bytes, at + 4),
        input: be16(bytes, at + 12),
        output: be16(bytes, at + 14),
        packets: be32(bytes, at + 16),
        octets: be32(bytes, at + 20),
        first: be32(bytes, at + 24),
        last: be32(bytes, at + 28),
        sport: be16(bytes, at + 32),
        dport: be16(bytes, at + 34),
        flags: bytes[at + 37],
        proto: bytes[at + 38],
        tos: bytes[at + 39],
    }
}

// Adds the records of the whole datagram at an offset, and answers how many they are.
fn add_records(flows: &mut Vec<FlowRecord>, bytes: &[u8], at: usize) -> Result<usize, AllocError>
    requires { datagram_end bytes.now at ≤ length bytes.now }
    ensures count { IfOk result (λ n. n ≡ count_at bytes.now at) }
    ensures flows { OnOk result (flows.new.items ≡ flows.old.items ++ records_at bytes.now at) }
{
    let count = be16(bytes, at + COUNT_AT) as usize;
    'records: for index in 0..count {
        flows.push(record_at(bytes, at + HEADER_SIZE + index * RECORD_SIZE))?;
    }
    Ok(count)
}

/// The flows that the bytes of datagrams tell, one datagram after the other. What is written as 0, and the times of
/// headers, aren't looked at.
///
/// # Errors
///
/// The first fault from the front, as `flows_in` has it: of each datagram `Short` for its header, `Version`, `Count`,
/// `Sequence`, then `Short` for its records. `OutOfMemory`: there was no memory for the flows before it.
pub fn read_netflow(alloc: Global, bytes: &[u8]) -> Result<Vec<FlowRecord>, NetflowFault>
    ensures flows { IfOk result (λ v. flows_in bytes.now ≡ Ok v.items) }
    ensures fault { IfErr result (λ f. (f ≡ NetflowFault.OutOfMemory) ⊎ (flows_in bytes.now ≡ Err f)) }
{
    let mut flows = Vec::new(alloc);
    let mut at = 0;
    'datagrams: while at < bytes.len() {
        if let Some(fault) = datagram_fault(bytes, at, flows.len()) {
            return Err(fault);
        }
        let Ok(count) = add_records(&mut flows, bytes, at) else {
            return Err(NetflowFault::OutOfMemory);
        };
        at += HEADER_SIZE + count * RECORD_SIZE;
    }
    Ok(flows)
}
