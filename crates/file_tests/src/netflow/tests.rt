use netflow_v5::{FlowRecord, NetflowFault, read_netflow};
use std::alloc::{AllocError, Global};

// One flow of two packets of UDP from 10.0.0.1, port 1000, to 10.0.0.2, port 53, exported two seconds after the first.
const DATAGRAM: [u8; 72] = [
    0, 5, 0, 1, 0, 0, 0x07, 0xd0, 0, 0, 0, 3, 0, 0, 0, 0, 0, 0, 0, 0, 0, 0, 0, 0, //
    10, 0, 0, 1, 10, 0, 0, 2, 0, 0, 0, 0, 0, 1, 0, 2, 0, 0, 0, 2, 0, 0, 0, 0x38, //
    0, 0, 0, 0, 0, 0, 0x07, 0xd0, 0x03, 0xe8, 0, 0x35, 0, 0, 17, 0, 0, 0, 0, 0, 0, 0, 0, 0,
];

const FLOW: FlowRecord = FlowRecord {
    src: 0x0a00_0001,
    dst: 0x0a00_0002,
    input: 1,
    output: 2,
    packets: 2,
    octets: 56,
    first: 0,
    last: 2000,
    sport: 1000,
    dport: 53,
    flags: 0,
    proto: 17,
    tos: 0,
};

#[test]
fn a_flow_is_read(rt: HostRuntime) {
    let flows = read_netflow(rt.alloc(), &DATAGRAM)
        .ok()
        .expect(&rt, "the datagram is read");
    assert!(rt; flows.len() == 1);
    assert!(rt; flows[0] == FLOW);
}

#[test]
fn no_bytes_have_no_flows(rt: HostRuntime) {
    let none = read_netflow(rt.alloc(), &[])
        .ok()
        .expect(&rt, "no datagram is read");
    assert!(rt; none.is_empty());
}

// What is answered to two datagrams, of which the second has this byte at an offset, and of which so many bytes are there.
fn fault_with(
    alloc: Global,
    offset: usize,
    byte: u8,
    len: usize,
) -> Result<Option<NetflowFault>, AllocError> {
    let mut bytes = DATAGRAM.to_vec(alloc)?;
    for (at, given) in DATAGRAM.iter().enumerate() {
        bytes.push(if at == offset { byte } else { *given })?;
    }
    bytes.truncate(len);
    Ok(read_netflow(alloc, &bytes).err())
}

#[test]
fn each_fault_is_told(rt: HostRuntime) {
    let at = 72;
    let short = Some(NetflowFault::Short { at });
    for (offset, byte, len, fault) in [
        // One record stands before the second datagram, which says so in the last byte of its sequence number.
        (19, 1, 144, None),
        (19, 1, 95, short),
        (19, 1, 143, short),
        (1, 9, 144, Some(NetflowFault::Version { at })),
        (3, 0, 144, Some(NetflowFault::Count { at })),
        (3, 31, 144, Some(NetflowFault::Count { at })),
        (19, 2, 144, Some(NetflowFault::Sequence { at })),
    ] {
        assert!(rt;
            fault_with(rt.alloc(), offset, byte, len).expect(&rt, "ample memory") == fault,
            "{offset} {byte} {len}"
        );
    }
}
