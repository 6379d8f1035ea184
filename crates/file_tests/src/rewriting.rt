use action_exec::{FrameBuffer, execute};
use spec_actions::DpAction;
use spec_keys::FieldId;
use std::alloc::{AllocError, Global};

// From 00:00:00:00:00:01 to 00:00:00:00:00:02.
const ADDRESSES: [u8; 12] = [0, 0, 0, 0, 0, 2, 0, 0, 0, 0, 0, 1];

// A datagram of UDP without a checksum, from 10.0.0.1 to 10.0.0.2.
const DATAGRAM: [u8; 42] = [
    0, 0, 0, 0, 0, 2, 0, 0, 0, 0, 0, 1, 0x08, 0x00, 0x45, 0, 0, 0x1c, 0, 0, 0, 0, 0x40, 0x11, 0x66,
    0xcf, 10, 0, 0, 1, 10, 0, 0, 2, 0x03, 0xe8, 0, 0x35, 0, 8, 0, 0,
];

const TTL_AT: usize = 22;

const SUM_AT: usize = 24;

const SOURCE_AT: usize = 26;

// The time to live of 64 becomes 63.
const LOWER_TTL: DpAction = DpAction::Set {
    field: FieldId::NwTtl,
    value: 63,
    mask: 0x7f,
};

// The datagram with the time to live of 63, and the checksum of it.
fn with_lower_ttl() -> [u8; 42] {
    let mut bytes = DATAGRAM;
    bytes[TTL_AT] = 63;
    bytes[SUM_AT..SUM_AT + 2].copy_from_slice(&[0x67, 0xcf]);
    bytes
}

// A frame of 60 bytes and the type 0x88b5, for local experiments.
fn plain(alloc: Global) -> Result<Vec<u8>, AllocError> {
    let mut bytes = ADDRESSES.to_vec(alloc)?;
    bytes.extend_from_slice(&[0x88, 0xb5])?;
    bytes.resize(60, 0)?;
    Ok(bytes)
}

#[test]
fn field_is_set_and_its_checksum_follows(rt: HostRuntime) {
    let mut frame = FrameBuffer::new(rt.alloc());
    frame.load(&DATAGRAM).expect(&rt, "ample memory");
    frame
        .apply(&DpAction::Set {
            field: FieldId::NwSrc,
            value: 8,
            mask: 8,
        })
        .expect(&rt, "ample memory");
    let mut expected = DATAGRAM;
    expected[SUM_AT..SUM_AT + 2].copy_from_slice(&[0x66, 0xc7]);
    expected[SOURCE_AT + 3] = 9;
    assert!(rt; frame.as_slice() == expected.as_slice());

    frame.load(&DATAGRAM).expect(&rt, "ample memory");
    frame.apply(&LOWER_TTL).expect(&rt, "ample memory");
    assert!(rt; frame.as_slice() == with_lower_ttl().as_slice());
}

// A segment of TCP from 10.0.0.5 to 192.0.2.7, whose checksums are right.
const SEGMENT: [u8; 54] = [
    0, 0, 0, 0, 0, 2, 0, 0, 0, 0, 0, 1, 0x08, 0x00, 0x45, 0, 0, 0x28, 0, 0, 0, 0, 0x40, 0x06, 0xae,
    0xc4, 10, 0, 0, 5, 0xc0, 0, 2, 7, 0x9c, 0x40, 0, 0x50, 0, 0, 0, 1, 0, 0, 0, 0, 0x50, 0x02,
    0x20, 0, 0x27, 0x45, 0, 0,
];

const DESTINATION_AT: usize = 30;

const TCP_SUM_AT: usize = 50;

#[test]
fn address_is_set_and_both_checksums_follow(rt: HostRuntime) {
    let mut frame = FrameBuffer::new(rt.alloc());
    frame.load(&SEGMENT).expect(&rt, "ample memory");
    frame
        .apply(&DpAction::Set {
            field: FieldId::NwDst,
            value: 0x0a00_0009,
            mask: 0xffff_ffff,
        })
        .expect(&rt, "ample memory");
    let mut expected = SEGMENT;
    expected[SUM_AT..SUM_AT + 2].copy_from_slice(&[0x66, 0xc3]);
    expected[DESTINATION_AT..DESTINATION_AT + 4].copy_from_slice(&[10, 0, 0, 9]);
    expected[TCP_SUM_AT..TCP_SUM_AT + 2].copy_from_slice(&[0xdf, 0x43]);
    assert!(rt; frame.as_slice() == expected.as_slice());
}

#[test]
fn tag_is_pushed_and_popped(rt: HostRuntime) {
    let bytes = plain(rt.alloc()).expect(&rt, "ample memory");
    let mut frame = FrameBuffer::new(rt.alloc());
    frame.load(&bytes).expect(&rt, "ample memory");
    frame
        .apply(&DpAction::PushVlan {
            tpid: 0x8100,
            tci: 0x1005,
        })
        .expect(&rt, "ample memory");
    assert!(rt; frame.as_slice().len() == 64);
    assert!(rt; &frame.as_slice()[..12] == ADDRESSES.as_slice());
    assert!(rt; &frame.as_slice()[12..18] == [0x81, 0, 0, 5, 0x88, 0xb5].as_slice());
    frame.apply(&DpAction::PopVlan).expect(&rt, "ample memory");
    assert!(rt; frame.as_slice() == bytes.as_slice());
}

const INNER_TAG: DpAction = DpAction::PushVlan {
    tpid: 0x8100,
    tci: 0x1005,
};

#[test]
fn second_tag_is_pushed_outside_of_the_first(rt: HostRuntime) {
    let bytes = plain(rt.alloc()).expect(&rt, "ample memory");
    let mut once = FrameBuffer::new(rt.alloc());
    once.load(&bytes).expect(&rt, "ample memory");
    once.apply(&INNER_TAG).expect(&rt, "ample memory");

    let mut twice = FrameBuffer::new(rt.alloc());
    twice.load(&bytes).expect(&rt, "ample memory");
    twice.apply(&INNER_TAG).expect(&rt, "ample memory");
    twice
        .apply(&DpAction::PushVlan {
            tpid: 0x88a8,
            tci: 0x7064,
        })
        .expect(&rt, "ample memory");
    assert!(rt; twice.as_slice().len() == 68);
    assert!(rt;
        &twice.as_slice()[12..22] == [0x88, 0xa8, 0x60, 100, 0x81, 0, 0, 5, 0x88, 0xb5].as_slice()
    );
    twice.apply(&DpAction::PopVlan).expect(&rt, "ample memory");
    assert!(rt; twice.as_slice() == once.as_slice());
    twice.apply(&DpAction::PopVlan).expect(&rt, "ample memory");
    assert!(rt; twice.as_slice() == bytes.as_slice());
}

#[test]
fn outputs_send_the_frame_as_it_then_is(rt: HostRuntime) {
    let list = [DpAction::Output(2), LOWER_TTL, DpAction::Output(3)];
    let lower = with_lower_ttl();
    let mut before = false;
    let mut after = false;
    execute(
        rt.alloc(),
        &list,
        &DATAGRAM,
        &mut |port, bytes: &[u8]| match port {
            2 => before = bytes == DATAGRAM.as_slice(),
            _ => after = before && port == 3 && bytes == lower.as_slice(),
        },
    )
    .expect(&rt, "ample memory");
    assert!(rt; after);
}
