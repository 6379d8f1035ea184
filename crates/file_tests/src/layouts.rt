use frame_keys::layout::{L3, L4, Layout, layout_of};
use std::alloc::{AllocError, Global};

// From 00:00:00:00:00:01 to 00:00:00:00:00:02.
const ADDRESSES: [u8; 12] = [0, 0, 0, 0, 0, 2, 0, 0, 0, 0, 0, 1];

const NOWHERE: Layout = Layout {
    tags: 0,
    l3: L3::None,
    l4: L4::None,
    routed: false,
};

fn frame(alloc: Global, parts: &[&[u8]]) -> Result<Vec<u8>, AllocError> {
    let mut bytes = ADDRESSES.to_vec(alloc)?;
    for part in parts {
        bytes.extend_from_slice(part)?;
    }
    Ok(bytes)
}

#[test]
fn tag_is_found(rt: HostRuntime) {
    // VLAN 5 of priority 5, and the type 0x88b5 for local experiments.
    let mut bytes = frame(rt.alloc(), &[&[0x81, 0, 0xa0, 5, 0x88, 0xb5]]).expect(
        &rt,
        "ample memory",
    );
    let layout = Layout { tags: 1, ..NOWHERE };
    assert!(rt; layout_of(&bytes) == layout);

    // Without its last byte the frame has no whole tag.
    bytes.truncate(17);
    assert!(rt; layout_of(&bytes) == NOWHERE);
}

#[test]
fn two_tags_are_found_and_no_third(rt: HostRuntime) {
    // A provider's tag of VLAN 7, and customers' of VLAN 5 and 6.
    let tags = [0x88, 0xa8, 0, 7, 0x81, 0, 0, 5, 0x81, 0, 0, 6, 0x88, 0xb5];
    let mut bytes = frame(rt.alloc(), &[&tags]).expect(&rt, "ample memory");
    let layout = Layout { tags: 2, ..NOWHERE };
    assert!(rt; layout_of(&bytes) == layout);

    // In 21 bytes there is one whole tag with a type after it.
    bytes.truncate(21);
    let layout = Layout { tags: 1, ..NOWHERE };
    assert!(rt; layout_of(&bytes) == layout);
}

#[test]
fn arp_request_after_snap_is_found(rt: HostRuntime) {
    let snap = [0, 36, 0xaa, 0xaa, 3, 0, 0, 0, 0x08, 0x06];
    let request = [0, 1, 0x08, 0x00, 6, 4, 0, 1];
    let sender = [0, 0, 0, 0, 0, 1, 10, 0, 0, 1];
    let target = [0, 0, 0, 0, 0, 0, 10, 0, 0, 2];
    let bytes = frame(rt.alloc(), &[&snap, &request, &sender, &target]).expect(&rt, "ample memory");
    let layout = Layout {
        l3: L3::Arp(22),
        ..NOWHERE
    };
    assert!(rt; layout_of(&bytes) == layout);
}

// A SYN from port 1234 to 80, after three bytes of options that do nothing and the end of options.
const TCP_HEADERS: [u8; 46] = [
    0x08, 0x00, 0x46, 0x10, 0, 44, 0, 1, 0x40, 0, 64, 6, 0, 0, 10, 0, 0, 1, 10, 0, 0, 2, 1, 1, 1,
    0, 0x04, 0xd2, 0, 80, 0, 0, 0, 1, 0, 0, 0, 0, 0x50, 0x02, 0, 0, 0, 0, 0, 0,
];

#[test]
fn tcp_after_options_is_found(rt: HostRuntime) {
    let mut bytes = frame(rt.alloc(), &[&TCP_HEADERS]).expect(&rt, "ample memory");
    let mut layout = NOWHERE;
    layout.l3 = L3::Ipv4(14);
    assert!(rt;
        layout_of(&bytes)
            == Layout {
                l4: L4::Tcp(38),
                ..layout
            }
    );

    // A frame that was cut has the headers that are whole.
    bytes.truncate(57);
    assert!(rt; layout_of(&bytes) == layout);
    bytes.truncate(37);
    assert!(rt; layout_of(&bytes) == NOWHERE);
}

// The header of UDP after that of IPv4, with this high byte of flags and fragment offset.
fn fragment(alloc: Global, flags: u8) -> Result<Vec<u8>, AllocError> {
    let header = [0x08, 0x00, 0x45, 0, 0, 28, 0, 1, flags, 0, 64, 17, 0, 0];
    let addresses = [10, 0, 0, 1, 10, 0, 0, 2];
    frame(alloc, &[&header, &addresses, &[0, 53, 0, 53, 0, 8, 0, 0]])
}

#[test]
fn first_fragment_alone_has_a_transport_header(rt: HostRuntime) {
    let bytes = fragment(rt.alloc(), 0x20).expect(&rt, "ample memory");
    let mut layout = NOWHERE;
    layout.l3 = L3::Ipv4(14);
    assert!(rt;
        layout_of(&bytes)
            == Layout {
                l4: L4::Udp(34),
                ..layout
            }
    );

    let bytes = fragment(rt.alloc(), 0x21).expect(&rt, "ample memory");
    assert!(rt; layout_of(&bytes) == layout);
}

// A header of IPv6 with this size of payload, whose next header is the options of each hop. The traffic class is 0xb8.
fn ipv6(payload: u8) -> [u8; 42] {
    let mut header = [0; 42];
    header[..10].copy_from_slice(&[0x86, 0xdd, 0x6b, 0x80, 0, 0, 0, payload, 0, 64]);
    header[10..14].copy_from_slice(&[0x20, 0x01, 0x0d, 0xb8]);
    header[25] = 1;
    header[26..30].copy_from_slice(&[0x20, 0x01, 0x0d, 0xb8]);
    header[41] = 2;
    header
}

// An extension header of eight bytes, whose content is four bytes of padding.
fn extension(next: u8) -> [u8; 8] {
    [next, 0, 1, 4, 0, 0, 0, 0]
}

const ROUTING: u8 = 43;

const DESTINATION_OPTIONS: u8 = 60;

const UDP: u8 = 17;

// From port 53 to 5000.
const UDP_HEADER: [u8; 8] = [0, 53, 0x13, 0x88, 0, 8, 0, 0];

#[test]
fn extension_headers_are_passed(rt: HostRuntime) {
    let headers = [extension(ROUTING), extension(DESTINATION_OPTIONS)];
    let bytes = frame(
        rt.alloc(),
        &[
            &ipv6(32),
            &headers[0],
            &headers[1],
            &extension(UDP),
            &UDP_HEADER,
        ],
    )
    .expect(&rt, "ample memory");
    let layout = Layout {
        tags: 0,
        l3: L3::Ipv6(14),
        l4: L4::Udp(78),
        routed: true,
    };
    assert!(rt; layout_of(&bytes) == layout);
}
