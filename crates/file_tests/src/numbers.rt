use net_bytes::{
    be16, be32, be48, be128, checksum_update, le16, le32, put16, put32, put48, put128,
};

// The example of RFC 1071, section 3, and its sums in the two byte orders.
const EXAMPLE: [u8; 8] = [0x00, 0x01, 0xf2, 0x03, 0xf4, 0xf5, 0xf6, 0xf7];

const NETWORK_SUM: u16 = 0xddf2;

const SWAPPED_SUM: u16 = 0xf2dd;

// The checksum of words that stand among words of 0 only, put in one by one.
fn checksum_of(words: [u16; 4]) -> u16 {
    let mut sum = u16::MAX;
    for word in &words {
        sum = checksum_update(sum, 0, *word);
    }
    sum
}

#[test]
fn example_of_rfc_1071_has_its_sum_in_either_order(rt: HostRuntime) {
    let network = [
        be16(&EXAMPLE, 0),
        be16(&EXAMPLE, 2),
        be16(&EXAMPLE, 4),
        be16(&EXAMPLE, 6),
    ];
    let swapped = [
        le16(&EXAMPLE, 0),
        le16(&EXAMPLE, 2),
        le16(&EXAMPLE, 4),
        le16(&EXAMPLE, 6),
    ];
    assert_eq!(rt; checksum_of(network), !NETWORK_SUM);
    assert_eq!(rt; checksum_of(swapped), !SWAPPED_SUM);
}

#[test]
fn example_of_rfc_1624_is_updated(rt: HostRuntime) {
    assert_eq!(rt; checksum_update(0xdd2f, 0x5555, 0x3285), 0x0000);
}

// A word of IPv4 is the time to live and the protocol, here UDP (17). RFC 1141 gives the step.
#[test]
fn hop_adds_0x0100_to_the_checksum(rt: HostRuntime) {
    assert_eq!(rt; checksum_update(0xb861, 0x4011, 0x3f11), 0xb861 + 0x0100);
}

#[test]
fn ethernet_address_is_read_and_put(rt: HostRuntime) {
    // 00-00-5e-00-53-01 (RFC 7042), after two bytes.
    let mut bytes = [0x88, 0xcc, 0x00, 0x00, 0x5e, 0x00, 0x53, 0x01];
    assert_eq!(rt; be48(&bytes, 2), 0x0000_5e00_5301);
    put48(&mut bytes, 0, 0x0180_c200_000e);
    assert_eq!(rt; bytes, [0x01, 0x80, 0xc2, 0x00, 0x00, 0x0e, 0x53, 0x01]);
}

#[test]
fn ipv6_address_is_read_and_put(rt: HostRuntime) {
    // 2001:db8::8:800:200c:417a (RFC 4291, with the prefix of RFC 3849), after one byte.
    let mut bytes = [
        0x40, 0x20, 0x01, 0x0d, 0xb8, 0, 0, 0, 0, 0x00, 0x08, 0x08, 0x00, 0x20, 0x0c, 0x41, 0x7a,
    ];
    assert_eq!(rt; be128(&bytes, 1), 0x2001_0db8_0000_0000_0008_0800_200c_417a);
    put128(&mut bytes, 1, 1);
    assert_eq!(rt;
        bytes,
        [0x40, 0, 0, 0, 0, 0, 0, 0, 0, 0, 0, 0, 0, 0, 0, 0, 1]
    );
}

#[test]
fn words_are_put_in_network_order(rt: HostRuntime) {
    // 192.0.2.1 (RFC 5737) between two ports.
    let mut bytes = [0; 8];
    put32(&mut bytes, 2, 0xc000_0201);
    put16(&mut bytes, 0, 4789);
    put16(&mut bytes, 6, 53);
    assert_eq!(rt; bytes, [0x12, 0xb5, 192, 0, 2, 1, 0, 53]);
    assert_eq!(rt; be32(&bytes, 2), 0xc000_0201);
}

#[test]
fn magic_of_a_capture_file_is_read(rt: HostRuntime) {
    // pcap-savefile(5), in microseconds.
    assert_eq!(rt; le32(&[0xd4, 0xc3, 0xb2, 0xa1], 0), 0xa1b2_c3d4);
}
