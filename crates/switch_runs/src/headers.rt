//! Headers of frames and of capture files, by name.

use crate::texts::cut_word;

// A line has a name, the header in hexadecimal digits, and what it is.
const HEADERS: &str = "\
micros d4c3b2a10200040000000000000000000000040001000000 the header of a capture file: little-endian, in \
    microseconds, version 2.4, snap length 262,144, Ethernet
nanos 4d3cb2a10200040000000000000000000000040001000000 the same in nanoseconds
big_endian_nanos a1b23c4d0002000400000000000000000004000000000001 and in big-endian order
to_2 000000000002000000000001 the addresses of Ethernet: from 00:00:00:00:00:01 to 00:00:00:00:00:02
unknown 88b500000000000000000000000000000000000000000000000000000000000000000000000000000000000000000000 a type \
    that no field tells, and 46 bytes
ipv4 0800 the type of IPv4
tag_5 81000005 a tag of VLAN 5
tag_10 8100000a a tag of VLAN 10
service_tag_100 88a80064 a service tag of VLAN 100
ttl_64 4500001c00000000401166cf0a0000010a000002 a header of IPv4 from 10.0.0.1 to 10.0.0.2 for UDP, with TTL 64
ttl_63 4500001c000000003f1167cf0a0000010a000002 with TTL 63
ttl_65 4500001c00000000411165cf0a0000010a000002 with TTL 65
ttl_1 4500001c000000000111a5cf0a0000010a000002 with TTL 1
from_9 4500001c00000000401166c70a0000090a000002 the same from 10.0.0.9, with TTL 64
to_far 4500001c000000004011b0270a000001c0a80001 from 10.0.0.1 to 192.168.0.1
first_fragment 4500001c00002000401146cf0a0000010a000002 the first fragment of a datagram from 10.0.0.1 to 10.0.0.2
udp 03e8003500080000 from port 1000 to 53, without a checksum
arp 0806 the type of ARP
question 00010800060400010000000000010a0000050000000000000a000001 10.0.0.5 asks for 10.0.0.1
to_web 45000028000000004006aec40a000005c0000207 a header of IPv4 from 10.0.0.5 to 192.0.2.7 for TCP, with TTL 64
to_web_lowered 45000028000000003f06afc40a000005c0000207 the same with TTL 63
from_web 45000028000000004006aec4c00002070a000005 and from 192.0.2.7 to 10.0.0.5, with TTL 64
tcp 9c40005000000001000000005002200027450000 a segment from port 40000 to 80, with the checksum for the addresses \
    of to_web
tcp_answer 00509c4000000001000000025012200027330000 and from port 80 to 40000
near 4500002800000000400666ce0a0000010a000002 a header of IPv4 from 10.0.0.1 to 10.0.0.2 for TCP
near_tcp 9c400050000000010000000050022000df4e0000 the segment of tcp, with the checksum for the addresses of near";

/// The digits of the header of this name.
pub fn digits_of(name: &str) -> Option<&'static str> {
    for line in HEADERS.lines() {
        let (first, rest) = cut_word(line);
        if first == name {
            return Some(cut_word(rest).0);
        }
    }
    None
}
