/// The network header of a frame, and the offset in bytes at which it begins.
#[derive(Clone, Copy, PartialEq, Eq)]
pub enum L3 {
    None,
    /// RFC 826, of Ethernet and IPv4.
    Arp(usize),
    /// RFC 791.
    Ipv4(usize),
    /// RFC 8200.
    Ipv6(usize),
}

/// The transport header of a frame, and the offset in bytes at which it begins.
#[derive(Clone, Copy, PartialEq, Eq)]
pub enum L4 {
    None,
    /// RFC 9293.
    Tcp(usize),
    /// RFC 768.
    Udp(usize),
    /// RFC 792, over IPv4.
    Icmp(usize),
    /// RFC 4443, over IPv6.
    Icmp6(usize),
}

/// Where the headers of a frame stand.
#[derive(Clone, Copy, PartialEq, Eq)]
pub struct Layout {
    /// How many VLAN tags stand after the addresses (IEEE 802.1Q): 0, 1 or 2.
    pub tags: u8,
    pub l3: L3,
    /// Of a first fragment too, but of no later one.
    pub l4: L4,
    /// Whether a routing header was passed, after which the destination is not the one of the checksum (RFC 8200, 8.1).
    pub routed: bool,
}
