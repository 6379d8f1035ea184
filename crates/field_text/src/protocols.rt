// Ethernet types (IEEE 802 Numbers of IANA).
pub const IPV4_TYPE: u128 = 0x0800;

pub const ARP_TYPE: u128 = 0x0806;

pub const IPV6_TYPE: u128 = 0x86dd;

// Protocols of IP (Protocol Numbers of IANA).
pub const ICMP_PROTOCOL: u128 = 1;

pub const TCP_PROTOCOL: u128 = 6;

pub const UDP_PROTOCOL: u128 = 17;

pub const ICMP6_PROTOCOL: u128 = 58;
