//! ARP (RFC 826), for the addresses of Ethernet and of IPv4.
ghost use Rattle.std.specs.Prelude.{◌≡◌, ◌+◌, ◌≤◌, length};
ghost use Rattle.spec_frames.specs.Arp.{is_arp};

use crate::headers::ethernet::IPV4_TYPE;
use net_bytes::be16;

const PACKET_SIZE: usize = 28;

const ETHERNET_HARDWARE: u16 = 1;

/// The sizes of the addresses of Ethernet and of IPv4.
const HARDWARE_SIZE: u8 = 6;

const PROTOCOL_SIZE: u8 = 4;

/// Where the parts stand after the hardware type.
const PROTOCOL_TYPE_AT: usize = 2;

const HARDWARE_SIZE_AT: usize = 4;

const PROTOCOL_SIZE_AT: usize = 5;

/// Whether a whole packet stands at an offset.
#[inline]
#[tactic(auto, unfolding(spec_frames::specs::Arp::is_arp))]
pub(crate) fn is_arp(frame: &[u8], at: usize) -> bool
    requires { at ≤ length frame.now }
    ensures { result ≡ is_arp frame.now at }
{
    at + PACKET_SIZE <= frame.len()
        && be16(frame, at) == ETHERNET_HARDWARE
        && be16(frame, at + PROTOCOL_TYPE_AT) == IPV4_TYPE
        && frame[at + HARDWARE_SIZE_AT] == HARDWARE_SIZE
        && frame[at + PROTOCOL_SIZE_AT] == PROTOCOL_SIZE
}
