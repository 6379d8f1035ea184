//! The network header of a frame.
ghost use Rattle.std.specs.Prelude.{◌≡◌, ◌≤◌, length};
ghost use Rattle.spec_frames.specs.Network.{network_at};
ghost use Rattle.frame_keys.specs.Within.{IsWithin};

use crate::headers::arp::is_arp;
use crate::headers::ethernet::{ARP_TYPE, IPV4_TYPE, IPV6_TYPE};
use crate::headers::ipv4::{ipv4, is_ipv4};
use crate::headers::ipv6::ipv6;
use spec_frames::{Carried, Network};

/// The header of what a frame carries; nothing where it is malformed, or of another type.
#[inline]
#[tactic(auto, unfolding(spec_frames::specs::Network::network_at, spec_frames::specs::Arp::is_arp))]
pub fn network_at(frame: &[u8], payload: Carried) -> Network
    requires { payload.at ≤ length frame.now }
    ensures value { result ≡ network_at frame.now payload.dl_type payload.at }
    ensures within { IsWithin frame.now result }
{
    let at = payload.at;
    match payload.dl_type {
        ARP_TYPE if is_arp(frame, at) => Network::Arp(at),
        IPV4_TYPE if is_ipv4(frame, at) => Network::Ipv4(at, ipv4(frame, at)),
        IPV6_TYPE => match ipv6(frame, at) {
            Some(datagram) => Network::Ipv6(at, datagram),
            None => Network::Nothing,
        },
        _ => Network::Nothing,
    }
}
