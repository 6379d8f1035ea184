//! The key of a frame.
ghost use Rattle.std.specs.Prelude.{◌≡◌, ◌+◌, ◌*◌, ◌^◌, ◌<◌, ◌≤◌, length};
ghost use Rattle.spec_keys.specs.Keys.{IsClean};
ghost use Rattle.spec_frames.specs.Ethernet.{header_size};
ghost use Rattle.spec_frames.specs.Network.{network};
ghost use Rattle.spec_frames.specs.Key.{with_ethernet, port_size, with_ports, with_icmp, with_transport, shown, ip_frag, with_datagram, with_network, key_of as key_numbers};
ghost use Rattle.ovs_fields.specs.Packed.{numbers};
ghost use Rattle.frame_keys.specs.Folded.{folded};
ghost use Rattle.frame_keys.specs.Within.{IsWithin, IsBefore};

use crate::arp::set_arp;
use crate::ethernet::set_ethernet;
use crate::field::{key_at, set_field};
use crate::headers::{HEADER_SIZE, carried, network_at, tag_count, transport};
use crate::ipv4::set_ipv4;
use crate::ipv6::set_ipv6;
use net_bytes::be16;
use ovs_fields::{FieldId, Key};
use spec_frames::{Datagram, Fragment, L4, Network};

/// After the source port stands the destination port, and after the type of ICMP its code.
const DESTINATION_PORT_AT: usize = 2;

const CODE_AT: usize = 1;

/// The values of `ip_frag` (ovs-fields(7)): bit 0 is that of any fragment, and bit 1 that of a later one.
const WHOLE: u8 = 0;

const FIRST: u8 = 1;

const LATER: u8 = 3;

#[inline]
fn set_ports(key: &mut Key, frame: &[u8], at: usize)
    requires { at + 2 * port_size ≤ length frame.now }
    ensures { folded key.new ≡ with_ports frame.now at (folded key.old) }
{
    set_field(key, FieldId::TpSrc, u128::from(be16(frame, at)));
    set_field(
        key,
        FieldId::TpDst,
        u128::from(be16(frame, at + DESTINATION_PORT_AT)),
    );
}

#[inline]
fn set_icmp(key: &mut Key, frame: &[u8], at: usize)
    requires { at + 2 ≤ length frame.now }
    ensures { folded key.new ≡ with_icmp frame.now at (folded key.old) }
{
    set_field(key, FieldId::TpSrc, u128::from(frame[at]));
    set_field(key, FieldId::TpDst, u128::from(frame[at + CODE_AT]));
}

#[inline]
#[tactic(auto, unfolding(spec_frames::specs::Key::with_transport))]
fn set_transport(key: &mut Key, frame: &[u8], header: L4)
    requires { IsBefore (length frame.now) header }
    ensures { folded key.new ≡ with_transport frame.now header (folded key.old) }
{
    match header {
        L4::None => {}
        L4::Tcp(at) | L4::Udp(at) => set_ports(key, frame, at),
        L4::Icmp(at) | L4::Icmp6(at) => set_icmp(key, frame, at),
    }
}

/// The transport header that a key shows: that of a packet that is no fragment.
#[inline]
fn shown(fragment: Fragment, header: L4) -> L4
    ensures { result ≡ shown fragment header }
{
    match fragment {
        Fragment::Whole => header,
        Fragment::First | Fragment::Later => L4::None,
    }
}

#[inline]
fn ip_frag(fragment: Fragment) -> u8
    ensures value { result ≡ ip_frag fragment }
    ensures fits { result < 2 ^ 2 }
{
    match fragment {
        Fragment::Whole => WHOLE,
        Fragment::First => FIRST,
        Fragment::Later => LATER,
    }
}

/// Gives a key what both versions of IP say.
#[inline]
fn set_datagram(key: &mut Key, datagram: &Datagram)
    ensures { folded key.new ≡ with_datagram datagram.now (folded key.old) }
{
    set_field(key, FieldId::NwProto, u128::from(datagram.upper.protocol));
    set_field(key, FieldId::NwTos, u128::from(datagram.tos));
    set_field(key, FieldId::NwTtl, u128::from(datagram.ttl));
    set_field(
        key,
        FieldId::IpFrag,
        u128::from(ip_frag(datagram.upper.fragment)),
    );
}

/// Gives a key the network header of its frame and what stands after that.
#[inline]
#[tactic(auto, unfolding(spec_frames::specs::Key::with_network))]
fn set_network(key: &mut Key, frame: &[u8], network: &Network)
    requires { IsWithin frame.now network.now }
    ensures { folded key.new ≡ with_network frame.now network.now (folded key.old) }
{
    match network {
        Network::Nothing => {}
        Network::Arp(at) => set_arp(key, frame, *at),
        Network::Ipv4(at, datagram) => {
            set_ipv4(key, frame, *at);
            set_datagram(key, datagram);
            set_transport(
                key,
                frame,
                shown(datagram.upper.fragment, transport(network)),
            );
        }
        Network::Ipv6(at, datagram) => {
            set_ipv6(key, frame, *at);
            set_datagram(key, datagram);
            set_transport(
                key,
                frame,
                shown(datagram.upper.fragment, transport(network)),
            );
        }
    }
}

/// Gives a key the headers of its frame, which has a whole Ethernet header.
#[inline]
fn set_headers(key: &mut Key, frame: &[u8])
    requires { header_size ≤ length frame.now }
    ensures { folded key.new ≡ with_network frame.now (network frame.now) (with_ethernet frame.now (folded key.old)) }
{
    let tags = tag_count(frame);
    let payload = carried(frame, tags);
    set_ethernet(key, frame, tags, payload.dl_type);
    set_network(key, frame, &network_at(frame, payload));
}

/// The key of a frame that came in at a port.
///
/// Ports are numbers of 16 bits, as in OpenFlow 1.0. The frame is the bytes that were captured, from the destination
/// address on. Metadata and registers, which no frame carries, are 0. It takes no memory.
#[tactic(auto, unfolding(spec_frames::specs::Key::key_of, crate::specs::Folded::folded))]
pub fn key_of(port: u16, frame: &[u8]) -> Key
    ensures numbers { numbers result ≡ key_numbers port frame.now }
    ensures clean { IsClean (numbers result) }
{
    let mut key = key_at(port);
    if frame.len() >= HEADER_SIZE {
        set_headers(&mut key, frame);
    }
    key
}
