//! Where the fields of a key stand in a frame.
ghost use Rattle.std.specs.Prelude.{◌≡◌, ◌+◌, ◌≤◌, IfSome};
ghost use Rattle.std.specs.Option.{option_map};
ghost use Rattle.spec_keys.specs.Fields.{width_of};
ghost use Rattle.spec_frames.specs.Arp as arp;
ghost use Rattle.spec_frames.specs.Ipv4 as ipv4;
ghost use Rattle.spec_frames.specs.Ipv6 as ipv6;
ghost use Rattle.spec_exec.specs.Places.{in_arp, in_ipv4, in_ipv6, in_network, port_at, place_in};
ghost use Rattle.frame_keys.specs.Within.{IsBefore};
ghost use Rattle.frame_keys.specs.Laid.{NetworkIsBefore, AreBefore};
ghost use Rattle.action_exec.specs.Shapes.{bits_of};
ghost use Rattle.action_exec.specs.Placed.{placed};

use crate::shape::Shape;
use frame_keys::layout::{L3, L4, Layout};
use spec_keys::FieldId;

/// The addresses of an Ethernet header (IEEE 802.3).
const DESTINATION_AT: usize = 0;

const SOURCE_AT: usize = 6;

/// The addresses of ARP (RFC 826): of the sender and of the target, each of hardware and of protocol.
const SENDER_HARDWARE_AT: usize = 8;

const SENDER_PROTOCOL_AT: usize = 14;

const TARGET_HARDWARE_AT: usize = 18;

const TARGET_PROTOCOL_AT: usize = 24;

/// The fields of IPv4 (RFC 791).
const IPV4_TOS_AT: usize = 1;

const IPV4_TTL_AT: usize = 8;

const IPV4_SOURCE_AT: usize = 12;

const IPV4_DESTINATION_AT: usize = 16;

/// The fields of IPv6 (RFC 8200). The hop limit is the second byte of its word.
const HOP_LIMIT_WORD_AT: usize = 6;

const HOP_LIMIT_AT: usize = 7;

const IPV6_SOURCE_AT: usize = 8;

const IPV6_DESTINATION_AT: usize = 24;

/// The ports of TCP and of UDP (RFC 9293 and RFC 768).
const SOURCE_PORT_AT: usize = 0;

const DESTINATION_PORT_AT: usize = 2;

/// Where a field stands, by offsets in bytes.
#[derive(Clone, Copy)]
pub struct Place {
    pub shape: Shape,
    pub at: usize,
    /// Where the first of the words of 16 bits begins of which the field is part.
    pub word_at: usize,
}

/// The place of a field of whole words.
fn whole(shape: Shape, at: usize) -> Place
    ensures { result ≡ record { shape = shape; at = at; word_at = at } }
{
    Place {
        shape,
        at,
        word_at: at,
    }
}

/// The place of a field that is one byte of a word.
fn byte_of(word_at: usize, at: usize) -> Place
    ensures { result ≡ record { shape = Shape.Byte; at = at; word_at = word_at } }
{
    Place {
        shape: Shape::Byte,
        at,
        word_at,
    }
}

/// The place in a packet of ARP at an offset.
fn in_arp(at: usize, field: FieldId) -> Option<Place>
    requires { at + arp.packet_size ≤ usize.MAX }
    ensures value { option_map placed result ≡ in_arp at field }
    ensures width { IfSome result (λ p. bits_of p.shape ≡ width_of field) }
{
    match field {
        FieldId::ArpSha => Some(whole(Shape::EthernetAddress, at + SENDER_HARDWARE_AT)),
        FieldId::NwSrc => Some(whole(Shape::Ipv4Address, at + SENDER_PROTOCOL_AT)),
        FieldId::ArpTha => Some(whole(Shape::EthernetAddress, at + TARGET_HARDWARE_AT)),
        FieldId::NwDst => Some(whole(Shape::Ipv4Address, at + TARGET_PROTOCOL_AT)),
        _ => None,
    }
}

/// The place in a header of IPv4 at an offset.
fn in_ipv4(at: usize, field: FieldId) -> Option<Place>
    requires { at + ipv4.least_header_size ≤ usize.MAX }
    ensures value { option_map placed result ≡ in_ipv4 at field }
    ensures width { IfSome result (λ p. bits_of p.shape ≡ width_of field) }
{
    match field {
        FieldId::NwTos => Some(byte_of(at, at + IPV4_TOS_AT)),
        FieldId::NwTtl => Some(byte_of(at + IPV4_TTL_AT, at + IPV4_TTL_AT)),
        FieldId::NwSrc => Some(whole(Shape::Ipv4Address, at + IPV4_SOURCE_AT)),
        FieldId::NwDst => Some(whole(Shape::Ipv4Address, at + IPV4_DESTINATION_AT)),
        _ => None,
    }
}

/// The place in a header of IPv6 at an offset.
fn in_ipv6(at: usize, field: FieldId) -> Option<Place>
    requires { at + ipv6.header_size ≤ usize.MAX }
    ensures value { option_map placed result ≡ in_ipv6 at field }
    ensures width { IfSome result (λ p. bits_of p.shape ≡ width_of field) }
{
    match field {
        FieldId::NwTos => Some(whole(Shape::TrafficClass, at)),
        FieldId::NwTtl => Some(byte_of(at + HOP_LIMIT_WORD_AT, at + HOP_LIMIT_AT)),
        FieldId::Ipv6Src => Some(whole(Shape::Ipv6Address, at + IPV6_SOURCE_AT)),
        FieldId::Ipv6Dst => Some(whole(Shape::Ipv6Address, at + IPV6_DESTINATION_AT)),
        _ => None,
    }
}

/// The place in a network header.
fn in_network(network: L3, field: FieldId) -> Option<Place>
    requires { NetworkIsBefore usize.MAX network }
    ensures value { option_map placed result ≡ in_network network field }
    ensures width { IfSome result (λ p. bits_of p.shape ≡ width_of field) }
{
    match network {
        L3::None => None,
        L3::Arp(at) => in_arp(at, field),
        L3::Ipv4(at) => in_ipv4(at, field),
        L3::Ipv6(at) => in_ipv6(at, field),
    }
}

/// The place of the port at an offset in a transport header.
fn port_at(offset: usize, transport: L4) -> Option<Place>
    requires offset { offset ≤ 2 }
    requires before { IsBefore usize.MAX transport }
    ensures value { option_map placed result ≡ port_at offset transport }
    ensures shape { IfSome result (λ p. p.shape ≡ Shape.Port) }
{
    match transport {
        L4::Tcp(at) | L4::Udp(at) => Some(whole(Shape::Port, at + offset)),
        L4::None | L4::Icmp(_) | L4::Icmp6(_) => None,
    }
}

/// The place of a field in a frame with a whole Ethernet header and these headers, if it has the field.
pub fn place_in(layout: &Layout, field: FieldId) -> Option<Place>
    requires { AreBefore usize.MAX layout.now }
    ensures value { option_map placed result ≡ place_in layout.now field }
    ensures width { IfSome result (λ p. bits_of p.shape ≡ width_of field) }
{
    match field {
        FieldId::DlDst => Some(whole(Shape::EthernetAddress, DESTINATION_AT)),
        FieldId::DlSrc => Some(whole(Shape::EthernetAddress, SOURCE_AT)),
        FieldId::TpSrc => port_at(SOURCE_PORT_AT, layout.l4),
        FieldId::TpDst => port_at(DESTINATION_PORT_AT, layout.l4),
        _ => in_network(layout.l3, field),
    }
}
