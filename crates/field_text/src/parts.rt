ghost use Rattle.std.specs.Prelude.{◌≡◌, ◌<◌, ◌^◌, IfSome, Option, Some, None};
ghost use Rattle.std.specs.Option.{option_map};
ghost use Rattle.spec_keys.specs.Fields.{width_of};
ghost use Rattle.spec_actions.specs.Named.{named};
ghost use Rattle.spec_flow_text.specs.Names.{type_stated, protocol_stated};
ghost use Rattle.spec_flow_text.specs.Values as values;
ghost use Rattle.field_text.specs.Views.{bits_view, Fits, FitsWidth, IsWithin};

use crate::protocols::{
    ARP_TYPE, ICMP_PROTOCOL, ICMP6_PROTOCOL, IPV4_TYPE, IPV6_TYPE, TCP_PROTOCOL, UDP_PROTOCOL,
};
use crate::values::{Bits, read_value};
use named_fields::named;
use ovs_fields::FieldId;
use spec_actions::NamedField;
use spec_flow_text::{MatchPrerequisite, Part, Shorthand, TagPart};
use text_numbers::read_number;

// The bit of a vlan_tci that says that there is a tag.
const TAG_BIT: u128 = named_fields::TAG_BIT as u128;

// What the flow has to state for a named field to be kept (ovs-fields(7), "Prerequisites").
fn needs_of(field: NamedField) -> MatchPrerequisite
    ensures { result ≡ values.needs_of field }
{
    match field {
        NamedField::NwSrc | NamedField::NwDst => MatchPrerequisite::Ipv4OrArp,
        NamedField::ArpSpa
        | NamedField::ArpTpa
        | NamedField::ArpOp
        | NamedField::ArpSha
        | NamedField::ArpTha => MatchPrerequisite::Arp,
        NamedField::Ipv6Src | NamedField::Ipv6Dst => MatchPrerequisite::Ipv6,
        NamedField::NwProto => MatchPrerequisite::IpOrArp,
        NamedField::NwTos
        | NamedField::IpDscp
        | NamedField::NwEcn
        | NamedField::NwTtl
        | NamedField::IpFrag => MatchPrerequisite::Ip,
        NamedField::TpSrc | NamedField::TpDst => MatchPrerequisite::TcpOrUdp,
        NamedField::TcpSrc | NamedField::TcpDst => MatchPrerequisite::Tcp,
        NamedField::UdpSrc | NamedField::UdpDst => MatchPrerequisite::Udp,
        NamedField::IcmpType | NamedField::IcmpCode => MatchPrerequisite::AnyIcmp,
        NamedField::Icmpv6Type | NamedField::Icmpv6Code => MatchPrerequisite::Icmp6,
        _ => MatchPrerequisite::Nothing,
    }
}

fn tag_part_of(field: NamedField) -> TagPart
    ensures { result ≡ values.tag_part_of field }
{
    match field {
        NamedField::VlanVid => TagPart::Identifier,
        NamedField::VlanPcp => TagPart::Priority,
        _ => TagPart::Neither,
    }
}

// Bits of a field of the key, of which those outside the mask are 0.
fn part(field: FieldId, bits: Bits, needs: MatchPrerequisite, tag: TagPart) -> Part
    requires { FitsWidth field bits }
    ensures value { result ≡ values.part field (bits_view bits) needs tag }
    ensures within { IsWithin result }
{
    Part {
        field,
        value: bits.value & bits.mask,
        mask: bits.mask,
        needs,
        tag,
    }
}

// Bits of a named field where they stand in the field of the key.
fn raised(field: NamedField, bits: Bits) -> Bits
    requires { Fits field bits }
    ensures value { bits_view result ≡ values.raised (named field).low (bits_view bits) }
    ensures fits { FitsWidth (named field).field result }
{
    let low = named(field).low;
    Bits {
        value: bits.value << low,
        mask: bits.mask << low,
    }
}

// The bits of the priority of a tag, and that there is a tag.
fn raised_with_tag(bits: Bits) -> Bits
    requires { Fits NamedField.VlanPcp bits }
    ensures value { bits_view result
        ≡ values.with_tag (values.raised (named NamedField.VlanPcp).low (bits_view bits)) }
    ensures fits { FitsWidth FieldId.VlanTci result }
{
    Bits {
        value: (bits.value << 13) + TAG_BIT,
        mask: (bits.mask << 13) + TAG_BIT,
    }
}

// The bits of nw_tos that aren't ECN's (RFC 2474).
const DSCP_BITS: u128 = 0xfc;

// The bits of nw_tos that aren't ECN's have to be 0 in a match, which then states the others.
fn dscp_of(bits: Bits) -> Option<Bits>
    requires { Fits NamedField.NwTos bits }
    ensures value { option_map bits_view result ≡ values.dscp_of (bits_view bits) }
    ensures fits { IfSome result (λ stated. FitsWidth FieldId.NwTos stated) }
{
    if bits.value & DSCP_BITS != bits.value {
        return None;
    }
    Some(Bits {
        value: bits.value,
        mask: DSCP_BITS,
    })
}

// The bits of its field that a named field states in a match.
#[tactic(auto, unfolding(spec_flow_text::specs::Values::bits_stated))]
fn bits_stated(field: NamedField, bits: Bits) -> Option<Bits>
    requires { Fits field bits }
    ensures value { option_map bits_view result ≡ values.bits_stated field (bits_view bits) }
    ensures fits { IfSome result (λ stated. FitsWidth (named field).field stated) }
{
    match field {
        NamedField::VlanPcp => Some(raised_with_tag(bits)),
        NamedField::NwTos => dscp_of(bits),
        _ => Some(raised(field, bits)),
    }
}

/// What an item of a match of this name and value states.
#[tactic(auto, unfolding(spec_flow_text::specs::Values::field_stated))]
pub fn field_stated(field: NamedField, text: &[u8]) -> Option<Part>
    ensures value { result ≡ values.field_stated field text.now }
    ensures within { IfSome result (λ part. IsWithin part) }
{
    let bits = read_value(field, text)?;
    let stated = bits_stated(field, bits)?;
    Some(part(
        named(field).field,
        stated,
        needs_of(field),
        tag_part_of(field),
    ))
}

// The greatest identifier of a VLAN.
const LAST_VID: u128 = 4095;

// What stands for no tag (OFP_VLAN_NONE of OpenFlow 1.0).
const NO_VLAN: u128 = 0xffff;

fn tag_part(bits: Bits) -> Part
    requires { FitsWidth FieldId.VlanTci bits }
    ensures value { result
        ≡ values.part FieldId.VlanTci (bits_view bits) MatchPrerequisite.Nothing TagPart.Identifier }
    ensures within { IsWithin result }
{
    part(
        FieldId::VlanTci,
        bits,
        MatchPrerequisite::Nothing,
        TagPart::Identifier,
    )
}

/// What `dl_vlan` of this value states: a VLAN of a tagged frame, or that there is no tag.
#[tactic(auto, unfolding(spec_flow_text::specs::Values::vlan_stated))]
pub fn vlan_stated(text: &[u8]) -> Option<Part>
    ensures value { result ≡ values.vlan_stated text.now }
    ensures within { IfSome result (λ part. IsWithin part) }
{
    if let Some(vid) = read_number(text, LAST_VID) {
        return Some(tag_part(Bits {
            value: vid + TAG_BIT,
            mask: LAST_VID + TAG_BIT,
        }));
    }
    let number = read_number(text, NO_VLAN)?;
    if number != NO_VLAN {
        return None;
    }
    Some(tag_part(Bits {
        value: 0,
        mask: 0xffff,
    }))
}

/// The Ethernet type that a shorthand states.
pub fn type_part(shorthand: Shorthand) -> Part
    ensures value { result ≡ values.type_part (type_stated shorthand) }
    ensures within { IsWithin result }
{
    let value = match shorthand {
        Shorthand::Ip | Shorthand::Icmp | Shorthand::Tcp | Shorthand::Udp => IPV4_TYPE,
        Shorthand::Ipv6 | Shorthand::Icmp6 | Shorthand::Tcp6 | Shorthand::Udp6 => IPV6_TYPE,
        Shorthand::Arp => ARP_TYPE,
    };
    let bits = Bits {
        value,
        mask: 0xffff,
    };
    part(
        FieldId::DlType,
        bits,
        MatchPrerequisite::Nothing,
        TagPart::Neither,
    )
}

fn protocol_of(shorthand: Shorthand) -> Option<u128>
    ensures value { result ≡ protocol_stated shorthand }
    ensures fits { IfSome result (λ n. n < 2 ^ 8) }
{
    match shorthand {
        Shorthand::Ip | Shorthand::Ipv6 | Shorthand::Arp => None,
        Shorthand::Icmp => Some(ICMP_PROTOCOL),
        Shorthand::Tcp | Shorthand::Tcp6 => Some(TCP_PROTOCOL),
        Shorthand::Udp | Shorthand::Udp6 => Some(UDP_PROTOCOL),
        Shorthand::Icmp6 => Some(ICMP6_PROTOCOL),
    }
}

/// The protocol of IP that a shorthand states, where it has one.
pub fn protocol_part(shorthand: Shorthand) -> Option<Part>
    ensures value { result ≡ option_map values.protocol_part (protocol_stated shorthand) }
    ensures within { IfSome result (λ part. IsWithin part) }
{
    let bits = Bits {
        value: protocol_of(shorthand)?,
        mask: 0xff,
    };
    Some(part(
        FieldId::NwProto,
        bits,
        MatchPrerequisite::Ip,
        TagPart::Neither,
    ))
}
