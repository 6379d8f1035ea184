ghost use Rattle.std.specs.Prelude.{◌≡◌, ◌<◌, ◌^◌, ◌++◌, [], Option, Some, None, IfSome};
ghost use Rattle.spec_keys.specs.Fields.{width_of};
ghost use Rattle.spec_actions.specs.Named.{named};
ghost use Rattle.spec_flow_text.specs.Printed as printed;
ghost use Rattle.rule_tables.specs.Views.{match_view};
ghost use Rattle.field_text.specs.Views.{bits_view, Fits, FitsWidth};
ghost use Rattle.match_text.specs.Shown.{item_of, IsFit};

use crate::naming::{name_after, says_protocol};
use crate::shown::Shown;
use field_text::{
    ARP_TYPE, Bits, ICMP_PROTOCOL, ICMP6_PROTOCOL, IPV4_TYPE, IPV6_TYPE, Shorthand, TCP_PROTOCOL,
    UDP_PROTOCOL, within_mask,
};
use named_fields::NamedField;
use ovs_fields::FieldId;
use rule_tables::Match;

// What a match states of a field.
fn bits_of(m: &Match, field: FieldId) -> Bits
    ensures bits { bits_view result ≡ printed.bits_of (match_view m.now) field }
    ensures fits { FitsWidth field result }
{
    Bits {
        value: m.key.get(field),
        mask: m.mask.get(field),
    }
}

// The shorthand of IPv4 with a protocol, if that is stated as a whole.
fn shorthand_of_ipv4(is_stated: bool, protocol: u128) -> Shorthand
    ensures { result ≡ printed.shorthand_of_ipv4 is_stated protocol }
{
    if is_stated && protocol == ICMP_PROTOCOL {
        Shorthand::Icmp
    } else if is_stated && protocol == TCP_PROTOCOL {
        Shorthand::Tcp
    } else if is_stated && protocol == UDP_PROTOCOL {
        Shorthand::Udp
    } else {
        Shorthand::Ip
    }
}

fn shorthand_of_ipv6(is_stated: bool, protocol: u128) -> Shorthand
    ensures { result ≡ printed.shorthand_of_ipv6 is_stated protocol }
{
    if is_stated && protocol == ICMP6_PROTOCOL {
        Shorthand::Icmp6
    } else if is_stated && protocol == TCP_PROTOCOL {
        Shorthand::Tcp6
    } else if is_stated && protocol == UDP_PROTOCOL {
        Shorthand::Udp6
    } else {
        Shorthand::Ipv6
    }
}

fn shorthand_of_type(ethernet_type: u128, is_stated: bool, protocol: u128) -> Option<Shorthand>
    ensures { result ≡ printed.shorthand_of_type ethernet_type is_stated protocol }
{
    if ethernet_type == ARP_TYPE {
        Some(Shorthand::Arp)
    } else if ethernet_type == IPV4_TYPE {
        Some(shorthand_of_ipv4(is_stated, protocol))
    } else if ethernet_type == IPV6_TYPE {
        Some(shorthand_of_ipv6(is_stated, protocol))
    } else {
        None
    }
}

/// The shorthand of a match, where its type has one.
#[tactic(auto, unfolding(spec_flow_text::specs::Printed::shorthand_of))]
pub fn shorthand_of(m: &Match) -> Option<Shorthand>
    ensures { result ≡ printed.shorthand_of (match_view m.now) }
{
    let kind = bits_of(m, FieldId::DlType);
    let protocol = bits_of(m, FieldId::NwProto);
    if kind.mask != 0xffff {
        return None;
    }
    shorthand_of_type(kind.value, protocol.mask == 0xff, protocol.value)
}

// Bits are shown where there are any.
fn shown_bits(field: NamedField, bits: Bits) -> Option<Shown>
    requires { Fits field bits }
    ensures item { item_of result ≡ printed.shown_bits field (bits_view bits) }
    ensures fits { IfSome result (λ item. IsFit item) }
{
    if bits.mask == 0 {
        return None;
    }
    Some(Shown::Value(field, within_mask(bits)))
}

// The parts of the type of service (RFC 2474, RFC 3168).
const DSCP_BITS: u128 = 0xfc;

const ECN_BITS: u128 = 0x3;

// None of these bits, or all of them.
fn none_or_all(part: u128, mask: u128) -> bool
    ensures { result ≡ printed.none_or_all part mask }
{
    (part & mask == 0) | (part & mask == part)
}

fn shown_dscp(present: u128, value: u128) -> Option<Shown>
    requires { value < 2 ^ 8 }
    ensures item { item_of result ≡ printed.shown_part NamedField.NwTos present value }
    ensures fits { IfSome result (λ item. IsFit item) }
{
    if present == 0 {
        return None;
    }
    Some(Shown::Value(NamedField::NwTos, Bits { value, mask: 0xff }))
}

fn shown_ecn(present: u128, value: u128) -> Option<Shown>
    requires { value < 2 ^ 2 }
    ensures item { item_of result ≡ printed.shown_part NamedField.NwEcn present value }
    ensures fits { IfSome result (λ item. IsFit item) }
{
    if present == 0 {
        return None;
    }
    Some(Shown::Value(NamedField::NwEcn, Bits { value, mask: 0x3 }))
}

// The type of service in its two parts, where each of them is stated as a whole or not at all.
fn shown_service(bits: Bits) -> (Option<Shown>, Option<Shown>)
    requires { Fits NamedField.NwTos bits }
    ensures items { item_of result.0 ++ item_of result.1 ≡ printed.shown_service (bits_view bits) }
    ensures first_fits { IfSome result.0 (λ item. IsFit item) }
    ensures second_fits { IfSome result.1 (λ item. IsFit item) }
{
    if none_or_all(DSCP_BITS, bits.mask) & none_or_all(ECN_BITS, bits.mask) {
        let dscp = shown_dscp(DSCP_BITS & bits.mask, bits.value & DSCP_BITS);
        let ecn = shown_ecn(ECN_BITS & bits.mask, bits.value & ECN_BITS);
        return (dscp, ecn);
    }
    (shown_bits(NamedField::NwTos, bits), None)
}

fn shown_type(shorthand: Option<Shorthand>, bits: Bits) -> Option<Shown>
    requires { Fits NamedField.DlType bits }
    ensures item { item_of result ≡ printed.shown_type shorthand (bits_view bits) }
    ensures fits { IfSome result (λ item. IsFit item) }
{
    match shorthand {
        None => shown_bits(NamedField::DlType, bits),
        Some(shorthand) => Some(Shown::Short(shorthand)),
    }
}

fn shown_protocol(shorthand: Option<Shorthand>, bits: Bits) -> Option<Shown>
    requires { FitsWidth FieldId.NwProto bits }
    ensures item { item_of result ≡ printed.shown_protocol shorthand (bits_view bits) }
    ensures fits { IfSome result (λ item. IsFit item) }
{
    if says_protocol(shorthand) {
        return None;
    }
    shown_bits(name_after(shorthand, FieldId::NwProto), bits)
}

/// The items of a field: two at most.
pub fn shown_field(
    m: &Match,
    shorthand: Option<Shorthand>,
    field: FieldId,
) -> (Option<Shown>, Option<Shown>)
    ensures items { item_of result.0 ++ item_of result.1
        ≡ printed.shown_field (match_view m.now) shorthand field }
    ensures first_fits { IfSome result.0 (λ item. IsFit item) }
    ensures second_fits { IfSome result.1 (λ item. IsFit item) }
{
    let bits = bits_of(m, field);
    match field {
        FieldId::DlType => (shown_type(shorthand, bits), None),
        FieldId::NwProto => (shown_protocol(shorthand, bits), None),
        FieldId::NwTos => shown_service(bits),
        _ => (shown_bits(name_after(shorthand, field), bits), None),
    }
}
