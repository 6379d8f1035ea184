ghost use Rattle.std.specs.Prelude.{◌≡◌, ◌<◌, All, filter, fold, Option};
ghost use Rattle.std.specs.Option.{option_map};
ghost use Rattle.std.specs.List.{find};
ghost use Rattle.spec_keys.specs.Keys.{none};
ghost use Rattle.spec_flow_text.specs.declared.part.Part.{Part as StatedPart};
ghost use Rattle.spec_flow_text.specs.Values as values;
ghost use Rattle.spec_flow_text.specs.Matches as matches;
ghost use Rattle.rule_tables.specs.Views.{match_view};
ghost use Rattle.field_text.specs.Views.{IsWithin};

use crate::stating::place_of;
use field_text::{
    ARP_TYPE, ICMP_PROTOCOL, ICMP6_PROTOCOL, IPV4_TYPE, IPV6_TYPE, MatchPrerequisite, Part,
    TCP_PROTOCOL, UDP_PROTOCOL,
};
use ovs_fields::{FieldId, Key, Mask};
use rule_tables::Match;

fn is(number: u128, stated: Option<u128>) -> bool
    ensures { result ≡ values.is number stated }
{
    stated == Some(number)
}

// Whether the Ethernet type that a flow states, if it does, is one that is needed.
fn type_meets(needs: MatchPrerequisite, ethernet_type: Option<u128>) -> bool
    ensures { result ≡ values.type_meets needs ethernet_type }
{
    match needs {
        MatchPrerequisite::Nothing => true,
        MatchPrerequisite::Ipv6 | MatchPrerequisite::Icmp6 => is(IPV6_TYPE, ethernet_type),
        MatchPrerequisite::Arp => is(ARP_TYPE, ethernet_type),
        MatchPrerequisite::Ipv4OrArp => is(IPV4_TYPE, ethernet_type) | is(ARP_TYPE, ethernet_type),
        MatchPrerequisite::IpOrArp => is(IPV4_TYPE, ethernet_type)
            | is(IPV6_TYPE, ethernet_type)
            | is(ARP_TYPE, ethernet_type),
        MatchPrerequisite::Ip
        | MatchPrerequisite::Tcp
        | MatchPrerequisite::Udp
        | MatchPrerequisite::TcpOrUdp
        | MatchPrerequisite::AnyIcmp => is(IPV4_TYPE, ethernet_type) | is(IPV6_TYPE, ethernet_type),
    }
}

// Whether that type and the protocol that it states are.
fn is_met(needs: MatchPrerequisite, ethernet_type: Option<u128>, protocol: Option<u128>) -> bool
    ensures { result ≡ values.is_met needs ethernet_type protocol }
{
    match needs {
        MatchPrerequisite::Tcp => type_meets(needs, ethernet_type) & is(TCP_PROTOCOL, protocol),
        MatchPrerequisite::Udp => type_meets(needs, ethernet_type) & is(UDP_PROTOCOL, protocol),
        MatchPrerequisite::TcpOrUdp => type_meets(needs, ethernet_type)
            & (is(TCP_PROTOCOL, protocol) | is(UDP_PROTOCOL, protocol)),
        MatchPrerequisite::AnyIcmp => is(IPV4_TYPE, ethernet_type) & is(ICMP_PROTOCOL, protocol)
            | is(IPV6_TYPE, ethernet_type) & is(ICMP6_PROTOCOL, protocol),
        MatchPrerequisite::Icmp6 => is(IPV6_TYPE, ethernet_type) & is(ICMP6_PROTOCOL, protocol),
        _ => type_meets(needs, ethernet_type),
    }
}

fn is_of(field: FieldId, part: &Part) -> bool
    ensures { result ≡ matches.is_of field part.now }
{
    place_of(part.field) == place_of(field)
}

fn stated_type(parts: &[Part]) -> Option<u128>
    ensures { result ≡ matches.number_of FieldId.DlType parts.now }
{
    parts
        .iter()
        .find(|part| is_of(FieldId::DlType, part))
        .map(|part| part.value)
}

// The protocol that is stated by a part whose need of an Ethernet type is met.
fn kept_protocol(parts: &[Part], ethernet_type: Option<u128>) -> Option<u128>
    ensures { result ≡ matches.number_of FieldId.NwProto
        (filter (λ (p : StatedPart). values.type_meets p.needs ethernet_type) parts.now) }
{
    parts
        .iter()
        .filter(|part| type_meets(part.needs, ethernet_type))
        .find(|part| is_of(FieldId::NwProto, part))
        .map(|part| part.value)
}

// The match that states the parts whose needs are met by a type and a protocol.
fn match_of_met(parts: &[Part], ethernet_type: Option<u128>, protocol: Option<u128>) -> Match
    requires { All IsWithin parts.now }
    ensures { match_view result ≡ matches.match_of
        (filter (λ (part : StatedPart). values.is_met part.needs ethernet_type protocol) parts.now) }
{
    let mut key = Key::zero();
    let mut mask = Mask::none();
    'parts: for part in parts {
        if !is_met(part.needs, ethernet_type, protocol) {
            continue;
        }
        key.set(part.field, key.get(part.field) | part.value);
        mask.add(part.field, part.mask);
    }
    Match { key, mask }
}

/// The match of what a flow states, without what has no place in the packets that it is about.
#[tactic(auto, unfolding(spec_flow_text::specs::Matches::kept))]
pub fn kept_match(parts: &[Part]) -> Match
    requires { All IsWithin parts.now }
    ensures { match_view result ≡ matches.match_of (matches.kept parts.now) }
{
    let ethernet_type = stated_type(parts);
    let protocol = kept_protocol(parts, ethernet_type);
    match_of_met(parts, ethernet_type, protocol)
}
