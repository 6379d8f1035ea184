ghost use Rattle.std.specs.Prelude.{◌≡◌, ◌==◌};
ghost use Rattle.spec_keys.specs.declared.field_id.FieldId.TheVariants as field;
ghost use Rattle.spec_keys.specs.Keys.{value_of};
ghost use Rattle.spec_xlate.specs.Needs.{is_ip, is_unfragmented, is_protocol, is_met};
ghost use Rattle.ovs_fields.specs.Packed.{numbers};

use crate::tags::is_tagged;
use ovs_fields::{FieldId, Key};
use spec_actions::Prerequisite;

// Ethernet types (IEEE 802 Numbers of IANA).
const ARP_TYPE: u128 = 0x0806;

const IPV4_TYPE: u128 = 0x0800;

const IPV6_TYPE: u128 = 0x86dd;

// Protocols of IP (Protocol Numbers of IANA).
const ICMP_PROTOCOL: u128 = 1;

const TCP_PROTOCOL: u128 = 6;

const UDP_PROTOCOL: u128 = 17;

const ICMP6_PROTOCOL: u128 = 58;

/// Whether a packet of a key is what a write needs it to be (ovs-fields(7), "Prerequisites"). TCP, UDP and either of
/// them also need that it is no fragment.
#[tactic(auto, unfolding(spec_xlate::specs::Needs::is_met))]
pub fn holds(key: &Key, needs: Prerequisite) -> bool
    ensures { result ≡ is_met needs (numbers key.now) }
{
    match needs {
        Prerequisite::Nothing => true,
        Prerequisite::Ipv4 => has_type(key, IPV4_TYPE),
        Prerequisite::Ipv6 => has_type(key, IPV6_TYPE),
        Prerequisite::Ip => is_ip(key),
        Prerequisite::Arp => has_type(key, ARP_TYPE),
        Prerequisite::Tcp => is_ip(key) && has_protocol(key, TCP_PROTOCOL) && is_unfragmented(key),
        Prerequisite::Udp => is_ip(key) && has_protocol(key, UDP_PROTOCOL) && is_unfragmented(key),
        Prerequisite::TcpOrUdp => {
            is_ip(key)
                && (has_protocol(key, TCP_PROTOCOL) || has_protocol(key, UDP_PROTOCOL))
                && is_unfragmented(key)
        }
        Prerequisite::Icmp => has_type(key, IPV4_TYPE) && has_protocol(key, ICMP_PROTOCOL),
        Prerequisite::Icmp6 => has_type(key, IPV6_TYPE) && has_protocol(key, ICMP6_PROTOCOL),
        Prerequisite::Tag => is_tagged(key),
    }
}

fn has_type(key: &Key, ethernet_type: u128) -> bool
    ensures { result ≡ (value_of (numbers key.now) field.DlType == ethernet_type) }
{
    key.get(FieldId::DlType) == ethernet_type
}

fn has_protocol(key: &Key, protocol: u128) -> bool
    ensures { result ≡ is_protocol protocol (numbers key.now) }
{
    key.get(FieldId::NwProto) == protocol
}

fn is_ip(key: &Key) -> bool
    ensures { result ≡ is_ip (numbers key.now) }
{
    has_type(key, IPV4_TYPE) || has_type(key, IPV6_TYPE)
}

fn is_unfragmented(key: &Key) -> bool
    ensures { result ≡ is_unfragmented (numbers key.now) }
{
    key.get(FieldId::IpFrag) == 0
}
