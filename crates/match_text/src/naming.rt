ghost use Rattle.std.specs.Prelude.{◌≡◌};
ghost use Rattle.spec_keys.specs.Fields.{width_of};
ghost use Rattle.spec_actions.specs.Named.{named};
ghost use Rattle.spec_flow_text.specs.Printed as printed;

use field_text::{Shorthand, own_name};
use named_fields::NamedField;
use ovs_fields::FieldId;

fn name_after_arp(field: FieldId) -> NamedField
    ensures name { result ≡ printed.name_after_arp field }
    ensures wide { (named result).bits ≡ width_of field }
{
    match field {
        FieldId::NwSrc => NamedField::ArpSpa,
        FieldId::NwDst => NamedField::ArpTpa,
        FieldId::NwProto => NamedField::ArpOp,
        _ => own_name(field),
    }
}

fn name_after_icmp(field: FieldId) -> NamedField
    ensures name { result ≡ printed.name_after_icmp field }
    ensures wide { (named result).bits ≡ width_of field }
{
    match field {
        FieldId::TpSrc => NamedField::IcmpType,
        FieldId::TpDst => NamedField::IcmpCode,
        _ => own_name(field),
    }
}

/// The name of a field after a shorthand, if there is one.
pub fn name_after(shorthand: Option<Shorthand>, field: FieldId) -> NamedField
    ensures name { result ≡ printed.name_after shorthand field }
    ensures wide { (named result).bits ≡ width_of field }
{
    match shorthand {
        Some(Shorthand::Arp) => name_after_arp(field),
        Some(Shorthand::Icmp | Shorthand::Icmp6) => name_after_icmp(field),
        _ => own_name(field),
    }
}

/// Whether a shorthand says the protocol too.
pub fn says_protocol(shorthand: Option<Shorthand>) -> bool
    ensures { result ≡ printed.says_protocol shorthand }
{
    match shorthand {
        None | Some(Shorthand::Ip | Shorthand::Ipv6 | Shorthand::Arp) => false,
        Some(_) => true,
    }
}
