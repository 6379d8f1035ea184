ghost use Rattle.std.specs.Prelude.{◌≡◌};
ghost use Rattle.spec_keys.specs.Fields.{width_of};
ghost use Rattle.spec_actions.specs.Named.{named};
ghost use Rattle.spec_flow_text.specs.Printed as printed;

use ovs_fields::FieldId;
use spec_actions::NamedField;

/// The name of a field of the key by itself: it stands for all bits of the field.
pub fn own_name(field: FieldId) -> NamedField
    ensures name { result ≡ printed.own_name field }
    ensures wide { (named result).bits ≡ width_of field }
{
    match field {
        FieldId::InPort => NamedField::InPort,
        FieldId::Metadata => NamedField::Metadata,
        FieldId::Reg0 => NamedField::Reg0,
        FieldId::Reg1 => NamedField::Reg1,
        FieldId::Reg2 => NamedField::Reg2,
        FieldId::Reg3 => NamedField::Reg3,
        FieldId::Reg4 => NamedField::Reg4,
        FieldId::Reg5 => NamedField::Reg5,
        FieldId::Reg6 => NamedField::Reg6,
        FieldId::Reg7 => NamedField::Reg7,
        FieldId::Reg8 => NamedField::Reg8,
        FieldId::Reg9 => NamedField::Reg9,
        FieldId::Reg10 => NamedField::Reg10,
        FieldId::Reg11 => NamedField::Reg11,
        FieldId::Reg12 => NamedField::Reg12,
        FieldId::Reg13 => NamedField::Reg13,
        FieldId::Reg14 => NamedField::Reg14,
        FieldId::Reg15 => NamedField::Reg15,
        FieldId::DlSrc => NamedField::DlSrc,
        FieldId::DlDst => NamedField::DlDst,
        FieldId::DlType => NamedField::DlType,
        FieldId::VlanTci => NamedField::VlanTci,
        FieldId::NwSrc => NamedField::NwSrc,
        FieldId::NwDst => NamedField::NwDst,
        FieldId::Ipv6Src => NamedField::Ipv6Src,
        FieldId::Ipv6Dst => NamedField::Ipv6Dst,
        FieldId::NwProto => NamedField::NwProto,
        FieldId::NwTos => NamedField::NwTos,
        FieldId::NwTtl => NamedField::NwTtl,
        FieldId::IpFrag => NamedField::IpFrag,
        FieldId::ArpSha => NamedField::ArpSha,
        FieldId::ArpTha => NamedField::ArpTha,
        FieldId::TpSrc => NamedField::TpSrc,
        FieldId::TpDst => NamedField::TpDst,
        FieldId::VlanTpid => NamedField::VlanTpid,
        FieldId::VlanTci2 => NamedField::VlanTci2,
        FieldId::VlanTpid2 => NamedField::VlanTpid2,
    }
}
