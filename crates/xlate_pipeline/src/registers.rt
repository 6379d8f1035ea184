ghost use Rattle.std.specs.Prelude.{◌≡◌};
ghost use Rattle.spec_keys.specs.Fields.{register_fields};
ghost use Rattle.spec_keys.specs.Keys.{none};
ghost use Rattle.spec_xlate.specs.Consulted.{without};
ghost use Rattle.ovs_fields.specs.Packed.{bits};
ghost use Rattle.xlate_pipeline.specs.Parts.{with_part};

use ovs_fields::{FieldId, Mask};

/// The fields that frames carry, and the ingress port: all but metadata and the registers.
const PACKET_FIELDS: [FieldId; 20] = [
    FieldId::InPort,
    FieldId::DlSrc,
    FieldId::DlDst,
    FieldId::DlType,
    FieldId::VlanTci,
    FieldId::NwSrc,
    FieldId::NwDst,
    FieldId::Ipv6Src,
    FieldId::Ipv6Dst,
    FieldId::NwProto,
    FieldId::NwTos,
    FieldId::NwTtl,
    FieldId::IpFrag,
    FieldId::ArpSha,
    FieldId::ArpTha,
    FieldId::TpSrc,
    FieldId::TpDst,
    FieldId::VlanTpid,
    FieldId::VlanTci2,
    FieldId::VlanTpid2,
];

/// A mask without metadata and the registers.
pub fn without_registers(mask: &Mask) -> Mask
    ensures { bits result ≡ without register_fields (bits mask.now) }
{
    part_of(mask, &PACKET_FIELDS)
}

/// The bits that a mask has of these fields.
fn part_of(mask: &Mask, fields: &[FieldId]) -> Mask
    ensures { bits result ≡ with_part (bits mask.now) fields.now none }
{
    let mut part = Mask::none();
    'fields: for field in fields {
        part.add(*field, mask.get(*field));
    }
    part
}
