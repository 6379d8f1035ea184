//! The fields in parts, and whether a match states a bit of a part: most matches state bits of few fields.
ghost use Rattle.std.specs.Prelude.{◌≡◌, [], Option, true};
ghost use Rattle.std.specs.List.{flat_map};
ghost use Rattle.spec_keys.specs.Keys.{are_zero};
ghost use Rattle.spec_flow_text.specs.declared.shorthand.Shorthand.{Shorthand as ShorthandOf};
ghost use Rattle.spec_flow_text.specs.Printed as printed;
ghost use Rattle.ovs_fields.specs.Packed.{bits};
ghost use Rattle.rule_tables.specs.Views.{match_view};
ghost use Rattle.match_text.specs.Parts.{registers, network, others};

use ovs_fields::{FieldId, Mask};
use rule_tables::Match;

// Metadata and the registers, which stand behind the port of arrival.
pub const REGISTERS: [FieldId; 17] = [
    FieldId::Metadata,
    FieldId::Reg0,
    FieldId::Reg1,
    FieldId::Reg2,
    FieldId::Reg3,
    FieldId::Reg4,
    FieldId::Reg5,
    FieldId::Reg6,
    FieldId::Reg7,
    FieldId::Reg8,
    FieldId::Reg9,
    FieldId::Reg10,
    FieldId::Reg11,
    FieldId::Reg12,
    FieldId::Reg13,
    FieldId::Reg14,
    FieldId::Reg15,
];

// The Ethernet header and the outer tag.
pub const ETHERNET: [FieldId; 4] = [
    FieldId::DlSrc,
    FieldId::DlDst,
    FieldId::DlType,
    FieldId::VlanTci,
];

// The IP header.
pub const NETWORK: [FieldId; 8] = [
    FieldId::NwSrc,
    FieldId::NwDst,
    FieldId::Ipv6Src,
    FieldId::Ipv6Dst,
    FieldId::NwProto,
    FieldId::NwTos,
    FieldId::NwTtl,
    FieldId::IpFrag,
];

// Hardware addresses of ARP, ports, and the other parts of tags.
pub const OTHERS: [FieldId; 7] = [
    FieldId::ArpSha,
    FieldId::ArpTha,
    FieldId::TpSrc,
    FieldId::TpDst,
    FieldId::VlanTpid,
    FieldId::VlanTci2,
    FieldId::VlanTpid2,
];

// Whether a mask has no bit of some fields. The test is nested as the list of its contract is.
macro_rules! have_no_bit {
    (($mask:ident)) => { true };
    (($mask:ident) $field:ident $($more:ident)*) => {
        ($mask.get(FieldId::$field) == 0) & (have_no_bit!(($mask) $($more)*))
    };
}

fn registers_have_no_bit(mask: &Mask) -> bool
    ensures { result ≡ are_zero registers (bits mask.now) }
{
    have_no_bit!((mask) Metadata Reg0 Reg1 Reg2 Reg3 Reg4 Reg5 Reg6 Reg7 Reg8 Reg9 Reg10 Reg11 Reg12 Reg13 Reg14 Reg15)
}

fn network_has_no_bit(mask: &Mask) -> bool
    ensures { result ≡ are_zero network (bits mask.now) }
{
    have_no_bit!((mask) NwSrc NwDst Ipv6Src Ipv6Dst NwProto NwTos NwTtl IpFrag)
}

fn others_have_no_bit(mask: &Mask) -> bool
    ensures { result ≡ are_zero others (bits mask.now) }
{
    have_no_bit!((mask) ArpSha ArpTha TpSrc TpDst VlanTpid VlanTci2 VlanTpid2)
}

/// Whether a match states no bit of metadata and the registers.
pub fn registers_are_unstated(m: &Match) -> bool
    ensures { result ≡ true → (s : Option ShorthandOf)
        → flat_map (printed.shown_field (match_view m.now) s) registers ≡ [] }
{
    registers_have_no_bit(&m.mask)
}

/// Whether a match states no bit of the IP header.
pub fn network_is_unstated(m: &Match) -> bool
    ensures { result ≡ true → (s : Option ShorthandOf)
        → flat_map (printed.shown_field (match_view m.now) s) network ≡ [] }
{
    network_has_no_bit(&m.mask)
}

/// Whether a match states no bit of the other fields.
pub fn others_are_unstated(m: &Match) -> bool
    ensures { result ≡ true → (s : Option ShorthandOf)
        → flat_map (printed.shown_field (match_view m.now) s) others ≡ [] }
{
    others_have_no_bit(&m.mask)
}
