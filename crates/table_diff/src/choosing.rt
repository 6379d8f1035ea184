//! Which bits tell a packet apart from another. Whether bits decide is checked, so nothing is proved of the choice.

use crate::telling::is_told;
use ovs_fields::{FieldId, Key, Mask, agree, or};
use rule_tables::Match;

/// The fields, those first by which rules differ most.
static ORDER: [FieldId; 20] = [
    FieldId::InPort,
    FieldId::DlType,
    FieldId::VlanTci,
    FieldId::NwProto,
    FieldId::NwDst,
    FieldId::NwSrc,
    FieldId::Ipv6Dst,
    FieldId::Ipv6Src,
    FieldId::TpDst,
    FieldId::TpSrc,
    FieldId::DlDst,
    FieldId::DlSrc,
    FieldId::NwTos,
    FieldId::NwTtl,
    FieldId::IpFrag,
    FieldId::ArpSha,
    FieldId::ArpTha,
    FieldId::VlanTpid,
    FieldId::VlanTci2,
    FieldId::VlanTpid2,
];

/// A number with all bits below its most significant one.
pub(crate) fn filled(number: u128) -> u128 {
    let number = number | number >> 1;
    let number = number | number >> 2;
    let number = number | number >> 4;
    let number = number | number >> 8;
    let number = number | number >> 16;
    let number = number | number >> 32;
    number | number >> 64
}

/// Of what a match states of a field, a bit in which a packet differs: the most significant one, and of an address
/// those before it too, so that what comes of it are prefixes.
fn chosen(field: FieldId, stated: u128, differing: u128) -> u128 {
    let low = filled(differing) >> 1;
    match field {
        FieldId::NwSrc | FieldId::NwDst | FieldId::Ipv6Src | FieldId::Ipv6Dst => stated & !low,
        _ => differing & !low,
    }
}

/// Adds one bit in which a packet differs from another, of those that are stated, or more.
pub(crate) fn add_difference(mask: &mut Mask, key: &Key, other: &Key, stated: &Mask) {
    for field in &ORDER {
        let bits = stated.get(*field);
        let differing = (key.get(*field) ^ other.get(*field)) & bits;
        if differing != 0 {
            mask.add(*field, chosen(*field, bits, differing) & bits);
            return;
        }
    }
    // In registers alone: all that is stated.
    *mask = or(mask, stated);
}

/// Adds bits that decide whether a packet is one that a match speaks of.
pub(crate) fn add_match(mask: &mut Mask, key: &Key, matching: &Match) {
    if is_told(mask, key, matching) {
        return;
    }
    if agree(key, &matching.key, &matching.mask) {
        *mask = or(mask, &matching.mask);
    } else {
        add_difference(mask, key, &matching.key, &matching.mask);
    }
}
