//! Bits of fields added to a mask.
ghost use Rattle.std.specs.Prelude.{◌≡◌, ◌^◌, ◌<◌, map};
ghost use Rattle.spec_base.specs.Bits.{all_bits};
ghost use Rattle.spec_keys.specs.Fields.{width_of};
ghost use Rattle.spec_keys.specs.Keys.{joined};
ghost use Rattle.spec_xlate.specs.Tags.{tag_fields};
ghost use Rattle.spec_xlate.specs.Lookup.{added};
ghost use Rattle.spec_xlate.specs.Consulted.{whole, bits_read, bits_written};
ghost use Rattle.ovs_fields.specs.Packed.{bits};

use named_fields::low_bits;
use ovs_fields::{FieldId, Mask, width};

/// The fields in which a key holds its tags, the outer one first.
pub(crate) const TAG_FIELDS: [FieldId; 4] = [
    FieldId::VlanTci,
    FieldId::VlanTpid,
    FieldId::VlanTci2,
    FieldId::VlanTpid2,
];

/// All bits of a field.
fn all_bits(field: FieldId) -> u128
    ensures all { result ≡ all_bits (width_of field) }
    ensures within { result < 2 ^ width_of field }
{
    low_bits(width(field))
}

/// Adds all bits of a field.
pub(crate) fn consult_whole(mask: &mut Mask, field: FieldId)
    ensures { bits mask.new ≡ joined (bits mask.old) (whole field) }
{
    mask.add(field, all_bits(field));
}

/// Adds all bits of these fields.
pub(crate) fn consult_fields(mask: &mut Mask, fields: &[FieldId])
    ensures { bits mask.new ≡ added (bits mask.old) (map whole fields.now) }
{
    'fields: for field in fields {
        consult_whole(mask, *field);
    }
}

/// Adds the fields in which a key holds its tags.
pub(crate) fn consult_tags(mask: &mut Mask)
    ensures { bits mask.new ≡ added (bits mask.old) (map whole tag_fields) }
{
    consult_fields(mask, &TAG_FIELDS);
}

/// Adds bits of a field that are read. A tag is read whole.
pub(crate) fn consult_read(mask: &mut Mask, field: FieldId, read: u128)
    requires { read < 2 ^ width_of field }
    ensures { bits mask.new ≡ added (bits mask.old) (bits_read field read) }
{
    if read == 0 {
        return;
    }
    match field {
        FieldId::VlanTci => consult_whole(mask, field),
        _ => mask.add(field, read),
    }
}

/// Adds bits of a field that are written. The tags are written as a whole.
pub(crate) fn consult_written(mask: &mut Mask, field: FieldId, written: u128)
    requires { written < 2 ^ width_of field }
    ensures { bits mask.new ≡ added (bits mask.old) (bits_written field written) }
{
    if written == 0 {
        return;
    }
    match field {
        FieldId::VlanTci => consult_tags(mask),
        _ => mask.add(field, written),
    }
}
