//! All bits of a packet.
ghost use Rattle.std.specs.Prelude.{◌≡◌, ℕ, List, map, IsTrue};
ghost use Rattle.spec_keys.specs.Keys.{agree, joined, IsClean};
ghost use Rattle.spec_xlate.specs.Lookup.{added};
ghost use Rattle.spec_xlate.specs.Consulted.{whole};
ghost use Rattle.spec_tools.specs.Classes.{IsFrameKey};
ghost use Rattle.ovs_fields.specs.Packed.{bits};

use named_fields::low_bits;
use ovs_fields::{FieldId, Mask, all_fields, width};
use xlate_pipeline::without_registers;

/// Adds all bits of a field.
pub(crate) fn add_field(mask: &mut Mask, field: FieldId)
    ensures { bits mask.new ≡ joined (bits mask.old) (whole field) }
{
    mask.add(field, low_bits(width(field)));
}

/// Adds all bits of fields.
pub(crate) fn add_whole(mask: &mut Mask, fields: &[FieldId])
    ensures { bits mask.new ≡ added (bits mask.old) (map whole fields.now) }
{
    'fields: for field in fields {
        add_field(mask, *field);
    }
}

/// All bits of the keys of frames: those that have them alike are one key.
pub(crate) fn frame_bits() -> Mask
    ensures one { (a b : List ℕ) → IsFrameKey a → IsFrameKey b → IsTrue (agree b a (bits result)) → b ≡ a }
    ensures clean { IsClean (bits result) }
{
    let mut mask = Mask::none();
    add_whole(&mut mask, all_fields());
    without_registers(&mask)
}
