//! A field of a key, and the key that all others begin with.
ghost use Rattle.std.specs.Prelude.{◌≡◌, ◌^◌, ◌<◌};
ghost use Rattle.spec_keys.specs.declared.field_id.FieldId.TheVariants.{InPort};
ghost use Rattle.spec_keys.specs.Fields.{width_of};
ghost use Rattle.spec_keys.specs.Keys.{none};
ghost use Rattle.spec_frames.specs.Key.{with_value};
ghost use Rattle.frame_keys.specs.Folded.{folded};

use ovs_fields::{FieldId, Key};

/// Gives a field a number that is within its width.
#[inline]
#[tactic(auto, unfolding(crate::specs::Folded::folded))]
pub(crate) fn set_field(key: &mut Key, field: FieldId, value: u128)
    requires { value < 2 ^ width_of field }
    ensures { folded key.new ≡ with_value field value (folded key.old) }
{
    key.set(field, value);
}

/// The key that has the port alone.
#[inline]
#[tactic(auto, unfolding(crate::specs::Folded::folded))]
pub(crate) fn key_at(port: u16) -> Key
    ensures { folded result ≡ with_value InPort port none }
{
    let mut key = Key::zero();
    key.set(FieldId::InPort, u128::from(port));
    key
}
