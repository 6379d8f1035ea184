ghost use Rattle.std.specs.Prelude.{◌≡◌, ◌^◌, ◌<◌, slice_set};
ghost use Rattle.spec_keys.specs.Keys.{IsKey};
ghost use Rattle.ovs_fields.specs.Lists.{list_of};

use crate::FieldId;
use crate::feed::feed;
use crate::fields::Fields;
use std::hash::{Hash, Hasher};

/// The key of a packet: a number for each field, within the field's width.
///
/// Contracts see its numbers as the list `numbers k`, and `k.is_key` says that they are within their widths.
#[derive(Clone, Copy)]
pub struct Key {
    pub(crate) fields: Fields,
    pub ghost is_key: { IsKey (list_of fields) },
}

impl Key {
    ghost use Rattle.spec_keys.specs.Fields.{place_of, width_of};
    ghost use Rattle.spec_keys.specs.Keys.{none, value_of};
    ghost use Rattle.ovs_fields.specs.Packed.{numbers};

    /// The key with 0 in every field.
    pub fn zero() -> Key
        ensures { numbers result ≡ none }
    {
        Key {
            fields: Fields::zero(),
        }
    }

    /// The number of a field.
    pub fn get(&self, field: FieldId) -> u128
        ensures value { result ≡ value_of (numbers self.now) field }
        ensures within { result < 2 ^ width_of field }
    {
        self.fields.get(field)
    }

    /// Gives a field a number that is within its width. The other fields stay.
    pub fn set(&mut self, field: FieldId, value: u128)
        requires { value < 2 ^ width_of field }
        ensures { numbers self.new ≡ slice_set (numbers self.old) (place_of field) value }
    {
        self.fields.set(field, value);
    }
}

impl PartialEq for Key {
    ghost use Rattle.std.specs.Prelude.{◌↔◌, IsTrue};
    ghost use Rattle.spec_keys.specs.Keys.{same};
    ghost use Rattle.ovs_fields.specs.Packed.{numbers};
    ghost use Rattle.ovs_fields.specs.Equality.{same_partial_equivalence};

    ghost eq = { λ a b. same (numbers a) (numbers b) };

    ghost laws = { same_partial_equivalence numbers };

    fn eq(&self, other: &Key) -> bool
        ensures same { result ≡ same (numbers self.now) (numbers other.now) }
        ensures equal { IsTrue result ↔ (numbers self.now ≡ numbers other.now) }
    {
        self.fields.is_same(&other.fields)
    }
}

impl Eq for Key {
    ghost use Rattle.ovs_fields.specs.Packed.{numbers};
    ghost use Rattle.ovs_fields.specs.Equality.{same_equivalence};

    ghost laws = { same_equivalence numbers };
}

impl Hash for Key {
    ghost use Rattle.ovs_fields.specs.Hashing.{key_writes, key_writes_alike};

    ghost hash_input = { key_writes };

    ghost respects_eq = { key_writes_alike };

    fn hash<H: Hasher>(&self, state: &mut H) {
        feed(&self.fields, state);
    }
}

// Two and three quarters lines of a processor's cache.
const _: () = prove!(size_of::<Key>() == 176);
