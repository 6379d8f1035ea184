ghost use Rattle.std.specs.Prelude.{◌≡◌, ◌^◌, ◌<◌};
ghost use Rattle.spec_keys.specs.Keys.{IsKey};
ghost use Rattle.ovs_fields.specs.Lists.{list_of};

use crate::feed::feed;
use crate::fields::Fields;
use crate::{FieldId, Key};
use std::hash::{Hash, Hasher};

/// A mask of keys: which bits of each field count.
///
/// Contracts see its bits as the list `bits m`, and `m.is_key` says that they are within the fields' widths.
#[derive(Clone, Copy)]
pub struct Mask {
    pub(crate) fields: Fields,
    pub ghost is_key: { IsKey (list_of fields) },
}

impl Mask {
    ghost use Rattle.spec_keys.specs.Fields.{place_of, width_of};
    ghost use Rattle.spec_keys.specs.Keys.{none, value_of, joined, only_at};
    ghost use Rattle.ovs_fields.specs.Packed.{bits};

    /// The mask with no bits.
    pub fn none() -> Mask
        ensures { bits result ≡ none }
    {
        Mask {
            fields: Fields::zero(),
        }
    }

    /// The bits of a field that count.
    pub fn get(&self, field: FieldId) -> u128
        ensures value { result ≡ value_of (bits self.now) field }
        ensures within { result < 2 ^ width_of field }
    {
        self.fields.get(field)
    }

    /// Adds bits to those of a field, within its width. The other fields stay.
    pub fn add(&mut self, field: FieldId, more: u128)
        requires { more < 2 ^ width_of field }
        ensures { bits self.new ≡ joined (bits self.old) (only_at (place_of field) more) }
    {
        let both = self.fields.get(field) | more;
        self.fields.set(field, both);
    }
}

impl PartialEq for Mask {
    ghost use Rattle.std.specs.Prelude.{◌↔◌, IsTrue};
    ghost use Rattle.spec_keys.specs.Keys.{same};
    ghost use Rattle.ovs_fields.specs.Packed.{bits};
    ghost use Rattle.ovs_fields.specs.Equality.{same_partial_equivalence};

    ghost eq = { λ a b. same (bits a) (bits b) };

    ghost laws = { same_partial_equivalence bits };

    fn eq(&self, other: &Mask) -> bool
        ensures same { result ≡ same (bits self.now) (bits other.now) }
        ensures equal { IsTrue result ↔ (bits self.now ≡ bits other.now) }
    {
        self.fields.is_same(&other.fields)
    }
}

impl Eq for Mask {
    ghost use Rattle.ovs_fields.specs.Packed.{bits};
    ghost use Rattle.ovs_fields.specs.Equality.{same_equivalence};

    ghost laws = { same_equivalence bits };
}

impl Hash for Mask {
    ghost use Rattle.ovs_fields.specs.Hashing.{mask_writes, mask_writes_alike};

    ghost hash_input = { mask_writes };

    ghost respects_eq = { mask_writes_alike };

    fn hash<H: Hasher>(&self, state: &mut H) {
        feed(&self.fields, state);
    }
}

const _: () = prove!(size_of::<Mask>() == size_of::<Key>());
