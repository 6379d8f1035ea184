ghost use Rattle.std.specs.Prelude.{◌≡◌, false, IfSome, IsNone};
ghost use Rattle.spec_keys.specs.Keys.{are_zero, joined, none, IsKey};
ghost use Rattle.ovs_fields.specs.Packed.{bits};
ghost use Rattle.masked_map.specs.Compact.{list_of, wide_fields};

use crate::field_list::with_compact;
use crate::fields::CompactFields;
use ovs_fields::{FieldId, Mask};

/// A mask without bits of wide fields.
#[derive(Clone, Copy)]
pub(crate) struct CompactMask {
    pub(crate) fields: CompactFields,
    pub(crate) ghost within: { IsKey (list_of fields) },
}

macro_rules! add_each {
    (($fields:ident, $mask:ident) $([$variant:ident $name:ident $type:ident])*) => {{
        $($mask.add(FieldId::$variant, $fields.$name as u128);)*
    }};
}

impl CompactMask {
    /// The bits of a mask, if the wide fields have none.
    pub(crate) fn of(mask: &Mask) -> Option<CompactMask>
        ensures some { IfSome result (λ m. list_of m.fields ≡ bits mask.now) }
        ensures none { IsNone result → are_zero wide_fields (bits mask.now) ≡ false }
    {
        let fields = CompactFields::of_mask(mask)?;
        Some(CompactMask { fields })
    }

    /// No bits.
    pub(crate) fn none() -> CompactMask
        ensures { list_of result.fields ≡ none }
    {
        CompactMask {
            fields: CompactFields::zero(),
        }
    }

    /// The bits of either mask.
    #[inline]
    pub(crate) fn or(&self, other: &CompactMask) -> CompactMask
        ensures { list_of result.fields
            ≡ joined (list_of self.now.fields) (list_of other.now.fields) }
    {
        CompactMask {
            fields: self.fields.or(&other.fields),
        }
    }

    /// Adds its bits to another mask.
    pub(crate) fn add_to(&self, mask: &mut Mask)
        ensures { bits mask.new ≡ joined (bits mask.old) (list_of self.now.fields) }
    {
        let fields = &self.fields;
        with_compact!(add_each(fields, mask))
    }
}
