ghost use Rattle.std.specs.Prelude.{◌≤◌};
ghost use Rattle.spec_keys.specs.Fields.{width_of};
ghost use Rattle.ovs_fields.specs.Packed.{bits};

use crate::prefix::prefix_length;
use ovs_fields::{FieldId, Mask, width};

/// The prefix of a field that a mask has.
#[derive(Clone, Copy)]
pub(crate) struct FieldPrefix {
    pub(crate) field: FieldId,
    /// In bits, and 0 where the mask has none.
    pub(crate) length: u32,
    pub ghost within: { length ≤ width_of field },
}

impl FieldPrefix {
    ghost use Rattle.address_prefixes.specs.OfField.{IsPrefixOf};

    #[tactic(auto, using(crate::proofs::Widths::width_within))]
    pub(crate) fn new(field: FieldId, mask: &Mask) -> FieldPrefix
        ensures { IsPrefixOf result field (bits mask.now) }
    {
        FieldPrefix {
            field,
            length: prefix_length(width(field), mask.get(field)),
        }
    }
}
